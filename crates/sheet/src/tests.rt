// A sheet that is read, over its text and apart from it, and a fault of each layer.
use crate::{OwnedSheet, read, read_borrowed};
use forms::{Items, Layer, Position, QueueName, Report};
use model::Call;
use std::test::Fail;

const HARVEST: &[u8] =
    b"(sheet 1)\n(duty 0 1 4 4)\n(duty 1 2 6 6)\n(remark two duties)\n(queue worth)\n(at 0 (release 0) (request 7 3 10))\n(at 4 (release 1))\n(end 5)\n";

// The fault of a text, and nothing where it is a sheet.
fn fault_of(text: &[u8]) -> Option<Report> {
    read(text).err().map(|fault| fault.report())
}

#[test]
fn a_sheet_is_read(rt: HostRuntime) -> Result<(), Fail> {
    let sheet = read_borrowed(HARVEST)?;
    assert_eq!(rt; sheet.setting().duties().len(), 2);
    assert_eq!(rt; sheet.ticks(), 5);
    let ats = sheet.ats();
    assert!(rt; ats.len() == 2);
    assert_eq!(rt; ats[1].clock, 4);
    let mut calls = ats[0].calls();
    assert!(rt; matches!(calls.next(), Some(Call::Release(0))));
    assert!(rt; matches!(calls.next(), Some(Call::Request(_))));
    assert!(rt; calls.next().is_none());
    let release = Items::new(ats[0].part).nth(2);
    assert!(rt; release.is_some_and(|form| form.bytes == b"(release 0)".as_slice()));
    assert!(rt; release.is_some_and(|form| form.position == Position { line: 6, byte: 80 }));
    Ok(())
}

// The sheet of a text that is gone when the sheet is there.
fn sheet_without_text(rt: &HostRuntime) -> Result<OwnedSheet, Fail> {
    let mut text = Vec::new(rt.alloc());
    text.extend_from_slice(HARVEST)?;
    Ok(read(&text)?)
}

#[test]
fn a_sheet_outlives_its_text(rt: HostRuntime) -> Result<(), Fail> {
    let sheet = sheet_without_text(&rt)?;
    assert_eq!(rt; sheet.setting().duties().len(), 2);
    assert!(rt; matches!(sheet.queue(), QueueName::Worth));
    assert_eq!(rt; sheet.ticks(), 5);
    let ats = sheet.ats();
    assert!(rt; ats.len() == 2);
    assert_eq!(rt; ats[1].clock, 4);
    assert!(rt; ats[1].position == Position { line: 7, byte: 110 });
    assert_eq!(rt; ats[1].length, 18);
    let mut calls = ats[0].in_text(HARVEST).calls();
    assert!(rt; matches!(calls.next(), Some(Call::Release(0))));
    assert!(rt; matches!(calls.next(), Some(Call::Request(_))));
    assert!(rt; calls.next().is_none());
    let cut = ats[1].in_text(&HARVEST[..120]);
    assert!(rt; cut.part.bytes == b"(at 4 (rel".as_slice());
    assert!(rt; ats[1].in_text(b"").part.bytes.is_empty());
    assert_eq!(rt; sheet.into_setting().duties().len(), 2);
    Ok(())
}

#[test]
fn each_layer_has_faults(rt: HostRuntime) -> Result<(), Fail> {
    let first = Position { line: 1, byte: 0 };
    let second = Position { line: 2, byte: 10 };
    let missing = Report::new(16, Layer::Sheet, first);
    assert!(rt; fault_of(b"") == Some(missing));
    let letter = Report::new(12, Layer::Letters, Position { line: 1, byte: 6 });
    assert!(rt; fault_of(b"(sheet\t1)\n") == Some(letter));
    let no_form = Report::new(13, Layer::Forms, second);
    assert!(rt; fault_of(b"(sheet 1)\n\n") == Some(no_form));
    let wrong = Report::new(14, Layer::Forms, first);
    assert!(rt; fault_of(b"(sheet 2)\n") == Some(wrong));
    let large = Report::new(15, Layer::Forms, second);
    assert!(rt; fault_of(b"(sheet 1)\n(end 10001)\n") == Some(large));
    let limits = Report::new(2, Layer::Table, second);
    assert!(rt; fault_of(b"(sheet 1)\n(duty 0 2 1 4)\n") == Some(limits));
    Ok(())
}
