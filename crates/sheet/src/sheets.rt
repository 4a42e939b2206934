// Sheets, and how they are read: the lines of a text enter a draft one after the other, and a draft that all lines have entered is a sheet
// if its end line is there and no at-line is late.
ghost use Rattle.std.specs.Prelude.{◌≡◌, map};
ghost use Rattle.table.specs.Settings.{table_of};
ghost use Rattle.forms.specs.Faults.{failing};
ghost use Rattle.sheet.specs.Ats.{at_of};
ghost use Rattle.sheet.specs.Laws.{SheetsHaveCalls};
ghost use Rattle.sheet.specs.Orders.{so_far};
ghost use Rattle.sheet.specs.Rules.{ByRules};
ghost use Rattle.sheet.specs.Sheets.{completed, finished, late, missing_line, outcome, set_by, sheet_of, too_long};
ghost use Rattle.sheet.specs.Reports.{sheet_report, table_report};

use crate::ats::At;
use crate::drafts::{Draft, Stage};
use crate::faults::{SheetFault, TableFault};
use arrayvec::ArrayVec;
use forms::{Position, QueueName, Reader};
use table::Setting;

// The most bytes that a text may have.
const LONGEST: usize = 32768;

// The most at-lines that a sheet may have.
pub(crate) const MOST_ATS: usize = 256;

/// A sheet that was read, over its text: a table of duties, a queue, at-lines in the order of their lines, and a number of ticks.
#[derive(Drop)]
pub struct Sheet<'a> {
    pub(crate) setting: Setting,
    pub(crate) queue: QueueName,
    pub(crate) ats: ArrayVec<At<'a>, MOST_ATS>,
    pub(crate) ticks: u32,
}

impl<'a> Sheet<'a> {
    /// The table, for its duties and response times: at most sixteen duties, each with a response time.
    pub fn setting(&self) -> &Setting
        ensures { table_of result.now ≡ (set_by self.now).table }
    {
        &self.setting
    }

    /// The table, to start a dispatcher with.
    pub fn into_setting(self) -> Setting
        ensures { table_of result ≡ (set_by self.entry).table }
    {
        self.setting
    }

    /// The queue in which errands wait.
    pub fn queue(&self) -> QueueName
        ensures { result ≡ (set_by self.now).queue }
    {
        self.queue
    }

    /// The at-lines, in the order of their lines: at most 256, each with a clock below the number of ticks.
    pub fn ats(&self) -> &[At<'a>]
        ensures { map at_of result.now ≡ (set_by self.now).ats }
    {
        self.ats.as_slice()
    }

    /// The number of ticks of the run: at most 10,000.
    pub fn ticks(&self) -> u32
        ensures { result ≡ (set_by self.now).ticks }
    {
        self.ticks
    }
}

// No at-line is late: each comes before the end.
fn on_time(ats: &[At], ticks: u32) -> Result<(), SheetFault>
    ensures { failing sheet_report result ≡ late ticks (map at_of ats.now) }
{
    match ats.iter().find(|at| at.clock >= ticks) {
        None => Ok(()),
        Some(at) => Err(SheetFault::OutOfOrder(at.part.position)),
    }
}

// Where a missing line would stand: one past the last line, at the text's length.
fn missing_line(text: &[u8]) -> Position
    ensures { result ≡ missing_line text.now }
{
    Position {
        line: 1 + Reader::new(text).count(),
        byte: text.len(),
    }
}

// A draft that all lines of its text have entered is a sheet; but the end line may be missing, or an at-line late. The draft is lent,
// since it is large to hand on.
fn finished(draft: &Draft, text: &[u8]) -> Result<(), SheetFault>
    ensures { completed sheet_report result (so_far draft.now) ≡ finished (missing_line text.now) (so_far draft.now) }
{
    let Stage::Over = draft.stage else {
        return Err(SheetFault::OutOfOrder(missing_line(text)));
    };
    on_time(draft.sheet.ats(), draft.sheet.ticks())
}

// The text is not too long.
fn short(text: &[u8]) -> Result<(), SheetFault>
    ensures { failing sheet_report result ≡ too_long text.now }
{
    if text.len() <= LONGEST {
        Ok(())
    } else {
        Err(SheetFault::TooLong(Position { line: 1, byte: 0 }))
    }
}

/// The sheet that a text is, or the one fault that counts. The text may hold any bytes. The sheet's at-lines are parts of it, and borrow
/// it; `read` gives a sheet apart from its text.
pub fn read_borrowed<'a>(text: &'a [u8]) -> Result<Sheet<'a>, TableFault>
    ensures { outcome table_report result ≡ sheet_of text.now }
{
    short(text)?;
    let mut draft = Draft::new();
    for line in Reader::new(text) {
        draft.enter(line)?;
    }
    finished(&draft, text)?;
    Ok(draft.sheet)
}

/// The law that a text is read as the rules say: as a sheet, or with the one fault that counts.
pub fn read_by_rules()
    ensures { ByRules }
{}

/// The law that in every sheet that is read, each at-line has calls, all of which are handed out, and comes before the end.
pub fn sheets_have_calls()
    ensures { SheetsHaveCalls }
{}
