// Stored sheets, each with the text that tools/reference.py says of it: NAME.sheet and NAME.text for every name in the
// file `names`.
#![tactic(auto)]

use std::{fs, io};
use transcript::Room;

// The transcript of a stored sheet is its text, to the byte.
fn agrees(rt: &HostRuntime, name: &str) -> io::Result<bool> {
    let heap = rt.alloc();
    let sheet = fs::read(rt, format!(in heap; "{name}.sheet")?)?;
    let text = fs::read(rt, format!(in heap; "{name}.text")?)?;
    let out = Room::new(heap)?.transcript(sheet.as_slice());
    Ok(out.as_bytes() == text.as_slice())
}

fn main(rt: HostRuntime) -> io::Result<()> {
    let names = fs::read_to_string(&rt, "names")?;
    let mut all = 0u32;
    let mut agreeing = 0u32;
    for name in names.lines() {
        all = all.saturating_add(1);
        if agrees(&rt, name)? {
            agreeing = agreeing.saturating_add(1);
            println!(rt; "{name} agrees")?;
        } else {
            println!(rt; "{name} differs")?;
        }
    }
    println!(rt; "{agreeing} of {all} agree")
}
