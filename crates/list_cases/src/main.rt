// The ordered list on calls that are due at a clock: those of one clock stay as they came.
#![tactic(auto)]

use list::{Numbered, OrderedList};
use std::io;

// A call, as a part of a text. It is handed over and never copied.
#[derive(Default, Drop)]
struct Call<'t> {
    text: &'t str,
}

// A call, numbered by its clock.
type Due<'t> = Numbered<Call<'t>>;

fn due(clock: u32, text: &str) -> Due<'_> {
    Numbered {
        number: clock,
        entry: Call { text },
    }
}

// Inserts the calls one by one, and prints the number of what refused each, 0 where nothing did.
fn insert_all<'t>(
    rt: &HostRuntime,
    list: &mut OrderedList<'_, Due<'t>>,
    calls: &[(u32, &'t str)],
) -> io::Result<()> {
    print!(rt; "insert")?;
    for &(clock, text) in calls {
        let number = list.insert(due(clock, text)).err().map(|why| why.number());
        print!(rt; " {}", number.unwrap_or(0))?;
    }
    println!(rt; "")
}

fn show(rt: &HostRuntime, list: &OrderedList<'_, Due<'_>>) -> io::Result<()> {
    let len = list.len();
    let capacity = list.capacity();
    print!(rt; "{len} of {capacity}:")?;
    show_all(rt, list.entries())
}

fn show_all(rt: &HostRuntime, dues: &[Due<'_>]) -> io::Result<()> {
    for due in dues {
        let clock = due.number;
        let call = due.entry.text;
        print!(rt; " {clock} {call}")?;
    }
    println!(rt; "")
}

// A list of four slots: full, it refuses every entry, of a rank that it holds or not, and stays as it is. An entry
// that was removed stays in the slot behind the others.
fn four(rt: &HostRuntime) -> io::Result<()> {
    let mut slots = [due(0, ""), due(0, ""), due(0, ""), due(0, "")];
    let mut list = OrderedList::new(&mut slots);
    insert_all(rt, &mut list, &[(4, "c"), (0, "a"), (4, "d")])?;
    insert_all(rt, &mut list, &[(2, "b"), (0, "e")])?;
    insert_all(rt, &mut list, &[(1, "e"), (4, "e"), (9, "e")])?;
    show(rt, &list)?;
    println!(rt; "remove {} {}", list.remove(1), list.remove(3))?;
    println!(rt;
        "replace {} {}",
        list.replace(1, due(4, "f")),
        list.replace(1, due(5, "g"))
    )?;
    show(rt, &list)?;
    insert_all(rt, &mut list, &[(0, "h"), (0, "i")])?;
    show(rt, &list)?;
    println!(rt; "remove {}", list.remove(0))?;
    print!(rt; "slots:")?;
    show_all(rt, &slots)
}

// A list of no slots is full from the start.
fn none(rt: &HostRuntime) -> io::Result<()> {
    let mut slots = [Due::default(); 0];
    let mut list = OrderedList::new(&mut slots);
    insert_all(rt, &mut list, &[(0, "a")])?;
    show(rt, &list)
}

fn main(rt: HostRuntime) -> io::Result<()> {
    four(&rt)?;
    none(&rt)
}
