// The script of a sheet: at each clock the calls of its at-lines, and then the tick. There is room for every entry, so none is left
// out.
ghost use Rattle.std.specs.Prelude.{◌≡◌, ◌+◌, ◌≤◌, [], ◌++◌, length, map, vec_capacity};
ghost use Rattle.std.specs.List.{flat_map};
ghost use Rattle.dispatcher.specs.Scripts.{calls_of};
ghost use Rattle.sheet.specs.Ats.{at_of, calls_at};
ghost use Rattle.transcript.specs.Scripts.{script_of};
ghost use Rattle.transcript.specs.Timetables.{InOrder, behind_due, due, at_lines_of};

use crate::timetable::{Timed, Upcoming, sort_by_clock};
use dispatcher::Entry;
use list::OrderedList;
use model::Call;
use sheet::At;

// The most at-lines that a sheet may have.
const MOST_ATS: usize = 256;

// Adds the calls of an at-line.
fn push_calls(script: &mut Vec<Entry>, at: &At)
    requires room { length (calls_of script.old.items ++ calls_at (at_of at.now)) ≤ vec_capacity script.old }
    ensures calls { calls_of script.new.items ≡ calls_of script.old.items ++ calls_at (at_of at.now) }
    ensures room { vec_capacity script.new ≡ vec_capacity script.old }
{
    for call in at.calls() {
        script.push_reserved(Entry::from(call));
    }
}

// Adds the calls of the at-lines of a clock, which stand in front, and goes on behind them.
fn push_due(script: &mut Vec<Entry>, upcoming: &mut Upcoming, clock: u32)
    requires room { length (calls_of script.old.items ++ flat_map calls_at (at_lines_of (due clock upcoming.old.ats.now))) ≤ vec_capacity script.old }
    ensures calls { calls_of script.new.items ≡ calls_of script.old.items ++ flat_map calls_at (at_lines_of (due clock upcoming.old.ats.now)) }
    ensures rest { upcoming.new.ats.now ≡ behind_due clock upcoming.old.ats.now }
    ensures room { vec_capacity script.new ≡ vec_capacity script.old }
{
    while let Some(at) = upcoming.next_due(clock) {
        push_calls(script, &at);
    }
}

// Makes the script of at-lines that stand in the order of their clocks.
fn push_sorted(script: &mut Vec<Entry>, ats: &[Timed], ticks: u32)
    requires in_order { InOrder ats.now }
    requires empty { script.old.items ≡ [] }
    requires room { length (script_of (at_lines_of ats.now) ticks) ≤ vec_capacity script.old }
    ensures { calls_of script.new.items ≡ script_of (at_lines_of ats.now) ticks }
{
    let mut upcoming = Upcoming { ats };
    for clock in 0..ticks {
        push_due(script, &mut upcoming, clock);
        script.push_reserved(Entry::from(Call::Tick));
    }
}

// Makes the script of at-lines that stand in the order of their lines: they are sorted by their clocks first.
pub(crate) fn push_script(script: &mut Vec<Entry>, ats: &[At], ticks: u32)
    requires few { length ats.now ≤ 256 }
    requires empty { script.old.items ≡ [] }
    requires room { length (script_of (map at_of ats.now) ticks) ≤ vec_capacity script.old }
    ensures { calls_of script.new.items ≡ script_of (map at_of ats.now) ticks }
{
    let mut slots = [Timed::default(); MOST_ATS];
    let mut list = OrderedList::new(&mut slots);
    sort_by_clock(&mut list, ats);
    push_sorted(script, list.entries(), ticks)
}
