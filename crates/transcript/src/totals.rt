// What a run took in and gave out over all its errands.
ghost use Rattle.std.specs.Prelude.{◌≡◌, ◌+◌, ◌-◌, ◌≤◌, ◌++◌, string_bytes, string_capacity, string_len};
ghost use Rattle.dispatcher.specs.Scripts.{trace_of};
ghost use Rattle.model.specs.Totals.{total_accepted, total_served, total_withdrawn};
ghost use Rattle.transcript.specs.Lines.{last_totals, totals_line};
ghost use Rattle.transcript.specs.Renderings.{accepted_by, served_by, withdrawn_by};

use crate::text::{push, push_total};
use dispatcher::Entry;
use model::{Answer, Call, Who};

// Units of accepted requests, ticks that errands had, and units that withdraws gave back. No script is so long that a sum outgrows
// its type.
#[derive(Clone, Copy)]
pub(crate) struct Totals {
    accepted: u128,
    served: u128,
    withdrawn: u128,
}

// The units that an entry of a script adds to those accepted.
fn accepted_by(entry: &Entry) -> u32
    ensures { result ≡ accepted_by entry.now }
{
    match (entry.answer, entry.call) {
        (Answer::Accepted, Call::Request(errand)) => errand.units,
        _ => 0,
    }
}

// The ticks that it adds to those that errands had.
fn served_by(entry: &Entry) -> u32
    ensures { result ≡ served_by entry.now }
{
    match entry.answer {
        Answer::Ticked(_, Who::Errand(_)) => 1,
        _ => 0,
    }
}

// The units that it adds to those given back.
fn withdrawn_by(entry: &Entry) -> u32
    ensures { result ≡ withdrawn_by entry.now }
{
    match entry.answer {
        Answer::Withdrawn(units) => units,
        _ => 0,
    }
}

impl Totals {
    // The totals of a script that was run.
    pub(crate) fn of(script: &[Entry]) -> Totals
        ensures accepted { result.accepted ≡ total_accepted (trace_of script.now) }
        ensures served { result.served ≡ total_served (trace_of script.now) }
        ensures withdrawn { result.withdrawn ≡ total_withdrawn (trace_of script.now) }
    {
        // One pass for the three sums; chains would go through the script three times.
        let mut accepted = 0;
        let mut served = 0;
        let mut withdrawn = 0;
        for entry in script {
            accepted += u128::from(accepted_by(entry));
            served += u128::from(served_by(entry));
            withdrawn += u128::from(withdrawn_by(entry));
        }
        Totals {
            accepted,
            served,
            withdrawn,
        }
    }
}

// The last two totals, and the end of their line.
fn push_last(out: &mut String, withdrawn: u128, waiting: u128)
    requires room { string_len out.old + 84 ≤ string_capacity out.old }
    ensures { string_bytes out.new ≡ string_bytes out.old ++ last_totals withdrawn waiting }
{
    push_total(out, withdrawn);
    push(out, " ");
    push_total(out, waiting);
    push(out, ")\n");
}

// The line of totals. The last of them is what waits in the end: what was accepted, and neither served nor withdrawn.
pub(crate) fn push_totals(out: &mut String, totals: Totals)
    requires room { string_len out.old + 192 ≤ string_capacity out.old }
    ensures { string_bytes out.new ≡ string_bytes out.old
        ++ totals_line totals.accepted totals.served totals.withdrawn (totals.accepted - totals.served - totals.withdrawn) }
{
    let Totals {
        accepted,
        served,
        withdrawn,
    } = totals;
    let waiting = accepted.saturating_sub(served).saturating_sub(withdrawn);
    push(out, "(totals ");
    push_total(out, accepted);
    push(out, " ");
    push_total(out, served);
    push(out, " ");
    push_last(out, withdrawn, waiting);
}
