ghost use Rattle.std.specs.Prelude.{Some};
ghost use Rattle.model.specs.Words.{had_by};

use super::{Errand, Refusal};
use std::fmt;

/// What a running dispatcher can be asked. A refused call changes nothing.
#[derive(Clone, Copy, PartialEq, Eq, Debug)]
pub enum Call {
    /// Releases a job of the row of this number. Refused 1 or 5.
    Release(u32),
    /// Ends the job of the row of this number. Refused 1 or 6.
    Done(u32),
    /// Has the errand wait. Refused 8, 9 or 10.
    Request(Errand),
    /// Takes out the errand of this number. Refused 11.
    Withdraw(u32),
    /// Asks for the table's slack. Never refused.
    Slack,
    /// One tick of the processor. Refused 7.
    Tick,
}

/// Who had a tick.
#[derive(Clone, Copy, PartialEq, Eq, Debug)]
pub enum Who {
    /// No row had a job, and no errand had the tick.
    Nobody,
    /// The job of the row of this number.
    Duty(u32),
    /// The errand of this number.
    Errand(u32),
}

/// The words: `nobody`, `duty ROW` or `errand NUMBER`.
impl fmt::Display for Who {
    ghost output = { λ who. Some (had_by who) };

    fn fmt<W: fmt::Write>(&self, f: &mut fmt::Formatter<W>) -> fmt::Result {
        match self {
            Who::Nobody => write!(f, "nobody"),
            Who::Duty(row) => write!(f, "duty {row}"),
            Who::Errand(number) => write!(f, "errand {number}"),
        }
    }
}

/// What a call answered. A refusal is a case of its own: a `Result` of the other four would be no plainer, since scripts, definitions
/// and transcripts look at all five alike.
#[derive(Clone, Copy, PartialEq, Eq, Debug)]
pub enum Answer {
    /// A release, a done or a request was accepted.
    Accepted,
    /// A withdraw was accepted; the units that the errand had left, 1 to 4,096.
    Withdrawn(u32),
    /// The table's slack in ticks, 65,535 where it has no rows.
    Slack(u32),
    /// A tick was accepted: the table's slack before it, and who had it.
    Ticked(u32, Who),
    /// The call was refused, and changed nothing.
    Refused(Refusal),
}
