ghost use Rattle.std.specs.Prelude.{◌≡◌};
ghost use Rattle.model.specs.declared.calls.Answer.TheVariants.{Accepted};

use model::{Answer, Call};

/// A call of a script, and beside it what it answered once the script has been run.
#[derive(Clone, Copy)]
pub struct Entry {
    /// The call to be made.
    pub call: Call,
    /// Its answer; of no meaning before the script is run.
    pub answer: Answer,
}

/// A call that is yet to be made, with room for its answer, which is written over when the script is run. No `Option`, which every
/// reader of a script that was run would have to open.
impl From<Call> for Entry {
    ghost from_gives = { λ call entry. entry ≡ record { call = call; answer = Accepted } };

    fn from(call: Call) -> Entry {
        Entry {
            call,
            answer: Answer::Accepted,
        }
    }
}
