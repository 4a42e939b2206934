ghost use Rattle.std.specs.Prelude.{◌≡◌};
ghost use Rattle.model.specs.Histories.{Choice, GoesOn, History, by_put, by_spend, by_take};
ghost use Rattle.model.specs.Queues.{Meaning, Sound, Put, Spend, Take};

use model::{Errand, Refusal};

/// What answers the four calls on a queue of errands.
///
/// Each call says what it makes of the queue's meaning (`means`), what it adds to the queue's history (`history`), and what it leaves
/// of the queue (`leaves`).
pub trait Queue {
    /// What the queue means: which errands wait, which of them it names, and for how many it has room.
    ghost meaning: { Self → Meaning };

    /// No number waits twice, every errand is within its limits, no more wait than there is room for, and one is named exactly when
    /// some wait.
    ghost sound: { (q : Self) → Sound (meaning q) };

    /// The queue can have become what it is, from an empty one, by what happened in a history. A queue that leaves its choice open
    /// gives a relation that never holds.
    ghost arises: { History → Self → Type 0 };

    /// The number of the errand that the queue names after a history.
    ghost choice: { Choice };

    /// A queue that a history led to names the errand of its choice after that history.
    ghost chooses: { (past : History) (q : Self) → arises past q → (meaning q).named ≡ choice past };

    /// What a call that adds so much to the history leaves of the queue. A queue that promises nothing beyond its meaning gives the
    /// relation that always holds.
    ghost leaves: { Self → History → Self → Type 0 };

    /// Has the errand wait. Refused, with the meaning unchanged, by the first of these that holds: 8, its units are not 1 to 4,096
    /// or its worth is above 65,535; 9, an errand of its number waits; 10, as many errands wait as there is room for.
    fn put(&mut self, errand: Errand) -> Result<(), Refusal>
        ensures means { Put (meaning self.old) errand result (meaning self.new) }
        ensures history { GoesOn arises self.old (by_put errand result) self.new }
        ensures leaves { leaves self.old (by_put errand result) self.new };

    /// The number of the errand that is served next, none where nothing waits.
    fn name(&self) -> Option<u32>
        ensures { result ≡ (meaning self.now).named };

    /// Takes one unit from the errand that is named, and answers its number; with its last unit the errand is gone. None, with the
    /// meaning unchanged, where nothing waits.
    fn spend(&mut self) -> Option<u32>
        ensures means { Spend (meaning self.old) result (meaning self.new) }
        ensures history { GoesOn arises self.old (by_spend result) self.new }
        ensures leaves { leaves self.old (by_spend result) self.new };

    /// Takes out the errand of a number, and answers the units that it had left, 1 to 4,096. Refused 11, with the meaning unchanged,
    /// where no errand of the number waits.
    fn take(&mut self, number: u32) -> Result<u32, Refusal>
        ensures means { Take (meaning self.old) number result (meaning self.new) }
        ensures history { GoesOn arises self.old (by_take number result) self.new }
        ensures leaves { leaves self.old (by_take number result) self.new };
}
