ghost use Rattle.std.specs.Prelude.{◌≡◌};
ghost use Rattle.model.specs.Queues.{errand_within};
ghost use Rattle.queue.specs.Ranks.{ranks, ranks_asymmetric, ranks_negatively_transitive};
ghost use Rattle.queue.specs.Slots.{HoldsErrand, Made, with_units};

use super::ratings::Rating;
use super::rules::Rule;
use list::Ranked;
use model::{Errand, Refusal};

/// A slot of a queue: an errand with its units left, and its rating, which stays as it was when the errand was put.
#[derive(Clone, Copy)]
pub struct Slot {
    errand: Errand,
    rating: Rating,
}

impl Ranked for Slot {
    ghost before = { ranks };

    ghost asymmetric = { ranks_asymmetric };

    ghost negatively_transitive = { ranks_negatively_transitive };

    fn is_before(&self, other: &Slot) -> bool {
        self.rating.outrates(&other.rating)
    }
}

// An errand has at most so many units.
const MOST_UNITS: u32 = 4096;

// An errand is worth at most so much.
const MOST_WORTH: u32 = 65535;

// At least one unit, and no more units and worth than an errand may have.
fn within_limits(errand: &Errand) -> bool
    ensures { result ≡ errand_within errand.now }
{
    (1..=MOST_UNITS).contains(&errand.units) && errand.worth <= MOST_WORTH
}

impl Slot {
    /// A slot to hand to a queue. It holds the errand 0 of 1 unit and no worth, which no queue reads before it puts an errand there.
    pub fn free() -> Slot
        ensures { HoldsErrand (record { number = 0; units = 1; worth = 0 }) 0 1 result }
    {
        Slot {
            errand: Errand {
                number: 0,
                units: 1,
                worth: 0,
            },
            rating: Rating::of(0, 1),
        }
    }

    // A slot for an errand that is rated by a rule. Refused 8 where the errand breaks its limits.
    pub(crate) fn rated<R: Rule>(errand: Errand) -> Result<Slot, Refusal>
        ensures { Made errand (R.worth errand) (R.units errand) result }
    {
        if !within_limits(&errand) {
            return Err(Refusal::ErrandLimits);
        }
        let (worth, units) = R::rate(&errand);
        Ok(Slot {
            errand,
            rating: Rating::of(worth, units),
        })
    }

    // The errand, with its units left.
    pub(crate) fn errand(&self) -> Errand
        ensures { result ≡ self.now.errand }
    {
        self.errand
    }

    // The same with other units left.
    pub(crate) fn with_units(&self, units: u32) -> Slot
        ensures { result ≡ with_units self.now units }
    {
        Slot {
            errand: Errand {
                units,
                ..self.errand
            },
            ..*self
        }
    }
}
