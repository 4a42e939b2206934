ghost use Rattle.std.specs.Prelude.{◌≡◌, ℕ, ◌≤◌, true};
ghost use Rattle.std.proofs.Common.{arith};
ghost use Rattle.model.specs.Histories.{History};
ghost use Rattle.model.specs.Queues.{errand_within};
ghost use Rattle.model.specs.declared.errands.Errand.{Errand as Request};
ghost use Rattle.queue.specs.Arrivals.{best_rated, best_worth, earliest};
ghost use Rattle.queue.specs.Best.{BestWorthIsBest};
ghost use Rattle.queue.specs.Slots.{some_units};

use model::Errand;

/// How a queue rates the errands that are put there: by a worth for so many units.
pub trait Rule {
    /// The worth of an errand.
    ghost worth: { Request → ℕ };

    /// The units that the worth is for.
    ghost units: { Request → ℕ };

    /// The worth of an errand, and the units that it is for.
    fn rate(errand: &Errand) -> (u32, u32)
        ensures worth_put { result.0 ≡ worth errand.now }
        ensures units_put { result.1 ≡ units errand.now };

    /// The worth of an errand within its limits is for at least one unit.
    ghost some: { (errand : Request) → errand_within errand ≡ true → 1 ≤ units errand };
}

/// Rates every errand as every other, so that none outrates another: errands are served as they come.
pub struct Alike;

impl Rule for Alike {
    ghost worth = { λ _. 0 };

    ghost units = { λ _. 1 };

    ghost some = { λ _ _. Prim.omega arith };

    fn rate(_errand: &Errand) -> (u32, u32) {
        (0, 1)
    }
}

/// Rates an errand by its worth for the units that it was put with.
pub struct WorthForUnits;

impl Rule for WorthForUnits {
    ghost worth = { λ errand. errand.worth };

    ghost units = { λ errand. errand.units };

    ghost some = { some_units };

    fn rate(errand: &Errand) -> (u32, u32) {
        (errand.worth, errand.units)
    }
}

/// By `Alike` a queue names the errand that was put earliest, and by `WorthForUnits` the one with the most worth for the units that
/// it was put with.
pub fn rules_as_named()
    ensures alike { (past : History) → best_rated ⟦<Alike as Rule>⟧.worth ⟦<Alike as Rule>⟧.units past ≡ earliest past }
    ensures worth { (past : History) → best_rated ⟦<WorthForUnits as Rule>⟧.worth ⟦<WorthForUnits as Rule>⟧.units past ≡ best_worth past }
{}

/// The errand that `WorthForUnits` has a queue name has the most worth for its units: it has more than each that was put earlier, and
/// none that was put later has more.
pub fn best_worth_is_best()
    ensures { BestWorthIsBest }
{}
