ghost use Rattle.std.specs.Prelude.{◌≤◌};

/// What an errand is rated by: a worth for so many units.
///
/// What counts is the worth for one unit. No quotient is taken: two ratings are compared by the products of the worth of each with the
/// units of the other, so that nothing is rounded.
#[derive(Clone, Copy)]
pub struct Rating {
    worth: u32,
    units: u32,
    // The worth is for some units.
    ghost some: { 1 ≤ units },
}

impl Rating {
    ghost use Rattle.std.specs.Prelude.{◌≡◌};
    ghost use Rattle.queue.specs.Ratings.{outrates};

    // A worth for so many units, at least one.
    pub(crate) fn of(worth: u32, units: u32) -> Rating
        requires { 1 ≤ units }
        ensures worth { result.worth ≡ worth }
        ensures units { result.units ≡ units }
    {
        Rating { worth, units }
    }

    /// This rating has more worth for a unit than the other.
    ///
    /// This is not std's `Ord`, whose `==` would have to hold of a worth of 1 for 2 units and of 2 for 4.
    pub fn outrates(&self, other: &Rating) -> bool
        ensures { result ≡ outrates self.now other.now }
    {
        u64::from(self.worth) * u64::from(other.units)
            > u64::from(other.worth) * u64::from(self.units)
    }
}
