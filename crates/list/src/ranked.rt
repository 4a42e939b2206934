ghost use Rattle.std.specs.Prelude.{◌≡◌, Bool};
ghost use Rattle.list.specs.Order.{same_rank, Asymmetric, NegativelyTransitive};

/// Entries with a strict weak order: some are before others, and of two entries of which neither is before the other it is said that
/// they have the same rank.
///
/// This is not std's `Ord`, whose `==` must agree with its order: entries of one rank may still differ.
pub trait Ranked {
    /// The order: `before x y` says that x goes before y.
    ghost before: { Self → Self → Bool };

    /// Of two entries at most one is before the other.
    ghost asymmetric: { Asymmetric before };

    /// An entry that is not before a second, which is not before a third, is not before the third.
    ghost negatively_transitive: { NegativelyTransitive before };

    /// This entry goes before the other.
    fn is_before(&self, other: &Self) -> bool
        ensures { result ≡ before self.now other.now };
}

// Neither entry is before the other.
pub(crate) fn same_rank<E: Ranked>(x: &E, y: &E) -> bool
    ensures { result ≡ same_rank E.before x.now y.now }
{
    !x.is_before(y) && !y.is_before(x)
}
