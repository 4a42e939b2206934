ghost use Rattle.list.specs.Order.{by_number, by_number_asymmetric, by_number_negatively_transitive};

use super::ranked::Ranked;

/// An entry with a number, the smaller before the larger.
#[derive(Clone, Copy, Default, Drop)]
pub struct Numbered<T> {
    /// The number that it is ranked by. Entries of one number have the same rank.
    pub number: u32,
    /// What is numbered. It says nothing of the rank.
    pub entry: T,
}

impl<T> Ranked for Numbered<T> {
    ghost before = { by_number (λ x. x.number) };

    ghost asymmetric = { by_number_asymmetric (λ x. x.number) };

    ghost negatively_transitive = { by_number_negatively_transitive (λ x. x.number) };

    fn is_before(&self, other: &Numbered<T>) -> bool {
        self.number < other.number
    }
}
