// One ordered list, for every kind of entry that has a rank. It keeps its entries in slots that it is handed, so that it needs no
// memory of its own.
#![tactic(auto)]

mod numbered;
mod ordered;
mod ranked;
mod shifts;

pub use numbered::Numbered;
pub use ordered::OrderedList;
pub use ranked::Ranked;
