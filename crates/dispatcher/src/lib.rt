//! The dispatcher: it gives each tick to a duty or, where no deadline can be missed by it, to an errand of any queue.
#![tactic(auto)]

mod dispatchers;
mod entries;
mod runs;

pub use dispatchers::Dispatcher;
pub use entries::Entry;
pub use runs::run;
