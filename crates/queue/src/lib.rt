// Queues of errands: what every queue answers, and a queue over slots that it is handed, by a rule for how it rates errands.
#![tactic(auto)]

mod errand_queue;
mod queues;
mod ratings;
mod rules;
mod slots;

pub use errand_queue::{ByWorth, ErrandQueue, FirstCome, left_as_it_was};
pub use queues::Queue;
pub use rules::{Alike, Rule, WorthForUnits, best_worth_is_best, rules_as_named};
pub use slots::Slot;
