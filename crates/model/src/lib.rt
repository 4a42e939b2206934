//! The vocabulary of the dispatcher: plain types, with the definitions in specs/ that contracts cite, and their laws.
//!
//! Tasks, response times and slack are those of R. I. Davis, *On Exploiting Spare Capacity in Hard Real-Time Systems*,
//! for whole ticks. Here a hard sporadic task is a duty and a soft request is an errand.
#![tactic(auto)]

mod calls;
mod duties;
mod errands;
mod laws;
mod refusals;
mod rows;

pub use calls::{Answer, Call, Who};
pub use duties::Duty;
pub use errands::Errand;
pub use laws::{
    choice_settles_runs, every_run_keeps_the_promise, kept_always, machine_examples,
    response_is_least, slack_is_greatest, slack_is_idle_ticks, totals_balance, worked_examples,
};
pub use refusals::Refusal;
pub use rows::{Row, RowCall};
