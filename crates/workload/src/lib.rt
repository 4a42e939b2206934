//! The hard side of the dispatcher: a duty table, the state of each of its rows and the clock, with the exact slack.
#![tactic(auto)]

mod calls;
mod demands;
mod slack;
mod streams;
#[cfg(test)]
mod tests;
mod workloads;

pub use workloads::Workload;
