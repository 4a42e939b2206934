//! The duty table: a setting to which duties are added, each addition admitted by response-time analysis.
#![tactic(auto)]

mod analysis;
mod settings;

pub use settings::{MOST_ROWS, Setting};
