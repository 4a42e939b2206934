// Reading sheets. The lines of a text, in their order, set a table of duties, a queue, at-lines and a number of ticks; or else the text
// has one fault that counts.
#![tactic(auto)]

mod ats;
mod drafts;
mod faults;
mod owned;
mod sheets;
#[cfg(test)]
mod tests;

pub use ats::{At, AtSpan, Calls};
pub use faults::{SheetFault, TableFault};
pub use owned::{OwnedSheet, read};
pub use sheets::{Sheet, read_borrowed, read_by_rules, sheets_have_calls};
