// What is printed of a text: of a sheet the lines of its run, and of any other text the line of its fault.
#![tactic(auto)]

mod faults;
mod input;
mod laws;
mod lines;
mod room;
mod runs;
mod script;
mod text;
mod timetable;
mod totals;
mod transcripts;

pub use input::read_input;
pub use laws::{
    every_script_runs, exactly_one_transcript, one_transcript, scripts_fit, sheets_fit,
};
pub use room::Room;
