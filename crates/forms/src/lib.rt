// The lines of a text, the items of a line, and what a line says, or the first fault of its letters or of its form. A line is a form: a
// word and items between two brackets, an item being a number, a word or a form.
#![tactic(auto)]

mod calls;
mod faults;
mod items;
mod letters;
mod lines;
mod numbers;
mod sayings;
mod shapes;

pub use calls::call;
pub use faults::{FormsFault, Layer, LettersFault, Position, Report};
pub use items::{Items, taken_apart};
pub use lines::{Line, Part, Reader};
pub use numbers::numbers_by_value;
pub use sayings::{QueueName, Said, form_said};
pub use shapes::forms_by_grammar;
