//! How a call of the program ends: its outcome, its status, and the line that it prints.
//!
//! - `Outcome` is how a call ended, with all that is told of it, and `Status` what the program ends with.
//! - `text_of` is what is printed of an outcome: one line, or the deck that is listed.
//! - `report` prints it, and answers the status.
#![tactic(auto)]

mod lines;
mod outcome;
mod printing;
mod refusal_words;
mod status;
mod text;

pub use lines::text_of;
pub use outcome::Outcome;
pub use printing::report;
pub use status::Status;
pub use text::Text;
