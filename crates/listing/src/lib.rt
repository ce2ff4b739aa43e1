// What a technician reads: one line for each answer of a receiver.
#![tactic(auto)]

mod lines;
mod listings;

pub use lines::{AnswerLine, RefusalLine, line, refused_line};
pub use listings::{MOST_INPUT, list_body, list_capture};
