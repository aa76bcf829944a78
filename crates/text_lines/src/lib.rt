// Lines of text, as they are read.
#![tactic(auto)]

mod lines;
pub mod reading;

pub use lines::{LINE, Line, Lines, ROOM};
