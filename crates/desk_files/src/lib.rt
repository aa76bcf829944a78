// What desk's commands share: which command a word names, the numbers and files that the arguments give, and what is said.
#![tactic(auto)]

pub mod arguments;
pub mod command;
pub mod files;
pub mod messages;
pub mod refusals;
pub mod system;
