// Slips of the deep store: the check, and what every call that reads one shares.
#![tactic(auto)]

pub mod check;
pub mod header;
pub mod open;
