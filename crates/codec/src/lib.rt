// A slip's bits to a table's rows, and back.
#![tactic(auto)]

pub mod fill;
pub mod measure;
pub mod row;
pub mod write;
