// What a pruning list says of a table's rows: its test, and what becomes of each row.
#![tactic(auto)]

pub mod marks;
pub mod names;
