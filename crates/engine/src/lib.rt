// The stack of document 000, section 5.4.2, over the rows of a table.
#![tactic(auto)]

pub mod judge;
