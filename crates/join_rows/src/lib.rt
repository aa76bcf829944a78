// The join of two trees, whose tables stand end to end in one set of columns.
#![tactic(auto)]

pub mod plan;
mod walk;
