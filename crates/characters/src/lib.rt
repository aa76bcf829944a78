// The characters of titles: tested, and composed with a mark.
#![tactic(auto)]

pub mod pairs;
pub mod repertoire;
