// The joined table that a plan names, handed out as a slip.
#![tactic(auto)]

pub mod areas;
pub mod gathered;
