// The limits of a slip, the unpacked table and the form of its rows, and how large areas are.
#![tactic(auto)]

pub mod areas;
pub mod form;
pub mod limits;
pub mod table;
