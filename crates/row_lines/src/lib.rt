// What is printed of a table's rows, a line each: the table as text, and its tree.
#![tactic(auto)]

mod cutting;
pub mod drawing;
mod places;
pub mod rows;
pub mod writing;
