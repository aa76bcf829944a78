// What is read off the columns of tables: where rows start, how two rows meet, and the table of some of the rows.
#![tactic(auto)]

pub mod gather;
pub mod heads;
pub mod meet;
pub mod survey;
pub mod walkable;
