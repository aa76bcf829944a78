// Bytes as bits: fields read from any bit, and written one after the other.
#![tactic(auto)]

pub mod pen;
pub mod read;

pub use read::{bits, copy};
