// SHA-256 of FIPS 180-4: padding, and a running digest that takes a text part by part.
#![tactic(auto)]

pub mod digest;
mod octets;
pub mod padding;
