//! The numbers that words of a command tell.
#![tactic(auto)]

mod number;

pub use number::number_in;
