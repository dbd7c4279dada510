//! Generated work: the input of a drive of as many calls as are wanted, drawn from a number.
#![tactic(auto)]

mod generating;

pub use generating::{MAX_CALLS, generate, generate_input, generated};
