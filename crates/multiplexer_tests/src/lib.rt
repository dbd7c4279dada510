//! Tests of a multiplexer, alone and shared: what is asked for twice is made once.
#![tactic(auto)]

#[cfg(test)]
mod asked;
#[cfg(test)]
mod once;
#[cfg(test)]
mod shared;
