//! Tests of the commands: the limits that a message names. What the commands make of their inputs are rows of the examples.
#![tactic(auto)]

#[cfg(test)]
mod limits;
