//! Tests of a store: what is no selector and no modifier, the limits of a store, and the machine with its limits. What a line
//! of `replay` or `check` can show is a script among the examples.
#![tactic(auto)]

#[cfg(test)]
mod limits;
#[cfg(test)]
mod machines;
#[cfg(test)]
mod readings;
#[cfg(test)]
mod values;
