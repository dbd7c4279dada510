//! Tests of a console that goes on over a new link.
#![tactic(auto)]

#[cfg(test)]
mod running;
#[cfg(test)]
mod runs;
