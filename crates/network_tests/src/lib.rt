//! Tests of the commands of a network, over networks, sources and sinks in memory.
#![tactic(auto)]

#[cfg(test)]
mod rows;
#[cfg(test)]
mod running;
#[cfg(test)]
mod runs;
