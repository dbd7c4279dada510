//! Tests of links over WebSocket: on 127.0.0.1, and over streams in memory.
#![tactic(auto)]

#[cfg(test)]
mod open;
#[cfg(test)]
mod peers;
#[cfg(test)]
mod streams;
#[cfg(test)]
mod talk;
