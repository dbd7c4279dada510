//! The replay of an input: its first line is an application, and the others are events. Lines are read a
//! batch ahead.
#![tactic(auto)]

mod readers;
mod replay;
mod replayer;
mod running;
mod tasks;

pub use checking;
pub use replayer::{Plain, Replayer, Threaded};
pub use world_core::World;
pub use world_events;
