//! The events of a replay, read from the values of lines.
#![tactic(auto)]

mod event;
mod fault;
mod grammar;

pub use event::Event;
pub use fault::LineFault;
