//! All commands of the program, over any source, sink, network and clocks: those that serve and those that run a script, with hearts and
//! without, and those that need no network.
#![tactic(auto)]

mod command;
mod console;
mod input;
mod program;
mod reporting;
mod server;
mod watched;

pub use program::{run, run_timed};
