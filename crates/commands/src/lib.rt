//! The commands of the program, over any source and sink: which words name which, the status of each end, and why a line is bad.
#![tactic(auto)]

mod command;
mod reason;
mod run;
mod status;

pub use command::time_in;
pub use reason::{Wanted, reason_for};
pub use replay_core::checking::{INPUT_LIMIT, LINE_LIMIT};
pub use replay_core::{World, world_events};
pub use run::{read_input, run_on, run_plain};
pub use status::Status;
