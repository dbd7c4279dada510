//! The script of a drive: operations on the store that are done first, and what each client does.
#![tactic(auto)]

mod line;
mod reading;
mod script;

pub use client_script::{Ask, Line, ScriptFault};
pub use line::DriveLine;
pub use script::{MAX_CLIENTS, Script};
