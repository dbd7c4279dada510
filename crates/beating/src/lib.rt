//! The command `beat`: a heart that is handed its moments line by line.
#![tactic(auto)]

mod lines;
mod run;

pub use run::beat;
