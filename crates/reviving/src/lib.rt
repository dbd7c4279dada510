//! The command `revive`: a client that lives through several links, line by line.
#![tactic(auto)]

mod acting;
mod lines;
mod run;

pub use run::revive;
