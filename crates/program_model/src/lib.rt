//! Runs of methods as contracts see them: what the steps of a program do to documents, the simulation of a method at a
//! client, and the laws over both. There is no code here but the enum that serves as the definitions' data; each
//! function is a law of the definitions, which its contract states.
#![tactic(auto)]

pub mod laws;
pub mod verdict;
