//! The history of a store as contracts see it: its entries, the documents and runs that they lead to, and the laws over
//! both. There is no code here but the enum that serves as the definitions' data, with its copy; each other function is a
//! law of the definitions, which its contract states.
#![tactic(auto)]

pub mod entry;
pub mod laws;
