//! Modifiers of documents (update operators, in MongoDB's documentation).
#![tactic(auto)]

mod applying;
mod conflicts;
mod copying;
mod edits;
mod fault;
mod missing;
mod modifier;
mod names;
mod reading;

pub use applying::apply;
pub use fault::{ApplyFault, ModifierFault};
pub use modifier::Modifier;
