//! What publications tell of a store's history, for all the sessions that ask.
#![tactic(auto)]

mod entries;
mod entry;
mod joining;
mod keeping;
pub mod laws;
mod news;
mod observing;
mod origins;
mod params;
mod source;
mod weighing;

pub use entries::Entries;
pub use joining::lead;
pub use news::{Lent, Multiplexer};
pub use source::Span;
