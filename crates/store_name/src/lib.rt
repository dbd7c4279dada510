//! Which shared store it is, and what it hands on of its history.
#![tactic(auto)]

mod name;
mod snapshot;

pub use name::{StoreName, StorePass};
pub use snapshot::Snapshot;
