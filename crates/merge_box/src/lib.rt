//! The merge box of a DDP session: what several subscriptions publish reaches the client merged field by field.
#![tactic(auto)]

mod boxes;
mod index;
mod kept;
mod news;
mod plan;

pub use boxes::MergeBox;
pub use ejson_value::DataMsg;
pub use plan::{Word, Words};
