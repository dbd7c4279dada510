//! Runs of methods, which make the steps of a program one by one over a store: in the server's store, and in a client's
//! view of it (Meteor's guide, "Methods"). What the rules of a collection answer to a write of a client stands beside
//! them (Meteor's documentation, "allow" and "deny").
#![tactic(auto)]

mod act;
mod documents;
mod errors;
mod fields;
mod filling;
mod guarded;
mod holding;
mod judging;
mod plan;
mod planning;
mod run;

pub use act::Act;
pub use judging::judge;
pub use program_model::verdict::Verdict;
pub use run::{Effect, Run};
