//! The stubs of methods: what a client shows of a call at once, on its own view of the documents (Meteor's guide, "Methods",
//! "Optimistic UI").
//!
//! A stub doesn't write to the view, and the view isn't copied for it. What its steps left so far stands in a draft beside the
//! view, and each step runs over a store of the documents alone that it looks at.
#![tactic(auto)]

mod draft;
mod finding;
mod fitting;
mod key_set;
mod naming;
mod simulation;
mod steps;
mod traces;
mod window;

pub use ejson_value::{Changes, Keys};
pub use simulation::{Simulated, simulate, simulate_over};
