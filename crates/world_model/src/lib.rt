//! The whole world as contracts see it: one store and its server, many clients with a session each, the texts between them,
//! the events that they go through, and what holds of them. There is no code here but the enums that serve as the
//! definitions' data; each other function is a law of the definitions, which its contract states.
#![tactic(auto)]

pub mod events;
pub mod laws;

pub use events::{Act, Answer, Event};
