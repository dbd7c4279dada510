//! A DDP client with optimistic simulations: what it asks for, what it takes of its server's texts, and what it shows
//! (Meteor's DDP.md; Meteor's guide, "Methods").
#![tactic(auto)]

pub mod calls;
mod client;
mod fault;
pub mod lines;
pub mod numbers;
pub mod subs;
mod taking;
pub mod texts;

pub use client::Client;
pub use client_model::subs::SubState;
pub use ejson_codec::Lines;
pub use fault::{ClientFault, TakeFault};
pub use minimongo::View;
pub use program_steps::Outcome;
