//! A client that lives through several links: it says again to a new session what the old one left open, and shows what the new
//! session has once all of it is there.
#![tactic(auto)]

mod client;
mod copying;
mod last;
mod speaking;

pub use client::{RevivedClient, Stop};
pub use client_core::{Client, ClientFault, Lines, TakeFault};
