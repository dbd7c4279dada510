//! What a merge box keeps of one document: who publishes it, and for each field the values in the order in which their
//! subscriptions began to publish it. While one subscription alone publishes the document, it is kept plain.
#![tactic(auto)]

mod claims;
mod differences;
mod fields;
mod held;
mod messages;
mod pairs;
mod shared;
mod sides;

pub use held::{Change, Held};
pub use messages::told;
