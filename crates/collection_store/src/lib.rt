//! A store of documents by collection and id, and its operations: insert, update and remove.
#![tactic(auto)]

mod changes;
mod documents;
mod fault;
mod finding;
pub mod laws;
mod operation;
mod store;
mod updates;

pub use fault::OpFault;
pub use operation::{Op, Reply};
pub use store::Store;
