//! The log of a history: its entries, each with the changes that it made, and what is told of them.
#![tactic(auto)]

mod batch;
mod changes;
mod kept;
mod kept_entry;
mod lines;
mod log;
mod rows;
mod threads;

pub use batch::Batch;
pub use history_model::entry::Entry;
pub use kept::{call_bytes, new_bytes};
pub use kept_entry::KeptEntry;
pub use lines::{doc_line, store_line};
pub use log::{Log, Logged};
pub use rows::{Row, document_lines, rows_of};
pub use threads::store_lines;
