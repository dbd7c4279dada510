//! Contents that know how many bytes their documents have, so that nobody has to look at each document to tell.
#![tactic(auto)]

mod counted;
mod sums;

pub use counted::CountedContents;
pub use sums::{bytes_after, bytes_in};
