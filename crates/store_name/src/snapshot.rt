//! Documents at a place of a history.
use ejson_value::Contents;

/// The documents after the first `at` entries.
#[derive(Drop)]
pub struct Snapshot {
    pub at: u64,
    pub contents: Contents,
}
