//! Changes of several entries.
use ejson_value::Changes;

/// All changes that the entries behind the first `from` made, `count` entries, one after another.
#[derive(Drop)]
pub struct Batch {
    pub from: u64,
    pub count: u64,
    pub changes: Changes,
}
