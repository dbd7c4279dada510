//! Documents to save.
ghost use Rattle.std.specs.Prelude.{◌≡◌, IfOk};

use ejson_value::{Doc, Key, ListOf};

/// A document as it was before a simulation, None where there was none.
#[derive(Drop)]
pub struct Save {
    pub key: Key,
    pub doc: Option<Doc>,
}

/// Documents to save. Where a key stands twice, the first one counts.
pub type Saves = ListOf<Save>;
