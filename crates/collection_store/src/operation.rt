//! Operations, and what is answered to them.
use ejson_value::{Changes, Doc, Keys, Text, Value};
use modifier_apply::Modifier;
use selector_match::Selector;

/// An operation on the documents of one collection.
#[derive(Drop)]
pub enum Op {
    /// Puts a new document, whose fields are given without `_id`.
    Insert {
        collection: Text,
        id: Text,
        doc: Doc,
    },
    /// Changes the matching documents by the modifier, only the first by id unless `all`.
    Update {
        collection: Text,
        selector: Selector,
        modifier: Modifier,
        all: bool,
    },
    /// Takes the matching documents out.
    Remove {
        collection: Text,
        selector: Selector,
    },
}

/// What an operation did.
#[derive(Drop)]
pub struct Reply {
    /// The documents that differ, by id.
    pub changes: Changes,
    /// The documents that were inserted, matched or removed, by id.
    pub touched: Keys,
    /// The new document's id, or how many documents were matched or removed.
    pub answer: Value,
}
