//! The bytes that a history keeps.
ghost use Rattle.std.specs.Prelude.{◌≡◌};
ghost use Rattle.value_model.specs.Val.{list, vals_of};
ghost use Rattle.value_model.specs.Size.{size};
ghost use Rattle.ejson_value.specs.View.{view, views};
ghost use Rattle.ejson_value.specs.Measure.{capped};
ghost use Rattle.collection_store.specs.Limits.{size_if, new_bytes};
ghost use Rattle.history_model.specs.History.{call_bytes};

use ejson_value::{Changes, Doc, Items, Value, document_size, size};

// The bytes of the values as a list.
fn list_size(values: &[Value]) -> u64
    ensures { result ≡ capped (size (list (vals_of (views values.now)))) }
{
    let mut inside = 0u64;
    for value in values {
        inside = inside.saturating_add(1).saturating_add(size(value));
    }
    inside.saturating_add(1).max(2)
}

/// The bytes that a call keeps: of its parameters, as a list, and of its seed; 2^64 - 1 where there
/// are more.
pub fn call_bytes(params: &Items, seed: &Value) -> u64
    ensures { result ≡ capped (call_bytes params.now (view seed.now)) }
{
    list_size(params.as_slice()).saturating_add(size(seed))
}

fn size_if(doc: &Option<Doc>) -> u64
    ensures { result ≡ capped (size_if doc.now) }
{
    match doc {
        None => 0,
        Some(doc) => document_size(doc),
    }
}

/// The bytes that changes keep: of each document that one of them left; 2^64 - 1 where there are
/// more.
pub fn new_bytes(changes: &Changes) -> u64
    ensures { result ≡ capped (new_bytes changes.now) }
{
    let mut total = 0u64;
    for change in changes.as_slice() {
        total = total.saturating_add(size_if(&change.after));
    }
    total
}
