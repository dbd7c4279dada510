//! Sums over changes.
ghost use Rattle.std.specs.Prelude.{◌≡◌};
ghost use Rattle.ejson_value.specs.Measure.{capped};
ghost use Rattle.collection_store.specs.Limits.{size_if, old_bytes, new_bytes};

use ejson_value::{Changes, Doc, document_size};

fn size_if(doc: &Option<Doc>) -> u64
    ensures { result ≡ capped (size_if doc.now) }
{
    match doc {
        None => 0,
        Some(doc) => document_size(doc),
    }
}

/// The bytes of the documents before the changes, 2^64 - 1 where there are more.
pub(crate) fn old_bytes(changes: &Changes) -> u64
    ensures { result ≡ capped (old_bytes changes.now) }
{
    let mut total = 0u64;
    for change in changes.as_slice() {
        total = total.saturating_add(size_if(&change.before));
    }
    total
}

/// The bytes of the documents after the changes, 2^64 - 1 where there are more.
pub(crate) fn new_bytes(changes: &Changes) -> u64
    ensures { result ≡ capped (new_bytes changes.now) }
{
    let mut total = 0u64;
    for change in changes.as_slice() {
        total = total.saturating_add(size_if(&change.after));
    }
    total
}
