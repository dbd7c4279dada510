//! The bytes of the documents that are kept.
ghost use Rattle.std.specs.Prelude.{◌≡◌, min};
ghost use Rattle.std.specs.Arc.{arc_value};
ghost use Rattle.ejson_value.specs.Measure.{capped};
ghost use Rattle.collection_store.specs.Limits.{size_if};
ghost use Rattle.multiplexer.specs.Bounds.{bytes_told, counted_one};

use crate::entry::Told;
use ejson_value::{Doc, Publishes, document_size};

// More than this is not counted of one entry.
const MAX_COUNTED: u64 = 4_294_967_296;

fn size_if(doc: &Option<Doc>) -> u64
    ensures { result ≡ capped (size_if doc.now) }
{
    match doc {
        None => 0,
        Some(doc) => document_size(doc),
    }
}

// The bytes of the documents that are told; 2^64 - 1 where they have more.
fn bytes_told(told: &Publishes) -> u64
    ensures { result ≡ capped (bytes_told told.now) }
{
    let mut total = 0u64;
    for one in told.as_slice() {
        total = total.saturating_add(size_if(&one.new));
    }
    total
}

/// The bytes that are counted of what is told of an entry.
pub(crate) fn counted(told: &Told) -> u64
    ensures { result ≡ counted_one (arc_value told.now.news) }
{
    bytes_told(&told.news).min(MAX_COUNTED)
}
