//! How large and how deep documents may be.
ghost use Rattle.std.specs.Prelude.{◌≡◌, ◌||◌, nat_lt};
ghost use Rattle.value_model.specs.Depth.{depth};
ghost use Rattle.value_model.specs.Size.{size};
ghost use Rattle.collection_store.specs.Limits.{document, max_document_size, max_document_depth, is_too_large};

use ejson_value::{Doc, document_depth, document_size};

const MAX_DOCUMENT_SIZE: u64 = 1_048_576;

const MAX_DOCUMENT_DEPTH: u64 = 32;

fn is_too_long(doc: &Doc) -> bool
    ensures { result ≡ nat_lt max_document_size (size (document doc.now)) }
{
    document_size(doc) > MAX_DOCUMENT_SIZE
}

fn is_too_deep(doc: &Doc) -> bool
    ensures { result ≡ nat_lt max_document_depth (depth (document doc.now)) }
{
    document_depth(doc) > MAX_DOCUMENT_DEPTH
}

/// Whether the document is past 1,048,576 bytes or 32 levels.
pub(crate) fn is_too_large(doc: &Doc) -> bool
    ensures { result ≡ is_too_large doc.now }
{
    is_too_long(doc) || is_too_deep(doc)
}
