//! Sums of the bytes of documents.
ghost use Rattle.std.specs.Prelude.{◌≡◌, ◌+◌, ◌-◌, ◌^◌, ◌<◌, IfOk, IsTrue};
ghost use Rattle.std.specs.Option.{option_copied};
ghost use Rattle.value_model.specs.Size.{size, escape_wrapper};
ghost use Rattle.ejson_value.specs.Measure.{capped};
ghost use Rattle.collection_store.specs.Limits.{document, size_if, old_bytes, new_bytes, bytes_of};

use ejson_value::{Changes, Contents, Doc, Mem, document_size};

/// The bytes of the document, none where there is none; 2^64 - 1 where it has more.
pub(crate) fn size_if(doc: Option<&Doc>) -> u64
    ensures { result ≡ capped (size_if (option_copied doc.entry)) }
{
    match doc {
        None => 0,
        Some(doc) => document_size(doc),
    }
}

/// The bytes of a document that goes, none where there is none; 2^64 - 1 where it has more.
pub(crate) fn freed(doc: Option<Doc>) -> u64
    ensures { result ≡ capped (size_if doc) }
{
    size_if(doc.as_ref())
}

fn old_bytes(changes: &Changes) -> u64
    ensures { result ≡ capped (old_bytes changes.now) }
{
    let mut total = 0u64;
    for change in changes.as_slice() {
        total = total.saturating_add(size_if(change.before.as_ref()));
    }
    total
}

fn new_bytes(changes: &Changes) -> u64
    ensures { result ≡ capped (new_bytes changes.now) }
{
    let mut total = 0u64;
    for change in changes.as_slice() {
        total = total.saturating_add(size_if(change.after.as_ref()));
    }
    total
}

/// This many bytes with those of what comes, which has fewer than 2^64 - 1 where it fits in memory.
pub(crate) fn bytes_with(bytes: u64, new: u64) -> Result<u64, Mem>
    ensures { IfOk result (λ both. (new < 2 ^ 64 - 1) × (both ≡ bytes + new)) }
{
    if new == u64::MAX {
        return Err(Mem);
    }
    bytes.checked_add(new).ok_or(Mem)
}

/// The most bytes by which a document grows into which these fields are put, 2^64 - 1 where they are more.
pub(crate) fn most_more(fields: &Doc) -> u64
    ensures { result ≡ capped (size (document fields.now) + escape_wrapper) }
{
    document_size(fields).saturating_add(12)
}

/// Whether so many bytes may come to these, all of which are fewer than 2^64 - 1 then.
pub(crate) fn has_room(bytes: u64, new: u64) -> bool
    ensures { IsTrue result → bytes + new < 2 ^ 64 - 1 }
{
    new < u64::MAX - bytes
}

// This many bytes, less those of documents that go, and with those of documents that come. Documents
// that fit in memory have fewer than 2^64 - 1 bytes.
fn exchanged(bytes: u64, old: u64, new: u64) -> Result<u64, Mem>
    ensures { IfOk result (λ after. (old < 2 ^ 64 - 1) × (new < 2 ^ 64 - 1) × (after + old ≡ bytes + new)) }
{
    if old == u64::MAX {
        return Err(Mem);
    }
    bytes_with(bytes, new)?.checked_sub(old).ok_or(Mem)
}

/// The bytes of the documents once the changes are made, where there were this many before.
pub fn bytes_after(bytes: u64, changes: &Changes) -> Result<u64, Mem>
    ensures { IfOk result (λ after. after + old_bytes changes.now ≡ bytes + new_bytes changes.now) }
{
    exchanged(bytes, old_bytes(changes), new_bytes(changes))
}

/// The bytes of all documents. Those of documents that fit in memory are below 2^64. It looks once
/// at each document.
pub fn bytes_in(contents: &Contents) -> Result<u64, Mem>
    ensures { IfOk result (λ bytes. bytes ≡ bytes_of contents.now) }
{
    let mut total = 0u64;
    for (_, doc) in contents.iter() {
        total = total.saturating_add(document_size(doc));
    }
    if total == u64::MAX {
        Err(Mem)
    } else {
        Ok(total)
    }
}
