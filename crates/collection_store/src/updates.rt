//! What is made of the documents that were found.
ghost use Rattle.std.specs.Prelude.{◌≡◌, map, Some, IfOk};
ghost use Rattle.modifier_apply.specs.Modified.{modified, refusal_number};
ghost use Rattle.std.specs.Map.{keys_of};
ghost use Rattle.ejson_value.specs.View.{view};
ghost use Rattle.collection_store.specs.Outcome.{Gives};
ghost use Rattle.collection_store.specs.Applied.{by_number, or_refused, updated, all_updated, removal, number_of, plan_for};
ghost use Rattle.collection_store.specs.Answered.{plan_of};
ghost use Rattle.collection_store.specs.Finding.{row_of, rows_in};

use crate::documents::is_too_large;
use crate::fault::OpFault;
use crate::finding::Match;
use crate::operation::Reply;
use ejson_value::{Change, Changes, Doc, Keys, Mem, Value, Whole, same_documents};
use modifier_apply::{ApplyFault, Modifier, apply};
use std::alloc::Global;

fn refused(fault: ApplyFault) -> OpFault
    ensures { result ≡ by_number (refusal_number fault) }
{
    match fault.number() {
        Some(number) => OpFault::Modifier(number),
        None => OpFault::Memory,
    }
}

// What the modifier makes of the document.
fn changed(alloc: Global, modifier: &Modifier, found: &Match) -> Result<Doc, OpFault>
    ensures { Gives (λ doc. doc) result (or_refused (modified modifier.now found.now.key.id found.now.doc.now)) }
{
    match apply(alloc, modifier, &found.key.id, found.doc) {
        Ok(doc) => Ok(doc),
        Err(fault) => Err(refused(fault)),
    }
}

fn change_to(found: &Match, doc: Doc) -> Result<Change, Mem>
    ensures { IfOk result (λ change. change ≡ record { key = found.now.key; before = Some found.now.doc.now; after = Some doc }) }
{
    Ok(Change {
        key: found.key.copy()?,
        before: Some(found.doc.copy()?),
        after: Some(doc),
    })
}

// The change that the modifier makes, None where the document stays as it is.
fn updated(alloc: Global, modifier: &Modifier, found: &Match) -> Result<Option<Change>, OpFault>
    ensures { Gives (λ change. change) result (updated modifier.now (row_of found.now)) }
{
    let doc = changed(alloc, modifier, found)?;
    if is_too_large(&doc) {
        return Err(OpFault::TooLarge);
    }
    if same_documents(found.doc, &doc) {
        return Ok(None);
    }
    Ok(Some(change_to(found, doc)?))
}

/// The changes that the modifier makes of the documents, one after another, up to the first refusal.
pub(crate) fn all_updated(
    alloc: Global,
    modifier: &Modifier,
    found: &[Match],
) -> Result<Changes, OpFault>
    ensures { Gives (λ changes. changes) result (all_updated modifier.now (rows_in found.now)) }
{
    let mut changes = Changes::new(alloc);
    for one in found {
        match updated(alloc, modifier, one)? {
            Some(change) => changes.push(change)?,
            None => {}
        }
    }
    Ok(changes)
}

fn removal(found: &Match) -> Result<Change, Mem>
    ensures { IfOk result (λ change. change ≡ removal (row_of found.now)) }
{
    Ok(Change {
        key: found.key.copy()?,
        before: Some(found.doc.copy()?),
        after: None,
    })
}

/// The changes that take the documents out.
pub(crate) fn all_removed(alloc: Global, found: &[Match]) -> Result<Changes, Mem>
    ensures { IfOk result (λ changes. changes ≡ map removal (rows_in found.now)) }
{
    let mut changes = Changes::new(alloc);
    for one in found {
        changes.push(removal(one)?)?;
    }
    Ok(changes)
}

// The documents' keys.
fn keys(alloc: Global, found: &[Match]) -> Result<Keys, Mem>
    ensures { IfOk result (λ keys. keys ≡ keys_of (rows_in found.now)) }
{
    let mut keys = Keys::new(alloc);
    for one in found {
        keys.push(one.key.copy()?)?;
    }
    Ok(keys)
}

// The number as an answer. Past 2^53 - 1, which no number of documents in memory is, it answers want
// of memory.
fn number(count: usize) -> Result<Value, Mem>
    ensures { IfOk result (λ value. view value ≡ number_of count) }
{
    let Ok(count) = i64::try_from(count) else {
        return Err(Mem);
    };
    match Whole::of(count) {
        Some(whole) => Ok(Value::Int(whole)),
        None => Err(Mem),
    }
}

/// The reply that tells these changes of the documents that were found.
pub(crate) fn reply(alloc: Global, changes: Changes, found: &[Match]) -> Result<Reply, Mem>
    ensures { IfOk result (λ reply. plan_of reply ≡ plan_for (rows_in found.now) changes) }
{
    let touched = keys(alloc, found)?;
    let answer = number(found.len())?;
    Ok(Reply {
        changes,
        touched,
        answer,
    })
}
