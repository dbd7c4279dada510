//! Data messages: what a client is told of documents.
ghost use Rattle.std.specs.Prelude.{◌≡◌, Some, IfOk};
ghost use Rattle.map_model.specs.Differences.{between, changed_unless_same, new_fields, cleared};
ghost use Rattle.merge_model.specs.Kept.{merged_doc, merged_fields};
ghost use Rattle.value_model.specs.Order.{text_cmp};
ghost use Rattle.kept_document.specs.declared.held.Change.TheVariants.{Part};
ghost use Rattle.kept_document.specs.Held.{same_value};
ghost use Rattle.kept_document.specs.Changes.{IsFor, with_change};
ghost use Rattle.kept_document.specs.Saying.{Says};

use crate::differences::difference;
use crate::held::{Change, Held};
use crate::shared::Shared;
use ejson_value::{DataMsg, Doc, Key, Mem, Names};
use std::alloc::Global;

// The message, unless there is nothing to say.
fn unless_same(key: &Key, fields: Doc, cleared: Names) -> Result<Option<DataMsg>, Mem>
    ensures { IfOk result (Says key.now (changed_unless_same text_cmp same_value fields cleared)) }
{
    if fields.is_empty() && cleared.is_empty() {
        return Ok(None);
    }
    let key = key.copy()?;
    Ok(Some(DataMsg::Changed {
        key,
        fields,
        cleared,
    }))
}

// The message about a document that the client saw so before and sees so afterwards.
fn changed(alloc: Global, key: &Key, before: &Doc, after: &Doc) -> Result<Option<DataMsg>, Mem>
    ensures { IfOk result (Says key.now (between text_cmp same_value (Some before.now) (Some after.now))) }
{
    let (fields, names) = difference(alloc, before, after)?;
    unless_same(key, fields, names)
}

// The message about a document that somebody publishes before and afterwards.
fn changed_whole(alloc: Global, key: &Key, old: &Held, new: &Held) -> Result<Option<DataMsg>, Mem>
    ensures { IfOk result (Says key.now (between text_cmp same_value (Some (merged_fields old.now.fields)) (Some (merged_fields new.now.fields)))) }
{
    match (old.plain(), new.plain()) {
        (Some(before), Some(after)) => changed(alloc, key, before, after),
        _ => {
            let before = old.merged(alloc)?;
            let after = new.merged(alloc)?;
            changed(alloc, key, &before, &after)
        }
    }
}

// The message about a document after all that is kept of it has changed.
fn told_whole(alloc: Global, key: &Key, old: &Held, new: &Held) -> Result<Option<DataMsg>, Mem>
    ensures { IfOk result (Says key.now (between text_cmp same_value (merged_doc old.now) (merged_doc new.now))) }
{
    match (old.is_published(), new.is_published()) {
        (false, false) => Ok(None),
        (false, true) => {
            let fields = new.merged(alloc)?;
            let key = key.copy()?;
            Ok(Some(DataMsg::Added { key, fields }))
        }
        (true, false) => {
            let key = key.copy()?;
            Ok(Some(DataMsg::Removed { key }))
        }
        (true, true) => changed_whole(alloc, key, old, new),
    }
}

// The fields that the client did not see before, or saw otherwise.
fn fields_of_part(alloc: Global, old: &Shared, part: &Shared) -> Result<Doc, Mem>
    ensures { IfOk result (λ doc. doc ≡
        new_fields text_cmp same_value (merged_fields old.now.fields) (merged_fields (with_change old.now (Part part.now)).fields)) }
{
    old.known();
    part.known();
    let fields = part.new_fields(alloc, old)?;
    Ok(fields)
}

// The names of the fields that the client saw before, and sees no more.
fn cleared_by_part(alloc: Global, old: &Shared, part: &Shared) -> Result<Names, Mem>
    ensures { IfOk result (λ names. names ≡
        cleared text_cmp same_value (merged_fields old.now.fields) (merged_fields (with_change old.now (Part part.now)).fields)) }
{
    old.known();
    part.known();
    let names = part.cleared(alloc, old)?;
    Ok(names)
}

// The message about a document after the claims on some of its fields have changed.
fn told_part(alloc: Global, key: &Key, old: &Shared, part: &Shared) -> Result<Option<DataMsg>, Mem>
    ensures { IfOk result (Says key.now (between text_cmp same_value (merged_doc old.now) (merged_doc (with_change old.now (Part part.now))))) }
{
    old.known();
    part.known();
    let fields = fields_of_part(alloc, old, part)?;
    let names = cleared_by_part(alloc, old, part)?;
    unless_same(key, fields, names)
}

/// The message about a document after a change, if the client sees it otherwise then.
pub fn told(alloc: Global, key: &Key, old: &Held, change: &Change) -> Result<Option<DataMsg>, Mem>
    requires { IsFor old.now change.now }
    ensures { IfOk result (Says key.now (between text_cmp same_value (merged_doc old.now) (merged_doc (with_change old.now change.now)))) }
{
    match (change, old.shared()) {
        (Change::Whole(new), _) => told_whole(alloc, key, old, new),
        (Change::Part(part), Some(old)) => told_part(alloc, key, old, part),
        (Change::Part(_), None) => Ok(None),
    }
}
