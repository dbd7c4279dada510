//! Documents that an operation inserts.
ghost use Rattle.std.specs.Prelude.{◌≡◌, false, [], Some, None, IfOk, codes, if◌then◌else◌};
ghost use Rattle.value_model.specs.Doc.{get, remove};
ghost use Rattle.ejson_value.specs.View.{view};
ghost use Rattle.program_model.specs.Run.{is_id, new_by, new_of};
ghost use Rattle.history_model.specs.Operations.{insert_of};

use collection_store::Op;
use ejson_value::{Doc, Mem, Text, Value};
use std::alloc::Global;

const MAX_ID: usize = 256;

fn is_id(id: &Text) -> bool
    ensures { result ≡ is_id id.now }
{
    0 < id.len() && id.len() <= MAX_ID
}

fn insert_with(collection: &Text, id: &Text, fields: &Doc, name: &Text) -> Result<Option<Op>, Mem>
    ensures { IfOk result (λ o. o ≡ insert_of collection.now
        (if is_id id.now then Some (record { id = id.now; is_drawn = false; doc = remove fields.now name.now }) else None)) }
{
    if !is_id(id) {
        return Ok(None);
    }
    let collection = collection.copy()?;
    let id = id.copy()?;
    Ok(Some(Op::Insert {
        collection,
        id,
        doc: fields.without(name)?,
    }))
}

fn insert_by(alloc: Global, collection: &Text, fields: &Doc) -> Result<Option<Op>, Mem>
    ensures { IfOk result (λ o. o ≡ insert_of collection.now (new_by [] fields.now (get fields.now (codes "_id")))) }
{
    let name = Text::from_str(alloc, "_id")?;
    let Some(value) = fields.get(&name) else {
        return Ok(None);
    };
    match value {
        Value::Text(id) => insert_with(collection, id, fields, &name),
        _ => Ok(None),
    }
}

/// The insert of the value, None where it is no document with an `_id` of 1 to 256 bytes.
pub(crate) fn insert_in(alloc: Global, collection: &Text, value: &Value) -> Result<Option<Op>, Mem>
    ensures { IfOk result (λ o. o ≡ insert_of collection.now (new_of [] (view value.now))) }
{
    match value {
        Value::Object(fields) => insert_by(alloc, collection, fields),
        _ => Ok(None),
    }
}

// The insert of this document, which has no `_id` any more.
fn insert_under(collection: &Text, id: Text, mut doc: Doc) -> Result<Option<Op>, Mem>
    ensures { IfOk result (λ o. o ≡ insert_of collection.now (if is_id id then Some (record { id = id; is_drawn = false; doc = doc }) else None)) }
{
    if !is_id(&id) {
        return Ok(None);
    }
    doc.count();
    let collection = collection.copy()?;
    Ok(Some(Op::Insert {
        collection,
        id,
        doc,
    }))
}

fn insert_without_id(alloc: Global, collection: &Text, mut doc: Doc) -> Result<Option<Op>, Mem>
    ensures { IfOk result (λ o. o ≡ insert_of collection.now (new_by [] doc (get doc (codes "_id")))) }
{
    let name = Text::from_str(alloc, "_id")?;
    match doc.remove(&name)? {
        Some(Value::Text(id)) => insert_under(collection, id, doc),
        _ => Ok(None),
    }
}

/// The same of a value that goes: no field is copied.
pub(crate) fn insert_taken(
    alloc: Global,
    collection: &Text,
    value: Value,
) -> Result<Option<Op>, Mem>
    ensures { IfOk result (λ o. o ≡ insert_of collection.now (new_of [] (view value))) }
{
    match value {
        Value::Object(doc) => insert_without_id(alloc, collection, doc),
        _ => Ok(None),
    }
}
