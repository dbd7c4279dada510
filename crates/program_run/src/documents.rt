//! Documents that a step inserts.
ghost use Rattle.std.specs.Prelude.{◌≡◌, ◌++◌, ◌∷◌, [], true, false, None, Some, IfOk, codes, option_map, if◌then◌else◌};
ghost use Rattle.value_model.specs.Val.{fields_of};
ghost use Rattle.value_model.specs.Doc.{remove};
ghost use Rattle.value_model.specs.Branches.{field_of};
ghost use Rattle.ejson_value.specs.View.{view};
ghost use Rattle.program_model.specs.Run.{drawn_for, next_id, is_id, new_by, new_of, new_in};
ghost use Rattle.program_run.specs.Progress.{seen};
ghost use Rattle.program_run.specs.Planned.{ids_with};

use crate::filling::filled_in;
use crate::plan::Ids;
use crate::run::Run;
use ejson_value::{Doc, Mem, Names, Text, Value};
use program_reading::member;
use program_steps::Template;
use seed_ids::draw;
use std::alloc::Global;
use std::marker::Model;

const MAX_ID: usize = 256;

// As many ids as one seed draws. No program that is read has so many steps.
const MAX_DRAWN: usize = 4096;

/// A document that is to be inserted: its id, whether this was drawn, and its fields without `_id`.
#[derive(Drop)]
pub(crate) struct NewDocument {
    pub(crate) id: Text,
    pub(crate) is_drawn: bool,
    pub(crate) doc: Doc,
}

impl Model for NewDocument {
    ghost use Rattle.std.specs.Coded.{codes as all_codes};
    ghost use Rattle.value_model.specs.Coding.{val_code};
    ghost use Rattle.program_model.specs.Run.{New};

    ghost Value = { New };

    ghost coded = { Prim.hlevel (all_codes, val_code) };

    ghost view = { λ a. record { id = a.id; is_drawn = a.is_drawn; doc = a.doc } };
}

// How many ids the run has drawn for the collection.
fn drawn_for(run: &Run, collection: &Text) -> usize
    ensures { result ≡ drawn_for collection.now (seen run.now) }
{
    run.drawn()
        .as_slice()
        .iter()
        .filter(|name| name.as_str() == collection.as_str())
        .count()
}

fn next_id(alloc: Global, run: &Run, collection: &Text) -> Result<Text, Mem>
    ensures { IfOk result (λ id. id ≡ next_id (seen run.now) collection.now) }
{
    let count = drawn_for(run, collection);
    if count >= MAX_DRAWN {
        return Err(Mem);
    }
    draw(alloc, run.seed(), collection, count as u32)
}

/// Whether the text has as many bytes as an id of a document.
pub(crate) fn is_id(id: &Text) -> bool
    ensures { result ≡ is_id id.now }
{
    0 < id.len() && id.len() <= MAX_ID
}

fn without_id(alloc: Global, fields: &Doc) -> Result<Doc, Mem>
    ensures { IfOk result (λ doc. doc ≡ remove fields.now (codes "_id")) }
{
    let name = Text::from_str(alloc, "_id")?;
    fields.without(&name)
}

fn with_given_id(alloc: Global, fields: &Doc, id: &Text) -> Result<Option<NewDocument>, Mem>
    ensures { IfOk result
        (λ new. new ≡ (if is_id id.now then Some (record { id = id.now; is_drawn = false; doc = remove fields.now (codes "_id") }) else None)) }
{
    if !is_id(id) {
        return Ok(None);
    }
    let id = id.copy()?;
    Ok(Some(NewDocument {
        id,
        is_drawn: false,
        doc: without_id(alloc, fields)?,
    }))
}

fn with_drawn_id(
    alloc: Global,
    run: &Run,
    collection: &Text,
    fields: &Doc,
) -> Result<NewDocument, Mem>
    ensures { IfOk result (λ new. new ≡ record { id = next_id (seen run.now) collection.now; is_drawn = true; doc = fields.now }) }
{
    let id = next_id(alloc, run, collection)?;
    Ok(NewDocument {
        id,
        is_drawn: true,
        doc: fields.counted()?,
    })
}

fn new_by(
    alloc: Global,
    run: &Run,
    collection: &Text,
    fields: &Doc,
) -> Result<Option<NewDocument>, Mem>
    ensures { IfOk result (λ new. new ≡ new_by (next_id (seen run.now) collection.now) fields.now (field_of (fields_of fields.now) (codes "_id"))) }
{
    match member(alloc, fields, "_id")? {
        None => Ok(Some(with_drawn_id(alloc, run, collection, fields)?)),
        Some(Value::Text(id)) => with_given_id(alloc, fields, id),
        Some(_) => Ok(None),
    }
}

/// The document that the value is, with the id that the run draws next where it has no `_id`; None
/// where it is no document, or has another `_id` than a text of 1 to 256 bytes.
pub(crate) fn new_of(
    alloc: Global,
    run: &Run,
    collection: &Text,
    value: &Value,
) -> Result<Option<NewDocument>, Mem>
    ensures { IfOk result (λ new. new ≡ new_of (next_id (seen run.now) collection.now) (view value.now)) }
{
    match value {
        Value::Object(fields) => new_by(alloc, run, collection, fields),
        _ => Ok(None),
    }
}

/// The document that the template is filled to.
pub(crate) fn new_in(
    alloc: Global,
    run: &Run,
    collection: &Text,
    template: &Template,
) -> Result<Option<NewDocument>, Mem>
    ensures { IfOk result (λ new. new ≡ new_in (seen run.now) collection.now template.now) }
{
    match filled_in(alloc, run, template)? {
        Some(value) => new_of(alloc, run, collection, &value),
        None => Ok(None),
    }
}

fn with_name(names: &Names, name: &Text) -> Result<Names, Mem>
    ensures { IfOk result (λ ns. ns ≡ names.now ++ name.now ∷ []) }
{
    let name = name.copy()?;
    let mut names = names.copy()?;
    names.push(name)?;
    Ok(names)
}

fn drawn_with(run: &Run, collection: &Text, is_drawn: bool) -> Result<Names, Mem>
    ensures { IfOk result (λ ns. ns ≡ (if is_drawn then run.now.drawn ++ collection.now ∷ [] else run.now.drawn)) }
{
    if is_drawn {
        with_name(run.drawn(), collection)
    } else {
        run.drawn().copy()
    }
}

/// The ids of the run once it inserted the document.
pub(crate) fn ids_with(run: &Run, collection: &Text, new: &NewDocument) -> Result<Ids, Mem>
    ensures { IfOk result (λ ids. ids ≡ ids_with run.now collection.now new.now) }
{
    let made = with_name(run.made(), &new.id)?;
    Ok(Ids {
        made,
        drawn: drawn_with(run, collection, new.is_drawn)?,
    })
}
