//! Projections of documents.
ghost use Rattle.std.specs.Prelude.{◌≡◌, ◌++◌, option_map, option_to_list, IfOk, OnOk};
ghost use Rattle.value_model.specs.Val.{fields_of, vals_of};
ghost use Rattle.ejson_value.specs.View.{view};
ghost use Rattle.publication.specs.Parts.{paths_in, below, IsRising, AreSorted, paths_of, put_some};
ghost use Rattle.publication.specs.Projected.{whole_if, value_projected, elements_projected, fields_projected, at_field, projected};

use crate::paths::{ends_here, named, next_level, sorted_paths};
use app_model::Projection;
use ejson_value::{Doc, Items, Mem, Part, Text, Value, copy};
use std::alloc::Global;

fn whole_if(whole: bool, value: &Value) -> Result<Option<Value>, Mem>
    ensures { IfOk result (λ v. option_map view v ≡ whole_if whole (view value.now)) }
{
    if whole {
        Ok(Some(copy(value)?))
    } else {
        Ok(None)
    }
}

fn push_some(items: &mut Items, value: Option<Value>) -> Result<(), Mem>
    ensures { OnOk result (items.new ≡ items.old ++ option_to_list (option_map view value)) }
{
    match value {
        None => Ok(()),
        Some(value) => items.push(value),
    }
}

fn put_some(doc: &mut Doc, name: &Text, value: Option<Value>) -> Result<(), Mem>
    ensures { OnOk result (doc.new ≡ put_some doc.old name.now (option_map view value)) }
{
    match value {
        None => Ok(()),
        Some(value) => doc.put(name.copy()?, value),
    }
}

// What paths that go on in the value leave of it.
#[cycle(projecting)]
fn project_value(
    alloc: Global,
    including: bool,
    level: usize,
    paths: &[&[Part]],
    value: &Value,
) -> Result<Option<Value>, Mem>
    requires { IsRising (below level (paths_in paths.now)) }
    ensures { IfOk result (λ v. option_map view v ≡ value_projected including (below level (paths_in paths.now)) (view value.now)) }
{
    match value {
        Value::Object(fields) => Ok(Some(Value::Object(project_fields(
            alloc, including, level, paths, fields,
        )?))),
        Value::List(items) => Ok(Some(Value::List(project_items(
            alloc, including, level, paths, items,
        )?))),
        _ => whole_if(!including, value),
    }
}

#[cycle(projecting)]
fn project_items(
    alloc: Global,
    including: bool,
    level: usize,
    paths: &[&[Part]],
    items: &Items,
) -> Result<Items, Mem>
    requires { IsRising (below level (paths_in paths.now)) }
    ensures { IfOk result (λ vs. vals_of vs ≡ elements_projected including (below level (paths_in paths.now)) (vals_of items.now)) }
{
    let mut left = Items::new(alloc);
    for item in items.as_slice() {
        let value = project_value(alloc, including, level, paths, item)?;
        push_some(&mut left, value)?;
    }
    Ok(left)
}

#[cycle(projecting)]
fn project_fields(
    alloc: Global,
    including: bool,
    level: usize,
    paths: &[&[Part]],
    fields: &Doc,
) -> Result<Doc, Mem>
    requires { IsRising (below level (paths_in paths.now)) }
    ensures { IfOk result (λ es. fields_of es ≡ fields_projected including (below level (paths_in paths.now)) (fields_of fields.now)) }
{
    let mut left = Doc::new(alloc);
    for (name, value) in fields.iter() {
        let value = project_field(alloc, including, level, paths, name, value)?;
        put_some(&mut left, name, value)?;
    }
    Ok(left)
}

// What is left of one field.
#[cycle(projecting)]
fn project_field(
    alloc: Global,
    including: bool,
    level: usize,
    paths: &[&[Part]],
    name: &Text,
    value: &Value,
) -> Result<Option<Value>, Mem>
    requires { IsRising (below level (paths_in paths.now)) }
    ensures { IfOk result (λ v. option_map view v ≡ at_field including (below level (paths_in paths.now)) name.now (view value.now)) }
{
    let rests = named(name, level, paths);
    match next_level(level, rests) {
        None => whole_if(!including, value),
        Some(next) => {
            if ends_here(next, rests) {
                whole_if(including, value)
            } else {
                project_value(alloc, including, next, rests, value)
            }
        }
    }
}

fn project_all(alloc: Global, including: bool, paths: &[&[Part]], doc: &Doc) -> Result<Doc, Mem>
    requires { IsRising (paths_in paths.now) }
    ensures { IfOk result (λ es. fields_of es ≡ fields_projected including (paths_in paths.now) (fields_of doc.now)) }
{
    project_fields(alloc, including, 0, paths, doc)
}

// What the projection, whose paths these are in order, leaves of a document.
pub(crate) fn project_by(
    alloc: Global,
    projection: &Projection,
    paths: &[&[Part]],
    doc: &Doc,
) -> Result<Doc, Mem>
    requires { AreSorted (paths_of projection.now) (paths_in paths.now) }
    ensures { IfOk result (λ es. fields_of es ≡ projected projection.now (fields_of doc.now)) }
{
    match projection {
        Projection::All => doc.copy(),
        Projection::Only(_) => project_all(alloc, true, paths, doc),
        Projection::Without(_) => project_all(alloc, false, paths, doc),
    }
}

/// What the projection leaves of a document. A path goes into each element of a list on its way,
/// and not into a value of a user type. At each field the paths that begin with it are found by
/// halves.
pub fn project(alloc: Global, projection: &Projection, doc: &Doc) -> Result<Doc, Mem>
    ensures { IfOk result (λ es. fields_of es ≡ projected projection.now (fields_of doc.now)) }
{
    let paths = sorted_paths(alloc, projection)?;
    project_by(alloc, projection, &paths, doc)
}
