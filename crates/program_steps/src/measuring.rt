//! How deep and how large a template is once it is filled, counted with nothing filled in.
ghost use Rattle.std.specs.Prelude.{◌≡◌, ok_or, map, IfOk};
ghost use Rattle.value_model.specs.Val.{text, vals_of, fields_of};
ghost use Rattle.value_model.specs.Size.{is_special, names_of};
ghost use Rattle.ejson_value.specs.View.{view};
ghost use Rattle.ejson_value.specs.Results.{made};
ghost use Rattle.program_steps.specs.declared.fault.FillFault.TheVariants.{NoParam};
ghost use Rattle.program_steps.specs.Template.{placeholder_in, nth, filling, Gives};
ghost use Rattle.program_steps.specs.Measuring.{extent_of, list_extent, object_extent, item_behind, field_behind, placed, measuring, items_measuring};
ghost use Rattle.program_steps.specs.Measuring.{fields_measuring, past_limits};

use crate::fault::FillFault;
use crate::template::{Placeholder, placeholder_in};
use ejson_value::{Doc, Items, Mem, Names, Text, Value, depth, size};
use std::alloc::Global;

const MAX_DEPTH: u64 = 32;

const MAX_SIZE: u64 = 1_048_576;

// How deep a value is, and how many bytes its text has, each 2^64 - 1 where it is more.
#[derive(Clone, Copy)]
pub(crate) struct Extent {
    depth: u64,
    size: u64,
}

fn extent_of(value: &Value) -> Extent
    ensures { result ≡ extent_of (view value.now) }
{
    Extent {
        depth: depth(value),
        size: size(value),
    }
}

fn extents_of_params(alloc: Global, params: &Items) -> Result<Vec<Extent>, Mem>
    ensures { IfOk result (λ extents. extents.items ≡ map extent_of params.now) }
{
    let mut extents = Vec::new(alloc);
    for param in params.as_slice() {
        extents.push(extent_of(param))?;
    }
    Ok(extents)
}

fn extent_of_text(written: &Text) -> Result<Extent, Mem>
    ensures { IfOk result (λ e. e ≡ extent_of (text written.now)) }
{
    Ok(extent_of(&Value::Text(written.copy()?)))
}

fn extents_of_ids(alloc: Global, ids: &Names) -> Result<Vec<Extent>, Mem>
    ensures { IfOk result (λ extents. extents.items ≡ map (λ id. extent_of (text id)) ids.now) }
{
    let mut extents = Vec::new(alloc);
    for id in ids.as_slice() {
        extents.push(extent_of_text(id)?)?;
    }
    Ok(extents)
}

fn nth(extents: &[Extent], number: i64) -> Result<Extent, FillFault>
    ensures { Gives (λ e. e) result (ok_or (nth extents.now number) NoParam) }
{
    if number < 0 {
        return Err(FillFault::NoParam);
    }
    match extents.get(number as usize) {
        None => Err(FillFault::NoParam),
        Some(extent) => Ok(*extent),
    }
}

fn list_extent(inside: Extent) -> Extent
    ensures { result ≡ list_extent inside }
{
    Extent {
        depth: inside.depth.saturating_add(1),
        size: inside.size.saturating_add(1).max(2),
    }
}

fn object_extent(is_special: bool, inside: Extent) -> Extent
    ensures { result ≡ object_extent is_special inside }
{
    let plain = list_extent(inside);
    if is_special {
        Extent {
            depth: plain.depth,
            size: plain.size.saturating_add(12),
        }
    } else {
        plain
    }
}

// The elements so far, and one more.
fn with_item(so_far: Extent, item: Extent) -> Extent
    ensures { result ≡ item_behind so_far item }
{
    Extent {
        depth: so_far.depth.max(item.depth),
        size: so_far.size.saturating_add(1).saturating_add(item.size),
    }
}

fn with_field(so_far: Extent, name: Extent, value: Extent) -> Extent
    ensures { result ≡ field_behind so_far name value }
{
    Extent {
        depth: so_far.depth.max(value.depth),
        size: so_far
            .size
            .saturating_add(2)
            .saturating_add(name.size)
            .saturating_add(value.size),
    }
}

#[cycle(measuring)]
fn measure_value(template: &Value, params: &[Extent], ids: &[Extent]) -> Result<Extent, FillFault>
    ensures { Gives (λ e. e) result (measuring params.now ids.now (view template.now)) }
{
    match template {
        Value::List(items) => Ok(list_extent(measure_items(items, params, ids)?)),
        Value::Object(fields) => measure_object(fields, params, ids),
        _ => Ok(extent_of(template)),
    }
}

#[cycle(measuring)]
fn measure_object(fields: &Doc, params: &[Extent], ids: &[Extent]) -> Result<Extent, FillFault>
    ensures { Gives (λ e. e) result (placed params.now ids.now (placeholder_in (fields_of fields.now))
        (made (object_extent (is_special (names_of (fields_of fields.now)))) (fields_measuring params.now ids.now (fields_of fields.now)))) }
{
    match placeholder_in(fields) {
        Some(Placeholder::Parameter(number)) => nth(params, number),
        Some(Placeholder::MadeId(number)) => nth(ids, number),
        None => Ok(object_extent(
            fields.has_special_names(),
            measure_fields(fields, params, ids)?,
        )),
    }
}

#[cycle(measuring)]
fn measure_items(items: &Items, params: &[Extent], ids: &[Extent]) -> Result<Extent, FillFault>
    ensures { Gives (λ e. e) result (items_measuring params.now ids.now (vals_of items.now)) }
{
    let mut so_far = Extent { depth: 0, size: 0 };
    for item in items.as_slice() {
        let extent = measure_value(item, params, ids)?;
        so_far = with_item(so_far, extent);
    }
    Ok(so_far)
}

#[cycle(measuring)]
fn measure_fields(fields: &Doc, params: &[Extent], ids: &[Extent]) -> Result<Extent, FillFault>
    ensures { Gives (λ e. e) result (fields_measuring params.now ids.now (fields_of fields.now)) }
{
    let mut so_far = Extent { depth: 0, size: 0 };
    for (name, value) in fields.iter() {
        let extent = measure_value(value, params, ids)?;
        so_far = with_field(so_far, extent_of_text(name)?, extent);
    }
    Ok(so_far)
}

// The extent of the template once it is filled, at a cost of the template's, the parameters' and
// the ids' length.
pub(crate) fn measure(
    alloc: Global,
    template: &Value,
    params: &Items,
    ids: &Names,
) -> Result<Extent, FillFault>
    ensures { Gives (λ e. e) result (made extent_of (filling params.now ids.now (view template.now))) }
{
    let params = extents_of_params(alloc, params)?;
    let ids = extents_of_ids(alloc, ids)?;
    measure_value(template, &params, &ids)
}

// Which limit is passed.
pub(crate) fn past_limits(extent: Extent) -> Option<FillFault>
    ensures { result ≡ past_limits extent }
{
    if extent.depth > MAX_DEPTH {
        Some(FillFault::TooDeep)
    } else if extent.size > MAX_SIZE {
        Some(FillFault::TooLarge)
    } else {
        None
    }
}
