//! Templates.
ghost use Rattle.std.specs.Prelude.{◌≡◌, Option, Some, ok_or, option_map, IfOk};
ghost use Rattle.value_model.specs.Val.{text, list, object, vals_of, fields_of};
ghost use Rattle.ejson_value.specs.View.{view};
ghost use Rattle.ejson_value.specs.Results.{made};
ghost use Rattle.program_steps.specs.declared.fault.FillFault.TheVariants.{NoParam};
ghost use Rattle.program_steps.specs.Template.{placeholder_named, placeholder_in, nth, in_place, filling, items_filling, fields_filling, filled};
ghost use Rattle.program_steps.specs.Template.{if_short, short_in_place, filled_short, Gives};

use crate::fault::FillFault;
use crate::measuring::{measure, past_limits};
use ejson_value::{Doc, Items, Mem, Names, Text, Value, copy, depth, size};
use std::alloc::Global;
use std::marker::Model;

/// A value in which `{"$param":n}` stands for the n-th parameter of a call, from 0, and `{"$made":n}`
/// for the n-th id that its run made. A contract sees its value.
#[derive(Drop)]
pub struct Template {
    pub value: Value,
}

impl Model for Template {
    ghost use Rattle.value_model.specs.Val.{Val};
    ghost use Rattle.value_model.specs.Coding.{val_code};

    ghost Value = { Val };

    ghost coded = { val_code };

    ghost use Rattle.ejson_value.specs.View.{view as seen_as};

    ghost view = { λ a. seen_as a.value };
}

// What an object stands for.
#[derive(Clone, Copy)]
pub(crate) enum Placeholder {
    Parameter(i64),
    MadeId(i64),
}

fn placeholder_named(name: &Text, number: i64) -> Option<Placeholder>
    ensures { result ≡ placeholder_named name.now number }
{
    match name.as_str() {
        "$param" => Some(Placeholder::Parameter(number)),
        "$made" => Some(Placeholder::MadeId(number)),
        _ => None,
    }
}

pub(crate) fn placeholder_in(fields: &Doc) -> Option<Placeholder>
    ensures { result ≡ placeholder_in (fields_of fields.now) }
{
    let mut members = fields.iter();
    let Some((name, value)) = members.next() else {
        return None;
    };
    if members.next().is_some() {
        return None;
    }
    let Value::Int(number) = value else {
        return None;
    };
    placeholder_named(name, number.get())
}

fn parameter(params: &Items, number: i64) -> Result<Value, FillFault>
    ensures { Gives view result (ok_or (nth params.now number) NoParam) }
{
    if number < 0 {
        return Err(FillFault::NoParam);
    }
    match params.get(number as usize) {
        None => Err(FillFault::NoParam),
        Some(value) => Ok(copy(value)?),
    }
}

fn made_id(ids: &Names, number: i64) -> Result<Value, FillFault>
    ensures { Gives view result (ok_or (option_map text (nth ids.now number)) NoParam) }
{
    if number < 0 {
        return Err(FillFault::NoParam);
    }
    match ids.get(number as usize) {
        None => Err(FillFault::NoParam),
        Some(id) => Ok(Value::Text(id.copy()?)),
    }
}

#[cycle(filling)]
fn fill_value(
    alloc: Global,
    template: &Value,
    params: &Items,
    ids: &Names,
) -> Result<Value, FillFault>
    ensures { Gives view result (filling params.now ids.now (view template.now)) }
{
    match template {
        Value::List(items) => Ok(Value::List(fill_items(alloc, items, params, ids)?)),
        Value::Object(fields) => fill_object(alloc, fields, params, ids),
        _ => Ok(copy(template)?),
    }
}

#[cycle(filling)]
fn fill_object(alloc: Global, fields: &Doc, params: &Items, ids: &Names) -> Result<Value, FillFault>
    ensures { Gives view result
        (in_place params.now ids.now (placeholder_in (fields_of fields.now)) (made object (fields_filling params.now ids.now (fields_of fields.now)))) }
{
    match placeholder_in(fields) {
        Some(Placeholder::Parameter(number)) => parameter(params, number),
        Some(Placeholder::MadeId(number)) => made_id(ids, number),
        None => Ok(Value::Object(fill_fields(alloc, fields, params, ids)?)),
    }
}

#[cycle(filling)]
fn fill_items(alloc: Global, items: &Items, params: &Items, ids: &Names) -> Result<Items, FillFault>
    ensures { Gives (λ vs. vals_of vs) result (items_filling params.now ids.now (vals_of items.now)) }
{
    let mut filled = Items::new(alloc);
    for item in items.as_slice() {
        let value = fill_value(alloc, item, params, ids)?;
        filled.push(value)?;
    }
    Ok(filled)
}

#[cycle(filling)]
fn fill_fields(alloc: Global, fields: &Doc, params: &Items, ids: &Names) -> Result<Doc, FillFault>
    ensures { Gives (λ es. fields_of es) result (fields_filling params.now ids.now (fields_of fields.now)) }
{
    let mut filled = Doc::new(alloc);
    for (name, value) in fields.iter() {
        let value = fill_value(alloc, value, params, ids)?;
        filled.put(name.copy()?, value)?;
    }
    Ok(filled)
}

impl Template {
    /// The value with each placeholder replaced: by a parameter, or by an id that was made. It has at
    /// most 32 levels and 1,048,576 bytes as EJSON text. What would be deeper or larger is refused
    /// before anything is filled in.
    pub fn fill(&self, alloc: Global, params: &Items, made: &Names) -> Result<Value, FillFault>
        ensures { Gives view result (filled params.now made.now self.now) }
    {
        let extent = measure(alloc, &self.value, params, made)?;
        if let Some(fault) = past_limits(extent) {
            return Err(fault);
        }
        fill_value(alloc, &self.value, params, made)
    }

    /// A template equal to this one.
    pub fn copy(&self) -> Result<Template, Mem>
        ensures { IfOk result (λ t. t ≡ self.now) }
    {
        Ok(Template {
            value: copy(&self.value)?,
        })
    }
}

const MAX_SHORT: u64 = 8192;

// A copy of a value that holds no others and is short.
fn short(value: &Value) -> Result<Option<Value>, Mem>
    ensures { IfOk result (λ o. option_map view o ≡ if_short (view value.now)) }
{
    if depth(value) > 0 || size(value) > MAX_SHORT {
        return Ok(None);
    }
    Ok(Some(copy(value)?))
}

// The parameter of this number, from 0.
fn param_at(params: &Items, number: i64) -> Option<&Value>
    ensures { option_map (λ v. view v.now) result ≡ nth params.now number }
{
    if number < 0 {
        return None;
    }
    params.get(number as usize)
}

// What stands for the object, where that is a short parameter.
fn short_param(fields: &Doc, params: &Items) -> Result<Option<Value>, Mem>
    ensures { IfOk result (λ o. option_map view o ≡ short_in_place params.now (placeholder_in (fields_of fields.now))) }
{
    let Some(Placeholder::Parameter(number)) = placeholder_in(fields) else {
        return Ok(None);
    };
    match param_at(params, number) {
        None => Ok(None),
        Some(value) => short(value),
    }
}

/// What the template is filled to, where that is a short value with no others in it and depends on no
/// id that was made.
pub fn fill_short(template: &Value, params: &Items) -> Result<Option<Value>, Mem>
    ensures { IfOk result (λ o. option_map view o ≡ filled_short params.now (view template.now)) }
{
    match template {
        Value::Object(fields) => short_param(fields, params),
        Value::List(_) => Ok(None),
        _ => short(template),
    }
}
