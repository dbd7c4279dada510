//! Operations.
ghost use Rattle.std.specs.Prelude.{◌≡◌, ◌∷◌, [], IfOk};
ghost use Rattle.ejson_value.specs.View.{view, views};
ghost use Rattle.selector_match.specs.Reading.{reading as selector_reading};
ghost use Rattle.modifier_apply.specs.Reading.{reading as modifier_reading};
ghost use Rattle.program_model.specs.Run.{if_ok};
ghost use Rattle.history_model.specs.Operations.{update_in, remove_of, operation_named, operation_in};

use crate::documents::insert_in;
use collection_store::Op;
use ejson_value::{Items, Mem, Text, Value};
use modifier_apply::{Modifier, ModifierFault};
use selector_match::{Selector, SelectorFault};
use std::alloc::Global;

fn read_selector(alloc: Global, value: &Value) -> Result<Option<Selector>, Mem>
    ensures { IfOk result (λ o. o ≡ if_ok (selector_reading (view value.now))) }
{
    match Selector::read(alloc, value) {
        Ok(selector) => Ok(Some(selector)),
        Err(SelectorFault::NotObject) => Ok(None),
        Err(SelectorFault::UnknownOperator) => Ok(None),
        Err(SelectorFault::BadOperand) => Ok(None),
        Err(SelectorFault::Memory) => Err(Mem),
    }
}

fn read_modifier(alloc: Global, value: &Value) -> Result<Option<Modifier>, Mem>
    ensures { IfOk result (λ o. o ≡ if_ok (modifier_reading (view value.now))) }
{
    match Modifier::read(alloc, value) {
        Ok(modifier) => Ok(Some(modifier)),
        Err(ModifierFault::NotObject) => Ok(None),
        Err(ModifierFault::UnknownOperator) => Ok(None),
        Err(ModifierFault::BadOperand) => Ok(None),
        Err(ModifierFault::Memory) => Err(Mem),
    }
}

/// The removal by the selector, None where this is none.
pub(crate) fn remove_in(
    alloc: Global,
    collection: &Text,
    selector: &Value,
) -> Result<Option<Op>, Mem>
    ensures { IfOk result (λ o. o ≡ remove_of collection.now (view selector.now)) }
{
    let collection = collection.copy()?;
    match read_selector(alloc, selector)? {
        Some(selector) => Ok(Some(Op::Remove {
            collection,
            selector,
        })),
        None => Ok(None),
    }
}

/// The update by the selector and the modifier, None where one of them is none.
pub(crate) fn update_in(
    alloc: Global,
    collection: &Text,
    all: bool,
    selector: &Value,
    modifier: &Value,
) -> Result<Option<Op>, Mem>
    ensures { IfOk result (λ o. o ≡ update_in collection.now all (view selector.now) (view modifier.now)) }
{
    let collection = collection.copy()?;
    let Some(selector) = read_selector(alloc, selector)? else {
        return Ok(None);
    };
    let Some(modifier) = read_modifier(alloc, modifier)? else {
        return Ok(None);
    };
    Ok(Some(Op::Update {
        collection,
        selector,
        modifier,
        all,
    }))
}

fn of_one(alloc: Global, name: &Text, collection: &Text, value: &Value) -> Result<Option<Op>, Mem>
    ensures { IfOk result (λ o. o ≡ operation_named name.now collection.now (view value.now ∷ [])) }
{
    if name.as_str() == "insert" {
        insert_in(alloc, collection, value)
    } else if name.as_str() == "remove" {
        remove_in(alloc, collection, value)
    } else {
        Ok(None)
    }
}

fn of_two(
    alloc: Global,
    name: &Text,
    collection: &Text,
    selector: &Value,
    modifier: &Value,
) -> Result<Option<Op>, Mem>
    ensures { IfOk result (λ o. o ≡ operation_named name.now collection.now (view selector.now ∷ view modifier.now ∷ [])) }
{
    if name.as_str() == "update" {
        update_in(alloc, collection, false, selector, modifier)
    } else if name.as_str() == "updateAll" {
        update_in(alloc, collection, true, selector, modifier)
    } else {
        Ok(None)
    }
}

// Of these operands, and more.
fn of_many(
    alloc: Global,
    name: &Text,
    collection: &Text,
    first: &Value,
    second: &Value,
    more: &[Value],
) -> Result<Option<Op>, Mem>
    ensures { IfOk result (λ o. o ≡ operation_named name.now collection.now (view first.now ∷ view second.now ∷ views more.now)) }
{
    match more {
        [] => of_two(alloc, name, collection, first, second),
        [_, ..] => Ok(None),
    }
}

// Of this operand, and others.
fn of_some(
    alloc: Global,
    name: &Text,
    collection: &Text,
    first: &Value,
    others: &[Value],
) -> Result<Option<Op>, Mem>
    ensures { IfOk result (λ o. o ≡ operation_named name.now collection.now (view first.now ∷ views others.now)) }
{
    match others {
        [] => of_one(alloc, name, collection, first),
        [second, more @ ..] => of_many(alloc, name, collection, first, second, more),
    }
}

fn named(
    alloc: Global,
    name: &Text,
    collection: &Text,
    operands: &[Value],
) -> Result<Option<Op>, Mem>
    ensures { IfOk result (λ o. o ≡ operation_named name.now collection.now (views operands.now)) }
{
    match operands {
        [] => Ok(None),
        [first, others @ ..] => of_some(alloc, name, collection, first, others),
    }
}

fn of_parts(
    alloc: Global,
    name: &Value,
    collection: &Value,
    operands: &[Value],
) -> Result<Option<Op>, Mem>
    ensures { IfOk result (λ o. o ≡ operation_in (view name.now ∷ view collection.now ∷ views operands.now)) }
{
    let Value::Text(name) = name else {
        return Ok(None);
    };
    let Value::Text(collection) = collection else {
        return Ok(None);
    };
    named(alloc, name, collection, operands)
}

/// The operation that the values are, None where they are none: `["insert",collection,document]` with
/// an `_id` of 1 to 256 bytes, `["update",collection,selector,modifier]`, `["updateAll",..]` or
/// `["remove",collection,selector]`.
pub fn operation_in(alloc: Global, op: &Items) -> Result<Option<Op>, Mem>
    ensures { IfOk result (λ o. o ≡ operation_in op.now) }
{
    match op.as_slice() {
        [name, collection, operands @ ..] => of_parts(alloc, name, collection, operands),
        _ => Ok(None),
    }
}
