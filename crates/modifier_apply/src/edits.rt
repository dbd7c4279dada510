//! What operators make of a value.
ghost use Rattle.std.specs.Prelude.{◌≡◌, ◌<◌, ◌≤◌, ◌-◌, ◌∷◌, [], ◌++◌, Ok, Some, not, length, drop, take, replicate, filter, map, option_map};
ghost use Rattle.std.specs.Prelude.{if◌then◌else◌, IfOk};
ghost use Rattle.std.specs.Ordering.{is_lt, is_gt};
ghost use Rattle.value_model.specs.Val.{vals_of, list, null};
ghost use Rattle.value_model.specs.Order.{compare};
ghost use Rattle.selector_match.specs.Holds.{fits};
ghost use Rattle.ejson_value.specs.Results.{made};
ghost use Rattle.ejson_value.specs.View.{view, views};
ghost use Rattle.modifier_apply.specs.View.{edit_view};
ghost use Rattle.modifier_apply.specs.Modified.{Gives, same, elements, added, to_number, list_edited, edited, edited_if_there, made_anew, makes};

use crate::fault::ApplyFault;
use crate::missing::with_missing;
use crate::modifier::Operator;
use ejson_value::{Items, Mem, Value, Whole, compare, copy};
use selector_match::{Test, fits};
use std::alloc::Global;

fn sum(amount: Whole, number: Whole) -> Result<Option<Value>, ApplyFault>
    ensures { Gives (λ o. option_map view o) result (added amount number) }
{
    match Whole::of(number.get() + amount.get()) {
        None => Err(ApplyFault::NumberRange),
        Some(sum) => Ok(Some(Value::Int(sum))),
    }
}

fn incremented(amount: Whole, value: Value) -> Result<Option<Value>, ApplyFault>
    ensures { Gives (λ o. option_map view o) result (to_number amount (view value)) }
{
    match value {
        Value::Int(number) => sum(amount, number),
        _ => Err(ApplyFault::NotNumber),
    }
}

fn with_all(mut items: Items, operands: &Items) -> Result<Items, Mem>
    ensures { IfOk result (λ vs. vs ≡ items ++ operands.now) }
{
    for operand in operands.as_slice() {
        let added = copy(operand)?;
        items.push(added)?;
    }
    Ok(items)
}

fn without_equal(alloc: Global, items: &Items, operand: &Value) -> Result<Items, Mem>
    ensures { IfOk result (λ vs. vs ≡ filter (λ v. not (same v (view operand.now))) items.now) }
{
    let mut kept = Items::new(alloc);
    for item in items.as_slice() {
        if compare(item, operand).is_eq() {
            continue;
        }
        let copied = copy(item)?;
        kept.push(copied)?;
    }
    Ok(kept)
}

fn without_passing(alloc: Global, items: &Items, test: &Test) -> Result<Items, Mem>
    ensures { IfOk result (λ vs. vs ≡ filter (λ v. not (fits test.now v)) items.now) }
{
    let mut kept = Items::new(alloc);
    for item in items.as_slice() {
        if fits(test, item) {
            continue;
        }
        let copied = copy(item)?;
        kept.push(copied)?;
    }
    Ok(kept)
}

fn without_last(mut items: Items) -> Result<Items, Mem>
    ensures { IfOk result (λ vs. vs ≡ take (length items - 1) items) }
{
    let length = items.len();
    if 0 < length {
        drop(items.remove(length - 1)?);
    }
    Ok(items)
}

fn without_first(mut items: Items) -> Result<Items, Mem>
    ensures { IfOk result (λ vs. vs ≡ drop 1 items) }
{
    if !items.is_empty() {
        drop(items.remove(0)?);
    }
    Ok(items)
}

fn least(operand: &Value, value: Value) -> Result<Value, Mem>
    ensures { IfOk result (λ v. view v ≡ (if is_lt (compare (view operand.now) (view value)) then view operand.now else view value)) }
{
    if compare(operand, &value).is_lt() {
        copy(operand)
    } else {
        Ok(value)
    }
}

fn greatest(operand: &Value, value: Value) -> Result<Value, Mem>
    ensures { IfOk result (λ v. view v ≡ (if is_gt (compare (view operand.now) (view value)) then view operand.now else view value)) }
{
    if compare(operand, &value).is_gt() {
        copy(operand)
    } else {
        Ok(value)
    }
}

// The elements of what must be a list.
fn elements(value: Value) -> Result<Items, ApplyFault>
    ensures { Gives (λ vs. vs) result (elements (view value)) }
{
    match value {
        Value::List(items) => Ok(items),
        _ => Err(ApplyFault::NotArray),
    }
}

// What an operator on lists leaves of the elements.
fn list_edited(alloc: Global, operator: &Operator, items: Items) -> Result<Items, Mem>
    ensures { IfOk result (λ vs. vs ≡ list_edited (edit_view operator.now) items) }
{
    match operator {
        Operator::Push(operands) => with_all(items, operands),
        Operator::AddToSet(operands) => with_missing(alloc, items, operands),
        Operator::PullEqual(operand) => without_equal(alloc, &items, operand),
        Operator::PullPassing(test) => without_passing(alloc, &items, test),
        Operator::PopLast => without_last(items),
        Operator::PopFirst => without_first(items),
        Operator::Set(_)
        | Operator::Unset
        | Operator::Increment(_)
        | Operator::Min(_)
        | Operator::Max(_) => Ok(items),
    }
}

fn edited_in_list(
    alloc: Global,
    operator: &Operator,
    value: Value,
) -> Result<Option<Value>, ApplyFault>
    ensures { Gives (λ o. option_map view o) result (made (λ ws. Some (list (vals_of (list_edited (edit_view operator.now) ws)))) (elements (view value))) }
{
    let items = elements(value)?;
    let left = list_edited(alloc, operator, items)?;
    Ok(Some(Value::List(left)))
}

// What the operator leaves of a value, if it leaves one.
fn edited(alloc: Global, operator: &Operator, value: Value) -> Result<Option<Value>, ApplyFault>
    ensures { Gives (λ o. option_map view o) result (edited (edit_view operator.now) (view value)) }
{
    match operator {
        Operator::Set(operand) => {
            drop(value);
            Ok(Some(copy(operand)?))
        }
        Operator::Unset => {
            drop(value);
            Ok(None)
        }
        Operator::Increment(amount) => incremented(*amount, value),
        Operator::Min(operand) => Ok(Some(least(operand, value)?)),
        Operator::Max(operand) => Ok(Some(greatest(operand, value)?)),
        Operator::Push(_)
        | Operator::AddToSet(_)
        | Operator::PullEqual(_)
        | Operator::PullPassing(_)
        | Operator::PopLast
        | Operator::PopFirst => edited_in_list(alloc, operator, value),
    }
}

// What the operator makes where nothing is.
fn made_anew(alloc: Global, operator: &Operator) -> Result<Option<Value>, Mem>
    ensures { IfOk result (λ o. option_map view o ≡ made_anew (edit_view operator.now)) }
{
    match operator {
        Operator::Set(operand) => Ok(Some(copy(operand)?)),
        Operator::Increment(amount) => Ok(Some(Value::Int(*amount))),
        Operator::Min(operand) => Ok(Some(copy(operand)?)),
        Operator::Max(operand) => Ok(Some(copy(operand)?)),
        Operator::Push(operands) => Ok(Some(Value::List(operands.copy()?))),
        Operator::AddToSet(operands) => Ok(Some(Value::List(with_missing(
            alloc,
            Items::new(alloc),
            operands,
        )?))),
        Operator::Unset
        | Operator::PullEqual(_)
        | Operator::PullPassing(_)
        | Operator::PopLast
        | Operator::PopFirst => Ok(None),
    }
}

/// Whether the operator makes a value where nothing is.
pub(crate) fn makes(operator: &Operator) -> bool
    ensures { result ≡ makes (edit_view operator.now) }
{
    match operator {
        Operator::Set(_)
        | Operator::Increment(_)
        | Operator::Min(_)
        | Operator::Max(_)
        | Operator::Push(_)
        | Operator::AddToSet(_) => true,
        Operator::Unset
        | Operator::PullEqual(_)
        | Operator::PullPassing(_)
        | Operator::PopLast
        | Operator::PopFirst => false,
    }
}

/// What the operator leaves of what is there at the end of its path, if anything is.
pub(crate) fn edited_if_there(
    alloc: Global,
    operator: &Operator,
    there: Option<Value>,
) -> Result<Option<Value>, ApplyFault>
    ensures { Gives (λ o. option_map view o) result (edited_if_there (edit_view operator.now) (option_map view there)) }
{
    match there {
        None => Ok(made_anew(alloc, operator)?),
        Some(value) => edited(alloc, operator, value),
    }
}
