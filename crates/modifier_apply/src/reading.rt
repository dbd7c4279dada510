//! Reading values as modifiers.
ghost use Rattle.std.specs.Prelude.{◌≡◌, ◌∷◌, [], ◌++◌, true, Ok, IfSome};
ghost use Rattle.std.specs.List.{list_any};
ghost use Rattle.value_model.specs.Val.{object, field, no_fields, fields_of, list_of};
ghost use Rattle.value_model.specs.Branches.{path_of};
ghost use Rattle.selector_match.specs.Reading.{begins_with_dollar, test_reading};
ghost use Rattle.ejson_value.specs.View.{view};
ghost use Rattle.ejson_value.specs.Results.{made};
ghost use Rattle.modifier_apply.specs.Change.{changed_by};
ghost use Rattle.modifier_apply.specs.View.{edit_view, change_view, changes_view};
ghost use Rattle.modifier_apply.specs.Reading.{Gives, plain_path, list_reading, each_reading, values_reading, increment_reading, from_test};
ghost use Rattle.modifier_apply.specs.Reading.{pull_reading, pop_reading, edit_reading, change_reading, paths_reading, operand_reading};
ghost use Rattle.modifier_apply.specs.Reading.{operator_reading, operator_named, changes_reading, fields_reading, one_operator, reading};

use crate::fault::ModifierFault;
use crate::modifier::{Modifier, ModifierKind, Operator, Update};
use crate::names::{OperatorName, operator_named};
use ejson_value::{Doc, Items, Path, PathFault, Text, Value, copy};
use selector_match::{SelectorFault, Test, begins_with_dollar, has_operator, has_plain_name};
use std::alloc::Global;

fn has_dollar_part(path: &Path) -> bool
    ensures { result ≡ list_any (λ part. begins_with_dollar part) path.now }
{
    for part in path.parts() {
        if begins_with_dollar(part.name()) {
            return true;
        }
    }
    false
}

// The path that the text writes, none of whose parts begins with `$`.
fn read_path(alloc: Global, written: &Text) -> Result<Path, ModifierFault>
    ensures { Gives (λ path. path) result (plain_path (path_of written.now)) }
{
    match Path::read(alloc, written) {
        Ok(path) => {
            if has_dollar_part(&path) {
                Err(ModifierFault::BadOperand)
            } else {
                Ok(path)
            }
        }
        Err(PathFault::BadPath) => Err(ModifierFault::BadOperand),
        Err(PathFault::Memory) => Err(ModifierFault::Memory),
    }
}

// A list of this value alone.
fn one_value(alloc: Global, value: &Value) -> Result<Items, ModifierFault>
    ensures { Gives (λ vs. vs) result (Ok (view value.now ∷ [])) }
{
    let mut items = Items::new(alloc);
    items.push(copy(value)?)?;
    Ok(items)
}

fn read_list(operand: &Value) -> Result<Items, ModifierFault>
    ensures { Gives (λ vs. vs) result (list_reading (view operand.now)) }
{
    match operand {
        Value::List(items) => Ok(items.copy()?),
        _ => Err(ModifierFault::BadOperand),
    }
}

// The list of `{"$each": list}`.
fn read_each(fields: &Doc) -> Result<Items, ModifierFault>
    ensures { Gives (λ vs. vs) result (each_reading (fields_of fields.now)) }
{
    let mut pairs = fields.iter();
    let Some((name, operand)) = pairs.next() else {
        return Err(ModifierFault::BadOperand);
    };
    if pairs.next().is_some() {
        return Err(ModifierFault::BadOperand);
    }
    if name.as_str() == "$each" {
        read_list(operand)
    } else {
        Err(ModifierFault::BadOperand)
    }
}

// The values that `$push` and `$addToSet` add.
fn read_values(alloc: Global, operand: &Value) -> Result<Items, ModifierFault>
    ensures { Gives (λ vs. vs) result (values_reading (view operand.now)) }
{
    match operand {
        Value::Object(fields) => {
            if has_operator(fields) {
                read_each(fields)
            } else {
                one_value(alloc, operand)
            }
        }
        _ => one_value(alloc, operand),
    }
}

fn read_increment(operand: &Value) -> Result<Operator, ModifierFault>
    ensures { Gives edit_view result (increment_reading (view operand.now)) }
{
    match operand {
        Value::Int(amount) => Ok(Operator::Increment(*amount)),
        _ => Err(ModifierFault::BadOperand),
    }
}

fn read_test(alloc: Global, operand: &Value) -> Result<Test, ModifierFault>
    ensures { Gives (λ t. t) result (from_test (test_reading (view operand.now))) }
{
    match Test::read(alloc, operand) {
        Ok(test) => Ok(test),
        Err(SelectorFault::NotObject) => Err(ModifierFault::NotObject),
        Err(SelectorFault::UnknownOperator) => Err(ModifierFault::UnknownOperator),
        Err(SelectorFault::BadOperand) => Err(ModifierFault::BadOperand),
        Err(SelectorFault::Memory) => Err(ModifierFault::Memory),
    }
}

fn read_pull(alloc: Global, operand: &Value) -> Result<Operator, ModifierFault>
    ensures { Gives edit_view result (pull_reading (view operand.now)) }
{
    match operand {
        Value::Object(_) => Ok(Operator::PullPassing(read_test(alloc, operand)?)),
        _ => Ok(Operator::PullEqual(copy(operand)?)),
    }
}

// 1 for the last element, -1 for the first.
fn read_pop(operand: &Value) -> Result<Operator, ModifierFault>
    ensures { Gives edit_view result (pop_reading (view operand.now)) }
{
    match operand {
        Value::Int(end) => match end.get() {
            1 => Ok(Operator::PopLast),
            -1 => Ok(Operator::PopFirst),
            _ => Err(ModifierFault::BadOperand),
        },
        _ => Err(ModifierFault::BadOperand),
    }
}

fn read_operator(
    alloc: Global,
    name: OperatorName,
    operand: &Value,
) -> Result<Operator, ModifierFault>
    ensures { Gives edit_view result (edit_reading name (view operand.now)) }
{
    match name {
        OperatorName::Set => Ok(Operator::Set(copy(operand)?)),
        OperatorName::Unset => Ok(Operator::Unset),
        OperatorName::Increment => read_increment(operand),
        OperatorName::Min => Ok(Operator::Min(copy(operand)?)),
        OperatorName::Max => Ok(Operator::Max(copy(operand)?)),
        OperatorName::Push => Ok(Operator::Push(read_values(alloc, operand)?)),
        OperatorName::AddToSet => Ok(Operator::AddToSet(read_values(alloc, operand)?)),
        OperatorName::Pull => read_pull(alloc, operand),
        OperatorName::Pop => read_pop(operand),
    }
}

fn read_update(
    alloc: Global,
    name: OperatorName,
    written: &Text,
    operand: &Value,
) -> Result<Update, ModifierFault>
    ensures { Gives change_view result (change_reading name written.now (view operand.now)) }
{
    let path = read_path(alloc, written)?;
    let operator = read_operator(alloc, name, operand)?;
    Ok(Update { path, operator })
}

fn read_paths(alloc: Global, name: OperatorName, fields: &Doc) -> Result<Vec<Update>, ModifierFault>
    ensures { Gives (λ us. changes_view us.items) result (paths_reading name (fields_of fields.now)) }
{
    let mut updates = Vec::with_capacity(alloc, fields.len())?;
    for (written, operand) in fields.iter() {
        let update = read_update(alloc, name, written, operand)?;
        updates.push(update)?;
    }
    Ok(updates)
}

// The updates of one operator, whose operand goes from paths to operands.
fn read_operand(
    alloc: Global,
    name: OperatorName,
    operand: &Value,
) -> Result<Vec<Update>, ModifierFault>
    ensures { Gives (λ us. changes_view us.items) result (operand_reading name (view operand.now)) }
{
    match operand {
        Value::Object(fields) => read_paths(alloc, name, fields),
        _ => Err(ModifierFault::BadOperand),
    }
}

fn read_named(alloc: Global, name: &Text, operand: &Value) -> Result<Vec<Update>, ModifierFault>
    ensures { Gives (λ us. changes_view us.items) result (operator_reading (operator_named name.now) (view operand.now)) }
{
    match operator_named(name) {
        None => Err(ModifierFault::UnknownOperator),
        Some(name) => read_operand(alloc, name, operand),
    }
}

fn read_updates(alloc: Global, fields: &Doc) -> Result<Vec<Update>, ModifierFault>
    ensures { Gives (λ us. changes_view us.items) result (changes_reading (fields_of fields.now)) }
{
    let mut updates = Vec::new(alloc);
    for (name, operand) in fields.iter() {
        let mut more = read_named(alloc, name, operand)?;
        updates.append(&mut more)?;
    }
    Ok(updates)
}

// The operator with its operand, where the object has no other field.
fn only_operator(fields: &Doc) -> Option<(&Text, &Value)>
    ensures only { IfSome result (λ pair. fields.now ≡ (pair.0.now, view pair.1.now) ∷ []) }
    ensures named { IfSome result (λ pair. begins_with_dollar pair.0.now ≡ true) }
{
    let (name, operand) = fields.only_field()?;
    if begins_with_dollar(name) {
        Some((name, operand))
    } else {
        None
    }
}

// The modifier of one operator.
fn read_alone(alloc: Global, name: &Text, operand: &Value) -> Result<Modifier, ModifierFault>
    ensures { Gives (λ m. m) result (made changed_by (operator_reading (operator_named name.now) (view operand.now))) }
{
    let updates = read_named(alloc, name, operand)?;
    Ok(Modifier {
        kind: ModifierKind::Updates(updates),
    })
}

fn read_fields(alloc: Global, fields: &Doc) -> Result<Modifier, ModifierFault>
    ensures { Gives (λ m. m) result (fields_reading (fields_of fields.now)) }
{
    if let Some((name, operand)) = only_operator(fields) {
        return read_alone(alloc, name, operand);
    }
    if !has_operator(fields) {
        let copied = fields.copy()?;
        return Ok(Modifier {
            kind: ModifierKind::Replacement(copied),
        });
    }
    if has_plain_name(fields) {
        return Err(ModifierFault::BadOperand);
    }
    let updates = read_updates(alloc, fields)?;
    Ok(Modifier {
        kind: ModifierKind::Updates(updates),
    })
}

// The modifier of an operator with one path.
fn read_single(
    alloc: Global,
    name: &Text,
    written: &Text,
    operand: &Value,
) -> Result<Modifier, ModifierFault>
    ensures { Gives (λ m. m) result (made changed_by (operator_reading (operator_named name.now) (object (field written.now (view operand.now) no_fields)))) }
{
    let Some(name) = operator_named(name) else {
        return Err(ModifierFault::UnknownOperator);
    };
    let mut updates = Vec::with_capacity(alloc, 1)?;
    let update = read_update(alloc, name, written, operand)?;
    updates.push(update)?;
    Ok(Modifier {
        kind: ModifierKind::Updates(updates),
    })
}

impl Modifier {
    /// The modifier that an object is in which one operator has one path.
    pub fn read_one(
        alloc: Global,
        name: &Text,
        written: &Text,
        operand: &Value,
    ) -> Result<Modifier, ModifierFault>
        requires { begins_with_dollar name.now ≡ true }
        ensures { Gives (λ m. m) result (reading (one_operator name.now written.now (view operand.now))) }
    {
        read_single(alloc, name, written, operand)
    }

    /// The modifier that the value is: a replacement where no name begins with `$`, else operators.
    pub fn read(alloc: Global, value: &Value) -> Result<Modifier, ModifierFault>
        ensures { Gives (λ m. m) result (reading (view value.now)) }
    {
        match value {
            Value::Object(fields) => read_fields(alloc, fields),
            _ => Err(ModifierFault::NotObject),
        }
    }
}
