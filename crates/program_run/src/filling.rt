//! What the templates of a step are filled to.
ghost use Rattle.std.specs.Prelude.{◌≡◌, true, codes, Some, IfOk, IfSome, option_map};
ghost use Rattle.value_model.specs.Val.{object, field, no_fields};
ghost use Rattle.ejson_value.specs.View.{view};
ghost use Rattle.selector_match.specs.Reading.{reading as selector_reading};
ghost use Rattle.modifier_apply.specs.Reading.{reading as modifier_reading, one_operator};
ghost use Rattle.program_model.specs.Run.{if_ok, filled_in, selector_in, modifier_in};
ghost use Rattle.program_run.specs.Progress.{seen};
ghost use Rattle.program_run.specs.OneOperator.{IsShortOperator};

use crate::run::Run;
use ejson_value::{Mem, Text, Value};
use modifier_apply::{Modifier, ModifierFault};
use program_steps::{FillFault, Template, fill_short};
use selector_match::{Selector, SelectorFault, begins_with_dollar};
use std::alloc::Global;

/// The filled template, None where it can't be filled.
pub(crate) fn filled_in(alloc: Global, run: &Run, template: &Template) -> Result<Option<Value>, Mem>
    ensures { IfOk result (λ o. option_map view o ≡ filled_in (seen run.now) template.now) }
{
    match template.fill(alloc, run.params(), run.made()) {
        Ok(value) => Ok(Some(value)),
        Err(FillFault::NoParam) => Ok(None),
        Err(FillFault::TooDeep) => Ok(None),
        Err(FillFault::TooLarge) => Ok(None),
        Err(FillFault::Memory) => Err(Mem),
    }
}

fn read_selector(alloc: Global, value: &Value) -> Result<Option<Selector>, Mem>
    ensures { IfOk result (λ o. o ≡ if_ok (selector_reading (view value.now))) }
{
    match Selector::read(alloc, value) {
        Ok(selector) => Ok(Some(selector)),
        Err(SelectorFault::NotObject) => Ok(None),
        Err(SelectorFault::UnknownOperator) => Ok(None),
        Err(SelectorFault::BadOperand) => Ok(None),
        Err(SelectorFault::Memory) => Err(Mem),
    }
}

/// The value as a modifier, None where it is none.
pub(crate) fn read_modifier(alloc: Global, value: &Value) -> Result<Option<Modifier>, Mem>
    ensures { IfOk result (λ o. o ≡ if_ok (modifier_reading (view value.now))) }
{
    match Modifier::read(alloc, value) {
        Ok(modifier) => Ok(Some(modifier)),
        Err(ModifierFault::NotObject) => Ok(None),
        Err(ModifierFault::UnknownOperator) => Ok(None),
        Err(ModifierFault::BadOperand) => Ok(None),
        Err(ModifierFault::Memory) => Err(Mem),
    }
}

// The field of a value that is an object with no other field.
fn only_field(value: &Value) -> Option<(&Text, &Value)>
    ensures { IfSome result (λ pair. view value.now ≡ object (field pair.0.now (view pair.1.now) no_fields)) }
{
    match value {
        Value::Object(fields) => fields.only_field(),
        _ => None,
    }
}

// What stands for the id, where the template is a selector by an id alone.
fn id_template(template: &Value) -> Option<&Value>
    ensures { IfSome result (λ id. view template.now ≡ object (field (codes "_id") (view id.now) no_fields)) }
{
    let (name, id) = only_field(template)?;
    if name.as_str() == "_id" {
        Some(id)
    } else {
        None
    }
}

// The selector by an id, where the template is one and the id is a short text.
fn selector_by_id(alloc: Global, run: &Run, template: &Template) -> Result<Option<Selector>, Mem>
    ensures { IfOk result (λ o. IfSome o (λ q. Some q ≡ selector_in (seen run.now) template.now)) }
{
    let Some(id) = id_template(&template.value) else {
        return Ok(None);
    };
    match fill_short(id, run.params())? {
        Some(Value::Text(id)) => Ok(Some(Selector::by_id(alloc, id)?)),
        _ => Ok(None),
    }
}

// A template that is one operator with one path: the operator, the path, and the operand's template.
#[derive(Clone, Copy)]
struct OneOperator<'a> {
    name: &'a Text,
    written: &'a Text,
    operand: &'a Value,
}

// Whether the name is one of an operator and the path's isn't, and both are short.
fn is_short(operator: &OneOperator) -> bool
    ensures { result ≡ true → IsShortOperator operator.now }
{
    begins_with_dollar(operator.name)
        && !begins_with_dollar(operator.written)
        && operator.name.len() <= 8192
        && operator.written.len() <= 8192
}

// The one operator and its path that the template has, each short. It is no placeholder.
fn one_operator(template: &Value) -> Option<OneOperator<'_>>
    ensures { IfSome result (λ one. (view template.now ≡ one_operator one.name.now one.written.now (view one.operand.now)) × IsShortOperator one) }
{
    let (name, operands) = only_field(template)?;
    let (written, operand) = only_field(operands)?;
    let operator = OneOperator {
        name,
        written,
        operand,
    };
    if is_short(&operator) {
        Some(operator)
    } else {
        None
    }
}

// The modifier, where the template is one operator with one path and a short operand.
fn modifier_by_one(alloc: Global, run: &Run, template: &Template) -> Result<Option<Modifier>, Mem>
    ensures { IfOk result (λ o. IfSome o (λ m. Some m ≡ modifier_in (seen run.now) template.now)) }
{
    let Some(one) = one_operator(&template.value) else {
        return Ok(None);
    };
    let Some(operand) = fill_short(one.operand, run.params())? else {
        return Ok(None);
    };
    match Modifier::read_one(alloc, one.name, one.written, &operand) {
        Ok(modifier) => Ok(Some(modifier)),
        Err(ModifierFault::Memory) => Err(Mem),
        Err(_) => Ok(None),
    }
}

/// The selector that the template is filled to, None where it is filled to none.
pub(crate) fn selector_in(
    alloc: Global,
    run: &Run,
    template: &Template,
) -> Result<Option<Selector>, Mem>
    ensures { IfOk result (λ o. o ≡ selector_in (seen run.now) template.now) }
{
    if let Some(selector) = selector_by_id(alloc, run, template)? {
        return Ok(Some(selector));
    }
    match filled_in(alloc, run, template)? {
        Some(value) => read_selector(alloc, &value),
        None => Ok(None),
    }
}

/// The modifier that the template is filled to, None where it is filled to none.
pub(crate) fn modifier_in(
    alloc: Global,
    run: &Run,
    template: &Template,
) -> Result<Option<Modifier>, Mem>
    ensures { IfOk result (λ o. o ≡ modifier_in (seen run.now) template.now) }
{
    if let Some(modifier) = modifier_by_one(alloc, run, template)? {
        return Ok(Some(modifier));
    }
    match filled_in(alloc, run, template)? {
        Some(value) => read_modifier(alloc, &value),
        None => Ok(None),
    }
}
