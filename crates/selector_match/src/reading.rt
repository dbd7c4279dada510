//! Reading values as selectors.
ghost use Rattle.std.specs.Prelude.{◌≡◌, true, codes, Ok, IfOk, IfSome};
ghost use Rattle.std.specs.List.{list_all};
ghost use Rattle.std.specs.Ordering.{is_eq};
ghost use Rattle.value_model.specs.Val.{text, fields_of, vals_of};
ghost use Rattle.value_model.specs.Order.{text_cmp};
ghost use Rattle.ejson_value.specs.View.{view, views};
ghost use Rattle.selector_match.specs.View.{clause_view, plain_view, predicate_view};
ghost use Rattle.selector_match.specs.Reading.{Gives, reading, clauses_reading, clause_made, path_reading, joined, queries_reading};
ghost use Rattle.selector_match.specs.Reading.{more_queries_reading, condition_reading, predicates_reading, plain_made, predicate_made};
ghost use Rattle.selector_match.specs.Reading.{operator_named, literal, is_literal, list_operand, compared_operand, boolean_operand, size_operand};
ghost use Rattle.selector_match.specs.Reading.{literals_operand, element_operand, set_operand, test_reading};

use crate::asking::is_id;
use crate::fault::SelectorFault;
use crate::names::{
    Connective, OperatorName, PlainName, begins_with_dollar, connective_named, has_operator,
    is_literal, is_operator_set, operator_named,
};
use crate::operands::Operands;
use crate::selector::{Condition, Operator, Operators, Plain, Selector, Selectors, Test, TestKind};
use ejson_value::{Doc, Items, Path, PathFault, Text, Value, copy};
use std::alloc::Global;

fn read_path(alloc: Global, text: &Text) -> Result<Path, SelectorFault>
    ensures { Gives (λ path. path) result (path_reading text.now) }
{
    match Path::read(alloc, text) {
        Ok(path) => Ok(path),
        Err(PathFault::BadPath) => Err(SelectorFault::BadOperand),
        Err(PathFault::Memory) => Err(SelectorFault::Memory),
    }
}

fn any_operand(value: &Value) -> Result<Value, SelectorFault>
    ensures { Gives view result (Ok (view value.now)) }
{
    Ok(copy(value)?)
}

fn list_operand(alloc: Global, value: &Value) -> Result<Operands, SelectorFault>
    ensures { Gives (λ vs. vs) result (list_operand (view value.now)) }
{
    match value {
        Value::List(items) => Ok(Operands::read(alloc, items)?),
        Value::Null
        | Value::Bool(_)
        | Value::Int(_)
        | Value::Text(_)
        | Value::Date(_)
        | Value::Bytes(_)
        | Value::Object(_)
        | Value::User { .. } => Err(SelectorFault::BadOperand),
    }
}

fn compared_operand(value: &Value) -> Result<Value, SelectorFault>
    ensures { Gives view result (compared_operand (view value.now)) }
{
    match value {
        Value::Bool(_) | Value::Int(_) | Value::Text(_) | Value::Date(_) | Value::Bytes(_) => Ok(
            copy(value)?,
        ),
        Value::Null | Value::List(_) | Value::Object(_) | Value::User { .. } => {
            Err(SelectorFault::BadOperand)
        },
    }
}

fn boolean_operand(value: &Value) -> Result<bool, SelectorFault>
    ensures { Gives (λ b. b) result (boolean_operand (view value.now)) }
{
    match value {
        Value::Bool(truth) => Ok(*truth),
        Value::Null
        | Value::Int(_)
        | Value::Text(_)
        | Value::Date(_)
        | Value::Bytes(_)
        | Value::List(_)
        | Value::Object(_)
        | Value::User { .. } => Err(SelectorFault::BadOperand),
    }
}

fn size_operand(value: &Value) -> Result<u64, SelectorFault>
    ensures { Gives (λ n. n) result (size_operand (view value.now)) }
{
    match value {
        Value::Int(whole) => {
            let number = whole.get();
            if number < 0 {
                Err(SelectorFault::BadOperand)
            } else {
                Ok(number as u64)
            }
        }
        Value::Null
        | Value::Bool(_)
        | Value::Text(_)
        | Value::Date(_)
        | Value::Bytes(_)
        | Value::List(_)
        | Value::Object(_)
        | Value::User { .. } => Err(SelectorFault::BadOperand),
    }
}

fn are_literals(values: &[Value]) -> bool
    ensures { result ≡ list_all (λ v. is_literal v) (views values.now) }
{
    values.iter().all(|value| is_literal(value))
}

fn literals_operand(alloc: Global, value: &Value) -> Result<Operands, SelectorFault>
    ensures { Gives (λ vs. vs) result (literals_operand (view value.now)) }
{
    match value {
        Value::List(items) => {
            if are_literals(items.as_slice()) {
                Ok(Operands::read(alloc, items)?)
            } else {
                Err(SelectorFault::BadOperand)
            }
        }
        Value::Null
        | Value::Bool(_)
        | Value::Int(_)
        | Value::Text(_)
        | Value::Date(_)
        | Value::Bytes(_)
        | Value::Object(_)
        | Value::User { .. } => Err(SelectorFault::BadOperand),
    }
}

// The id that a field asks for, where it is `_id` with a text.
fn id_asked<'a>(name: &Text, value: &'a Value) -> Option<&'a Text>
    ensures name { IfSome result (λ id. is_eq (text_cmp name.now (codes "_id")) ≡ true) }
    ensures value { IfSome result (λ id. view value.now ≡ text id.now) }
{
    if !is_id(name) {
        return None;
    }
    match value {
        Value::Text(id) => Some(id),
        Value::Null
        | Value::Bool(_)
        | Value::Int(_)
        | Value::Date(_)
        | Value::Bytes(_)
        | Value::List(_)
        | Value::Object(_)
        | Value::User { .. } => None,
    }
}

// The operator `$eq` alone, which a literal stands for.
fn literal(alloc: Global, value: &Value) -> Result<Operators, SelectorFault>
    ensures { Gives (λ ps. ps) result (Ok (literal (view value.now))) }
{
    let mut operators = Vec::new(alloc);
    let operand = copy(value)?;
    operators.push(Operator::Plain(Plain::Equal(operand)))?;
    Ok(Operators { operators })
}

fn joined(connective: Connective, selectors: Selectors) -> Condition
    ensures { clause_view result ≡ joined connective selectors }
{
    match connective {
        Connective::And => Condition::All(selectors),
        Connective::Or => Condition::Any(selectors),
        Connective::Nor => Condition::Neither(selectors),
    }
}

#[cycle(reading)]
fn read_selector(alloc: Global, value: &Value) -> Result<Selector, SelectorFault>
    ensures { Gives (λ q. q) result (reading (view value.now)) }
{
    match value {
        Value::Object(fields) => read_conditions(alloc, fields),
        Value::Null
        | Value::Bool(_)
        | Value::Int(_)
        | Value::Text(_)
        | Value::Date(_)
        | Value::Bytes(_)
        | Value::List(_)
        | Value::User { .. } => Err(SelectorFault::NotObject),
    }
}

// The conditions of a selector.
#[cycle(reading)]
fn read_conditions(alloc: Global, fields: &Doc) -> Result<Selector, SelectorFault>
    ensures { Gives (λ q. q) result (clauses_reading (fields_of fields.now)) }
{
    let mut conditions = Vec::new(alloc);
    for (name, value) in fields.iter() {
        let condition = read_condition(alloc, name, value)?;
        conditions.push(condition)?;
    }
    Ok(Selector { conditions })
}

#[cycle(reading)]
fn read_condition(alloc: Global, name: &Text, value: &Value) -> Result<Condition, SelectorFault>
    ensures { Gives clause_view result (clause_made name.now (queries_reading (view value.now)) (condition_reading (view value.now))) }
{
    if let Some(id) = id_asked(name, value) {
        let copied = id.copy()?;
        return Ok(Condition::HasId(copied));
    }
    if begins_with_dollar(name) {
        let Some(connective) = connective_named(name) else {
            return Err(SelectorFault::UnknownOperator);
        };
        let selectors = read_selectors(alloc, value)?;
        return Ok(joined(connective, selectors));
    }
    let path = read_path(alloc, name)?;
    let operators = read_path_value(alloc, value)?;
    Ok(Condition::AtPath(path, operators))
}

// A list, not empty, of selectors.
#[cycle(reading)]
fn read_selectors(alloc: Global, value: &Value) -> Result<Selectors, SelectorFault>
    ensures { Gives (λ qs. qs) result (queries_reading (view value.now)) }
{
    match value {
        Value::List(items) => {
            if items.is_empty() {
                Err(SelectorFault::BadOperand)
            } else {
                read_each(alloc, items)
            }
        }
        Value::Null
        | Value::Bool(_)
        | Value::Int(_)
        | Value::Text(_)
        | Value::Date(_)
        | Value::Bytes(_)
        | Value::Object(_)
        | Value::User { .. } => Err(SelectorFault::BadOperand),
    }
}

#[cycle(reading)]
fn read_each(alloc: Global, items: &Items) -> Result<Selectors, SelectorFault>
    ensures { Gives (λ qs. qs) result (more_queries_reading (vals_of items.now)) }
{
    let mut selectors = Vec::new(alloc);
    for item in items.as_slice() {
        let selector = read_selector(alloc, item)?;
        selectors.push(selector)?;
    }
    Ok(Selectors { selectors })
}

// The value of a path: a set of operators, or a literal.
#[cycle(reading)]
fn read_path_value(alloc: Global, value: &Value) -> Result<Operators, SelectorFault>
    ensures { Gives (λ ps. ps) result (condition_reading (view value.now)) }
{
    match value {
        Value::Object(fields) => {
            if is_operator_set(fields) {
                read_operators(alloc, fields)
            } else if has_operator(fields) {
                Err(SelectorFault::BadOperand)
            } else {
                literal(alloc, value)
            }
        }
        Value::Null
        | Value::Bool(_)
        | Value::Int(_)
        | Value::Text(_)
        | Value::Date(_)
        | Value::Bytes(_)
        | Value::List(_)
        | Value::User { .. } => literal(alloc, value),
    }
}

#[cycle(reading)]
fn read_operators(alloc: Global, fields: &Doc) -> Result<Operators, SelectorFault>
    ensures { Gives (λ ps. ps) result (predicates_reading (fields_of fields.now)) }
{
    let mut operators = Vec::new(alloc);
    for (name, value) in fields.iter() {
        let operator = read_operator(alloc, name, value)?;
        operators.push(operator)?;
    }
    Ok(Operators { operators })
}

#[cycle(reading)]
fn read_operator(alloc: Global, name: &Text, value: &Value) -> Result<Operator, SelectorFault>
    ensures { Gives predicate_view result
        (predicate_made (operator_named name.now) (view value.now) (element_operand (view value.now)) (set_operand (view value.now))) }
{
    let Some(name) = operator_named(name) else {
        return Err(SelectorFault::UnknownOperator);
    };
    match name {
        OperatorName::ElementMatch => read_element_operand(alloc, value).map(Operator::HasElement),
        OperatorName::Not => read_set_operand(alloc, value).map(Operator::Negated),
        OperatorName::Plain(name) => read_plain(alloc, name, value).map(Operator::Plain),
    }
}

fn read_plain(alloc: Global, name: PlainName, value: &Value) -> Result<Plain, SelectorFault>
    ensures { Gives plain_view result (plain_made name (view value.now)) }
{
    match name {
        PlainName::Equal => any_operand(value).map(Plain::Equal),
        PlainName::NotEqual => any_operand(value).map(Plain::NotEqual),
        PlainName::Among => list_operand(alloc, value).map(Plain::Among),
        PlainName::NotAmong => list_operand(alloc, value).map(Plain::NotAmong),
        PlainName::Greater => compared_operand(value).map(Plain::Greater),
        PlainName::AtLeast => compared_operand(value).map(Plain::AtLeast),
        PlainName::Less => compared_operand(value).map(Plain::Less),
        PlainName::AtMost => compared_operand(value).map(Plain::AtMost),
        PlainName::Exists => boolean_operand(value).map(Plain::Present),
        PlainName::Size => size_operand(value).map(Plain::Sized),
        PlainName::All => literals_operand(alloc, value).map(Plain::HasAll),
    }
}

#[cycle(reading)]
fn read_element_operand(alloc: Global, value: &Value) -> Result<Test, SelectorFault>
    ensures { Gives (λ t. t) result (element_operand (view value.now)) }
{
    match value {
        Value::Object(fields) => {
            if is_operator_set(fields) {
                let operators = read_operators(alloc, fields)?;
                Ok(Test {
                    kind: TestKind::Operators(operators),
                })
            } else {
                let selector = read_conditions(alloc, fields)?;
                Ok(Test {
                    kind: TestKind::Fields(selector),
                })
            }
        }
        Value::Null
        | Value::Bool(_)
        | Value::Int(_)
        | Value::Text(_)
        | Value::Date(_)
        | Value::Bytes(_)
        | Value::List(_)
        | Value::User { .. } => Err(SelectorFault::BadOperand),
    }
}

#[cycle(reading)]
fn read_set_operand(alloc: Global, value: &Value) -> Result<Operators, SelectorFault>
    ensures { Gives (λ ps. ps) result (set_operand (view value.now)) }
{
    match value {
        Value::Object(fields) => {
            if is_operator_set(fields) {
                read_operators(alloc, fields)
            } else {
                Err(SelectorFault::BadOperand)
            }
        }
        Value::Null
        | Value::Bool(_)
        | Value::Int(_)
        | Value::Text(_)
        | Value::Date(_)
        | Value::Bytes(_)
        | Value::List(_)
        | Value::User { .. } => Err(SelectorFault::BadOperand),
    }
}

impl Selector {
    /// The selector that the value is.
    pub fn read(alloc: Global, value: &Value) -> Result<Selector, SelectorFault>
        ensures { Gives (λ q. q) result (reading (view value.now)) }
    {
        read_selector(alloc, value)
    }
}

impl Test {
    /// The test of an element that the object is: a set of operators, or a selector for elements
    /// that are objects.
    pub fn read(alloc: Global, value: &Value) -> Result<Test, SelectorFault>
        ensures { Gives (λ t. t) result (test_reading (view value.now)) }
    {
        match value {
            Value::Object(_) => read_element_operand(alloc, value),
            Value::Null
            | Value::Bool(_)
            | Value::Int(_)
            | Value::Text(_)
            | Value::Date(_)
            | Value::Bytes(_)
            | Value::List(_)
            | Value::User { .. } => Err(SelectorFault::NotObject),
        }
    }
}
