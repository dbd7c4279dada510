//! The names of operators.
ghost use Rattle.std.specs.Prelude.{◌≡◌};
ghost use Rattle.selector_match.specs.Reading.{begins_with_dollar, connective_named, plain_named, operator_named, has_operator, has_plain_name};
ghost use Rattle.selector_match.specs.Reading.{is_operator_set, is_literal};
ghost use Rattle.value_model.specs.Val.{fields_of};
ghost use Rattle.ejson_value.specs.View.{view};

use ejson_value::{Doc, Text, Value};

#[derive(Clone, Copy)]
pub(crate) enum Connective {
    And,
    Or,
    Nor,
}

#[derive(Clone, Copy)]
pub(crate) enum OperatorName {
    Plain(PlainName),
    ElementMatch,
    Not,
}

// The names of the operators whose operands hold no operators.
#[derive(Clone, Copy)]
pub(crate) enum PlainName {
    Equal,
    NotEqual,
    Among,
    NotAmong,
    Greater,
    AtLeast,
    Less,
    AtMost,
    Exists,
    Size,
    All,
}

pub(crate) fn connective_named(name: &Text) -> Option<Connective>
    ensures { result ≡ connective_named name.now }
{
    match name.as_str() {
        "$and" => Some(Connective::And),
        "$or" => Some(Connective::Or),
        "$nor" => Some(Connective::Nor),
        _ => None,
    }
}

fn plain_named(name: &Text) -> Option<PlainName>
    ensures { result ≡ plain_named name.now }
{
    match name.as_str() {
        "$eq" => Some(PlainName::Equal),
        "$ne" => Some(PlainName::NotEqual),
        "$in" => Some(PlainName::Among),
        "$nin" => Some(PlainName::NotAmong),
        "$gt" => Some(PlainName::Greater),
        "$gte" => Some(PlainName::AtLeast),
        "$lt" => Some(PlainName::Less),
        "$lte" => Some(PlainName::AtMost),
        "$exists" => Some(PlainName::Exists),
        "$size" => Some(PlainName::Size),
        "$all" => Some(PlainName::All),
        _ => None,
    }
}

pub(crate) fn operator_named(name: &Text) -> Option<OperatorName>
    ensures { result ≡ operator_named name.now }
{
    match name.as_str() {
        "$elemMatch" => Some(OperatorName::ElementMatch),
        "$not" => Some(OperatorName::Not),
        _ => plain_named(name).map(OperatorName::Plain),
    }
}

/// Whether the name begins with `$`, as the names of operators do.
pub fn begins_with_dollar(name: &Text) -> bool
    ensures { result ≡ begins_with_dollar name.now }
{
    name.as_bytes().first() == Some(&b'$')
}

/// Whether some name of the object begins with `$`.
pub fn has_operator(fields: &Doc) -> bool
    ensures { result ≡ has_operator (fields_of fields.now) }
{
    for (name, _value) in fields.iter() {
        if begins_with_dollar(name) {
            return true;
        }
    }
    false
}

/// Whether some name of the object doesn't begin with `$`.
pub fn has_plain_name(fields: &Doc) -> bool
    ensures { result ≡ has_plain_name (fields_of fields.now) }
{
    for (name, _value) in fields.iter() {
        if !begins_with_dollar(name) {
            return true;
        }
    }
    false
}

// Whether the object is a set of operators: not empty, and each name begins with `$`.
pub(crate) fn is_operator_set(fields: &Doc) -> bool
    ensures { result ≡ is_operator_set (fields_of fields.now) }
{
    has_operator(fields) && !has_plain_name(fields)
}

pub(crate) fn is_literal(value: &Value) -> bool
    ensures { result ≡ is_literal (view value.now) }
{
    match value {
        Value::Object(fields) => !has_operator(fields),
        Value::Null
        | Value::Bool(_)
        | Value::Int(_)
        | Value::Text(_)
        | Value::Date(_)
        | Value::Bytes(_)
        | Value::List(_)
        | Value::User { .. } => true,
    }
}
