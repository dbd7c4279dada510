//! What a path reaches in a document.
ghost use Rattle.std.specs.Prelude.{◌≡◌, ◌==◌, is_some, option_map, unwrap_or, false};
ghost use Rattle.std.specs.Option.{option_map_or};
ghost use Rattle.value_model.specs.Val.{null, text, vals_of};
ghost use Rattle.value_model.specs.Order.{kind, compare};
ghost use Rattle.value_model.specs.Branches.{is_list};
ghost use Rattle.ejson_value.specs.View.{view};
ghost use Rattle.selector_match.specs.Holds.{list_in, equals, has_length};
ghost use Rattle.selector_match.specs.Reached.{reached_view};

use ejson_value::{Items, Text, Value, compare, kind};
use std::cmp::Ordering;

// What a path reached: nothing, the document's id, or a value.
#[derive(Clone, Copy)]
pub(crate) enum Reached<'a> {
    Nothing,
    Id(&'a Text),
    Value(&'a Value),
}

// How a text is ordered to the value.
fn text_order(own: &Text, value: &Value) -> Ordering
    ensures { result ≡ compare (text own.now) (view value.now) }
{
    match value {
        Value::Text(other) => own.cmp(other),
        Value::Null
        | Value::Bool(_)
        | Value::Int(_)
        | Value::Date(_)
        | Value::Bytes(_)
        | Value::List(_)
        | Value::Object(_)
        | Value::User { .. } => 2u8.cmp(&kind(value)),
    }
}

// How what was reached is ordered to the value, where nothing counts as null.
pub(crate) fn order_to(reached: Reached, value: &Value) -> Ordering
    ensures { result ≡ compare (unwrap_or (reached_view reached.entry) null) (view value.now) }
{
    match reached {
        Reached::Nothing => compare(&Value::Null, value),
        Reached::Id(id) => text_order(id, value),
        Reached::Value(other) => compare(other, value),
    }
}

// How the value is ordered to what was reached.
pub(crate) fn order_from(value: &Value, reached: Reached) -> Ordering
    ensures { result ≡ compare (view value.now) (unwrap_or (reached_view reached.entry) null) }
{
    order_to(reached, value).reverse()
}

// Whether it is this text.
pub(crate) fn reached_is_text(reached: Reached, wanted: &Text) -> bool
    ensures { result ≡ equals (text wanted.now) (reached_view reached.entry) }
{
    match reached {
        Reached::Nothing => false,
        Reached::Id(id) => id.cmp(wanted).is_eq(),
        Reached::Value(value) => match value {
            Value::Text(text) => text.cmp(wanted).is_eq(),
            Value::Null
            | Value::Bool(_)
            | Value::Int(_)
            | Value::Date(_)
            | Value::Bytes(_)
            | Value::List(_)
            | Value::Object(_)
            | Value::User { .. } => false,
        },
    }
}

// Whether something was reached, and of the kind of the value.
pub(crate) fn is_of_kind(reached: Reached, value: &Value) -> bool
    ensures { result ≡ option_map_or (λ w. kind w == kind (view value.now)) (reached_view reached.entry) false }
{
    match reached {
        Reached::Nothing => false,
        Reached::Id(_) => kind(value) == 2,
        Reached::Value(other) => kind(other) == kind(value),
    }
}

pub(crate) fn reached_by(value: Option<&Value>) -> Reached<'_>
    ensures { reached_view result ≡ option_map (λ v. view v.now) value.entry }
{
    match value {
        None => Reached::Nothing,
        Some(value) => Reached::Value(value),
    }
}

// The list that was reached, if it is one.
pub(crate) fn reached_list<'a>(reached: Reached<'a>) -> Option<&'a Items>
    ensures { option_map (λ vs. vals_of vs.now) result ≡ list_in (reached_view reached.entry) }
{
    let Reached::Value(value) = reached else {
        return None;
    };
    match value {
        Value::List(items) => Some(items),
        Value::Null
        | Value::Bool(_)
        | Value::Int(_)
        | Value::Text(_)
        | Value::Date(_)
        | Value::Bytes(_)
        | Value::Object(_)
        | Value::User { .. } => None,
    }
}

pub(crate) fn is_present(reached: Reached) -> bool
    ensures { result ≡ is_some (reached_view reached.entry) }
{
    match reached {
        Reached::Nothing => false,
        Reached::Id(_) | Reached::Value(_) => true,
    }
}

pub(crate) fn reached_has_length(reached: Reached, length: u64) -> bool
    ensures { result ≡ has_length length (reached_view reached.entry) }
{
    match reached_list(reached) {
        None => false,
        Some(items) => items.len() as u64 == length,
    }
}

pub(crate) fn is_list(reached: Reached) -> bool
    ensures { result ≡ is_list (reached_view reached.entry) }
{
    reached_list(reached).is_some()
}
