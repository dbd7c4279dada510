//! The order of values.
ghost use Rattle.std.specs.Prelude.{◌≡◌, ◌↔◌, length, IsTrue};
ghost use Rattle.std.specs.Ordering.{nat_cmp, ordering_then, is_eq};
ghost use Rattle.std.specs.Cmp.Lexicographic.{slice_cmp};
ghost use Rattle.value_model.specs.Val.{object, vals_of, fields_of};
ghost use Rattle.value_model.specs.Order.{kind, compare, vals_cmp, fields_cmp};
ghost use Rattle.ejson_value.specs.View.{view};

use crate::bytes::Bytes;
use crate::value::{Doc, Items, Value};
use std::cmp::Ordering;

/// Where the value's kind stands among the kinds, from 0: null, numbers, texts, objects, lists,
/// bytes, booleans, dates, values of user types.
pub fn kind(value: &Value) -> u8
    ensures { result ≡ kind (view value.now) }
{
    match value {
        Value::Null => 0,
        Value::Int(_) => 1,
        Value::Text(_) => 2,
        Value::Object(_) => 3,
        Value::List(_) => 4,
        Value::Bytes(_) => 5,
        Value::Bool(_) => 6,
        Value::Date(_) => 7,
        Value::User { .. } => 8,
    }
}

fn compare_bytes(a: &Bytes, b: &Bytes) -> Ordering
    ensures { result ≡ ordering_then (nat_cmp (length a.now) (length b.now)) (slice_cmp nat_cmp a.now b.now) }
{
    a.len().cmp(&b.len()).then(a.as_slice().cmp(b.as_slice()))
}

/// The order of values: by kind first, then numbers and dates by number, texts byte by byte, bytes
/// by length and then by content, lists and objects element by element, values of user types by
/// the type's name and then by the value.
#[cycle(comparing)]
pub fn compare(a: &Value, b: &Value) -> Ordering
    ensures { result ≡ compare (view a.now) (view b.now) }
{
    match (a, b) {
        (Value::Int(a), Value::Int(b)) => a.get().cmp(&b.get()),
        (Value::Text(a), Value::Text(b)) => a.cmp(b),
        (Value::Object(a), Value::Object(b)) => compare_docs(a, b),
        (Value::List(a), Value::List(b)) => compare_lists(a, b),
        (Value::Bytes(a), Value::Bytes(b)) => compare_bytes(a, b),
        (Value::Bool(a), Value::Bool(b)) => a.cmp(b),
        (Value::Date(a), Value::Date(b)) => a.get().cmp(&b.get()),
        (
            Value::User { name, value },
            Value::User {
                name: other_name,
                value: other,
            },
        ) => {
            name.get()
                .get()
                .cmp(other_name.get().get())
                .then(compare(value.get(), other.get()))
        }
        _ => kind(a).cmp(&kind(b)),
    }
}

#[cycle(comparing)]
fn compare_lists(a: &Items, b: &Items) -> Ordering
    ensures { result ≡ vals_cmp (vals_of a.now) (vals_of b.now) }
{
    let mut others = b.as_slice().iter();
    for item in a.as_slice() {
        match others.next() {
            None => return Ordering::Greater,
            Some(other) => {
                let order = compare(item, other);
                if order.is_ne() {
                    return order;
                }
            }
        }
    }
    if others.next().is_some() {
        Ordering::Less
    } else {
        Ordering::Equal
    }
}

#[cycle(comparing)]
fn compare_docs(a: &Doc, b: &Doc) -> Ordering
    ensures { result ≡ fields_cmp (fields_of a.now) (fields_of b.now) }
{
    let mut others = b.iter();
    for (name, value) in a.iter() {
        match others.next() {
            None => return Ordering::Greater,
            Some((other_name, other)) => {
                let order = name.cmp(other_name).then(compare(value, other));
                if order.is_ne() {
                    return order;
                }
            }
        }
    }
    if others.next().is_some() {
        Ordering::Less
    } else {
        Ordering::Equal
    }
}

/// Whether the two values are equal.
pub fn same(a: &Value, b: &Value) -> bool
    ensures { IsTrue result ↔ (view a.now ≡ view b.now) }
{
    compare(a, b).is_eq()
}

/// Whether the two documents are equal.
pub fn same_documents(a: &Doc, b: &Doc) -> bool
    ensures order { result ≡ is_eq (compare (object (fields_of a.now)) (object (fields_of b.now))) }
    ensures equal { IsTrue result ↔ (a.now ≡ b.now) }
{
    compare_docs(a, b).is_eq()
}
