//! Tests over the branches that a path has in a document (dot notation, in MongoDB's documentation of query operators).
ghost use Rattle.std.specs.Prelude.{◌≡◌, ◌∷◌, Bool, Option, Some, [], false, true, option_map, ◌&&◌};
ghost use Rattle.std.specs.List.{list_any, flat_map};
ghost use Rattle.std.specs.Option.{option_map_or};
ghost use Rattle.value_model.specs.Val.{Val, object, fields_of, vals_of};
ghost use Rattle.value_model.specs.Branches.{branches, is_list, field_of, element_at, if_object};
ghost use Rattle.ejson_value.specs.View.{view};
ghost use Rattle.ejson_value.specs.Asking.{Answers};

use crate::path::{Part, Path};
use crate::value::{Doc, Items, Value};

fn is_list(reached: Option<&Value>) -> bool
    ensures { result ≡ is_list (option_map (λ v. view v.now) reached.entry) }
{
    let Some(value) = reached else {
        return false;
    };
    match value {
        Value::List(_) => true,
        Value::Null
        | Value::Bool(_)
        | Value::Int(_)
        | Value::Text(_)
        | Value::Date(_)
        | Value::Bytes(_)
        | Value::Object(_)
        | Value::User { .. } => false,
    }
}

// Whether the test holds of a branch of the rest of a path from what was reached so far.
#[cycle(branches)]
fn some_from<F: Fn(Option<&Value>, bool) -> bool>(
    reached: Option<&Value>,
    from_list: bool,
    rest: &[Part],
    test: &F,
) -> bool
    requires { F.IsAlwaysCallable test.now }
    ensures { (p : Option Val → Bool → Bool) → Answers (F.post test.now) p
        → result ≡ list_any (λ b. p b.0 b.1) (branches rest.now (option_map (λ v. view v.now) reached.entry) from_list) }
{
    match rest.split_first() {
        None => test(reached, from_list && is_list(reached)),
        Some((part, more)) => some_after(reached, from_list, part, more, test),
    }
}

// The same, where the path goes on with this part.
#[cycle(branches)]
fn some_after<F: Fn(Option<&Value>, bool) -> bool>(
    reached: Option<&Value>,
    from_list: bool,
    part: &Part,
    more: &[Part],
    test: &F,
) -> bool
    requires { F.IsAlwaysCallable test.now }
    ensures { (p : Option Val → Bool → Bool) → Answers (F.post test.now) p
        → result ≡ list_any (λ b. p b.0 b.1) (branches (part.now ∷ more.now) (option_map (λ v. view v.now) reached.entry) from_list) }
{
    let Some(value) = reached else {
        return !from_list && test(None, false);
    };
    match value {
        Value::Object(fields) => some_from(fields.get(part.name()), false, more, test),
        Value::List(items) => some_at_place(items, part, more, test)
            || some_in_elements(items, part, more, test),
        Value::Null
        | Value::Bool(_)
        | Value::Int(_)
        | Value::Text(_)
        | Value::Date(_)
        | Value::Bytes(_)
        | Value::User { .. } => !from_list && test(None, false),
    }
}

// The branches through the element at the position that the part writes.
#[cycle(branches)]
fn some_at_place<F: Fn(Option<&Value>, bool) -> bool>(
    items: &Items,
    part: &Part,
    more: &[Part],
    test: &F,
) -> bool
    requires { F.IsAlwaysCallable test.now }
    ensures { (p : Option Val → Bool → Bool) → Answers (F.post test.now) p
        → result ≡ list_any (λ b. p b.0 b.1) (option_map_or (λ v. branches more.now (Some v) true) (element_at (vals_of items.now) part.now) []) }
{
    let Some(place) = part.place() else {
        return false;
    };
    match items.get(place) {
        None => false,
        Some(item) => some_from(Some(item), true, more, test),
    }
}

// The branches through the elements that are objects.
#[cycle(branches)]
fn some_in_elements<F: Fn(Option<&Value>, bool) -> bool>(
    items: &Items,
    part: &Part,
    more: &[Part],
    test: &F,
) -> bool
    requires { F.IsAlwaysCallable test.now }
    ensures { (p : Option Val → Bool → Bool) → Answers (F.post test.now) p
        → result ≡ list_any (λ b. p b.0 b.1) (flat_map (λ v. if_object (λ fs. branches more.now (field_of fs part.now) false) v) items.now) }
{
    for item in items.as_slice() {
        if some_in_element(item, part, more, test) {
            return true;
        }
    }
    false
}

#[cycle(branches)]
fn some_in_element<F: Fn(Option<&Value>, bool) -> bool>(
    item: &Value,
    part: &Part,
    more: &[Part],
    test: &F,
) -> bool
    requires { F.IsAlwaysCallable test.now }
    ensures { (p : Option Val → Bool → Bool) → Answers (F.post test.now) p
        → result ≡ list_any (λ b. p b.0 b.1) (if_object (λ fs. branches more.now (field_of fs part.now) false) (view item.now)) }
{
    match item {
        Value::Object(fields) => some_from(fields.get(part.name()), false, more, test),
        Value::Null
        | Value::Bool(_)
        | Value::Int(_)
        | Value::Text(_)
        | Value::Date(_)
        | Value::Bytes(_)
        | Value::List(_)
        | Value::User { .. } => false,
    }
}

/// Whether the test holds of some branch of the path in the document. It is asked with what the
/// branch reached, if anything, and whether that counts as a whole, as a list that is an element
/// of a list does.
pub fn some_branch<F: Fn(Option<&Value>, bool) -> bool>(doc: &Doc, path: &Path, test: &F) -> bool
    requires { F.IsAlwaysCallable test.now }
    ensures { (p : Option Val → Bool → Bool) → Answers (F.post test.now) p
        → result ≡ list_any (λ b. p b.0 b.1) (branches path.now (Some (object (fields_of doc.now))) false) }
{
    match path.parts().split_first() {
        None => unreachable!(),
        Some((part, more)) => some_from(doc.get(part.name()), false, more, test),
    }
}
