//! What is new in a document, and what is gone.
ghost use Rattle.std.specs.Prelude.{◌≡◌, ◌++◌, [], option_map, IsSome, IfSome, IfOk, OnOk};
ghost use Rattle.std.specs.Map.{keys_of};
ghost use Rattle.map_model.specs.Maps.{keyed};
ghost use Rattle.map_model.specs.Differences.{is_there, new_fields, cleared};
ghost use Rattle.value_model.specs.Order.{text_cmp};
ghost use Rattle.ejson_value.specs.View.{view};
ghost use Rattle.kept_document.specs.Held.{same_value, put_some, new_of, lost_of};

use crate::fields::put_copy;
use crate::pairs::Pairs;
use ejson_value::{Doc, Mem, Names, Text, Value, compare};
use std::alloc::Global;

// Whether there is a value, and it is this one.
fn is_there(value: &Value, before: Option<&Value>) -> bool
    ensures { result ≡ is_there text_cmp same_value (view value.now) (option_map (λ v. view v.now) before.entry) }
{
    match before {
        None => false,
        Some(before) => compare(before, value).is_eq(),
    }
}

/// Puts the value as that field, if there is one and it was another.
pub(crate) fn put_new(
    fields: &mut Doc,
    name: &Text,
    before: Option<&Value>,
    after: Option<&Value>,
) -> Result<(), Mem>
    ensures { OnOk result (fields.new ≡ put_some text_cmp fields.old name.now
        (new_of (option_map (λ v. view v.now) before.entry) (option_map (λ v. view v.now) after.entry))) }
{
    match after {
        None => Ok(()),
        Some(after) => {
            if is_there(after, before) {
                Ok(())
            } else {
                put_copy(fields, name, after)
            }
        }
    }
}

/// Adds the name, if there was a value and there is none any more.
pub(crate) fn push_lost(
    names: &mut Names,
    name: &Text,
    before: Option<&Value>,
    after: Option<&Value>,
) -> Result<(), Mem>
    ensures { OnOk result (names.new ≡ names.old ++
        keys_of (keyed name.now (lost_of (option_map (λ v. view v.now) before.entry) (option_map (λ v. view v.now) after.entry)) [])) }
{
    match (before, after) {
        (Some(_), None) => names.push(name.copy()?),
        _ => Ok(()),
    }
}

// The fields that have another value, where both documents have fields of the same names.
fn changed_values(alloc: Global, before: &Doc, after: &Doc) -> Result<Option<Doc>, Mem>
    ensures fields { IfOk result (λ made. IfSome made (λ fields. fields ≡ new_fields text_cmp same_value before.now after.now)) }
    ensures names { IfOk result (λ made. IsSome made → cleared text_cmp same_value before.now after.now ≡ []) }
{
    let mut fields = Doc::new(alloc);
    let mut olds = before.iter();
    let mut news = after.iter();
    while let Some((name, value)) = news.next() {
        let Some((old_name, old)) = olds.next() else {
            return Ok(None);
        };
        if *old_name != *name {
            return Ok(None);
        }
        put_new(&mut fields, name, Some(old), Some(value))?;
    }
    match olds.next() {
        None => Ok(Some(fields)),
        Some(_) => Ok(None),
    }
}

// The fields that are new or have another value, and the names of those that are gone, whatever
// names the documents have.
fn difference_by_name(alloc: Global, before: &Doc, after: &Doc) -> Result<(Doc, Names), Mem>
    ensures fields { IfOk result (λ d. d.0 ≡ new_fields text_cmp same_value before.now after.now) }
    ensures names { IfOk result (λ d. d.1 ≡ cleared text_cmp same_value before.now after.now) }
{
    let mut fields = Doc::new(alloc);
    let mut names = Names::new(alloc);
    let mut pairs = Pairs::of(before, after);
    while let Some(pair) = pairs.next() {
        put_new(&mut fields, pair.name, pair.before, pair.after)?;
        push_lost(&mut names, pair.name, pair.before, pair.after)?;
    }
    Ok((fields, names))
}

/// The fields that are new or have another value, and the names of those that are gone.
pub(crate) fn difference(alloc: Global, before: &Doc, after: &Doc) -> Result<(Doc, Names), Mem>
    ensures fields { IfOk result (λ d. d.0 ≡ new_fields text_cmp same_value before.now after.now) }
    ensures names { IfOk result (λ d. d.1 ≡ cleared text_cmp same_value before.now after.now) }
{
    match changed_values(alloc, before, after)? {
        Some(fields) => Ok((fields, Names::new(alloc))),
        None => difference_by_name(alloc, before, after),
    }
}
