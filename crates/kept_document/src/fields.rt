//! The fields of a document that several subscriptions publish.
ghost use Rattle.std.specs.Prelude.{◌≡◌, ◌∷◌, ℕ, false, List, [], IsSome, option_map, option_copied, unwrap_or, IfOk, OnOk, if◌then◌else◌};
ghost use Rattle.std.specs.BTreeMap.{insert_entry};
ghost use Rattle.std.specs.Ordering.{eq_by_cmp};
ghost use Rattle.map_model.specs.Maps.{at};
ghost use Rattle.merge_model.specs.Kept.{placed};
ghost use Rattle.value_model.specs.Order.{text_cmp};
ghost use Rattle.value_model.specs.Doc.{put};
ghost use Rattle.ejson_value.specs.View.{view};
ghost use Rattle.kept_document.specs.Held.{value_in, put_some, changed_claims, changed_field};

use crate::claims::Claims;
use crate::sides::Sides;
use ejson_value::{Doc, Mem, Text, Value, copy};
use std::alloc::Global;
use std::collections::BTreeMap;

/// The claims on each field, by name.
pub(crate) type FieldMap = BTreeMap<Text, Claims>;

/// Puts copies of the name and of the value.
pub(crate) fn put_copy(doc: &mut Doc, name: &Text, value: &Value) -> Result<(), Mem>
    ensures { OnOk result (doc.new ≡ put doc.old name.now (view value.now)) }
{
    doc.put(name.copy()?, copy(value)?)
}

// Puts the claims as those of the field.
fn put_claims(fields: &mut FieldMap, name: &Text, claims: Claims) -> Result<(), Mem>
    ensures { OnOk result (fields.new.entries ≡ insert_entry text_cmp fields.old.entries name.now claims) }
{
    drop(fields.insert(name.copy()?, claims)?);
    Ok(())
}

// Puts a claim of `sub` alone on the field.
fn put_first(
    made: &mut FieldMap,
    alloc: Global,
    name: &Text,
    sub: u64,
    value: &Value,
) -> Result<(), Mem>
    ensures { OnOk result (made.new.entries ≡ insert_entry text_cmp made.old.entries name.now ((sub, view value.now) ∷ [])) }
{
    let mut claims = Claims::new(alloc);
    claims.push(sub, value)?;
    put_claims(made, name, claims)
}

// Puts what becomes of the claims on a field, if `sub` changes them.
fn put_changed(
    made: &mut FieldMap,
    alloc: Global,
    name: &Text,
    claims: &Claims,
    sub: u64,
    value: Option<&Value>,
) -> Result<(), Mem>
    ensures { OnOk result (made.new.entries ≡ put_some text_cmp made.old.entries name.now
        (changed_claims sub (option_map (λ v. view v.now) value.entry) claims.now)) }
{
    match claims.changed(alloc, sub, value)? {
        None => Ok(()),
        Some(changed) => put_claims(made, name, changed),
    }
}

// The same, where there may be no claims yet.
fn put_field(
    made: &mut FieldMap,
    alloc: Global,
    name: &Text,
    claims: Option<&Claims>,
    sub: u64,
    value: Option<&Value>,
) -> Result<(), Mem>
    ensures { OnOk result (made.new.entries ≡ put_some text_cmp made.old.entries name.now
        (changed_field sub (option_copied claims.entry) (option_map (λ v. view v.now) value.entry))) }
{
    match (claims, value) {
        (None, None) => Ok(()),
        (None, Some(value)) => put_first(made, alloc, name, sub, value),
        (Some(claims), value) => put_changed(made, alloc, name, claims, sub, value),
    }
}

// The claims on each field that changes, once `sub` publishes this document.
fn fields_beside(alloc: Global, fields: &FieldMap, sub: u64, doc: &Doc) -> Result<FieldMap, Mem>
    ensures { IfOk result (λ made. (f : List ℕ) → unwrap_or (at text_cmp made.entries f) (unwrap_or (at text_cmp fields.now.entries f) []) ≡
        placed sub (at text_cmp doc.now f) (unwrap_or (at text_cmp fields.now.entries f) [])) }
{
    let mut made = BTreeMap::new(alloc);
    let mut sides = Sides::of(fields, doc);
    while let Some(side) = sides.next() {
        put_field(&mut made, alloc, side.name, side.kept, sub, side.given)?;
    }
    Ok(made)
}

/// The same, where `sub` may publish no document any more.
pub(crate) fn changed_fields(
    alloc: Global,
    fields: &FieldMap,
    sub: u64,
    doc: Option<&Doc>,
) -> Result<FieldMap, Mem>
    ensures { IfOk result (λ made. (f : List ℕ) → unwrap_or (at text_cmp made.entries f) (unwrap_or (at text_cmp fields.now.entries f) []) ≡
        placed sub (value_in (option_copied doc.entry) f) (unwrap_or (at text_cmp fields.now.entries f) [])) }
{
    match doc {
        None => fields_beside(alloc, fields, sub, &Doc::new(alloc)),
        Some(doc) => fields_beside(alloc, fields, sub, doc),
    }
}

// Makes a place for the field, if there is none.
fn make_place(fields: &mut FieldMap, alloc: Global, name: &Text) -> Result<(), Mem>
    ensures same { (f : List ℕ) → unwrap_or (at text_cmp fields.new.entries f) [] ≡ unwrap_or (at text_cmp fields.old.entries f) [] }
    ensures grows { (f : List ℕ) → IsSome (at text_cmp fields.old.entries f) → IsSome (at text_cmp fields.new.entries f) }
    ensures room { OnOk result (IsSome (at text_cmp fields.new.entries name.now)) }
{
    if !fields.contains_key(name) {
        drop(fields.insert(name.copy()?, Claims::new(alloc))?);
    }
    Ok(())
}

/// Makes a place for each field that changes.
pub(crate) fn make_places(
    fields: &mut FieldMap,
    alloc: Global,
    changes: &FieldMap,
) -> Result<(), Mem>
    ensures same { (f : List ℕ) → unwrap_or (at text_cmp fields.new.entries f) [] ≡ unwrap_or (at text_cmp fields.old.entries f) [] }
    ensures grows { (f : List ℕ) → IsSome (at text_cmp fields.old.entries f) → IsSome (at text_cmp fields.new.entries f) }
    ensures room { OnOk result ((f : List ℕ) → IsSome (at text_cmp changes.now.entries f) → IsSome (at text_cmp fields.new.entries f)) }
{
    for (name, _) in changes.iter() {
        make_place(fields, alloc, name)?;
    }
    Ok(())
}

// Puts the claims in the field's place, and takes the place away where there are none.
fn put_or_clear(fields: &mut FieldMap, name: &Text, claims: Claims)
    requires { IsSome (at text_cmp fields.old.entries name.now) }
    ensures claims { (f : List ℕ) → unwrap_or (at text_cmp fields.new.entries f) [] ≡
        (if eq_by_cmp text_cmp f name.now then claims else unwrap_or (at text_cmp fields.old.entries f) []) }
    ensures others { (f : List ℕ) → eq_by_cmp text_cmp f name.now ≡ false →
        at text_cmp fields.new.entries f ≡ at text_cmp fields.old.entries f }
{
    if claims.is_empty() {
        drop(claims);
        drop(fields.remove(name));
    } else if let Some(place) = fields.get_mut(name) {
        *place = claims;
    }
}

/// Puts the claims on each field that changes in its place. It takes no memory.
pub(crate) fn take_fields(fields: &mut FieldMap, changes: FieldMap)
    requires { (f : List ℕ) → IsSome (at text_cmp changes.entries f) → IsSome (at text_cmp fields.old.entries f) }
    ensures { (f : List ℕ) → unwrap_or (at text_cmp fields.new.entries f) [] ≡
        unwrap_or (at text_cmp changes.entries f) (unwrap_or (at text_cmp fields.old.entries f) []) }
{
    let mut changes = changes;
    while let Some((name, claims)) = changes.pop_first() {
        put_or_clear(fields, &name, claims);
    }
}

/// The claims on each field of a document that `first` publishes, and then `second` too.
pub(crate) fn fields_of_two(
    alloc: Global,
    first: u64,
    doc: &Doc,
    second: u64,
    added: &Doc,
) -> Result<FieldMap, Mem>
    ensures { IfOk result (λ fields. (f : List ℕ) → unwrap_or (at text_cmp fields.entries f) [] ≡
        placed second (at text_cmp added.now f) (placed first (at text_cmp doc.now f) [])) }
{
    let none = BTreeMap::new(alloc);
    let mut fields = fields_beside(alloc, &none, first, doc)?;
    let changes = fields_beside(alloc, &fields, second, added)?;
    make_places(&mut fields, alloc, &changes)?;
    take_fields(&mut fields, changes);
    Ok(fields)
}
