//! Making a modifier's changes.
ghost use Rattle.std.specs.Prelude.{◌≡◌, ◌<◌, ◌≤◌, ◌++◌, ◌∷◌, [], ◌==◌, ◌&&◌, ◌||◌, ◌-◌, Ok, Some, None, codes, length, replicate, map, option_map};
ghost use Rattle.std.specs.Prelude.{slice_get, slice_set, unwrap_or, IfOk};
ghost use Rattle.std.specs.List.{list_any};
ghost use Rattle.value_model.specs.Val.{object, list, text, null, fields_of, vals_of};
ghost use Rattle.value_model.specs.Doc.{get, put};
ghost use Rattle.value_model.specs.Branches.{position_of};
ghost use Rattle.ejson_value.specs.Results.{made};
ghost use Rattle.ejson_value.specs.View.{view};
ghost use Rattle.modifier_apply.specs.View.{edit_view, change_view, changes_view};
ghost use Rattle.modifier_apply.specs.Modified.{Gives, same, blocked, with_field, put_behind, with_element, field_changed, element_changed};
ghost use Rattle.modifier_apply.specs.Modified.{changed_at, document_changed, begins_with_id, changes_id, all_made, updated, replacement, modified};

use crate::conflicts::have_conflict;
use crate::edits::{edited_if_there, makes};
use crate::fault::ApplyFault;
use crate::modifier::{Modifier, ModifierKind, Operator, Update};
use ejson_value::{Doc, Items, Mem, Part, Path, Text, Value};
use std::alloc::Global;

/// The last position that a modifier reaches in a list.
const MAX_PLACE: usize = 9999;

// Refuses an operator that would make something where the path can't go on.
fn may_stay(operator: &Operator) -> Result<(), ApplyFault>
    ensures { Gives (λ u. u) result (blocked (edit_view operator.now) tt) }
{
    if makes(operator) {
        Err(ApplyFault::PathBlocked)
    } else {
        Ok(())
    }
}

// The value, where the path can't go on.
fn stays(operator: &Operator, value: Value) -> Result<Option<Value>, ApplyFault>
    ensures { Gives (λ o. option_map view o) result (made Some (blocked (edit_view operator.now) (view value))) }
{
    if makes(operator) {
        drop(value);
        return Err(ApplyFault::PathBlocked);
    }
    Ok(Some(value))
}

// Fills the list with nulls up to this many places.
fn filled(mut items: Items, places: usize) -> Result<Items, Mem>
    ensures { IfOk result (λ vs. vs ≡ items ++ replicate (places - length items) null) }
{
    for _place in items.len()..places {
        items.push(Value::Null)?;
    }
    Ok(items)
}

// Puts a value behind the others, with nulls in the places between.
fn put_behind(items: Items, place: usize, left: Option<Value>) -> Result<Items, Mem>
    ensures { IfOk result (λ vs. vs ≡ put_behind items place (option_map view left)) }
{
    match left {
        None => Ok(items),
        Some(value) => {
            let mut made = filled(items, place)?;
            made.push(value)?;
            Ok(made)
        }
    }
}

// What is left of the value that is there, with the operator's change at the end of the path.
#[cycle(walking)]
fn changed_at(
    alloc: Global,
    operator: &Operator,
    path: &[Part],
    there: Option<Value>,
) -> Result<Option<Value>, ApplyFault>
    ensures { Gives (λ o. option_map view o) result (changed_at (edit_view operator.now) path.now (option_map view there)) }
{
    let Some((part, rest)) = path.split_first() else {
        return edited_if_there(alloc, operator, there);
    };
    match there {
        None => changed_in_nothing(alloc, operator, part, rest),
        Some(value) => changed_inside(alloc, operator, part, rest, value),
    }
}

#[cycle(walking)]
fn changed_in_nothing(
    alloc: Global,
    operator: &Operator,
    part: &Part,
    rest: &[Part],
) -> Result<Option<Value>, ApplyFault>
    ensures { Gives (λ o. option_map view o) result (changed_at (edit_view operator.now) (part.now ∷ rest.now) None) }
{
    if !makes(operator) {
        return Ok(None);
    }
    let fields = field_changed(alloc, operator, part, rest, Doc::new(alloc))?;
    Ok(Some(Value::Object(fields)))
}

#[cycle(walking)]
fn changed_inside(
    alloc: Global,
    operator: &Operator,
    part: &Part,
    rest: &[Part],
    value: Value,
) -> Result<Option<Value>, ApplyFault>
    ensures { Gives (λ o. option_map view o) result (changed_at (edit_view operator.now) (part.now ∷ rest.now) (Some (view value))) }
{
    match value {
        Value::Object(fields) => {
            let fields = field_changed(alloc, operator, part, rest, fields)?;
            Ok(Some(Value::Object(fields)))
        }
        Value::List(items) => {
            let items = element_changed(alloc, operator, part, rest, items)?;
            Ok(Some(Value::List(items)))
        }
        other => stays(operator, other),
    }
}

// The object, out of which the field was taken, with what is left of the field.
fn with_left(mut fields: Doc, part: &Part, left: Option<Value>) -> Result<Doc, Mem>
    ensures { IfOk result (λ doc. doc ≡ unwrap_or (option_map (λ v. put fields part.now (view v)) left) fields) }
{
    match left {
        None => Ok(fields),
        Some(value) => {
            fields.put(part.name().copy()?, value)?;
            Ok(fields)
        }
    }
}

// The object with the change made in a field.
#[cycle(walking)]
fn field_changed(
    alloc: Global,
    operator: &Operator,
    part: &Part,
    rest: &[Part],
    mut fields: Doc,
) -> Result<Doc, ApplyFault>
    ensures { Gives (λ doc. doc) result (field_changed (λ there. changed_at (edit_view operator.now) rest.now there) fields part.now) }
{
    fields.known();
    let there = fields.remove(part.name())?;
    let left = changed_at(alloc, operator, rest, there)?;
    Ok(with_left(fields, part, left)?)
}

// The list with the change made in an element.
#[cycle(walking)]
fn element_changed(
    alloc: Global,
    operator: &Operator,
    part: &Part,
    rest: &[Part],
    items: Items,
) -> Result<Items, ApplyFault>
    ensures { Gives (λ vs. vs) result
        (element_changed (edit_view operator.now) (λ there. changed_at (edit_view operator.now) rest.now there) items (position_of part.now)) }
{
    match part.place() {
        Some(place) if place <= MAX_PLACE => changed_at_place(alloc, operator, place, rest, items),
        _ => {
            may_stay(operator)?;
            Ok(items)
        }
    }
}

#[cycle(walking)]
fn changed_at_place(
    alloc: Global,
    operator: &Operator,
    place: usize,
    rest: &[Part],
    mut items: Items,
) -> Result<Items, ApplyFault>
    ensures { Gives (λ vs. vs) result (made (λ left. with_element items place left) (changed_at (edit_view operator.now) rest.now (slice_get items place))) }
{
    if place < items.len() {
        let there = items.replace(place, Value::Null)?;
        let left = changed_at(alloc, operator, rest, Some(there))?;
        drop(items.replace(place, left.unwrap_or(Value::Null))?);
        Ok(items)
    } else {
        let left = changed_at(alloc, operator, rest, None)?;
        Ok(put_behind(items, place, left)?)
    }
}

fn document_changed(alloc: Global, update: &Update, doc: Doc) -> Result<Doc, ApplyFault>
    ensures { Gives (λ doc. doc) result (document_changed (change_view update.now).edit (change_view update.now).path doc) }
{
    match update.path.parts().split_first() {
        None => Ok(doc),
        Some((part, rest)) => field_changed(alloc, &update.operator, part, rest, doc),
    }
}

fn begins_with_id(path: &Path) -> bool
    ensures { result ≡ begins_with_id path.now }
{
    match path.parts().split_first() {
        None => false,
        Some((part, _rest)) => part.name().as_str() == "_id",
    }
}

fn some_changes_id(updates: &[Update]) -> bool
    ensures { result ≡ list_any (λ change. changes_id change) (changes_view updates.now) }
{
    for update in updates {
        if begins_with_id(&update.path) {
            return true;
        }
    }
    false
}

fn all_made(alloc: Global, updates: &[Update], doc: &Doc) -> Result<Doc, ApplyFault>
    ensures { Gives (λ doc. doc) result (all_made (changes_view updates.now) (Ok doc.now)) }
{
    let mut made = doc.copy()?;
    for update in updates {
        made = document_changed(alloc, update, made)?;
    }
    Ok(made)
}

fn updated(alloc: Global, updates: &[Update], doc: &Doc) -> Result<Doc, ApplyFault>
    ensures { Gives (λ doc. doc) result (updated (changes_view updates.now) doc.now) }
{
    if have_conflict(alloc, updates)? {
        return Err(ApplyFault::Conflict);
    }
    if some_changes_id(updates) {
        return Err(ApplyFault::IdChange);
    }
    all_made(alloc, updates, doc)
}

fn is_text(value: &Value, id: &Text) -> bool
    ensures { result ≡ same (view value.now) (text id.now) }
{
    match value {
        Value::Text(text) => text.cmp(id).is_eq(),
        _ => false,
    }
}

fn replaced(alloc: Global, fields: &Doc, id: &Text) -> Result<Doc, ApplyFault>
    ensures { Gives (λ doc. doc) result (replacement fields.now id.now (get fields.now (codes "_id"))) }
{
    let name = Text::from_str(alloc, "_id")?;
    match fields.get(&name) {
        None => Ok(fields.copy()?),
        Some(value) => {
            if !is_text(value, id) {
                return Err(ApplyFault::IdChange);
            }
            let mut kept = fields.copy()?;
            drop(kept.remove(&name)?);
            Ok(kept)
        }
    }
}

/// What the modifier makes of the document with this id. The document itself stays as it is.
pub fn apply(alloc: Global, modifier: &Modifier, id: &Text, doc: &Doc) -> Result<Doc, ApplyFault>
    ensures { Gives (λ doc. doc) result (modified modifier.now id.now doc.now) }
{
    match &modifier.kind {
        ModifierKind::Replacement(fields) => replaced(alloc, fields, id),
        ModifierKind::Updates(updates) => updated(alloc, updates.as_slice(), doc),
    }
}
