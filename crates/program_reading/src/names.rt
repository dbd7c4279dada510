//! Names, and the members of the objects that describe an application.
ghost use Rattle.std.specs.Prelude.{◌≡◌, length, nat_lt, IfOk, option_map};
ghost use Rattle.value_model.specs.Val.{list_of, vals_of, fields_of};
ghost use Rattle.value_model.specs.Size.{names_of};
ghost use Rattle.value_model.specs.Branches.{field_of};
ghost use Rattle.ejson_value.specs.View.{view};
ghost use Rattle.program_reading.specs.Faults.{Gives};
ghost use Rattle.program_reading.specs.Names.{is_valid_name, name_reading, has_name, known_reading, is_key, has_only_keys};

use crate::fault::{AppFault, Flaw, bad};
use ejson_value::{Doc, Items, Mem, Names, Text, Value};
use std::alloc::Global;

const MAX_NAME: usize = 128;

/// What an object describes: an application, a cursor of a publication, a program, the rules of a
/// collection, or one rule.
#[derive(Clone, Copy)]
pub enum Shape {
    Application,
    Cursor,
    Program,
    Rules,
    Rule,
}

/// Whether a name has 1 to 128 bytes.
pub fn is_valid_name(name: &Text) -> bool
    ensures { result ≡ is_valid_name name.now }
{
    0 < name.len() && name.len() <= MAX_NAME
}

/// Whether it is one of the names. It looks through them.
pub fn has_name(names: &Names, name: &Text) -> bool
    ensures { result ≡ has_name names.now name.now }
{
    names
        .as_slice()
        .iter()
        .any(|other| other.as_str() == name.as_str())
}

/// The name that the part at this place is.
pub fn read_name(place: &Text, value: &Value) -> Result<Text, AppFault>
    ensures { Gives (λ name. name) result (name_reading place.now (view value.now)) }
{
    let Value::Text(name) = value else {
        return Err(bad(Flaw::BadShape, place.copy()?));
    };
    if is_valid_name(name) {
        Ok(name.copy()?)
    } else {
        Err(bad(Flaw::BadName, place.copy()?))
    }
}

/// The collection that the part at this place names: one of these.
pub fn read_known(
    collections: &Names,
    place: &Text,
    collection: Option<&Value>,
) -> Result<Text, AppFault>
    ensures { Gives (λ name. name) result (known_reading collections.now place.now (option_map (λ v. view v.now) collection.entry)) }
{
    let Some(value) = collection else {
        return Err(bad(Flaw::BadShape, place.copy()?));
    };
    let name = read_name(place, value)?;
    if has_name(collections, &name) {
        Ok(name)
    } else {
        Err(bad(Flaw::UnknownCollection, place.copy()?))
    }
}

/// The member of an object with this key.
pub fn member<'a>(alloc: Global, fields: &'a Doc, key: &str) -> Result<Option<&'a Value>, Mem>
    ensures { IfOk result (λ found. option_map (λ v. view v.now) found ≡ field_of (fields_of fields.now) key.now) }
{
    let key = Text::from_str(alloc, key)?;
    Ok(fields.get(&key))
}

fn is_application_key(key: &str) -> bool
    ensures { result ≡ is_key Shape.Application key.now }
{
    key == "collections" || key == "methods" || key == "publications" || key == "rules"
}

fn is_cursor_key(key: &str) -> bool
    ensures { result ≡ is_key Shape.Cursor key.now }
{
    key == "collection"
        || key == "as"
        || key == "selector"
        || key == "fields"
        || key == "sort"
        || key == "limit"
}

fn is_rule_key(key: &str) -> bool
    ensures { result ≡ is_key Shape.Rule key.now }
{
    key == "on" || key == "selector" || key == "fields"
}

fn is_key(shape: Shape, key: &str) -> bool
    ensures { result ≡ is_key shape key.now }
{
    match shape {
        Shape::Application => is_application_key(key),
        Shape::Cursor => is_cursor_key(key),
        Shape::Program => key == "steps" || key == "stub",
        Shape::Rules => key == "allow" || key == "deny",
        Shape::Rule => is_rule_key(key),
    }
}

/// Whether the object has no keys but those of what it describes.
pub fn has_only_keys(shape: Shape, fields: &Doc) -> bool
    ensures { result ≡ has_only_keys shape (fields_of fields.now) }
{
    for (key, _value) in fields.iter() {
        if !is_key(shape, key.as_str()) {
            return false;
        }
    }
    true
}

/// Whether the list has more elements than this.
pub fn has_more_items(items: &Items, most: usize) -> bool
    ensures { result ≡ nat_lt most (length (list_of (vals_of items.now))) }
{
    items.len() > most
}

/// Whether the object has more fields than this.
pub fn has_more_fields(fields: &Doc, most: usize) -> bool
    ensures { result ≡ nat_lt most (length (names_of (fields_of fields.now))) }
{
    fields.len() > most
}
