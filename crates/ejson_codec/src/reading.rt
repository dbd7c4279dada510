//! Reading JSON trees.
ghost use Rattle.std.specs.Prelude.{◌≡◌, ℕ, ◌≤◌, Ok, IfOk, OnOk, MatchOption};
ghost use Rattle.serde_json.specs.View.{view as json_view, number_view, items_view, members_view};
ghost use Rattle.value_model.specs.Val.{Val, user as user_value};
ghost use Rattle.value_model.specs.Doc.{put};
ghost use Rattle.value_model.specs.Depth.{depth};
ghost use Rattle.ejson_value.specs.View.{view};
ghost use Rattle.ejson_codec.specs.Shape.{first_of};
ghost use Rattle.ejson_codec.specs.Reads.{Reads};
ghost use Rattle.ejson_codec.specs.Reading.{max_levels, number_reading, date_reading, binary_reading, name_reading, below, object_made, reading};
ghost use Rattle.ejson_codec.specs.Reading.{items_reading, members_reading, escape_reading, user_reading, Gives};
ghost use Rattle.serde_json.specs.Data.{null, object as json_object};

use crate::base64_text::decoded;
use crate::fault::{EjsonFault, ReadFault};
use crate::shape::{Shape, of_members};
use ejson_value::{Boxed, BoxedName, Doc, Items, Mem, Text, UserName, Value, Whole};
use serde_json::{Map, Number, Value as Json};
use std::alloc::Global;

/// How many lists, objects and values of user types may stand in one another.
pub(crate) const MAX_LEVELS: u8 = 32;

/// Reads a tree as a value.
pub fn read(alloc: Global, tree: &Json) -> Result<Value, ReadFault>
    ensures found { IfOk result (λ v. Reads (json_view tree.now) (view v) × (depth (view v) ≤ max_levels)) }
    ensures only { (v : Val) → Reads (json_view tree.now) v → depth v ≤ max_levels → Gives view result (Ok v) }
    ensures exact { Gives view result (reading max_levels (json_view tree.now)) }
{
    whole_tree(alloc, tree)
}

// A tree, with all levels left.
fn whole_tree(alloc: Global, tree: &Json) -> Result<Value, ReadFault>
    ensures { Gives view result (reading max_levels (json_view tree.now)) }
{
    value(alloc, MAX_LEVELS, tree)
}

// A number in range.
fn whole(number: &Number) -> Result<Whole, ReadFault>
    ensures { Gives (λ z. z) result (number_reading (number_view number.now)) }
{
    match number.as_i64() {
        Some(n) => match Whole::of(n) {
            Some(whole) => Ok(whole),
            None => Err(ReadFault::Ejson(EjsonFault::BadNumber)),
        },
        None => Err(ReadFault::Ejson(EjsonFault::BadNumber)),
    }
}

// The tree at the first key.
fn first(members: &Map<String, Json>) -> Option<&Json>
    ensures { MatchOption result (first_of (members_view members.now.entries) ≡ null)
        (λ tree. first_of (members_view members.now.entries) ≡ json_view tree.now) }
{
    members.values().next()
}

// What stands at `$date`.
fn date(tree: &Json) -> Result<Value, ReadFault>
    ensures { Gives view result (date_reading (json_view tree.now)) }
{
    match tree {
        Json::Number(number) => Ok(Value::Date(whole(number)?)),
        _ => Err(ReadFault::Ejson(EjsonFault::BadDate)),
    }
}

// What stands at `$binary`.
fn binary(alloc: Global, tree: &Json) -> Result<Value, ReadFault>
    ensures { Gives view result (binary_reading (json_view tree.now)) }
{
    match tree {
        Json::String(text) => match decoded(alloc, text.as_str())? {
            Some(bytes) => Ok(Value::Bytes(bytes)),
            None => Err(ReadFault::Ejson(EjsonFault::BadBinary)),
        },
        _ => Err(ReadFault::Ejson(EjsonFault::BadBinary)),
    }
}

// What stands at `$type`.
fn user_name(alloc: Global, tree: &Json) -> Result<UserName, ReadFault>
    ensures { Gives (λ name. name) result (name_reading (json_view tree.now)) }
{
    match tree {
        Json::String(text) => match UserName::of(Text::from_str(alloc, text.as_str())?) {
            Ok(name) => Ok(name),
            Err(_) => Err(ReadFault::Ejson(EjsonFault::BadUser)),
        },
        _ => Err(ReadFault::Ejson(EjsonFault::BadUser)),
    }
}

// The value of the user type of this name that this value stands for.
fn user_of(alloc: Global, name: UserName, value: Value) -> Result<Value, Mem>
    ensures { IfOk result (λ v. view v ≡ user_value name (view value)) }
{
    let value = Boxed::of(alloc, value)?;
    let name = BoxedName::of(alloc, name)?;
    Ok(Value::User { name, value })
}

/// Puts the value at the key.
pub fn put_field(alloc: Global, doc: &mut Doc, key: &str, value: Value) -> Result<(), Mem>
    ensures { OnOk result (doc.new ≡ put doc.old key.now (view value)) }
{
    match Text::from_str(alloc, key) {
        Ok(name) => doc.put(name, value),
        Err(fault) => {
            drop(value);
            Err(fault)
        }
    }
}

// A tree, with so many levels left.
#[cycle(reading)]
fn value(alloc: Global, levels: u8, tree: &Json) -> Result<Value, ReadFault>
    ensures { Gives view result (reading levels (json_view tree.now)) }
{
    match tree {
        Json::Null => Ok(Value::Null),
        Json::Bool(truth) => Ok(Value::Bool(*truth)),
        Json::Number(number) => Ok(Value::Int(whole(number)?)),
        Json::String(text) => Ok(Value::Text(Text::from_str(alloc, text.as_str())?)),
        Json::Array(trees) => Ok(Value::List(list(alloc, levels, trees)?)),
        Json::Object(members) => object(alloc, levels, members),
    }
}

// The elements of a list, in order.
#[cycle(reading)]
fn list(alloc: Global, levels: u8, trees: &Vec<Json>) -> Result<Items, ReadFault>
    ensures { Gives (λ vs. vs) result (below levels (λ left. items_reading left (items_view trees.now.items))) }
{
    if levels == 0 {
        return Err(ReadFault::Ejson(EjsonFault::TooDeep));
    }
    let mut items = Items::new(alloc);
    for tree in trees {
        items.push(value(alloc, levels - 1, tree)?)?;
    }
    Ok(items)
}

// An object, by what it stands for.
#[cycle(reading)]
fn object(alloc: Global, levels: u8, members: &Map<String, Json>) -> Result<Value, ReadFault>
    ensures { Gives view result (reading levels (json_object (members_view members.now.entries))) }
{
    match of_members(members) {
        Shape::Plain => Ok(Value::Object(fields(alloc, levels, members)?)),
        Shape::Date => match first(members) {
            Some(tree) => date(tree),
            None => Err(ReadFault::Ejson(EjsonFault::BadDate)),
        },
        Shape::Binary => match first(members) {
            Some(tree) => binary(alloc, tree),
            None => Err(ReadFault::Ejson(EjsonFault::BadBinary)),
        },
        Shape::Escape => escaped(alloc, levels, members),
        Shape::User => user(alloc, levels, members),
        Shape::Unsupported => Err(ReadFault::Ejson(EjsonFault::Unsupported)),
    }
}

// What stands at `$escape`, under its own keys.
#[cycle(reading)]
fn escaped(alloc: Global, levels: u8, members: &Map<String, Json>) -> Result<Value, ReadFault>
    ensures { Gives view result (escape_reading levels (members_view members.now.entries)) }
{
    let Some(tree) = members.values().next() else {
        return Err(ReadFault::Ejson(EjsonFault::BadEscape));
    };
    match tree {
        Json::Object(inner) => Ok(Value::Object(fields(alloc, levels, inner)?)),
        _ => Err(ReadFault::Ejson(EjsonFault::BadEscape)),
    }
}

// What stands at `$type` and at `$value`.
#[cycle(reading)]
fn user(alloc: Global, levels: u8, members: &Map<String, Json>) -> Result<Value, ReadFault>
    ensures { Gives view result (user_reading levels (members_view members.now.entries)) }
{
    let mut trees = members.values();
    let Some(named) = trees.next() else {
        return Err(ReadFault::Ejson(EjsonFault::BadUser));
    };
    let Some(tree) = trees.next() else {
        return Err(ReadFault::Ejson(EjsonFault::BadUser));
    };
    if levels == 0 {
        return Err(ReadFault::Ejson(EjsonFault::TooDeep));
    }
    let name = user_name(alloc, named)?;
    Ok(user_of(alloc, name, value(alloc, levels - 1, tree)?)?)
}

// The members of an object by rising key, each under its own key.
#[cycle(reading)]
fn fields(alloc: Global, levels: u8, members: &Map<String, Json>) -> Result<Doc, ReadFault>
    ensures { Gives (λ es. es) result (below levels (λ left. members_reading left (members_view members.now.entries))) }
{
    if levels == 0 {
        return Err(ReadFault::Ejson(EjsonFault::TooDeep));
    }
    let mut doc = Doc::new(alloc);
    for (key, tree) in members {
        put_field(
            alloc,
            &mut doc,
            key.as_str(),
            value(alloc, levels - 1, tree)?,
        )?;
    }
    Ok(doc)
}
