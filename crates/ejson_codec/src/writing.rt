//! Writing JSON trees.
ghost use Rattle.std.specs.Prelude.{◌≡◌, IfOk, OnOk, OnErr, List, ℕ};
ghost use Rattle.serde_json.specs.Data.{Data, number, string, put};
ghost use Rattle.serde_json.specs.Find.{of_integer};
ghost use Rattle.serde_json.specs.View.{view as json_view, items_view, members_view};
ghost use Rattle.value_model.specs.Val.{vals_of, fields_of};
ghost use Rattle.ejson_value.specs.View.{view};
ghost use Rattle.ejson_codec.specs.Reads.{Reads};
ghost use Rattle.ejson_codec.specs.Trees.{IsTree, IsEscapedExactly};
ghost use Rattle.ejson_codec.specs.Written.{alone, user_object, written, items_written, members_written, escaped_if};
ghost use Rattle.value_model.specs.Size.{is_special};
ghost use Rattle.ejson_codec.specs.Shape.{keys_of_members};

use crate::base64_text::encoded;
use crate::shape::{Shape, of_members};
use ejson_value::{BoxedName, Doc, Items, Mem, Text, Value, Whole};
use serde_json::{Map, Number, Value as Json};
use std::alloc::Global;

/// Writes a value as its tree, with `$escape` exactly round the objects whose keys are special.
pub fn write(alloc: Global, value: &Value) -> Result<Json, Mem>
    ensures tree { IfOk result (λ tree. json_view tree ≡ written (view value.now)) }
    ensures reads { IfOk result (λ tree. Reads (json_view tree) (view value.now)) }
    ensures exact { IfOk result (λ tree. IsTree (json_view tree) × IsEscapedExactly (json_view tree)) }
    ensures only { IfOk result (λ tree. (d : Data) → IsTree d → IsEscapedExactly d → Reads d (view value.now) → d ≡ json_view tree) }
{
    value.known();
    tree(alloc, value)
}

// A whole number.
fn whole(integer: &Whole) -> Json
    ensures { json_view result ≡ number (of_integer integer.now) }
{
    Json::Number(Number::from(integer.get()))
}

// Puts the tree at the key.
fn put_member(
    alloc: Global,
    members: &mut Map<String, Json>,
    key: &str,
    tree: Json,
) -> Result<(), Mem>
    ensures ok { OnOk result (members_view members.new.entries ≡ put key.now (json_view tree) (members_view members.old.entries)) }
    ensures err { OnErr result (members.new.entries ≡ members.old.entries) }
{
    drop(members.insert(String::from_str(alloc, key)?, tree)?);
    Ok(())
}

// An object of one member.
fn object_of(alloc: Global, key: &str, tree: Json) -> Result<Json, Mem>
    ensures { IfOk result (λ object. json_view object ≡ alone key.now (json_view tree)) }
{
    let mut members = Map::new(alloc);
    put_member(alloc, &mut members, key, tree)?;
    Ok(Json::Object(members))
}

// A text.
fn text(alloc: Global, text: &Text) -> Result<Json, Mem>
    ensures { IfOk result (λ tree. json_view tree ≡ string text.now) }
{
    Ok(Json::String(String::from_str(alloc, text.as_str())?))
}

// A value of the user type of this name, over the tree of what stands for it.
fn user(alloc: Global, name: &BoxedName, tree: Json) -> Result<Json, Mem>
    ensures { IfOk result (λ object. json_view object ≡ user_object name.now (json_view tree)) }
{
    let mut members = Map::new(alloc);
    put_member(alloc, &mut members, "$value", tree)?;
    put_member(alloc, &mut members, "$type", text(alloc, name.get().get())?)?;
    Ok(Json::Object(members))
}

// An object, under `$escape` if it would stand for something else.
fn escaped(alloc: Global, members: Map<String, Json>) -> Result<Json, Mem>
    ensures { IfOk result
        (λ object. json_view object ≡ escaped_if (is_special (keys_of_members (members_view members.entries))) (members_view members.entries)) }
{
    match of_members(&members) {
        Shape::Plain => Ok(Json::Object(members)),
        _ => object_of(alloc, "$escape", Json::Object(members)),
    }
}

// The tree of a value.
#[cycle(writing)]
fn tree(alloc: Global, value: &Value) -> Result<Json, Mem>
    ensures { IfOk result (λ tree. json_view tree ≡ written (view value.now)) }
{
    match value {
        Value::Null => Ok(Json::Null),
        Value::Bool(truth) => Ok(Json::Bool(*truth)),
        Value::Int(number) => Ok(whole(number)),
        Value::Text(words) => text(alloc, words),
        Value::Date(moment) => object_of(alloc, "$date", whole(moment)),
        Value::Bytes(bytes) => object_of(
            alloc,
            "$binary",
            Json::String(encoded(alloc, bytes.as_slice())?),
        ),
        Value::List(items) => Ok(Json::Array(trees(alloc, items)?)),
        Value::Object(doc) => escaped(alloc, members(alloc, doc)?),
        Value::User { name, value } => user(alloc, name, tree(alloc, value.get())?),
    }
}

// The trees of a list's values.
#[cycle(writing)]
fn trees(alloc: Global, items: &Items) -> Result<Vec<Json>, Mem>
    ensures { IfOk result (λ trees. items_view trees.items ≡ items_written (vals_of items.now)) }
{
    let mut trees = Vec::new(alloc);
    for item in items.as_slice() {
        trees.push(tree(alloc, item)?)?;
    }
    Ok(trees)
}

// The members of a document's fields.
#[cycle(writing)]
fn members(alloc: Global, doc: &Doc) -> Result<Map<String, Json>, Mem>
    ensures { IfOk result (λ members. members_view members.entries ≡ members_written (fields_of doc.now)) }
{
    let mut members = Map::new(alloc);
    for (name, value) in doc.iter() {
        put_member(alloc, &mut members, name.as_str(), tree(alloc, value)?)?;
    }
    Ok(members)
}
