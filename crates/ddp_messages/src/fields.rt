//! Reading the fields of a message.
ghost use Rattle.std.specs.Prelude.{◌≡◌, [], option_map, option_and_then, IfOk};
ghost use Rattle.std.specs.Fmt.{signed_decimal};
ghost use Rattle.serde_json.specs.View.{view as json_view, items_view, number_view};
ghost use Rattle.serde_json.specs.Find.{get, as_str, as_array, as_number};
ghost use Rattle.ejson_value.specs.View.{view};
ghost use Rattle.ddp_messages.specs.Forms.{max_id, id_of, document_id_of, each_of, texts_of, ids_of, value_of, values_of, document_of, decimal_of, code_of};
ghost use Rattle.ddp_messages.specs.ServerMessage.{fault_of};
ghost use Rattle.ddp_messages.specs.Fields.{needed, may_be, optional, or_default, defaulted, name_of, Gives};

use crate::fault::FieldFault;
use crate::wire::own_id;
use ejson_codec::read;
use ejson_value::{Doc, Fault, Items, Mem, Names, Text, Value, Whole};
use serde_json::{Number, Value as Json};
use std::alloc::Global;

/// How many bytes an id of a subscription or a method may have.
pub(crate) const MAX_ID: usize = 256;

// ---- the forms

// A text.
fn text(alloc: Global, tree: &Json) -> Result<Text, FieldFault>
    ensures { Gives (λ t. t) result (as_str (json_view tree.now)) }
{
    match tree.as_str() {
        Some(text) => Ok(Text::from_str(alloc, text)?),
        None => Err(FieldFault::Malformed),
    }
}

// The id of a subscription or a method.
fn id(alloc: Global, tree: &Json) -> Result<Text, FieldFault>
    ensures { Gives (λ t. t) result (id_of (json_view tree.now)) }
{
    match tree.as_str() {
        Some(id) if id.len() <= MAX_ID => Ok(Text::from_str(alloc, id)?),
        _ => Err(FieldFault::Malformed),
    }
}

// The id of a document.
fn document_id(alloc: Global, tree: &Json) -> Result<Text, FieldFault>
    ensures { Gives (λ t. t) result (document_id_of (json_view tree.now)) }
{
    match own_id(alloc, &text(alloc, tree)?)? {
        Some(id) => Ok(id),
        None => Err(FieldFault::Malformed),
    }
}

// A list of texts.
fn texts(alloc: Global, tree: &Json) -> Result<Names, FieldFault>
    ensures { Gives (λ ts. ts) result (texts_of (json_view tree.now)) }
{
    match tree.as_array() {
        Some(trees) => each_text(alloc, trees),
        None => Err(FieldFault::Malformed),
    }
}

fn each_text(alloc: Global, trees: &Vec<Json>) -> Result<Names, FieldFault>
    ensures { Gives (λ ts. ts) result (each_of as_str (items_view trees.now.items)) }
{
    let mut texts = Names::new(alloc);
    for tree in trees {
        texts.push(text(alloc, tree)?)?;
    }
    Ok(texts)
}

// A list of ids of subscriptions or methods.
fn ids(alloc: Global, tree: &Json) -> Result<Names, FieldFault>
    ensures { Gives (λ ts. ts) result (ids_of (json_view tree.now)) }
{
    match tree.as_array() {
        Some(trees) => each_id(alloc, trees),
        None => Err(FieldFault::Malformed),
    }
}

fn each_id(alloc: Global, trees: &Vec<Json>) -> Result<Names, FieldFault>
    ensures { Gives (λ ts. ts) result (each_of id_of (items_view trees.now.items)) }
{
    let mut ids = Names::new(alloc);
    for tree in trees {
        ids.push(id(alloc, tree)?)?;
    }
    Ok(ids)
}

// An EJSON value.
fn value(alloc: Global, tree: &Json) -> Result<Value, FieldFault>
    ensures { Gives view result (value_of (json_view tree.now)) }
{
    Ok(read(alloc, tree)?)
}

// A list of EJSON values.
fn values(alloc: Global, tree: &Json) -> Result<Items, FieldFault>
    ensures { Gives (λ vs. vs) result (values_of (json_view tree.now)) }
{
    match tree.as_array() {
        Some(trees) => each_value(alloc, trees),
        None => Err(FieldFault::Malformed),
    }
}

fn each_value(alloc: Global, trees: &Vec<Json>) -> Result<Items, FieldFault>
    ensures { Gives (λ vs. vs) result (each_of value_of (items_view trees.now.items)) }
{
    let mut values = Items::new(alloc);
    for tree in trees {
        values.push(value(alloc, tree)?)?;
    }
    Ok(values)
}

// The fields of a document.
fn document(alloc: Global, tree: &Json) -> Result<Doc, FieldFault>
    ensures { Gives (λ es. es) result (document_of (json_view tree.now)) }
{
    match value(alloc, tree)? {
        Value::Object(doc) => Ok(doc),
        Value::Null
        | Value::Bool(_)
        | Value::Int(_)
        | Value::Text(_)
        | Value::Date(_)
        | Value::Bytes(_)
        | Value::List(_)
        | Value::User { .. } => Err(FieldFault::Malformed),
    }
}

// The decimal text of an integer.
fn digits(alloc: Global, integer: i64) -> Result<Text, Mem>
    ensures { IfOk result (λ t. t ≡ signed_decimal integer) }
{
    Text::from_string(format!(in alloc; "{integer}")?)
}

// The decimal text of a whole number.
fn decimal(alloc: Global, number: &Number) -> Result<Text, FieldFault>
    ensures { Gives (λ t. t) result (decimal_of (number_view number.now)) }
{
    match number.as_i64() {
        Some(integer) => match Whole::of(integer) {
            Some(_) => Ok(digits(alloc, integer)?),
            None => Err(FieldFault::Malformed),
        },
        None => Err(FieldFault::Malformed),
    }
}

// The code of an error.
fn code(alloc: Global, tree: &Json) -> Result<Text, FieldFault>
    ensures { Gives (λ t. t) result (code_of (json_view tree.now)) }
{
    if let Some(text) = tree.as_str() {
        return Ok(Text::from_str(alloc, text)?);
    }
    match tree.as_number() {
        Some(number) => decimal(alloc, number),
        None => Err(FieldFault::Malformed),
    }
}

// An error that a client is told.
fn fault(alloc: Global, tree: &Json) -> Result<Fault, FieldFault>
    ensures { Gives (λ fault. fault) result (fault_of (json_view tree.now)) }
{
    let code = code_at(alloc, tree, "error")?;
    let Some(_kind) = str_at(tree, "errorType") else {
        return Err(FieldFault::Malformed);
    };
    let Some(_message) = optional_str_at(tree, "message") else {
        return Err(FieldFault::Malformed);
    };
    let reason = text_or_empty_at(alloc, tree, "reason")?;
    Ok(Fault { code, reason })
}

// ---- the fields

/// The text at the key, borrowed.
pub(crate) fn str_at<'a>(object: &'a Json, key: &str) -> Option<&'a str>
    ensures { option_map (λ s. s.now) result ≡ needed as_str key.now (json_view object.now) }
{
    object.get(key).and_then(Json::as_str)
}

// The text at the key, borrowed, if there is a field; None where it is no text.
fn optional_str_at<'a>(object: &'a Json, key: &str) -> Option<Option<&'a str>>
    ensures { option_map (option_map (λ s. s.now)) result ≡ optional as_str key.now (json_view object.now) }
{
    match object.get(key) {
        None => Some(None),
        Some(tree) => match tree.as_str() {
            Some(text) => Some(Some(text)),
            None => None,
        },
    }
}

/// The message's name: the text at `msg`, borrowed.
pub(crate) fn name(object: &Json) -> Option<&str>
    ensures { option_map (λ s. s.now) result ≡ name_of (json_view object.now) }
{
    str_at(object, "msg")
}

/// The text at the key.
pub(crate) fn text_at(alloc: Global, object: &Json, key: &str) -> Result<Text, FieldFault>
    ensures { Gives (λ x. x) result (needed as_str key.now (json_view object.now)) }
{
    match object.get(key) {
        Some(tree) => text(alloc, tree),
        None => Err(FieldFault::Malformed),
    }
}

/// The id of a subscription or a method at the key.
pub(crate) fn id_at(alloc: Global, object: &Json, key: &str) -> Result<Text, FieldFault>
    ensures { Gives (λ x. x) result (needed id_of key.now (json_view object.now)) }
{
    match object.get(key) {
        Some(tree) => id(alloc, tree),
        None => Err(FieldFault::Malformed),
    }
}

/// The id of a document whose wire form is at the key.
pub(crate) fn document_id_at(alloc: Global, object: &Json, key: &str) -> Result<Text, FieldFault>
    ensures { Gives (λ x. x) result (needed document_id_of key.now (json_view object.now)) }
{
    match object.get(key) {
        Some(tree) => document_id(alloc, tree),
        None => Err(FieldFault::Malformed),
    }
}

/// The ids of subscriptions or methods at the key.
pub(crate) fn ids_at(alloc: Global, object: &Json, key: &str) -> Result<Names, FieldFault>
    ensures { Gives (λ x. x) result (needed ids_of key.now (json_view object.now)) }
{
    match object.get(key) {
        Some(tree) => ids(alloc, tree),
        None => Err(FieldFault::Malformed),
    }
}

// The code of an error at the key.
fn code_at(alloc: Global, object: &Json, key: &str) -> Result<Text, FieldFault>
    ensures { Gives (λ x. x) result (needed code_of key.now (json_view object.now)) }
{
    match object.get(key) {
        Some(tree) => code(alloc, tree),
        None => Err(FieldFault::Malformed),
    }
}

/// The text at the key, if there is a field.
pub(crate) fn optional_text_at(
    alloc: Global,
    object: &Json,
    key: &str,
) -> Result<Option<Text>, FieldFault>
    ensures { Gives (λ o. o) result (optional as_str key.now (json_view object.now)) }
{
    match object.get(key) {
        Some(tree) => Ok(Some(text(alloc, tree)?)),
        None => Ok(None),
    }
}

/// The texts at the key, if there is a field.
pub(crate) fn optional_texts_at(
    alloc: Global,
    object: &Json,
    key: &str,
) -> Result<Option<Names>, FieldFault>
    ensures { Gives (λ o. o) result (optional texts_of key.now (json_view object.now)) }
{
    match object.get(key) {
        Some(tree) => Ok(Some(texts(alloc, tree)?)),
        None => Ok(None),
    }
}

/// The value at the key, if there is a field.
pub(crate) fn optional_value_at(
    alloc: Global,
    object: &Json,
    key: &str,
) -> Result<Option<Value>, FieldFault>
    ensures { Gives (option_map view) result (optional value_of key.now (json_view object.now)) }
{
    match object.get(key) {
        Some(tree) => Ok(Some(value(alloc, tree)?)),
        None => Ok(None),
    }
}

/// The error at the key, if there is a field.
pub(crate) fn optional_fault_at(
    alloc: Global,
    object: &Json,
    key: &str,
) -> Result<Option<Fault>, FieldFault>
    ensures { Gives (λ o. o) result (optional fault_of key.now (json_view object.now)) }
{
    match object.get(key) {
        Some(tree) => Ok(Some(fault(alloc, tree)?)),
        None => Ok(None),
    }
}

// The text at the key, the empty one where there is no field.
fn text_or_empty_at(alloc: Global, object: &Json, key: &str) -> Result<Text, FieldFault>
    ensures { Gives (λ x. x) result (defaulted [] as_str key.now (json_view object.now)) }
{
    match object.get(key) {
        Some(tree) => text(alloc, tree),
        None => Ok(Text::new(alloc)),
    }
}

/// The texts at the key, none where there is no field.
pub(crate) fn texts_or_none_at(alloc: Global, object: &Json, key: &str) -> Result<Names, FieldFault>
    ensures { Gives (λ x. x) result (defaulted [] texts_of key.now (json_view object.now)) }
{
    match object.get(key) {
        Some(tree) => texts(alloc, tree),
        None => Ok(Names::new(alloc)),
    }
}

/// The values at the key, none where there is no field.
pub(crate) fn values_or_none_at(
    alloc: Global,
    object: &Json,
    key: &str,
) -> Result<Items, FieldFault>
    ensures { Gives (λ x. x) result (defaulted [] values_of key.now (json_view object.now)) }
{
    match object.get(key) {
        Some(tree) => values(alloc, tree),
        None => Ok(Items::new(alloc)),
    }
}

/// The document at the key, the empty one where there is no field.
pub(crate) fn document_or_empty_at(
    alloc: Global,
    object: &Json,
    key: &str,
) -> Result<Doc, FieldFault>
    ensures { Gives (λ x. x) result (defaulted [] document_of key.now (json_view object.now)) }
{
    match object.get(key) {
        Some(tree) => document(alloc, tree),
        None => Ok(Doc::new(alloc)),
    }
}

/// The value at the key; None where there is no field, and where it isn't an EJSON value.
pub(crate) fn value_if_any_at(alloc: Global, object: &Json, key: &str) -> Result<Option<Value>, Mem>
    ensures { IfOk result (λ o. option_map view o ≡ option_and_then value_of (get key.now (json_view object.now))) }
{
    match object.get(key) {
        Some(tree) => value_if_any(alloc, tree),
        None => Ok(None),
    }
}

fn value_if_any(alloc: Global, tree: &Json) -> Result<Option<Value>, Mem>
    ensures { IfOk result (λ o. option_map view o ≡ value_of (json_view tree.now)) }
{
    match value(alloc, tree) {
        Ok(value) => Ok(Some(value)),
        Err(FieldFault::Malformed) => Ok(None),
        Err(FieldFault::Memory) => Err(Mem),
    }
}
