//! Messages read without a tree: those of plain values, by what the members of a text's object tell. All others are left
//! to the readers of trees, faults and errors among them.
ghost use Rattle.std.specs.Prelude.{◌≡◌, [], Ok, Some, None, IfOk, option_map, option_and_then};
ghost use Rattle.value_model.specs.Doc.{get};
ghost use Rattle.value_model.specs.Val.{vals_of};
ghost use Rattle.ejson_value.specs.View.{view, views};
ghost use Rattle.ddp_messages.specs.Forms.{fields_of_value};
ghost use Rattle.ddp_messages.specs.Wire.{own_of};
ghost use Rattle.ddp_messages.specs.Places.{found, text_there, document_there, list_there};
ghost use Rattle.ddp_messages.specs.Plain.{or_default_in, Tells, text_in, id_in, document_id_in, each_in, texts_in, ids_in, values_in, needed_in};
ghost use Rattle.ddp_messages.specs.Plain.{defaulted_in, unless_there, key_in, added_in, changed_in, removed_in, nosub_in, result_in, data_named_in};
ghost use Rattle.ddp_messages.specs.Plain.{answer_named_in, server_named_in, server_in, sub_in, unsub_in, method_in, client_named_in, client_in};
ghost use Rattle.ddp_messages.specs.ServerMessage.{server_view};
ghost use Rattle.ddp_messages.specs.ClientMessage.{client_view};
ghost use Rattle.ddp_messages.specs.Answers.{server_answer, client_answer};

use crate::fields::MAX_ID;
use crate::from_client::FromClient;
use crate::from_server::FromServer;
use crate::told::Told;
use crate::wire::without_dash;
use ejson_codec::PlainFault;
use ejson_value::{DataMsg, Doc, Items, Key, Mem, Names, Text, Value, copy};
use json::Scratch;
use std::alloc::Global;

// ---- places

// The text in this place.
fn text_told(alloc: Global, place: Option<&str>) -> Result<Text, PlainFault>
    ensures { Tells (λ a. a) result (option_and_then text_in (text_there place.entry)) }
{
    match place {
        Some(text) => Ok(Text::from_str(alloc, text)?),
        None => Err(PlainFault::NotPlain),
    }
}

// The id of a subscription or a method in this place.
fn id_told(alloc: Global, place: Option<&str>) -> Result<Text, PlainFault>
    ensures { Tells (λ a. a) result (option_and_then id_in (text_there place.entry)) }
{
    match place {
        Some(id) if id.len() <= MAX_ID => Ok(Text::from_str(alloc, id)?),
        _ => Err(PlainFault::NotPlain),
    }
}

// The id whose wire form this is.
fn behind_wire(alloc: Global, wire: &str) -> Result<Text, PlainFault>
    ensures { Tells (λ a. a) result (own_of wire.now) }
{
    match without_dash(wire) {
        Some(id) => Ok(Text::from_str(alloc, id)?),
        None => Err(PlainFault::NotPlain),
    }
}

// The id of a document in this place.
fn document_id_told(alloc: Global, place: Option<&str>) -> Result<Text, PlainFault>
    ensures { Tells (λ a. a) result (option_and_then document_id_in (text_there place.entry)) }
{
    match place {
        Some(wire) => behind_wire(alloc, wire),
        None => Err(PlainFault::NotPlain),
    }
}

// The fields of a document in this place, none where it is empty.
fn document_told(alloc: Global, place: &Option<Doc>) -> Result<Doc, PlainFault>
    ensures { Tells (λ a. a) result (or_default_in [] fields_of_value (document_there place.now)) }
{
    match place {
        Some(doc) => Ok(doc.copy()?),
        None => Ok(Doc::new(alloc)),
    }
}

// The values in this place, none where it is empty.
fn values_told(alloc: Global, place: &Option<Items>) -> Result<Items, PlainFault>
    ensures { Tells (λ a. a) result (or_default_in [] values_in (list_there place.now)) }
{
    match place {
        Some(items) => Ok(items.copy()?),
        None => Ok(Items::new(alloc)),
    }
}

// ---- forms

// A text.
fn text(value: &Value) -> Result<Text, PlainFault>
    ensures { Tells (λ a. a) result (text_in (view value.now)) }
{
    match value {
        Value::Text(text) => Ok(text.copy()?),
        _ => Err(PlainFault::NotPlain),
    }
}

// The id of a subscription or a method.
fn id(value: &Value) -> Result<Text, PlainFault>
    ensures { Tells (λ a. a) result (id_in (view value.now)) }
{
    match value {
        Value::Text(id) if id.len() <= MAX_ID => Ok(id.copy()?),
        _ => Err(PlainFault::NotPlain),
    }
}

// The elements of a list, each a text.
fn each_text(alloc: Global, values: &[Value]) -> Result<Names, PlainFault>
    ensures { Tells (λ a. a) result (each_in text_in (vals_of (views values.now))) }
{
    let mut texts = Names::new(alloc);
    for value in values {
        texts.push(text(value)?)?;
    }
    Ok(texts)
}

// The elements of a list, each the id of a subscription or a method.
fn each_id(alloc: Global, values: &[Value]) -> Result<Names, PlainFault>
    ensures { Tells (λ a. a) result (each_in id_in (vals_of (views values.now))) }
{
    let mut ids = Names::new(alloc);
    for value in values {
        ids.push(id(value)?)?;
    }
    Ok(ids)
}

// A list of texts.
fn texts(alloc: Global, value: &Value) -> Result<Names, PlainFault>
    ensures { Tells (λ a. a) result (texts_in (view value.now)) }
{
    match value {
        Value::List(items) => each_text(alloc, items.as_slice()),
        _ => Err(PlainFault::NotPlain),
    }
}

// A list of ids.
fn ids(alloc: Global, value: &Value) -> Result<Names, PlainFault>
    ensures { Tells (λ a. a) result (ids_in (view value.now)) }
{
    match value {
        Value::List(items) => each_id(alloc, items.as_slice()),
        _ => Err(PlainFault::NotPlain),
    }
}

// The value at this key.
fn value_at<'a>(alloc: Global, object: &'a Doc, key: &str) -> Result<Option<&'a Value>, Mem>
    ensures { IfOk result (λ found. option_map (λ v. view v.now) found ≡ get object.now key.now) }
{
    let key = Text::from_str(alloc, key)?;
    Ok(object.get(&key))
}

// The text at this key.
fn text_at(alloc: Global, object: &Doc, key: &str) -> Result<Text, PlainFault>
    ensures { Tells (λ a. a) result (needed_in text_in key.now (get object.now)) }
{
    match value_at(alloc, object, key)? {
        Some(value) => text(value),
        None => Err(PlainFault::NotPlain),
    }
}

// The ids at this key.
fn ids_at(alloc: Global, object: &Doc, key: &str) -> Result<Names, PlainFault>
    ensures { Tells (λ a. a) result (needed_in ids_in key.now (get object.now)) }
{
    match value_at(alloc, object, key)? {
        Some(value) => ids(alloc, value),
        None => Err(PlainFault::NotPlain),
    }
}

// The texts at this key, none where it is missing.
fn texts_or_none_at(alloc: Global, object: &Doc, key: &str) -> Result<Names, PlainFault>
    ensures { Tells (λ a. a) result (defaulted_in [] texts_in key.now (get object.now)) }
{
    match value_at(alloc, object, key)? {
        Some(value) => texts(alloc, value),
        None => Ok(Names::new(alloc)),
    }
}

// The value at this key, if there is one.
fn optional_value_at(alloc: Global, object: &Doc, key: &str) -> Result<Option<Value>, PlainFault>
    ensures { IfOk result (λ found. option_map view found ≡ get object.now key.now) }
{
    match value_at(alloc, object, key)? {
        Some(value) => Ok(Some(copy(value)?)),
        None => Ok(None),
    }
}

// Goes on only where there is no value at this key.
fn none_at(alloc: Global, object: &Doc, key: &str) -> Result<(), PlainFault>
    ensures { IfOk result (λ _. get object.now key.now ≡ None) }
{
    match value_at(alloc, object, key)? {
        Some(_) => Err(PlainFault::NotPlain),
        None => Ok(()),
    }
}

// ---- messages from a server

// Which document the message is about.
fn key(alloc: Global, told: &Told<'_>) -> Result<Key, PlainFault>
    ensures { Tells (λ a. a) result (key_in (found told.now)) }
{
    let collection = text_told(alloc, told.collection)?;
    let id = document_id_told(alloc, told.id)?;
    Ok(Key { collection, id })
}

fn added(alloc: Global, told: &Told<'_>) -> Result<DataMsg, PlainFault>
    ensures { Tells (λ a. a) result (added_in (found told.now)) }
{
    let key = key(alloc, told)?;
    let fields = document_told(alloc, &told.fields)?;
    Ok(DataMsg::Added { key, fields })
}

fn changed(alloc: Global, told: &Told<'_>) -> Result<DataMsg, PlainFault>
    ensures { Tells (λ a. a) result (changed_in (found told.now)) }
{
    let key = key(alloc, told)?;
    let fields = document_told(alloc, &told.fields)?;
    let cleared = texts_or_none_at(alloc, &told.others, "cleared")?;
    Ok(DataMsg::Changed {
        key,
        fields,
        cleared,
    })
}

fn removed(alloc: Global, told: &Told<'_>) -> Result<DataMsg, PlainFault>
    ensures { Tells (λ a. a) result (removed_in (found told.now)) }
{
    let key = key(alloc, told)?;
    Ok(DataMsg::Removed { key })
}

fn nosub(alloc: Global, told: &Told<'_>) -> Result<FromServer, PlainFault>
    ensures { Tells server_view result (nosub_in (found told.now)) }
{
    none_at(alloc, &told.others, "error")?;
    let id = id_told(alloc, told.id)?;
    Ok(FromServer::Nosub { id, error: None })
}

fn result_of(alloc: Global, told: &Told<'_>) -> Result<FromServer, PlainFault>
    ensures { Tells server_view result (result_in (found told.now)) }
{
    none_at(alloc, &told.others, "error")?;
    let id = id_told(alloc, told.id)?;
    let value = optional_value_at(alloc, &told.others, "result")?;
    Ok(FromServer::Result {
        id,
        error: None,
        result: value,
    })
}

// The message of this name about a document.
fn data_named(alloc: Global, told: &Told<'_>, name: &str) -> Result<FromServer, PlainFault>
    ensures { Tells server_view result (data_named_in (found told.now) name.now) }
{
    match name {
        "added" => Ok(FromServer::Data(added(alloc, told)?)),
        "changed" => Ok(FromServer::Data(changed(alloc, told)?)),
        "removed" => Ok(FromServer::Data(removed(alloc, told)?)),
        _ => Err(PlainFault::NotPlain),
    }
}

// The message of this name, an answer to what a client asked for or one about a document.
fn answer_named(alloc: Global, told: &Told<'_>, name: &str) -> Result<FromServer, PlainFault>
    ensures { Tells server_view result (answer_named_in (found told.now) name.now) }
{
    match name {
        "nosub" => nosub(alloc, told),
        "ready" => Ok(FromServer::Ready {
            subs: ids_at(alloc, &told.others, "subs")?,
        }),
        "result" => result_of(alloc, told),
        "updated" => Ok(FromServer::Updated {
            methods: ids_at(alloc, &told.others, "methods")?,
        }),
        _ => data_named(alloc, told, name),
    }
}

// The message of this name.
fn server_named(alloc: Global, told: &Told<'_>, name: &str) -> Result<FromServer, PlainFault>
    ensures { Tells server_view result (server_named_in (found told.now) name.now) }
{
    match name {
        "connected" => Ok(FromServer::Connected {
            session: text_at(alloc, &told.others, "session")?,
        }),
        "failed" | "ping" | "pong" | "error" => Err(PlainFault::NotPlain),
        _ => answer_named(alloc, told, name),
    }
}

// The message of these members.
fn server_message(alloc: Global, told: &Told<'_>) -> Result<FromServer, PlainFault>
    ensures { Tells server_view result (server_in (found told.now)) }
{
    match told.msg {
        Some(name) => server_named(alloc, told, name),
        None => Err(PlainFault::NotPlain),
    }
}

/// The message from a server that the text is, read without a tree.
pub(crate) fn from_server(
    alloc: Global,
    text: &str,
    scratch: &mut Scratch,
) -> Result<FromServer, PlainFault>
    ensures { IfOk result (λ message. server_answer text.now ≡ Ok (server_view message)) }
{
    let mut told = Told::new(alloc);
    told.read(alloc, text, scratch)?;
    server_message(alloc, &told)
}

// ---- messages from a client

fn sub(alloc: Global, told: &Told<'_>) -> Result<FromClient, PlainFault>
    ensures { Tells client_view result (sub_in (found told.now)) }
{
    let id = id_told(alloc, told.id)?;
    let name = text_at(alloc, &told.others, "name")?;
    let params = values_told(alloc, &told.params)?;
    Ok(FromClient::Sub { id, name, params })
}

fn unsub(alloc: Global, told: &Told<'_>) -> Result<FromClient, PlainFault>
    ensures { Tells client_view result (unsub_in (found told.now)) }
{
    let id = id_told(alloc, told.id)?;
    Ok(FromClient::Unsub { id })
}

fn method(alloc: Global, told: &Told<'_>) -> Result<FromClient, PlainFault>
    ensures { Tells client_view result (method_in (found told.now)) }
{
    let id = id_told(alloc, told.id)?;
    let method = text_told(alloc, told.method)?;
    let params = values_told(alloc, &told.params)?;
    let random_seed = optional_value_at(alloc, &told.others, "randomSeed")?;
    Ok(FromClient::Method {
        id,
        method,
        params,
        random_seed,
    })
}

// The message of this name.
fn client_named(alloc: Global, told: &Told<'_>, name: &str) -> Result<FromClient, PlainFault>
    ensures { Tells client_view result (client_named_in (found told.now) name.now) }
{
    match name {
        "connect" | "ping" | "pong" => Err(PlainFault::NotPlain),
        "sub" => sub(alloc, told),
        "unsub" => unsub(alloc, told),
        "method" => method(alloc, told),
        _ => Err(PlainFault::NotPlain),
    }
}

// The message of these members.
fn client_message(alloc: Global, told: &Told<'_>) -> Result<FromClient, PlainFault>
    ensures { Tells client_view result (client_in (found told.now)) }
{
    match told.msg {
        Some(name) => client_named(alloc, told, name),
        None => Err(PlainFault::NotPlain),
    }
}

/// The message from a client that the text is, read without a tree.
pub(crate) fn from_client(
    alloc: Global,
    text: &str,
    scratch: &mut Scratch,
) -> Result<FromClient, PlainFault>
    ensures { IfOk result (λ message. client_answer text.now ≡ Ok (client_view message)) }
{
    let mut told = Told::new(alloc);
    told.read(alloc, text, scratch)?;
    client_message(alloc, &told)
}
