//! Writing the messages as the tokens of their JSON objects.
ghost use Rattle.std.specs.Prelude.{◌≡◌, ◌++◌, ◌∷◌, [], OnOk, IfSome, option_map, codes};
ghost use Rattle.serde_json.specs.Data.{string, object};
ghost use Rattle.value_model.specs.Valid.{IsValue};
ghost use Rattle.ejson_value.specs.View.{view};
ghost use Rattle.ejson_value.specs.declared.message.DataMsg.TheVariants.{Added, Changed, Removed};
ghost use Rattle.ejson_codec.specs.Tokens.{tree_tokens};
ghost use Rattle.ddp_messages.specs.ClientMessage.{connect as connect_message, sub as sub_message, unsub as unsub_message, method as method_message};
ghost use Rattle.ddp_messages.specs.ServerMessage.{nosub as nosub_message, ready as ready_message, finished as result_message};
ghost use Rattle.ddp_messages.specs.ServerMessage.{updated as updated_message, refused as error_message};
ghost use Rattle.ddp_messages.specs.Tokens.{field_tokens};
ghost use Rattle.ddp_messages.specs.Wire.{wire_of};
ghost use Rattle.ddp_messages.specs.Written.{present, text_tree, client_written, data_members, server_written};

use crate::members::{
    put_fields, put_optional_fault, put_optional_text, put_optional_texts, put_optional_value,
    put_some_fields, put_some_texts, put_str, put_text, put_texts, put_values,
};
use crate::wire::wire_id;
use ejson_codec::TextWriter;
use ejson_value::{Doc, Fault, Items, Key, Mem, Names, Text, Value};
use std::alloc::Global;

/// Tells a proof what the value keeps, if there is one; it does nothing.
pub(crate) fn known_if_any(value: &Option<Value>)
    ensures { IfSome (option_map view value.now) IsValue }
{
    if let Some(value) = value {
        value.known();
    }
}

/// A message with one field, a text whose key goes behind `msg`.
pub(crate) fn of_text(out: &mut TextWriter, name: &str, key: &str, text: &Text) -> Result<(), Mem>
    ensures { OnOk result (out.new ≡ out.old ++ tree_tokens (object (present ((codes "msg", text_tree name.now) ∷ (key.now, text_tree text.now) ∷ [])))) }
{
    out.begin_object()?;
    put_str(out, "msg", name)?;
    put_text(out, key, text)?;
    out.end_object()
}

/// A `ping` or a `pong`.
pub(crate) fn heartbeat(out: &mut TextWriter, name: &str, id: &Option<Text>) -> Result<(), Mem>
    ensures { OnOk result
        (out.new ≡ out.old ++ tree_tokens (object (present ((codes "id", option_map string id.now) ∷ (codes "msg", text_tree name.now) ∷ [])))) }
{
    out.begin_object()?;
    put_optional_text(out, "id", id)?;
    put_str(out, "msg", name)?;
    out.end_object()
}

// ---- from a client

pub(crate) fn connect(
    out: &mut TextWriter,
    version: &Text,
    support: &Option<Names>,
) -> Result<(), Mem>
    ensures { OnOk result (out.new ≡ out.old ++ tree_tokens (client_written (connect_message version.now support.now))) }
{
    out.begin_object()?;
    put_str(out, "msg", "connect")?;
    put_optional_texts(out, "support", support)?;
    put_text(out, "version", version)?;
    out.end_object()
}

pub(crate) fn sub(
    alloc: Global,
    out: &mut TextWriter,
    id: &Text,
    name: &Text,
    params: &Items,
) -> Result<(), Mem>
    ensures { OnOk result (out.new ≡ out.old ++ tree_tokens (client_written (sub_message id.now name.now params.now))) }
{
    out.begin_object()?;
    put_text(out, "id", id)?;
    put_str(out, "msg", "sub")?;
    put_text(out, "name", name)?;
    put_values(alloc, out, "params", params)?;
    out.end_object()
}

pub(crate) fn unsub(out: &mut TextWriter, id: &Text) -> Result<(), Mem>
    ensures { OnOk result (out.new ≡ out.old ++ tree_tokens (client_written (unsub_message id.now))) }
{
    out.begin_object()?;
    put_text(out, "id", id)?;
    put_str(out, "msg", "unsub")?;
    out.end_object()
}

pub(crate) fn method(
    alloc: Global,
    out: &mut TextWriter,
    id: &Text,
    method: &Text,
    params: &Items,
    random_seed: &Option<Value>,
) -> Result<(), Mem>
    ensures { OnOk result (out.new ≡ out.old ++ tree_tokens (client_written (method_message id.now method.now params.now (option_map view random_seed.now)))) }
{
    out.begin_object()?;
    put_text(out, "id", id)?;
    put_text(out, "method", method)?;
    put_str(out, "msg", "method")?;
    put_values(alloc, out, "params", params)?;
    put_optional_value(alloc, out, "randomSeed", random_seed)?;
    out.end_object()
}

// ---- from a server

pub(crate) fn nosub(
    alloc: Global,
    out: &mut TextWriter,
    id: &Text,
    error: &Option<Fault>,
) -> Result<(), Mem>
    ensures { OnOk result (out.new ≡ out.old ++ tree_tokens (server_written (nosub_message id.now error.now))) }
{
    out.begin_object()?;
    put_optional_fault(alloc, out, "error", error)?;
    put_text(out, "id", id)?;
    put_str(out, "msg", "nosub")?;
    out.end_object()
}

pub(crate) fn ready(out: &mut TextWriter, subs: &Names) -> Result<(), Mem>
    ensures { OnOk result (out.new ≡ out.old ++ tree_tokens (server_written (ready_message subs.now))) }
{
    out.begin_object()?;
    put_str(out, "msg", "ready")?;
    put_texts(out, "subs", subs)?;
    out.end_object()
}

pub(crate) fn updated(out: &mut TextWriter, methods: &Names) -> Result<(), Mem>
    ensures { OnOk result (out.new ≡ out.old ++ tree_tokens (server_written (updated_message methods.now))) }
{
    out.begin_object()?;
    put_texts(out, "methods", methods)?;
    put_str(out, "msg", "updated")?;
    out.end_object()
}

pub(crate) fn result_of(
    alloc: Global,
    out: &mut TextWriter,
    id: &Text,
    error: &Option<Fault>,
    value: &Option<Value>,
) -> Result<(), Mem>
    ensures { OnOk result (out.new ≡ out.old ++ tree_tokens (server_written (result_message id.now error.now (option_map view value.now)))) }
{
    out.begin_object()?;
    put_optional_fault(alloc, out, "error", error)?;
    put_text(out, "id", id)?;
    put_str(out, "msg", "result")?;
    put_optional_value(alloc, out, "result", value)?;
    out.end_object()
}

pub(crate) fn error(
    alloc: Global,
    out: &mut TextWriter,
    reason: &Text,
    offending: &Option<Value>,
) -> Result<(), Mem>
    ensures { OnOk result (out.new ≡ out.old ++ tree_tokens (server_written (error_message reason.now (option_map view offending.now)))) }
{
    out.begin_object()?;
    put_str(out, "msg", "error")?;
    put_optional_value(alloc, out, "offendingMessage", offending)?;
    put_text(out, "reason", reason)?;
    out.end_object()
}

// Puts the wire form of a document's id.
fn put_id(alloc: Global, out: &mut TextWriter, id: &Text) -> Result<(), Mem>
    ensures { OnOk result (out.new ≡ out.old ++ field_tokens (codes "id") (text_tree (wire_of id.now))) }
{
    let wire = wire_id(alloc, id)?;
    put_text(out, "id", &wire)
}

pub(crate) fn added(alloc: Global, out: &mut TextWriter, key: &Key, fields: &Doc) -> Result<(), Mem>
    ensures { OnOk result (out.new ≡ out.old ++ tree_tokens (object (data_members (Added key.now fields.now)))) }
{
    out.begin_object()?;
    put_text(out, "collection", &key.collection)?;
    put_fields(alloc, out, "fields", fields)?;
    put_id(alloc, out, &key.id)?;
    put_str(out, "msg", "added")?;
    out.end_object()
}

pub(crate) fn changed(
    alloc: Global,
    out: &mut TextWriter,
    key: &Key,
    fields: &Doc,
    cleared: &Names,
) -> Result<(), Mem>
    ensures { OnOk result (out.new ≡ out.old ++ tree_tokens (object (data_members (Changed key.now fields.now cleared.now)))) }
{
    out.begin_object()?;
    put_some_texts(out, "cleared", cleared)?;
    put_text(out, "collection", &key.collection)?;
    put_some_fields(alloc, out, "fields", fields)?;
    put_id(alloc, out, &key.id)?;
    put_str(out, "msg", "changed")?;
    out.end_object()
}

pub(crate) fn removed(alloc: Global, out: &mut TextWriter, key: &Key) -> Result<(), Mem>
    ensures { OnOk result (out.new ≡ out.old ++ tree_tokens (object (data_members (Removed key.now)))) }
{
    out.begin_object()?;
    put_text(out, "collection", &key.collection)?;
    put_id(alloc, out, &key.id)?;
    put_str(out, "msg", "removed")?;
    out.end_object()
}
