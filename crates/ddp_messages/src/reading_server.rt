//! Reading the messages from a server.
ghost use Rattle.serde_json.specs.View.{view as json_view};
ghost use Rattle.ddp_messages.specs.Fields.{Gives};
ghost use Rattle.ddp_messages.specs.ServerMessage.{server_view, key_reading, added_reading, changed_reading, removed_reading, nosub_reading};
ghost use Rattle.ddp_messages.specs.ServerMessage.{result_reading, error_reading, data_named as data_message, answer_named as answer_message};
ghost use Rattle.ddp_messages.specs.ServerMessage.{server_named, server_reading};

use crate::fault::FieldFault;
use crate::fields::{
    document_id_at, document_or_empty_at, id_at, ids_at, name, optional_fault_at, optional_text_at,
    optional_value_at, text_at, texts_or_none_at, value_if_any_at,
};
use crate::from_server::FromServer;
use ejson_value::{DataMsg, Key};
use serde_json::Value as Json;
use std::alloc::Global;

// Which document the message is about.
fn key(alloc: Global, object: &Json) -> Result<Key, FieldFault>
    ensures { Gives (λ key. key) result (key_reading (json_view object.now)) }
{
    let collection = text_at(alloc, object, "collection")?;
    let id = document_id_at(alloc, object, "id")?;
    Ok(Key { collection, id })
}

fn added(alloc: Global, object: &Json) -> Result<DataMsg, FieldFault>
    ensures { Gives (λ message. message) result (added_reading (json_view object.now)) }
{
    let key = key(alloc, object)?;
    let fields = document_or_empty_at(alloc, object, "fields")?;
    Ok(DataMsg::Added { key, fields })
}

fn changed(alloc: Global, object: &Json) -> Result<DataMsg, FieldFault>
    ensures { Gives (λ message. message) result (changed_reading (json_view object.now)) }
{
    let key = key(alloc, object)?;
    let fields = document_or_empty_at(alloc, object, "fields")?;
    let cleared = texts_or_none_at(alloc, object, "cleared")?;
    Ok(DataMsg::Changed {
        key,
        fields,
        cleared,
    })
}

fn removed(alloc: Global, object: &Json) -> Result<DataMsg, FieldFault>
    ensures { Gives (λ message. message) result (removed_reading (json_view object.now)) }
{
    let key = key(alloc, object)?;
    Ok(DataMsg::Removed { key })
}

fn nosub(alloc: Global, object: &Json) -> Result<FromServer, FieldFault>
    ensures { Gives server_view result (nosub_reading (json_view object.now)) }
{
    let id = id_at(alloc, object, "id")?;
    let error = optional_fault_at(alloc, object, "error")?;
    Ok(FromServer::Nosub { id, error })
}

fn result_of(alloc: Global, object: &Json) -> Result<FromServer, FieldFault>
    ensures { Gives server_view result (result_reading (json_view object.now)) }
{
    let id = id_at(alloc, object, "id")?;
    let error = optional_fault_at(alloc, object, "error")?;
    let value = optional_value_at(alloc, object, "result")?;
    Ok(FromServer::Result {
        id,
        error,
        result: value,
    })
}

fn error(alloc: Global, object: &Json) -> Result<FromServer, FieldFault>
    ensures { Gives server_view result (error_reading (json_view object.now)) }
{
    let reason = text_at(alloc, object, "reason")?;
    let offending = value_if_any_at(alloc, object, "offendingMessage")?;
    Ok(FromServer::Error { reason, offending })
}

// The message of this name about a document.
fn data_named(alloc: Global, object: &Json, name: &str) -> Result<FromServer, FieldFault>
    ensures { Gives server_view result (data_message (json_view object.now) name.now) }
{
    match name {
        "added" => Ok(FromServer::Data(added(alloc, object)?)),
        "changed" => Ok(FromServer::Data(changed(alloc, object)?)),
        "removed" => Ok(FromServer::Data(removed(alloc, object)?)),
        _ => Ok(FromServer::Unknown),
    }
}

// The message of this name, an answer to what a client asked for or one about a document.
fn answer_named(alloc: Global, object: &Json, name: &str) -> Result<FromServer, FieldFault>
    ensures { Gives server_view result (answer_message (json_view object.now) name.now) }
{
    match name {
        "nosub" => nosub(alloc, object),
        "ready" => Ok(FromServer::Ready {
            subs: ids_at(alloc, object, "subs")?,
        }),
        "result" => result_of(alloc, object),
        "updated" => Ok(FromServer::Updated {
            methods: ids_at(alloc, object, "methods")?,
        }),
        _ => data_named(alloc, object, name),
    }
}

// The message of this name.
fn named(alloc: Global, object: &Json, name: &str) -> Result<FromServer, FieldFault>
    ensures { Gives server_view result (server_named (json_view object.now) name.now) }
{
    match name {
        "connected" => Ok(FromServer::Connected {
            session: text_at(alloc, object, "session")?,
        }),
        "failed" => Ok(FromServer::Failed {
            version: text_at(alloc, object, "version")?,
        }),
        "ping" => Ok(FromServer::Ping {
            id: optional_text_at(alloc, object, "id")?,
        }),
        "pong" => Ok(FromServer::Pong {
            id: optional_text_at(alloc, object, "id")?,
        }),
        "error" => error(alloc, object),
        _ => answer_named(alloc, object, name),
    }
}

/// The message that the object is.
pub(crate) fn message(alloc: Global, object: &Json) -> Result<FromServer, FieldFault>
    ensures { Gives server_view result (server_reading (json_view object.now)) }
{
    match name(object) {
        Some(name) => named(alloc, object, name),
        None => Ok(FromServer::Unknown),
    }
}
