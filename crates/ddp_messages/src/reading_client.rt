//! Reading the messages from a client.
ghost use Rattle.serde_json.specs.View.{view as json_view};
ghost use Rattle.ddp_messages.specs.Fields.{Gives};
ghost use Rattle.ddp_messages.specs.ClientMessage.{client_view, connect_reading, ping_reading, pong_reading, sub_reading, unsub_reading};
ghost use Rattle.ddp_messages.specs.ClientMessage.{method_reading, client_named, client_reading};

use crate::fault::FieldFault;
use crate::fields::{
    id_at, name, optional_text_at, optional_texts_at, optional_value_at, text_at, values_or_none_at,
};
use crate::from_client::FromClient;
use serde_json::Value as Json;
use std::alloc::Global;

fn connect(alloc: Global, object: &Json) -> Result<FromClient, FieldFault>
    ensures { Gives client_view result (connect_reading (json_view object.now)) }
{
    let version = text_at(alloc, object, "version")?;
    let support = optional_texts_at(alloc, object, "support")?;
    Ok(FromClient::Connect { version, support })
}

fn ping(alloc: Global, object: &Json) -> Result<FromClient, FieldFault>
    ensures { Gives client_view result (ping_reading (json_view object.now)) }
{
    let id = optional_text_at(alloc, object, "id")?;
    Ok(FromClient::Ping { id })
}

fn pong(alloc: Global, object: &Json) -> Result<FromClient, FieldFault>
    ensures { Gives client_view result (pong_reading (json_view object.now)) }
{
    let id = optional_text_at(alloc, object, "id")?;
    Ok(FromClient::Pong { id })
}

fn sub(alloc: Global, object: &Json) -> Result<FromClient, FieldFault>
    ensures { Gives client_view result (sub_reading (json_view object.now)) }
{
    let id = id_at(alloc, object, "id")?;
    let name = text_at(alloc, object, "name")?;
    let params = values_or_none_at(alloc, object, "params")?;
    Ok(FromClient::Sub { id, name, params })
}

fn unsub(alloc: Global, object: &Json) -> Result<FromClient, FieldFault>
    ensures { Gives client_view result (unsub_reading (json_view object.now)) }
{
    let id = id_at(alloc, object, "id")?;
    Ok(FromClient::Unsub { id })
}

fn method(alloc: Global, object: &Json) -> Result<FromClient, FieldFault>
    ensures { Gives client_view result (method_reading (json_view object.now)) }
{
    let id = id_at(alloc, object, "id")?;
    let method = text_at(alloc, object, "method")?;
    let params = values_or_none_at(alloc, object, "params")?;
    let random_seed = optional_value_at(alloc, object, "randomSeed")?;
    Ok(FromClient::Method {
        id,
        method,
        params,
        random_seed,
    })
}

// The message of this name.
fn named(alloc: Global, object: &Json, name: &str) -> Result<FromClient, FieldFault>
    ensures { Gives client_view result (client_named (json_view object.now) name.now) }
{
    match name {
        "connect" => connect(alloc, object),
        "ping" => ping(alloc, object),
        "pong" => pong(alloc, object),
        "sub" => sub(alloc, object),
        "unsub" => unsub(alloc, object),
        "method" => method(alloc, object),
        _ => Err(FieldFault::Malformed),
    }
}

/// The message that the object is.
pub(crate) fn message(alloc: Global, object: &Json) -> Result<FromClient, FieldFault>
    ensures { Gives client_view result (client_reading (json_view object.now)) }
{
    match name(object) {
        Some(name) => named(alloc, object, name),
        None => Err(FieldFault::Malformed),
    }
}
