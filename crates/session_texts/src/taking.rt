//! What a session makes of a text that it takes.
ghost use Rattle.std.specs.Prelude.{◌≡◌, IfOk, codes, option_map, if◌then◌else◌};
ghost use Rattle.serde_json.specs.View.{view as json_view};
ghost use Rattle.ejson_value.specs.View.{view};
ghost use Rattle.ddp_messages.specs.Forms.{value_of};
ghost use Rattle.ddp_messages.specs.ClientMessage.{client_view};
ghost use Rattle.session_model.specs.Taking.{at_once, offending_of, connected_by, taken_text};
ghost use Rattle.session_texts.specs.Taking.{as_item, as_taken, offending_in, refused_with, reason_of, once_connected, taken_message};

use ddp_messages::{FromClient, MsgFault};
use ejson_codec::{ReadFault, read};
use ejson_value::{Mem, Text, Value};
use json::Scratch;
use serde_json::Value as Json;
use std::alloc::Global;

/// How many bytes a text may have that a session reads.
const MAX_TEXT: usize = 2_097_152;

/// What is answered as soon as a text is taken.
#[derive(Drop)]
pub enum Answer {
    /// The version is the session's.
    Connect,
    /// It is another one.
    Fail,
    Ping {
        id: Option<Text>,
    },
    Pong,
    /// The text is refused. `offending` is the object that it is, where it is one of EJSON.
    Bad {
        reason: Text,
        offending: Option<Value>,
    },
}

/// What comes of a text.
#[derive(Drop)]
pub enum Taken {
    AtOnce(Answer),
    ToQueue(FromClient),
}

// The text is refused, and is answered by an `error`.
fn refused(alloc: Global, reason: &str, offending: Option<Value>) -> Result<Taken, Mem>
    ensures { IfOk result (λ t. as_taken t ≡ refused_with reason.now (option_map view offending)) }
{
    let reason = Text::from_str(alloc, reason)?;
    Ok(Taken::AtOnce(Answer::Bad { reason, offending }))
}

// The value that the tree reads as, if it is one.
fn value_of(alloc: Global, tree: &Json) -> Result<Option<Value>, Mem>
    ensures { IfOk result (λ v. option_map view v ≡ value_of (json_view tree.now)) }
{
    match read(alloc, tree) {
        Ok(value) => Ok(Some(value)),
        Err(ReadFault::Ejson(_)) => Ok(None),
        Err(ReadFault::Memory) => Err(Mem),
    }
}

// What an `error` shows of the tree.
fn offending_of(alloc: Global, tree: &Json) -> Result<Option<Value>, Mem>
    ensures { IfOk result (λ v. option_map view v ≡ offending_of (json_view tree.now)) }
{
    if tree.is_object() {
        value_of(alloc, tree)
    } else {
        Ok(None)
    }
}

// What an `error` shows of the text.
fn offending(alloc: Global, text: &Text) -> Result<Option<Value>, Mem>
    ensures { IfOk result (λ v. option_map view v ≡ offending_in text.now) }
{
    match Json::from_str(alloc, text.as_str()) {
        Ok(tree) => offending_of(alloc, &tree),
        Err(error) if error.is_memory() => Err(Mem),
        Err(_) => Ok(None),
    }
}

// The session's version is "1".
fn connected_by(version: &Text) -> Answer
    ensures { as_item result ≡ connected_by version.now }
{
    if version.as_str() == "1" {
        Answer::Connect
    } else {
        Answer::Fail
    }
}

// Why a text that is no message is refused, by its `msg`.
fn reason_of(connected: bool, name: &Option<Text>) -> &'static str
    ensures { result.now ≡ reason_of connected name.now }
{
    let Some(name) = name else {
        return "Bad request";
    };
    match (connected, name.as_str() == "connect") {
        (false, false) => "Must connect first",
        (true, true) => "Already connected",
        (false, true) | (true, false) => "Bad request",
    }
}

// The text is refused, and the `error` shows it.
fn refused_shown(alloc: Global, reason: &str, text: &Text) -> Result<Taken, Mem>
    ensures { IfOk result (λ t. as_taken t ≡ refused_with reason.now (offending_in text.now)) }
{
    let offending = offending(alloc, text)?;
    refused(alloc, reason, offending)
}

// What comes of a `connect`.
fn taken_connect(alloc: Global, connected: bool, text: &Text, version: &Text) -> Result<Taken, Mem>
    ensures { IfOk result (λ t. as_taken t
        ≡ (if connected then refused_with (codes "Already connected") (offending_in text.now) else at_once (connected_by version.now))) }
{
    if connected {
        return refused_shown(alloc, "Already connected", text);
    }
    Ok(Taken::AtOnce(connected_by(version)))
}

// What comes of another message, once the session is connected.
fn once_connected(alloc: Global, connected: bool, text: &Text, taken: Taken) -> Result<Taken, Mem>
    ensures { IfOk result (λ t. as_taken t ≡ once_connected connected (offending_in text.now) (as_taken taken)) }
{
    if connected {
        return Ok(taken);
    }
    refused_shown(alloc, "Must connect first", text)
}

// What comes of a message of its form.
fn taken_message(
    alloc: Global,
    connected: bool,
    text: &Text,
    message: FromClient,
) -> Result<Taken, Mem>
    ensures { IfOk result (λ t. as_taken t ≡ taken_message connected (offending_in text.now) (client_view message)) }
{
    match message {
        FromClient::Connect { version, .. } => taken_connect(alloc, connected, text, &version),
        FromClient::Ping { id } => {
            once_connected(alloc, connected, text, Taken::AtOnce(Answer::Ping { id }))
        }
        FromClient::Pong { .. } => {
            once_connected(alloc, connected, text, Taken::AtOnce(Answer::Pong))
        }
        other => once_connected(alloc, connected, text, Taken::ToQueue(other)),
    }
}

/// What a session that is connected, or isn't, makes of the text, with this room for reading.
pub fn taken_from(
    alloc: Global,
    connected: bool,
    text: &Text,
    scratch: &mut Scratch,
) -> Result<Taken, Mem>
    ensures { IfOk result (λ t. as_taken t ≡ taken_text connected text.now) }
{
    if text.len() > MAX_TEXT {
        return refused(alloc, "Bad request", None);
    }
    match FromClient::read_in(alloc, text, scratch) {
        Ok(message) => taken_message(alloc, connected, text, message),
        Err(MsgFault::Parse) => refused(alloc, "Parse error", None),
        Err(MsgFault::BadRequest { msg }) => {
            let reason = reason_of(connected, &msg);
            refused_shown(alloc, reason, text)
        }
        Err(MsgFault::Memory) => Err(Mem),
    }
}
