//! The messages from a server.
ghost use Rattle.std.specs.Prelude.{◌≡◌, ◌++◌, Ok, Some, IfOk, OnOk, option_map};
ghost use Rattle.serde_json.specs.Data.{object, no_members};
ghost use Rattle.serde_json.specs.View.{view as json_view};
ghost use Rattle.serde_json.specs.Written.{compact_text};
ghost use Rattle.ejson_value.specs.View.{view};
ghost use Rattle.ejson_codec.specs.Tokens.{tree_tokens};
ghost use Rattle.ejson_codec.specs.Trees.{HasRisingKeys};
ghost use Rattle.ddp_messages.specs.ServerMessage.{ServerMessage, server_view, about, finished};
ghost use Rattle.ddp_messages.specs.Answers.{IsServerText, server_tree, server_answer, GivesMessage};
ghost use Rattle.ddp_messages.specs.Written.{data_members, server_written};
ghost use Rattle.ddp_messages.specs.Limits.{DataHasValues, ServerKeepsLimits, ServerHasValues};

use crate::fault::{FieldFault, MsgFault};
use crate::parsing::{parsed, refusal};
use crate::plain;
use crate::reading_server::message;
use crate::writing::{
    added, changed, error, heartbeat, known_if_any, nosub, of_text, ready, removed, result_of,
    updated,
};
use ejson_codec::{PlainFault, TextWriter};
use ejson_value::{DataMsg, Fault, Mem, Names, Text, Value};
use json::Scratch;
use serde_json::Value as Json;
use std::alloc::Global;

/// A message from a server to a client.
#[derive(Drop)]
pub enum FromServer {
    /// The session is open.
    Connected {
        session: Text,
    },
    /// The session isn't open; this version of DDP would do.
    Failed {
        version: Text,
    },
    /// Asks for a `pong` of the same id.
    Ping {
        id: Option<Text>,
    },
    Pong {
        id: Option<Text>,
    },
    /// The subscription of this id is over, by the error if there is one.
    Nosub {
        id: Text,
        error: Option<Fault>,
    },
    /// These subscriptions have sent their first documents.
    Ready {
        subs: Names,
    },
    /// What became of a document.
    Data(DataMsg),
    /// The method of this id has returned.
    Result {
        id: Text,
        error: Option<Fault>,
        result: Option<Value>,
    },
    /// What these methods wrote has been sent.
    Updated {
        methods: Names,
    },
    /// A text of the client was no message.
    Error {
        reason: Text,
        offending: Option<Value>,
    },
    /// An object without a text `msg`, or with one that no message has.
    Unknown,
}

impl FromServer {
    /// Reads a text as a message.
    pub fn read(alloc: Global, text: &Text) -> Result<FromServer, MsgFault>
        ensures found { IfOk result (λ message. IsServerText text.now (server_view message)) }
        ensures only { (message : ServerMessage) → IsServerText text.now message → GivesMessage server_view result (Ok message) }
        ensures exact { GivesMessage server_view result (server_answer text.now) }
    {
        let mut scratch = Scratch::new(alloc);
        Self::read_in(alloc, text, &mut scratch)
    }

    /// What `read` reads, with this room for reading.
    pub fn read_in(
        alloc: Global,
        text: &Text,
        scratch: &mut Scratch,
    ) -> Result<FromServer, MsgFault>
        ensures found { IfOk result (λ message. IsServerText text.now (server_view message)) }
        ensures only { (message : ServerMessage) → IsServerText text.now message → GivesMessage server_view result (Ok message) }
        ensures exact { GivesMessage server_view result (server_answer text.now) }
    {
        Self::answer(alloc, text, scratch)
    }

    // Reads a text, with the exact answer alone.
    fn answer(alloc: Global, text: &Text, scratch: &mut Scratch) -> Result<FromServer, MsgFault>
        ensures { GivesMessage server_view result (server_answer text.now) }
    {
        match plain::from_server(alloc, text.as_str(), scratch) {
            Ok(message) => Ok(message),
            Err(PlainFault::NotPlain) => Self::by_tree(alloc, text),
            Err(PlainFault::Memory) => Err(MsgFault::Memory),
        }
    }

    // Reads a text by its tree.
    fn by_tree(alloc: Global, text: &Text) -> Result<FromServer, MsgFault>
        ensures { GivesMessage server_view result (server_answer text.now) }
    {
        let tree = parsed(alloc, text)?;
        Self::of_tree(alloc, &tree)
    }

    // Reads a tree.
    fn of_tree(alloc: Global, tree: &Json) -> Result<FromServer, MsgFault>
        ensures { GivesMessage server_view result (server_tree (Some (json_view tree.now))) }
    {
        if !tree.is_object() {
            return Err(MsgFault::Parse);
        }
        match message(alloc, tree) {
            Ok(message) => Ok(message),
            Err(FieldFault::Malformed) => Err(refusal(alloc, tree)?),
            Err(FieldFault::Memory) => Err(MsgFault::Memory),
        }
    }

    // Tells a proof what the values in the message keep; it does nothing.
    fn known(&self)
        ensures { ServerHasValues (server_view self.now) }
    {
        match self {
            FromServer::Data(message) => known_document(message),
            FromServer::Result { result: value, .. }
            | FromServer::Error {
                offending: value,
                ..
            } => known_if_any(value),
            FromServer::Connected { .. }
            | FromServer::Failed { .. }
            | FromServer::Ping { .. }
            | FromServer::Pong { .. }
            | FromServer::Nosub { .. }
            | FromServer::Ready { .. }
            | FromServer::Updated { .. }
            | FromServer::Unknown => {}
        }
    }

    // Puts the message's object behind what is written.
    fn put(&self, alloc: Global, out: &mut TextWriter) -> Result<(), Mem>
        ensures { OnOk result (out.new ≡ out.old ++ tree_tokens (server_written (server_view self.now))) }
    {
        match self {
            FromServer::Connected { session } => of_text(out, "connected", "session", session),
            FromServer::Failed { version } => of_text(out, "failed", "version", version),
            FromServer::Ping { id } => heartbeat(out, "ping", id),
            FromServer::Pong { id } => heartbeat(out, "pong", id),
            FromServer::Nosub { id, error } => nosub(alloc, out, id, error),
            FromServer::Ready { subs } => ready(out, subs),
            FromServer::Data(message) => put_data(alloc, out, message),
            FromServer::Result {
                id,
                error,
                result: value,
            } => result_of(alloc, out, id, error, value),
            FromServer::Updated { methods } => updated(out, methods),
            FromServer::Error { reason, offending } => error(alloc, out, reason, offending),
            FromServer::Unknown => nothing(out),
        }
    }

    /// Writes the message as compact JSON, its keys in byte order; `Unknown` as `{}`. The names in
    /// `cleared` stand in the order of the message.
    pub fn text(&self, alloc: Global) -> Result<Text, Mem>
        ensures exact { IfOk result (λ text. text ≡ compact_text (server_written (server_view self.now))) }
        ensures keys { HasRisingKeys (server_written (server_view self.now)) }
        ensures reads_back { IfOk result (λ text. ServerKeepsLimits (server_view self.now) → IsServerText text (server_view self.now)) }
    {
        self.known();
        let mut out = TextWriter::new(alloc)?;
        self.put(alloc, &mut out)?;
        out.finish()
    }
}

fn known_document(message: &DataMsg)
    ensures { DataHasValues message.now }
{
    match message {
        DataMsg::Added { fields, .. } | DataMsg::Changed { fields, .. } => fields.known(),
        DataMsg::Removed { .. } => {}
    }
}

// Puts the object of a message about a document behind what is written.
fn put_data(alloc: Global, out: &mut TextWriter, message: &DataMsg) -> Result<(), Mem>
    ensures { OnOk result (out.new ≡ out.old ++ tree_tokens (object (data_members message.now))) }
{
    match message {
        DataMsg::Added { key, fields } => added(alloc, out, key, fields),
        DataMsg::Changed {
            key,
            fields,
            cleared,
        } => changed(alloc, out, key, fields, cleared),
        DataMsg::Removed { key } => removed(alloc, out, key),
    }
}

// Puts the object without members behind what is written.
fn nothing(out: &mut TextWriter) -> Result<(), Mem>
    ensures { OnOk result (out.new ≡ out.old ++ tree_tokens (object no_members)) }
{
    out.begin_object()?;
    out.end_object()
}

/// The text of a message about a document.
pub fn data_text(alloc: Global, message: &DataMsg) -> Result<Text, Mem>
    ensures { IfOk result (λ text. text ≡ compact_text (server_written (about message.now))) }
{
    let mut out = TextWriter::new(alloc)?;
    put_data(alloc, &mut out, message)?;
    out.finish()
}

/// The text of a `result`.
pub fn result_text(
    alloc: Global,
    id: &Text,
    error: &Option<Fault>,
    value: &Option<Value>,
) -> Result<Text, Mem>
    ensures { IfOk result (λ text. text ≡ compact_text (server_written (finished id.now error.now (option_map view value.now)))) }
{
    let mut out = TextWriter::new(alloc)?;
    result_of(alloc, &mut out, id, error, value)?;
    out.finish()
}
