//! The messages from a client.
ghost use Rattle.std.specs.Prelude.{◌≡◌, ◌++◌, Ok, Some, IfOk, OnOk};
ghost use Rattle.serde_json.specs.View.{view as json_view};
ghost use Rattle.serde_json.specs.Written.{compact_text};
ghost use Rattle.ejson_codec.specs.Tokens.{tree_tokens};
ghost use Rattle.ejson_codec.specs.Trees.{HasRisingKeys};
ghost use Rattle.ddp_messages.specs.ClientMessage.{ClientMessage, client_view};
ghost use Rattle.ddp_messages.specs.Answers.{IsClientText, client_tree, client_answer, GivesMessage};
ghost use Rattle.ddp_messages.specs.Written.{client_written};
ghost use Rattle.ddp_messages.specs.Limits.{ClientKeepsLimits, ClientHasValues};

use crate::fault::{FieldFault, MsgFault};
use crate::parsing::{parsed, refusal};
use crate::plain;
use crate::reading_client::message;
use crate::writing::{connect, heartbeat, known_if_any, method, sub, unsub};
use ejson_codec::{PlainFault, TextWriter};
use ejson_value::{Items, Mem, Names, Text, Value};
use json::Scratch;
use serde_json::Value as Json;
use std::alloc::Global;

/// A message from a client to a server.
#[derive(Drop)]
pub enum FromClient {
    /// Opens the session, with a version of DDP; `support` lists the versions that the client has.
    Connect {
        version: Text,
        support: Option<Names>,
    },
    /// Asks for a `pong` of the same id.
    Ping {
        id: Option<Text>,
    },
    Pong {
        id: Option<Text>,
    },
    /// Subscribes to a publication, under an id of the client's choice.
    Sub {
        id: Text,
        name: Text,
        params: Items,
    },
    /// Ends the subscription of this id.
    Unsub {
        id: Text,
    },
    /// Calls a method, under an id of the client's choice. The seed draws the ids that both sides make.
    Method {
        id: Text,
        method: Text,
        params: Items,
        random_seed: Option<Value>,
    },
}

impl FromClient {
    /// Reads a text as a message.
    pub fn read(alloc: Global, text: &Text) -> Result<FromClient, MsgFault>
        ensures found { IfOk result (λ message. IsClientText text.now (client_view message)) }
        ensures only { (message : ClientMessage) → IsClientText text.now message → GivesMessage client_view result (Ok message) }
        ensures exact { GivesMessage client_view result (client_answer text.now) }
    {
        let mut scratch = Scratch::new(alloc);
        Self::read_in(alloc, text, &mut scratch)
    }

    /// What `read` reads, with this room for reading.
    pub fn read_in(
        alloc: Global,
        text: &Text,
        scratch: &mut Scratch,
    ) -> Result<FromClient, MsgFault>
        ensures found { IfOk result (λ message. IsClientText text.now (client_view message)) }
        ensures only { (message : ClientMessage) → IsClientText text.now message → GivesMessage client_view result (Ok message) }
        ensures exact { GivesMessage client_view result (client_answer text.now) }
    {
        Self::answer(alloc, text, scratch)
    }

    // Reads a text, with the exact answer alone.
    fn answer(alloc: Global, text: &Text, scratch: &mut Scratch) -> Result<FromClient, MsgFault>
        ensures { GivesMessage client_view result (client_answer text.now) }
    {
        match plain::from_client(alloc, text.as_str(), scratch) {
            Ok(message) => Ok(message),
            Err(PlainFault::NotPlain) => Self::by_tree(alloc, text),
            Err(PlainFault::Memory) => Err(MsgFault::Memory),
        }
    }

    // Reads a text by its tree.
    fn by_tree(alloc: Global, text: &Text) -> Result<FromClient, MsgFault>
        ensures { GivesMessage client_view result (client_answer text.now) }
    {
        let tree = parsed(alloc, text)?;
        Self::of_tree(alloc, &tree)
    }

    // Reads a tree.
    fn of_tree(alloc: Global, tree: &Json) -> Result<FromClient, MsgFault>
        ensures { GivesMessage client_view result (client_tree (Some (json_view tree.now))) }
    {
        match message(alloc, tree) {
            Ok(message) => Ok(message),
            Err(FieldFault::Malformed) => Err(refusal(alloc, tree)?),
            Err(FieldFault::Memory) => Err(MsgFault::Memory),
        }
    }

    // Tells a proof what the values in the message keep; it does nothing.
    fn known(&self)
        ensures { ClientHasValues (client_view self.now) }
    {
        match self {
            FromClient::Sub { params, .. } => params.known(),
            FromClient::Method {
                params,
                random_seed,
                ..
            } => {
                params.known();
                known_if_any(random_seed);
            }
            FromClient::Connect { .. }
            | FromClient::Ping { .. }
            | FromClient::Pong { .. }
            | FromClient::Unsub { .. } => {}
        }
    }

    // Puts the message's object behind what is written.
    fn put(&self, alloc: Global, out: &mut TextWriter) -> Result<(), Mem>
        ensures { OnOk result (out.new ≡ out.old ++ tree_tokens (client_written (client_view self.now))) }
    {
        match self {
            FromClient::Connect { version, support } => connect(out, version, support),
            FromClient::Ping { id } => heartbeat(out, "ping", id),
            FromClient::Pong { id } => heartbeat(out, "pong", id),
            FromClient::Sub { id, name, params } => sub(alloc, out, id, name, params),
            FromClient::Unsub { id } => unsub(out, id),
            FromClient::Method {
                id,
                method: name,
                params,
                random_seed,
            } => method(alloc, out, id, name, params, random_seed),
        }
    }

    /// Writes the message as compact JSON, its keys in byte order. A seed that is None is left out.
    pub fn text(&self, alloc: Global) -> Result<Text, Mem>
        ensures exact { IfOk result (λ text. text ≡ compact_text (client_written (client_view self.now))) }
        ensures keys { HasRisingKeys (client_written (client_view self.now)) }
        ensures reads_back { IfOk result (λ text. ClientKeepsLimits (client_view self.now) → IsClientText text (client_view self.now)) }
    {
        self.known();
        let mut out = TextWriter::new(alloc)?;
        self.put(alloc, &mut out)?;
        out.finish()
    }
}
