//! The text that a client queued last.
ghost use Rattle.std.specs.Prelude.{◌≡◌, ◌∷◌, [], None, Some, OnOk, OnErr};
ghost use Rattle.reconnect_model.specs.Saying.{first_of, says};
ghost use Rattle.revived_client.specs.State.{quiet};
ghost use Rattle.revived_client.specs.Last.{caught_up, IsNext};

use crate::copying::CopyingClient;
use ejson_value::{Mem, Text};
use reconnect::Reviver;
use std::mem;

/// A text that the client queued and that the reviver knows nothing of yet, and a copy of it that is to be said, until it is. So
/// neither queuing a text nor saying one has to be taken back for want of memory.
#[derive(Drop)]
pub(crate) struct Last {
    pub(crate) text: Text,
    pub(crate) unsaid: Option<Text>,
}

// The text that waits in the client, of which this is a copy, is the last one.
pub(crate) fn keep(last: &mut Option<Last>, client: &mut CopyingClient, text: Text)
    requires { client.old.client.waiting ≡ text ∷ [] }
    ensures client { client.new ≡ quiet client.old }
    ensures last { last.new ≡ Some (record { text = text; unsaid = Some text }) }
{
    let unsaid = client.next_out();
    drop(mem::replace(last, Some(Last { text, unsaid })));
}

// The reviver is told of the last text.
pub(crate) fn catch_up(reviver: &mut Reviver, last: &mut Option<Last>) -> Result<(), Mem>
    ensures ok { OnOk result ((reviver.new ≡ caught_up reviver.old last.old) × (last.new ≡ None)) }
    ensures err { OnErr result ((reviver.new ≡ reviver.old) × (last.new ≡ last.old)) }
{
    let Some(was) = last else {
        return Ok(());
    };
    reviver.queued(&was.text)?;
    if was.unsaid.is_none() {
        drop(reviver.said());
    }
    drop(last.take());
    Ok(())
}

// The next text that is to be said.
pub(crate) fn say(reviver: &mut Reviver, last: &mut Option<Last>) -> Option<Text>
    requires { IsNext reviver.old last.old }
    ensures text { result ≡ first_of (caught_up reviver.old last.old).waiting }
    ensures says { caught_up reviver.new last.new ≡ says (caught_up reviver.old last.old) }
    ensures next { IsNext reviver.new last.new }
    ensures broken { reviver.new.broken ≡ reviver.old.broken }
{
    if let Some(text) = reviver.said() {
        return Some(text);
    }
    match last {
        Some(last) => last.unsaid.take(),
        None => None,
    }
}
