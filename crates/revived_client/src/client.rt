//! The client that lives through several links.
ghost use Rattle.std.specs.Prelude.{◌≡◌, true, None, IfOk, OnOk};
ghost use Rattle.client_core.specs.Asked.{next_number};
ghost use Rattle.client_model.specs.Asking.{can_take};
ghost use Rattle.client_model.specs.Showing.{IsShown};
ghost use Rattle.client_script.specs.declared.line.Ask.TheVariants as ask;
ghost use Rattle.reconnect_model.specs.Saying.{loses};
ghost use Rattle.revived_client.specs.State.{new_state, quiet, all_queued};
ghost use Rattle.revived_client.specs.Asking.{fault_of, take_fault_of, Asks, DoesUnless, Readies, Says};
ghost use Rattle.revived_client.specs.Last.{caught_up};
ghost use Rattle.revived_client.specs.Faithful.{HasWhatWasGiven, HasWhatWasSent};
ghost use Rattle.revived_client.specs.Hearing.{AreFor, IsGiven, HearsBoth, Hears, stop_of};

use crate::copying::CopyingClient;
use crate::last::{Last, catch_up, keep, say};
use app_model::App;
use client_core::{Client, ClientFault, Lines, TakeFault};
use ejson_value::{Items, Mem, Text};
use reconnect::{HeardFault, Reviver, Texts};
use std::alloc::Global;
use std::marker::Model;

/// Why a client takes no text any more, whatever links are lost.
#[derive(Clone, Copy, Debug, PartialEq, Eq)]
pub enum Stop {
    /// A text was refused, by the rule of this number.
    Refused(u8),
    /// There was no memory for a text.
    OutOfMemory,
}

/// A client named `console` that lives through several links. Contracts see the client, what is remembered between its sessions,
/// and why it stopped, if it did.
#[derive(Drop)]
pub struct RevivedClient {
    client: CopyingClient,
    reviver: Reviver,
    last: Option<Last>,
    stop: Option<Stop>,
}

impl Model for RevivedClient {
    ghost use Rattle.std.specs.Prelude.{◌≡◌, None};
    ghost use Rattle.std.specs.Coded.{codes};
    ghost use Rattle.value_model.specs.Coding.{val_code};
    ghost use Rattle.ejson_value.specs.Rows.{rows_code};
    ghost use Rattle.minimongo.specs.State.{documents_code};
    ghost use Rattle.revived_client.specs.State.{RevivedState, quiet};
    ghost use Rattle.revived_client.specs.Last.{caught_up, IsGoing};

    ghost Value = { RevivedState };

    ghost coded = { Prim.hlevel (codes, val_code, rows_code, documents_code) };

    ghost view = { λ a. record { own = quiet a.client; revival = caught_up a.reviver a.last; stop = a.stop } };

    ghost invariant = { λ a. a.stop ≡ None → IsGoing a.client.client a.reviver a.last };
}

// Why nothing can be asked for any more.
fn fault_of(stop: Option<Stop>) -> Option<ClientFault>
    ensures { result ≡ fault_of stop }
{
    match stop {
        None => None,
        Some(Stop::Refused(_)) => Some(ClientFault::Idle),
        Some(Stop::OutOfMemory) => Some(ClientFault::Memory),
    }
}

// Nothing can be asked for any more, or the reviver is told of the text that was queued last.
fn ready(
    stop: Option<Stop>,
    reviver: &mut Reviver,
    last: &mut Option<Last>,
) -> Result<(), ClientFault>
    ensures { Readies stop reviver.old last.old reviver.new last.new result }
{
    if let Some(fault) = fault_of(stop) {
        return Err(fault);
    }
    catch_up(reviver, last)?;
    Ok(())
}

// Why no text is taken any more.
fn take_fault_of(stop: Option<Stop>, is_failed: bool) -> Option<TakeFault>
    ensures { result ≡ take_fault_of stop is_failed }
{
    match stop {
        None if is_failed => Some(TakeFault::Idle),
        None => None,
        Some(Stop::Refused(_)) => Some(TakeFault::Idle),
        Some(Stop::OutOfMemory) => Some(TakeFault::Memory),
    }
}

// The texts that the client is to be given for a text of the server.
fn texts_for(reviver: &mut Reviver, text: &Text) -> Result<Texts, TakeFault>
    requires { reviver.old.broken ≡ None }
    ensures { AreFor text.now reviver.old reviver.new result }
{
    match reviver.heard(text) {
        Ok(texts) => Ok(texts),
        Err(HeardFault::ServerSent(number)) => Err(TakeFault::ServerSent(number)),
        Err(HeardFault::Memory) => Err(TakeFault::Memory),
        Err(HeardFault::Idle) => unreachable!(),
    }
}

// The client is given texts one by one, up to the first that it refuses or by which its version is refused.
fn give(client: &mut CopyingClient, texts: &Texts) -> Result<(), TakeFault>
    requires { can_take client.old.client ≡ true }
    ensures { IsGiven texts.now client.old client.new result }
{
    for text in texts.as_slice() {
        client.take(text)?;
        if client.client().failed() {
            return Ok(());
        }
    }
    Ok(())
}

// The texts that wait in the client wait to be said.
fn queue_all(client: &mut CopyingClient, reviver: &mut Reviver) -> Result<(), Mem>
    ensures client { OnOk result (client.new ≡ quiet client.old) }
    ensures reviver { OnOk result (reviver.new ≡ all_queued reviver.old client.old.client.waiting) }
{
    while let Some(text) = client.next_out() {
        reviver.queued(&text)?;
    }
    Ok(())
}

// A text of the server is heard, once the reviver is told of the text that was queued last.
fn hear(
    client: &mut CopyingClient,
    reviver: &mut Reviver,
    last: &mut Option<Last>,
    text: &Text,
) -> Result<(), TakeFault>
    requires takes { can_take client.old.client ≡ true }
    requires unbroken { reviver.old.broken ≡ None }
    ensures hears { HearsBoth text.now client.old (caught_up reviver.old last.old) client.new (caught_up reviver.new last.new) result }
    ensures last { OnOk result (last.new ≡ None) }
{
    catch_up(reviver, last)?;
    let texts = texts_for(reviver, text)?;
    give(client, &texts)?;
    Ok(queue_all(client, reviver)?)
}

// What is left of a text that was heard.
fn stop_of(heard: &Result<(), TakeFault>) -> Option<Stop>
    ensures { result ≡ stop_of heard.now }
{
    match heard {
        Ok(()) => None,
        Err(TakeFault::ServerSent(number)) => Some(Stop::Refused(*number)),
        Err(TakeFault::Memory | TakeFault::Idle) => Some(Stop::OutOfMemory),
    }
}

impl RevivedClient {
    /// The client at its beginning, which runs the stubs of the application's methods. Its `connect` is to be said.
    pub fn new(alloc: Global, app: &App) -> Result<RevivedClient, Mem>
        ensures { IfOk result (λ c. c ≡ new_state app.now) }
    {
        let mut client = CopyingClient::new(alloc, app)?;
        let mut reviver = Reviver::new(alloc)?;
        queue_all(&mut client, &mut reviver)?;
        Ok(RevivedClient {
            client,
            reviver,
            last: None,
            stop: None,
        })
    }

    /// The client, whose own texts are taken out of it: they wait in what is remembered.
    pub fn client(&self) -> &Client
        ensures { quiet result.now ≡ self.now.own }
    {
        self.client.client()
    }

    /// Tells a proof what the client keeps: its view has the server's document, or its absence, at each key that no open call holds,
    /// and only calls that await their `updated` hold any; and unless it stopped, it refused no text, and its copy of the server's
    /// documents is what it was given, which is what the present session sent while its epoch is revived. It does nothing.
    pub fn known(&self)
        ensures shown { IsShown self.now.own.client }
        ensures whole { self.now.stop ≡ None → self.now.own.client.broken ≡ None }
        ensures given { HasWhatWasGiven self.now }
        ensures sent { HasWhatWasSent self.now }
    {
        self.client.client().known();
    }

    /// Why it takes no text any more, if it doesn't.
    pub fn stop(&self) -> Option<Stop>
        ensures { result ≡ self.now.stop }
    {
        self.stop
    }

    /// Asks for a publication. `Idle` comes exactly where the client answers so or a text was refused, and `Memory` always comes
    /// once there was no memory for a text.
    pub fn sub(&mut self, id: &Text, name: &Text, params: &Items) -> Result<(), ClientFault>
        ensures { Asks (ask.Sub id.now name.now params.now) self.old self.new result }
    {
        ready(self.stop, &mut self.reviver, &mut self.last)?;
        let text = self.client.sub(id, name, params)?;
        keep(&mut self.last, &mut self.client, text);
        Ok(())
    }

    /// Asks for the end of a subscription. `Idle` and `Memory` come as for `sub`.
    pub fn unsub(&mut self, id: &Text) -> Result<(), ClientFault>
        ensures { Asks (ask.Unsub id.now) self.old self.new result }
    {
        ready(self.stop, &mut self.reviver, &mut self.last)?;
        let text = self.client.unsub(id)?;
        keep(&mut self.last, &mut self.client, text);
        Ok(())
    }

    /// Calls a method, and answers the call's number. `Idle` and `Memory` come as for `sub`.
    pub fn call(&mut self, method: &Text, params: &Items) -> Result<u32, ClientFault>
        ensures asks { Asks (ask.Call method.now params.now) self.old self.new result }
        ensures number { IfOk result (λ number. number ≡ next_number self.old.own) }
    {
        ready(self.stop, &mut self.reviver, &mut self.last)?;
        let text = self.client.call(method, params)?;
        keep(&mut self.last, &mut self.client, text);
        Ok(self.client.calls())
    }

    /// The server sent a text. The client is given the texts that come of it, one by one. `ServerSent` comes where one is refused,
    /// by the number of the first rule: from then on each call answers `Idle`. `Idle` comes exactly there, and where the client's
    /// version was refused before. Once there was no memory for a text each call answers `Memory`.
    pub fn heard(&mut self, text: &Text) -> Result<(), TakeFault>
        ensures { Hears text.now self.old self.new result }
    {
        if let Some(fault) = take_fault_of(self.stop, self.client.client().failed()) {
            return Err(fault);
        }
        let heard = hear(&mut self.client, &mut self.reviver, &mut self.last, text);
        self.stop = stop_of(&heard);
        heard
    }

    /// The link was lost: what was not said and what is held is dropped, and the next session is told what is still wanted and
    /// owed. `Idle` comes exactly where a text was refused, and `Memory` always comes once there was no memory for a text.
    pub fn lost(&mut self) -> Result<(), ClientFault>
        ensures { DoesUnless (fault_of self.old.stop) true (record self.old { revival = loses self.old.revival }) self.old self.new result }
    {
        ready(self.stop, &mut self.reviver, &mut self.last)?;
        self.reviver.lost()?;
        Ok(())
    }

    /// The next text to be said, which waits no more. There is none exactly where nothing waits, and where it takes no text any
    /// more.
    pub fn said(&mut self) -> Option<Text>
        ensures { Says self.old self.new result }
    {
        if self.stop.is_some() {
            return None;
        }
        say(&mut self.reviver, &mut self.last)
    }
}
