//! A client that hands out a copy of each text that it queues.
ghost use Rattle.std.specs.Prelude.{◌≡◌, length, Ok, IfOk};
ghost use Rattle.client_core.specs.Asked.{IsSent};
ghost use Rattle.client_core.specs.Taken.{Takes};
ghost use Rattle.client_script.specs.declared.line.Ask.TheVariants as ask;
ghost use Rattle.console_run.specs.Console.{begun};
ghost use Rattle.ddp_messages.specs.Answers.{server_answer};
ghost use Rattle.ddp_messages.specs.ServerMessage.{server_view};
ghost use Rattle.revived_client.specs.Copies.{AsksCopy, session_named, opened_where, kept_or, call_text};

use app_model::App;
use client_core::numbers::seed_of;
use client_core::{Client, ClientFault, TakeFault, texts};
use ddp_messages::{FromServer, MsgFault};
use ejson_value::{Items, Mem, Text};
use heard_messages::Heard;
use std::alloc::Global;
use std::marker::Model;
use std::mem;

/// A client that hands out a copy of each text that it queues, made before it does so. Contracts see the client.
#[derive(Drop)]
pub(crate) struct CopyingClient {
    alloc: Global,
    client: Client,
    // The name of the client's session, and how many calls it has made: the client tells neither.
    session: Option<Text>,
    calls: u32,
    texts: Heard,
}

impl Model for CopyingClient {
    ghost use Rattle.std.specs.Prelude.{◌≡◌, length};
    ghost use Rattle.std.specs.Coded.{codes};
    ghost use Rattle.value_model.specs.Coding.{val_code};
    ghost use Rattle.minimongo.specs.State.{documents_code};
    ghost use Rattle.client_core.specs.State.{Own};

    ghost Value = { Own };

    ghost coded = { Prim.hlevel (codes, val_code, documents_code) };

    ghost view = { λ a. a.client };

    ghost invariant = { λ a. (a.session ≡ a.client.client.session) × (a.calls ≡ length a.client.client.calls) };
}

// The name of a session, if the message opens one.
fn session_of(message: &FromServer) -> Result<Option<Text>, Mem>
    ensures { IfOk result (λ session. session ≡ session_named (Ok (server_view message.now))) }
{
    match message {
        FromServer::Connected { session } => Ok(Some(session.copy()?)),
        FromServer::Failed { .. }
        | FromServer::Ping { .. }
        | FromServer::Pong { .. }
        | FromServer::Nosub { .. }
        | FromServer::Ready { .. }
        | FromServer::Data(_)
        | FromServer::Result { .. }
        | FromServer::Updated { .. }
        | FromServer::Error { .. }
        | FromServer::Unknown => Ok(None),
    }
}

// The name of the session that the text opens, if it opens one.
fn opened_by(alloc: Global, text: &Text) -> Result<Option<Text>, Mem>
    ensures { IfOk result (λ session. session ≡ session_named (server_answer text.now)) }
{
    match FromServer::read(alloc, text) {
        Ok(message) => {
            let session = session_of(&message);
            drop(message);
            session
        }
        Err(MsgFault::Parse | MsgFault::BadRequest { .. }) => Ok(None),
        Err(MsgFault::Memory) => Err(Mem),
    }
}

// The session that there was, or the one that was opened.
fn kept_or(was: Option<Text>, opened: Option<Text>) -> Option<Text>
    ensures { result ≡ kept_or was opened }
{
    match was {
        Some(session) => Some(session),
        None => opened,
    }
}

impl CopyingClient {
    // The client `console`, at its beginning.
    pub(crate) fn new(alloc: Global, app: &App) -> Result<CopyingClient, Mem>
        ensures { IfOk result (λ c. c ≡ begun app.now) }
    {
        let name = Text::from_str(alloc, "console")?;
        let client = Client::new(alloc, app, &name)?;
        Ok(CopyingClient {
            alloc,
            client,
            session: None,
            calls: 0,
            texts: Heard::new(alloc),
        })
    }

    pub(crate) fn client(&self) -> &Client
        ensures { result.now ≡ self.now }
    {
        &self.client
    }

    // How many calls it has made.
    pub(crate) fn calls(&self) -> u32
        ensures { result ≡ length self.now.client.calls }
    {
        self.calls
    }

    // It subscribes.
    pub(crate) fn sub(
        &mut self,
        id: &Text,
        name: &Text,
        params: &Items,
    ) -> Result<Text, ClientFault>
        ensures { AsksCopy (ask.Sub id.now name.now params.now) self.old self.new result }
    {
        let text = texts::sub(self.alloc, id, name, params)?;
        self.client.sub(id, name, params)?;
        Ok(text)
    }

    // It ends a subscription.
    pub(crate) fn unsub(&mut self, id: &Text) -> Result<Text, ClientFault>
        ensures { AsksCopy (ask.Unsub id.now) self.old self.new result }
    {
        let text = texts::unsub(self.alloc, id)?;
        self.client.unsub(id)?;
        Ok(text)
    }

    // The text of its next call, if it has a session.
    fn call_text(&self, method: &Text, params: &Items) -> Result<Option<Text>, Mem>
        ensures { IfOk result (λ text. text ≡ call_text method.now params.now self.now) }
    {
        self.client.known();
        let Some(session) = &self.session else {
            return Ok(None);
        };
        let number = self.calls + 1;
        let seed = seed_of(self.alloc, session, number)?;
        Ok(Some(texts::method(self.alloc, number, method, params, &seed)?))
    }

    // It calls a method.
    pub(crate) fn call(&mut self, method: &Text, params: &Items) -> Result<Text, ClientFault>
        ensures { AsksCopy (ask.Call method.now params.now) self.old self.new result }
    {
        let Some(text) = self.call_text(method, params)? else {
            return Err(ClientFault::Idle);
        };
        self.calls = self.client.call(method, params)?;
        Ok(text)
    }

    // The name of the session that the text opens, where there is none yet.
    fn opened(&self, text: &Text) -> Result<Option<Text>, Mem>
        ensures { IfOk result (λ opened. opened ≡ opened_where self.now.client.session (session_named (server_answer text.now))) }
    {
        match &self.session {
            Some(_) => Ok(None),
            None => opened_by(self.alloc, text),
        }
    }

    // It takes a text of its server.
    pub(crate) fn take(&mut self, text: &Text) -> Result<(), TakeFault>
        ensures { Takes text.now self.old self.new result }
    {
        let opened = self.opened(text)?;
        self.client.take(text, &mut self.texts)?;
        let was = self.session.take();
        drop(mem::replace(&mut self.session, kept_or(was, opened)));
        Ok(())
    }

    // The text that waits first.
    pub(crate) fn next_out(&mut self) -> Option<Text>
        ensures { IsSent self.old self.new result }
    {
        self.client.next_out()
    }
}
