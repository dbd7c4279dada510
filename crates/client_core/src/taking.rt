//! What a client makes of its server's texts.
ghost use Rattle.std.specs.Prelude.{◌≡◌, ◌≢◌, None, option_map, OnOk, OnErr};
ghost use Rattle.ejson_value.specs.View.{view};
ghost use Rattle.ddp_messages.specs.ServerMessage.{server_view};
ghost use Rattle.ddp_messages.specs.ServerMessage as server;
ghost use Rattle.client_core.specs.Taken.{IsRead, Tells, Hears, Takes};
ghost use Rattle.ddp_messages.specs.ClientMessage as client;
ghost use Rattle.ddp_messages.specs.Texts.{client_text};
ghost use Rattle.client_model.specs.Taking.{turned, ended_by as end_of};
ghost use Rattle.client_model.specs.Asking.{with_text};

use crate::calls::{finish, outcome_by, update, updated, without_result};
use crate::client::Client;
use crate::fault::TakeFault;
use crate::subs::ended_by;
use crate::texts::pong;
use ddp_messages::{FromServer, MsgFault};
use ejson_value::{Fault, Mem, Names, Text, Value};
use heard_messages::Heard;
use json::Scratch;

/// How many bytes a text may have that a client reads.
const MAX_SERVER_TEXT: usize = 4_194_304;

// Reads a text as a message.
fn read(text: &Text, scratch: &mut Scratch, heard: &mut Heard) -> Result<FromServer, TakeFault>
    ensures { IsRead text.now result }
{
    if text.len() > MAX_SERVER_TEXT {
        return Err(TakeFault::ServerSent(1));
    }
    match heard.read(text, scratch) {
        Ok(message) => Ok(message),
        Err(MsgFault::Parse) => Err(TakeFault::ServerSent(1)),
        Err(MsgFault::BadRequest { .. }) => Err(TakeFault::ServerSent(2)),
        Err(MsgFault::Memory) => Err(TakeFault::Memory),
    }
}

impl Client {
    // Answers a `ping`.
    fn answer(&mut self, id: &Option<Text>) -> Result<(), Mem>
        ensures ok { OnOk result (self.new ≡ record self.old { client = with_text (client_text (client.pong id.now)) self.old.client }) }
        ensures err { OnErr result (self.new ≡ self.old) }
    {
        let answer = pong(self.alloc, id)?;
        self.waiting.push_back(answer)?;
        Ok(())
    }

    // The subscription is over.
    fn end_sub(&mut self, id: &Text, error: &Option<Fault>) -> Result<(), Mem>
        ensures ok { OnOk result
            (self.new ≡ record self.old { client = record self.old.client { subs = turned (end_of error.now) id.now self.old.client.subs } }) }
        ensures err { OnErr result (self.new ≡ self.old) }
    {
        let state = ended_by(error)?;
        self.subs.turn(id, state);
        Ok(())
    }

    // The method of this id has returned.
    fn end_call(
        &mut self,
        id: &Text,
        error: &Option<Fault>,
        value: &Option<Value>,
    ) -> Result<(), TakeFault>
        requires { self.old.client.session ≢ None }
        ensures { Tells (server.finished id.now error.now (option_map view value.now)) self.old self.new result }
    {
        self.known();
        let Some(number) = without_result(self.alloc, self.calls.as_slice(), id)? else {
            return Err(TakeFault::ServerSent(8));
        };
        let outcome = outcome_by(error, value)?;
        finish(&mut self.calls, number, outcome);
        Ok(())
    }

    // The writes of the methods of these ids are there: their simulations are over.
    fn update_calls(&mut self, methods: &Names) -> Result<(), TakeFault>
        requires { self.old.client.session ≢ None }
        ensures { Tells (server.updated methods.now) self.old self.new result }
    {
        self.known();
        let Some(numbers) = updated(self.alloc, self.calls.as_slice(), methods)? else {
            return Err(TakeFault::ServerSent(9));
        };
        self.view.release(numbers.as_slice())?;
        update(&mut self.calls, numbers.as_slice());
        Ok(())
    }

    // Takes a message before `connected` was taken.
    fn tell_early(&mut self, message: &FromServer) -> Result<(), TakeFault>
        requires { self.old.client.session ≡ None }
        ensures { Tells (server_view message.now) self.old self.new result }
    {
        match message {
            FromServer::Connected { session } => {
                self.session = Some(session.copy()?);
                Ok(())
            }
            FromServer::Failed { .. } => {
                self.is_failed = true;
                Ok(())
            }
            FromServer::Ping { id } => Ok(self.answer(id)?),
            FromServer::Pong { .. } | FromServer::Error { .. } | FromServer::Unknown => Ok(()),
            FromServer::Nosub { .. }
            | FromServer::Ready { .. }
            | FromServer::Data(_)
            | FromServer::Result { .. }
            | FromServer::Updated { .. } => Err(TakeFault::ServerSent(3)),
        }
    }

    // Takes a message after that.
    fn tell_late(&mut self, message: &FromServer) -> Result<(), TakeFault>
        requires { self.old.client.session ≢ None }
        ensures { Tells (server_view message.now) self.old self.new result }
    {
        match message {
            FromServer::Connected { .. } | FromServer::Failed { .. } => {
                Err(TakeFault::ServerSent(4))
            }
            FromServer::Ping { id } => Ok(self.answer(id)?),
            FromServer::Nosub { id, error } => Ok(self.end_sub(id, error)?),
            FromServer::Ready { subs } => {
                self.subs.turn_ready(subs);
                Ok(())
            }
            FromServer::Data(message) => Ok(self.view.apply(message)?),
            FromServer::Result {
                id,
                error,
                result: value,
            } => self.end_call(id, error, value),
            FromServer::Updated { methods } => self.update_calls(methods),
            FromServer::Pong { .. } | FromServer::Error { .. } | FromServer::Unknown => Ok(()),
        }
    }

    // Takes a message, or refuses it and changes nothing.
    fn tell(&mut self, message: FromServer) -> Result<(), TakeFault>
        ensures { Tells (server_view message) self.old self.new result }
    {
        let told = if self.session.is_none() {
            self.tell_early(&message)
        } else {
            self.tell_late(&message)
        };
        drop(message);
        told
    }

    // Takes a text, or refuses it and changes nothing.
    fn hear(&mut self, text: &Text, heard: &mut Heard) -> Result<(), TakeFault>
        ensures { Hears text.now self.old self.new result }
    {
        let message = read(text, &mut self.scratch, heard)?;
        self.tell(message)
    }

    /// Takes a text of the server. A refused one breaks the client by the number of its refusal, and
    /// changes nothing else: from then on it takes nothing and asks for nothing. Others may have read
    /// the text already.
    pub fn take(&mut self, text: &Text, heard: &mut Heard) -> Result<(), TakeFault>
        ensures { Takes text.now self.old self.new result }
    {
        if self.is_failed || self.broken.is_some() {
            return Err(TakeFault::Idle);
        }
        let taken = self.hear(text, heard);
        if let Err(TakeFault::ServerSent(number)) = taken {
            self.broken = Some(number);
        }
        taken
    }
}
