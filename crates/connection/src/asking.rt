//! What is asked of a client.
ghost use Rattle.connection.specs.world_model.Asks as ask;
ghost use Rattle.connection.specs.Acting.{AsksFor};
ghost use Rattle.connection.specs.Answers.{Does, DoesOver};

use crate::client_core::ClientFault;
use crate::connection::Connection;
use crate::world_model::Event;
use ejson_value::{Items, Mem, Text};

impl Connection {
    /// The client subscribes with this id to the publication of this name. Whether it could.
    pub fn subscribe(&mut self, id: &Text, name: &Text, params: &Items) -> Result<bool, Mem>
        ensures { Does (ask.subscribe id.now name.now params.now) self.old self.new result }
    {
        if self.side.is_dropped {
            return Ok(false);
        }
        match self.side.client.sub(id, name, params) {
            Ok(()) => Ok(true),
            Err(ClientFault::Idle) => Ok(false),
            Err(ClientFault::Memory) => Err(Mem),
        }
    }

    /// The client ends its subscription of this id. Whether it could.
    pub fn unsubscribe(&mut self, id: &Text) -> Result<bool, Mem>
        ensures { Does (ask.unsubscribe id.now) self.old self.new result }
    {
        if self.side.is_dropped {
            return Ok(false);
        }
        match self.side.client.unsub(id) {
            Ok(()) => Ok(true),
            Err(ClientFault::Idle) => Ok(false),
            Err(ClientFault::Memory) => Err(Mem),
        }
    }

    /// The client calls the method of this name. Whether it could.
    pub fn call(&mut self, method: &Text, params: &Items) -> Result<bool, Mem>
        ensures { Does (ask.call method.now params.now) self.old self.new result }
    {
        if self.side.is_dropped {
            return Ok(false);
        }
        match self.side.client.call(method, params) {
            Ok(_) => Ok(true),
            Err(ClientFault::Idle) => Ok(false),
            Err(ClientFault::Memory) => Err(Mem),
        }
    }

    /// The client sends a text as it stands. Whether it could.
    pub fn raw(&mut self, text: &Text) -> Result<bool, Mem>
        ensures { Does (ask.raw text.now) self.old self.new result }
    {
        if self.side.is_dropped {
            return Ok(false);
        }
        match self.side.client.raw(text) {
            Ok(()) => {
                self.side.made_raw = true;
                Ok(true)
            }
            Err(ClientFault::Idle) => Ok(false),
            Err(ClientFault::Memory) => Err(Mem),
        }
    }

    /// The client, and its session, are gone; what the session's runs have begun goes on. Whether they
    /// were still there.
    pub fn drop(&mut self) -> bool
        ensures { DoesOver ask.drop self.old self.new result }
    {
        if self.side.is_dropped {
            return false;
        }
        self.side.session.close();
        self.side.is_dropped = true;
        true
    }

    /// Asks the client for what the event says, and answers whether it could be done; an event that asks
    /// a client for nothing does nothing.
    pub fn ask(&mut self, event: &Event) -> Result<bool, Mem>
        ensures { AsksFor event.now self.old self.new result }
    {
        match event {
            Event::Sub {
                id,
                name,
                params,
                ..
            } => self.subscribe(id, name, params),
            Event::Unsub { id, .. } => self.unsubscribe(id),
            Event::Call { method, params, .. } => self.call(method, params),
            Event::Raw { text, .. } => self.raw(text),
            Event::Drop { .. } => Ok(self.drop()),
            _ => Ok(false),
        }
    }
}
