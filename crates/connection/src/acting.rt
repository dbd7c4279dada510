//! What a client and its session do by themselves.
ghost use Rattle.std.specs.Prelude.{◌≡◌, OnErr};
ghost use Rattle.connection.specs.world_model.declared.events.Act.TheVariants as act;
ghost use Rattle.connection.specs.Answers.{Answers, Takes, IsRefusal};

use crate::EventFault;
use crate::client_core::TakeFault;
use crate::connection::Connection;
use crate::world_model::Answer;
use ejson_value::Mem;
use heard_messages::Heard;

/// What an event of the session that is refused is answered.
pub(crate) fn refused(fault: EventFault) -> Result<Answer, Mem>
    ensures { IsRefusal fault result }
{
    match fault {
        EventFault::Idle => Ok(Answer::Idle),
        EventFault::JournalFull => Ok(Answer::JournalFull),
        EventFault::QueueFull => Ok(Answer::QueueFull),
        EventFault::Memory => Err(Mem),
    }
}

impl Connection {
    /// A text that waits in the client goes onto the link to the server.
    pub fn up(&mut self) -> Result<Answer, Mem>
        ensures { Answers act.Up self.old self.new result }
    {
        if self.side.is_dropped || self.side.upward.is_full() {
            return Ok(Answer::Idle);
        }
        self.side.upward.texts.reserve(1)?;
        match self.side.client.next_out() {
            None => Ok(Answer::Idle),
            Some(text) => {
                self.side.upward.texts.push(text).unwrap();
                Ok(Answer::Done)
            }
        }
    }

    /// The session takes a text from that link.
    pub fn recv(&mut self) -> Result<Answer, Mem>
        ensures { Answers act.Recv self.old self.new result }
    {
        let Some(text) = self.side.upward.first() else {
            return Ok(Answer::Idle);
        };
        match self.side.session.take(text) {
            Ok(()) => {
                self.side.upward.pass();
                Ok(Answer::Done)
            }
            Err(fault) => refused(fault),
        }
    }

    /// The session handles the message that came first.
    pub fn handle(&mut self) -> Result<Answer, Mem>
        ensures { Answers act.Handle self.old self.new result }
    {
        match self.side.session.handle() {
            Ok(()) => {}
            Err(fault) => return refused(fault),
        }
        Ok(Answer::Done)
    }

    /// A text of the session's outbox goes onto the link to the client.
    pub fn send(&mut self) -> Result<Answer, Mem>
        ensures { Answers act.Send self.old self.new result }
    {
        if self.side.downward.is_full() {
            return Ok(Answer::Idle);
        }
        self.side.downward.texts.reserve(1)?;
        match self.side.session.send() {
            None => Ok(Answer::Idle),
            Some(text) => {
                self.side.downward.texts.push(text).unwrap();
                Ok(Answer::Done)
            }
        }
    }

    /// The client takes a text from that link. With the answer goes the number of its refusal, where
    /// it refuses the text; it is broken then. Others may have read the text already.
    pub fn take(&mut self, heard: &mut Heard) -> Result<(Answer, Option<u8>), Mem>
        ensures { Takes self.old self.new result }
    {
        if self.side.is_dropped {
            return Ok((Answer::Idle, None));
        }
        let Some(text) = self.side.downward.first() else {
            return Ok((Answer::Idle, None));
        };
        match self.side.client.take(text, heard) {
            Ok(()) => {
                self.side.downward.pass();
                Ok((Answer::Done, None))
            }
            Err(TakeFault::ServerSent(number)) => {
                self.side.downward.pass();
                Ok((Answer::Done, Some(number)))
            }
            Err(TakeFault::Idle) => Ok((Answer::Idle, None)),
            Err(TakeFault::Memory) => Err(Mem),
        }
    }
}
