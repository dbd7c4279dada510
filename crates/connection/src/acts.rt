//! Acts.
ghost use Rattle.std.specs.Prelude.{◌≡◌, false};
ghost use Rattle.connection.specs.world_invariant_laws.Session.{IsServed};
ghost use Rattle.connection.specs.connection_laws.Connection.{as_conn, IsConnection};
ghost use Rattle.connection.specs.Acting.{TellsOver, adds_entry};

use crate::connection::Connection;
use crate::store_machine::Machine;
use crate::world_model::{Act, Answer};
use ejson_value::Mem;
use heard_messages::Heard;

impl Connection {
    /// Makes an act of the client or its session that adds no entry to the history, and answers it, with
    /// the number of the client's refusal where it takes a text that it refuses.
    pub fn act_over(
        &mut self,
        machine: &Machine,
        heard: &mut Heard,
        act: Act,
    ) -> Result<(Answer, Option<u8>), Mem>
        requires connection { IsConnection machine.now.app self.old.own.name machine.now.history self.old }
        requires served { IsServed machine.now.app machine.now.history (as_conn self.old) }
        requires adds { adds_entry act ≡ false }
        ensures { TellsOver act machine.now machine.now self.old self.new result }
    {
        match act {
            Act::Up => Ok((self.up()?, None)),
            Act::Recv => Ok((self.recv()?, None)),
            Act::Handle => Ok((self.handle()?, None)),
            // These two may add one.
            Act::Begin => Ok((Answer::Idle, None)),
            Act::Step { .. } => Ok((Answer::Idle, None)),
            Act::Learn { k, at } => Ok((self.learn(machine, k, at)?, None)),
            Act::Load { sub, at } => Ok((self.load(machine, sub, at)?, None)),
            Act::Advance { sub, count } => Ok((self.advance(machine, sub, count)?, None)),
            Act::Send => Ok((self.send()?, None)),
            Act::Take => self.take(heard),
        }
    }

    /// Makes an act of the client, its session or a run of it, and answers it, with the number of the
    /// client's refusal where it takes a text that it refuses.
    pub fn act(
        &mut self,
        machine: &mut Machine,
        heard: &mut Heard,
        act: Act,
    ) -> Result<(Answer, Option<u8>), Mem>
        requires connection { IsConnection machine.old.app self.old.own.name machine.old.history self.old }
        requires served { IsServed machine.old.app machine.old.history (as_conn self.old) }
        ensures { TellsOver act machine.old machine.new self.old self.new result }
    {
        match act {
            Act::Begin => Ok((self.begin(machine)?, None)),
            Act::Step { k } => Ok((self.step(machine, k)?, None)),
            _ => self.act_over(machine, heard, act),
        }
    }
}
