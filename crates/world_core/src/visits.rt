//! What the client of a name does.
ghost use Rattle.std.specs.Prelude.{◌≡◌, IfSome};
ghost use Rattle.map_model.specs.Maps.{at};
ghost use Rattle.value_model.specs.Order.{text_cmp};
ghost use Rattle.world_news_laws.specs.News.{AreNews};
ghost use Rattle.world_core.specs.Visits.{CanVisit, VisitsIn, AreReady, TellsIn};

use crate::connection::Connection;
use crate::multiplexer::Multiplexer;
use crate::store_machine::Machine;
use crate::{round, tell};
use ejson_value::{Mem, Text};
use heard_messages::Heard;
use lanes::Lanes;
use std::alloc::Global;

/// The client of this name goes through its phases. Whether any act was made.
pub fn visited<L: Lanes<Connection>>(
    alloc: Global,
    clients: &mut L,
    machine: &mut Machine,
    news: &mut Multiplexer,
    heard: &mut Heard,
    name: &Text,
) -> Result<bool, Mem>
    requires { IfSome (at text_cmp (L.values clients.old) name.now) (CanVisit machine.old news.old name.now) }
    ensures { VisitsIn machine.old machine.new (L.values clients.old) (L.values clients.new) news.old news.new name.now result }
{
    match clients.get_mut(name) {
        Some(connection) => round(alloc, connection, machine, news, heard),
        None => Ok(false),
    }
}

/// What there is to show goes to the client of this name. Whether any act was made.
pub(crate) fn told<L: Lanes<Connection>>(
    alloc: Global,
    clients: &mut L,
    machine: &Machine,
    news: &mut Multiplexer,
    heard: &mut Heard,
    name: &Text,
) -> Result<bool, Mem>
    requires clients { AreReady machine.now (L.values clients.old) }
    requires news { AreNews machine.now news.old }
    ensures told { TellsIn machine.now (L.values clients.old) (L.values clients.new) name.now result }
    ensures news { AreNews machine.now news.new }
{
    match clients.get_mut(name) {
        Some(connection) => tell(alloc, connection, machine, news, heard),
        None => Ok(false),
    }
}
