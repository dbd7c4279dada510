//! Clients are told one after another.
ghost use Rattle.std.specs.Prelude.{◌≡◌};
ghost use Rattle.world_news_laws.specs.News.{AreNews};
ghost use Rattle.lanes.specs.Lanes.{AreTold, either};
ghost use Rattle.world_core.specs.Visits.{AreReady, Tells, Leads};

use crate::connection::Connection;
use crate::multiplexer::Multiplexer;
use crate::store_machine::Machine;
use crate::visits::told;
use ejson_value::{Mem, Text};
use heard_messages::Heard;
use lanes::Lanes;
use std::alloc::Global;

/// What there is to show goes to those of these names that are among the clients, one after another. Whether
/// any act was made.
pub(crate) fn told_in_turn<L: Lanes<Connection>>(
    alloc: Global,
    machine: &Machine,
    news: &mut Multiplexer,
    heard: &mut Heard,
    names: &[Text],
    clients: &mut L,
) -> Result<bool, Mem>
    requires clients { AreReady machine.now (L.values clients.old) }
    requires news { AreNews machine.now news.old }
    ensures told { AreTold (Tells machine.now) (Leads machine.now) names.now (L.values clients.old) (L.values clients.new) result }
    ensures news { AreNews machine.now news.new }
{
    let mut made = false;
    for name in names {
        let now = told(alloc, clients, machine, news, heard, name)?;
        made = now || made;
    }
    Ok(made)
}

/// Whether any act was made; want of memory in either of them is want of memory.
pub(crate) fn either(first: Result<bool, Mem>, second: Result<bool, Mem>) -> Result<bool, Mem>
    ensures { result ≡ either first second }
{
    match (first, second) {
        (Ok(first), Ok(second)) => Ok(first || second),
        (Err(mem), _) => Err(mem),
        (_, Err(mem)) => Err(mem),
    }
}
