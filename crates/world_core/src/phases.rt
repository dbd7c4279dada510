//! The phases of a client's round.
ghost use Rattle.std.specs.Prelude.{[], ◌∷◌};
ghost use Rattle.connection.specs.world_model.Settle.{ups, recvs, handles, begins, steps, learns, loadings, advancings, sendings, takings, order};
ghost use Rattle.world_core.specs.Visit.{visit, IsReady, Passes};

use crate::acting::tries;
use crate::downward::tells;
use crate::listing::learns;
use crate::making::{each, repeat, steps};
use connection::Connection;
use connection::store_machine::Machine;
use connection::world_model::Act;
use ejson_value::Mem;
use heard_messages::Heard;
use std::alloc::Global;
use world_news_laws::multiplexer::Multiplexer;

// Texts go up while they can, and are taken.
fn texts_up(
    connection: &mut Connection,
    machine: &mut Machine,
    news: &mut Multiplexer,
    heard: &mut Heard,
) -> Result<bool, Mem>
    requires { IsReady (visit machine.old connection.old news.old) }
    ensures { Passes (ups ∷ recvs ∷ []) (visit machine.old connection.old news.old) (visit machine.new connection.new news.new) result }
{
    let up = repeat(connection, machine, news, heard, Act::Up)?;
    let taken = repeat(connection, machine, news, heard, Act::Recv)?;
    Ok(up || taken)
}

// Messages are handled, and the call that blocks is begun.
fn requests(
    connection: &mut Connection,
    machine: &mut Machine,
    news: &mut Multiplexer,
    heard: &mut Heard,
) -> Result<bool, Mem>
    requires { IsReady (visit machine.old connection.old news.old) }
    ensures { Passes (handles ∷ begins ∷ []) (visit machine.old connection.old news.old) (visit machine.new connection.new news.new) result }
{
    let handled = repeat(connection, machine, news, heard, Act::Handle)?;
    let begun = tries(connection, machine, news, heard, Act::Begin)?;
    Ok(handled || begun)
}

// The runs make their steps.
fn runs(
    connection: &mut Connection,
    machine: &mut Machine,
    news: &mut Multiplexer,
    heard: &mut Heard,
) -> Result<bool, Mem>
    requires { IsReady (visit machine.old connection.old news.old) }
    ensures { Passes (steps ∷ []) (visit machine.old connection.old news.old) (visit machine.new connection.new news.new) result }
{
    let calls = connection.running()?;
    steps(connection, machine, news, heard, calls.as_slice())
}

// The session learns of each call that runs.
fn learnings(
    alloc: Global,
    connection: &mut Connection,
    machine: &mut Machine,
    news: &mut Multiplexer,
    heard: &mut Heard,
) -> Result<bool, Mem>
    requires { IsReady (visit machine.old connection.old news.old) }
    ensures { Passes (learns ∷ []) (visit machine.old connection.old news.old) (visit machine.new connection.new news.new) result }
{
    let calls = connection.running()?;
    let acts = learns(alloc, calls.as_slice(), machine.length())?;
    each(connection, machine, news, heard, acts.as_slice())
}

// What the client asks for is taken, handled and begun.
fn asks(
    connection: &mut Connection,
    machine: &mut Machine,
    news: &mut Multiplexer,
    heard: &mut Heard,
) -> Result<bool, Mem>
    requires { IsReady (visit machine.old connection.old news.old) }
    ensures { Passes (ups ∷ recvs ∷ handles ∷ begins ∷ []) (visit machine.old connection.old news.old) (visit machine.new connection.new news.new) result }
{
    let up = texts_up(connection, machine, news, heard)?;
    let handled = requests(connection, machine, news, heard)?;
    Ok(up || handled)
}

// Calls run, and are learnt of.
fn calls(
    alloc: Global,
    connection: &mut Connection,
    machine: &mut Machine,
    news: &mut Multiplexer,
    heard: &mut Heard,
) -> Result<bool, Mem>
    requires { IsReady (visit machine.old connection.old news.old) }
    ensures { Passes (steps ∷ learns ∷ []) (visit machine.old connection.old news.old) (visit machine.new connection.new news.new) result }
{
    let stepped = runs(connection, machine, news, heard)?;
    let learnt = learnings(alloc, connection, machine, news, heard)?;
    Ok(stepped || learnt)
}

// What the client asks for is done.
fn serves(
    alloc: Global,
    connection: &mut Connection,
    machine: &mut Machine,
    news: &mut Multiplexer,
    heard: &mut Heard,
) -> Result<bool, Mem>
    requires { IsReady (visit machine.old connection.old news.old) }
    ensures { Passes (ups ∷ recvs ∷ handles ∷ begins ∷ steps ∷ learns ∷ [])
        (visit machine.old connection.old news.old) (visit machine.new connection.new news.new) result }
{
    let asked = asks(connection, machine, news, heard)?;
    let called = calls(alloc, connection, machine, news, heard)?;
    Ok(asked || called)
}

/// What a round of a settling world does with a client: its phases, one after another, each act as often as there is something
/// for it. Whether any act was made.
pub fn round(
    alloc: Global,
    connection: &mut Connection,
    machine: &mut Machine,
    news: &mut Multiplexer,
    heard: &mut Heard,
) -> Result<bool, Mem>
    requires { IsReady (visit machine.old connection.old news.old) }
    ensures { Passes order (visit machine.old connection.old news.old) (visit machine.new connection.new news.new) result }
{
    let served = serves(alloc, connection, machine, news, heard)?;
    let told = tells(alloc, connection, machine, news, heard)?;
    Ok(served || told)
}
