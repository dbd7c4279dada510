//! What there is to show goes to a client.
ghost use Rattle.std.specs.Prelude.{◌≡◌, [], ◌∷◌, true};
ghost use Rattle.connection.specs.world_model.Settle.{loadings, advancings, sendings, takings, order};
ghost use Rattle.connection.specs.Asks.{asks_nothing};
ghost use Rattle.world_core.specs.Visit.{visit, IsReady, Passes};

use crate::listing::{advances, loads};
use crate::making::{each, repeat_over};
use connection::Connection;
use connection::store_machine::Machine;
use connection::world_model::Act;
use ejson_value::Mem;
use heard_messages::Heard;
use std::alloc::Global;
use world_news_laws::multiplexer::Multiplexer;

// Subscriptions are loaded.
fn loadings(
    alloc: Global,
    connection: &mut Connection,
    machine: &Machine,
    news: &mut Multiplexer,
    heard: &mut Heard,
) -> Result<bool, Mem>
    requires { IsReady (visit machine.now connection.old news.old) }
    ensures { Passes (loadings ∷ []) (visit machine.now connection.old news.old) (visit machine.now connection.new news.new) result }
{
    let acts = loads(alloc, connection.subs(), machine.length())?;
    each(connection, machine, news, heard, acts.as_slice())
}

// Subscriptions go on to the end of the history.
fn advancings(
    alloc: Global,
    connection: &mut Connection,
    machine: &Machine,
    news: &mut Multiplexer,
    heard: &mut Heard,
) -> Result<bool, Mem>
    requires { IsReady (visit machine.now connection.old news.old) }
    ensures { Passes (advancings ∷ []) (visit machine.now connection.old news.old) (visit machine.now connection.new news.new) result }
{
    let acts = advances(alloc, connection.subs(), machine.length())?;
    each(connection, machine, news, heard, acts.as_slice())
}

// Texts are sent while they can be, and the client takes them.
fn texts_down(
    connection: &mut Connection,
    machine: &Machine,
    news: &mut Multiplexer,
    heard: &mut Heard,
) -> Result<bool, Mem>
    requires { IsReady (visit machine.now connection.old news.old) }
    ensures { Passes (sendings ∷ takings ∷ []) (visit machine.now connection.old news.old) (visit machine.now connection.new news.new) result }
{
    let sent = repeat_over(connection, machine, news, heard, Act::Send)?;
    let taken = repeat_over(connection, machine, news, heard, Act::Take)?;
    Ok(sent || taken)
}

// Subscriptions show the end of the history.
fn shows(
    alloc: Global,
    connection: &mut Connection,
    machine: &Machine,
    news: &mut Multiplexer,
    heard: &mut Heard,
) -> Result<bool, Mem>
    requires { IsReady (visit machine.now connection.old news.old) }
    ensures { Passes (loadings ∷ advancings ∷ []) (visit machine.now connection.old news.old) (visit machine.now connection.new news.new) result }
{
    let loaded = loadings(alloc, connection, machine, news, heard)?;
    let advanced = advancings(alloc, connection, machine, news, heard)?;
    Ok(loaded || advanced)
}

/// What there is to show goes to the client.
pub(crate) fn tells(
    alloc: Global,
    connection: &mut Connection,
    machine: &Machine,
    news: &mut Multiplexer,
    heard: &mut Heard,
) -> Result<bool, Mem>
    requires { IsReady (visit machine.now connection.old news.old) }
    ensures { Passes (loadings ∷ advancings ∷ sendings ∷ takings ∷ [])
        (visit machine.now connection.old news.old) (visit machine.now connection.new news.new) result }
{
    let shown = shows(alloc, connection, machine, news, heard)?;
    let sent = texts_down(connection, machine, news, heard)?;
    Ok(shown || sent)
}

/// What there is to show goes to the client, while the history stays as it is. Where the client asks for
/// nothing that is its whole round. Whether any act was made.
pub fn tell(
    alloc: Global,
    connection: &mut Connection,
    machine: &Machine,
    news: &mut Multiplexer,
    heard: &mut Heard,
) -> Result<bool, Mem>
    requires { IsReady (visit machine.now connection.old news.old) }
    ensures shows { Passes (loadings ∷ advancings ∷ sendings ∷ takings ∷ [])
        (visit machine.now connection.old news.old) (visit machine.now connection.new news.new) result }
    ensures round { asks_nothing connection.old ≡ true →
        Passes order (visit machine.now connection.old news.old) (visit machine.now connection.new news.new) result }
{
    tells(alloc, connection, machine, news, heard)
}
