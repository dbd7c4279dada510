//! Acts that are made one after another.
ghost use Rattle.std.specs.Prelude.{◌≡◌, [], ◌∷◌, replicate, true, false, All};
ghost use Rattle.connection.specs.history_model.History.{Rise};
ghost use Rattle.connection.specs.world_model.Settle.{steps};
ghost use Rattle.connection.specs.world_model.Store.{held_in};
ghost use Rattle.world_rounds_laws.specs.Steps.{Covers};
ghost use Rattle.world_core.specs.Visit.{visit, side, IsReady, Makes, Passes};
ghost use Rattle.world_core.specs.Acting.{is_repeatable, count_of};
ghost use Rattle.connection.specs.Acting.{adds_entry};

use crate::acting::{tries, tries_over};
use connection::Connection;
use connection::store_machine::Machine;
use connection::world_model::Act;
use ejson_value::Mem;
use heard_messages::Heard;
use world_news_laws::multiplexer::Multiplexer;

/// Makes the act until it can't be made any more. Whether it was made at all.
pub(crate) fn repeat(
    connection: &mut Connection,
    machine: &mut Machine,
    news: &mut Multiplexer,
    heard: &mut Heard,
    act: Act,
) -> Result<bool, Mem>
    requires ready { IsReady (visit machine.old connection.old news.old) }
    requires leads { is_repeatable act ≡ true }
    ensures { let v = visit machine.old connection.old news.old in
        Makes (replicate (count_of machine.old.app act (side v)) act) v (visit machine.new connection.new news.new) result }
{
    let mut made = false;
    while tries(connection, machine, news, heard, act)? {
        made = true;
    }
    Ok(made)
}

/// Makes an act that adds no entry to the history until it can't be made any more. Whether it was made at
/// all.
pub(crate) fn repeat_over(
    connection: &mut Connection,
    machine: &Machine,
    news: &mut Multiplexer,
    heard: &mut Heard,
    act: Act,
) -> Result<bool, Mem>
    requires ready { IsReady (visit machine.now connection.old news.old) }
    requires leads { is_repeatable act ≡ true }
    requires adds { adds_entry act ≡ false }
    ensures { let v = visit machine.now connection.old news.old in
        Makes (replicate (count_of machine.now.app act (side v)) act) v (visit machine.now connection.new news.new) result }
{
    let mut made = false;
    while tries_over(connection, machine, news, heard, act)? {
        made = true;
    }
    Ok(made)
}

/// Makes each of the acts that can be made, which add no entry to the history. Whether any was.
pub(crate) fn each(
    connection: &mut Connection,
    machine: &Machine,
    news: &mut Multiplexer,
    heard: &mut Heard,
    acts: &[Act],
) -> Result<bool, Mem>
    requires ready { IsReady (visit machine.now connection.old news.old) }
    requires add { All (λ act. adds_entry act ≡ false) acts.now }
    ensures { Makes acts.now (visit machine.now connection.old news.old) (visit machine.now connection.new news.new) result }
{
    let mut made = false;
    for act in acts {
        if tries_over(connection, machine, news, heard, *act)? {
            made = true;
        }
    }
    Ok(made)
}

/// The runs of the calls make their steps, one run after another. Whether any was made.
pub(crate) fn steps(
    connection: &mut Connection,
    machine: &mut Machine,
    news: &mut Multiplexer,
    heard: &mut Heard,
    calls: &[u64],
) -> Result<bool, Mem>
    requires ready { IsReady (visit machine.old connection.old news.old) }
    requires rise { Rise calls.now }
    requires covers { Covers connection.old.session.carried.number calls.now (held_in machine.old.app machine.old.history).runs }
    ensures { Passes (steps ∷ []) (visit machine.old connection.old news.old) (visit machine.new connection.new news.new) result }
{
    let mut made = false;
    for k in calls {
        if repeat(connection, machine, news, heard, Act::Step { k: *k })? {
            made = true;
        }
    }
    Ok(made)
}
