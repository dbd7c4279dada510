//! One act of a client.
ghost use Rattle.std.specs.Prelude.{◌≡◌, false};
ghost use Rattle.connection.specs.Acting.{adds_entry};
ghost use Rattle.world_core.specs.Visit.{visit, IsReady};
ghost use Rattle.world_core.specs.Acting.{AnswersTo, Tries};

use crate::showing::advance;
use connection::Connection;
use connection::store_machine::Machine;
use connection::world_model::{Act, Answer};
use ejson_value::Mem;
use heard_messages::Heard;
use world_news_laws::multiplexer::Multiplexer;

// Makes an act that adds no entry to the history.
fn make_over(
    connection: &mut Connection,
    machine: &Machine,
    news: &mut Multiplexer,
    heard: &mut Heard,
    act: Act,
) -> Result<Answer, Mem>
    requires ready { IsReady (visit machine.now connection.old news.old) }
    requires adds { adds_entry act ≡ false }
    ensures { AnswersTo act (visit machine.now connection.old news.old) (visit machine.now connection.new news.new) result }
{
    match act {
        Act::Advance { sub, count } => advance(connection, machine, news, sub, count),
        _ => Ok(connection.act_over(machine, heard, act)?.0),
    }
}

// Makes the act.
fn make(
    connection: &mut Connection,
    machine: &mut Machine,
    news: &mut Multiplexer,
    heard: &mut Heard,
    act: Act,
) -> Result<Answer, Mem>
    requires { IsReady (visit machine.old connection.old news.old) }
    ensures { AnswersTo act (visit machine.old connection.old news.old) (visit machine.new connection.new news.new) result }
{
    match act {
        Act::Begin => connection.begin(machine),
        Act::Step { k } => connection.step(machine, k),
        _ => make_over(connection, machine, news, heard, act),
    }
}

/// Makes an act that adds no entry to the history, where it can be made. Whether it was.
pub(crate) fn tries_over(
    connection: &mut Connection,
    machine: &Machine,
    news: &mut Multiplexer,
    heard: &mut Heard,
    act: Act,
) -> Result<bool, Mem>
    requires ready { IsReady (visit machine.now connection.old news.old) }
    requires adds { adds_entry act ≡ false }
    ensures { Tries act (visit machine.now connection.old news.old) (visit machine.now connection.new news.new) result }
{
    match make_over(connection, machine, news, heard, act) {
        Ok(Answer::Done) => Ok(true),
        Ok(_) => Ok(false),
        Err(mem) => Err(mem),
    }
}

/// Makes the act where it can be made. Whether it was.
pub(crate) fn tries(
    connection: &mut Connection,
    machine: &mut Machine,
    news: &mut Multiplexer,
    heard: &mut Heard,
    act: Act,
) -> Result<bool, Mem>
    requires { IsReady (visit machine.old connection.old news.old) }
    ensures { Tries act (visit machine.old connection.old news.old) (visit machine.new connection.new news.new) result }
{
    match make(connection, machine, news, heard, act) {
        Ok(Answer::Done) => Ok(true),
        Ok(_) => Ok(false),
        Err(mem) => Err(mem),
    }
}
