//! A subscription that goes on.
ghost use Rattle.std.specs.Prelude.{◌≡◌, ◌+◌, ◌≤◌, ◌<◌, length, Some, IfOk, IfSome};
ghost use Rattle.connection.specs.session_model.Subscriptions.{cursor_of};
ghost use Rattle.connection.specs.world_model.declared.events.Act.TheVariants as act;
ghost use Rattle.connection.specs.connection_laws.Connection.{IsConnection};
ghost use Rattle.connection.specs.Answers.{AnswersIn};
ghost use Rattle.world_news_laws.specs.News.{AreNews};
ghost use Rattle.world_core.specs.Lending.{SpansIn, IsLentTo, FeedsSub};

use connection::Connection;
use connection::session_state::{Sub, sub_of};
use connection::store_machine::Machine;
use connection::world_model::Answer;
use ejson_value::Mem;
use selector_match::Steps;
use std::marker::Brand;
use std::sync::ledger::{Blank, Ledger};
use world_news_laws::multiplexer::{Lent, Multiplexer};

// The ledger counts how often documents are looked at.
fn span_by<L: Ledger>(
    machine: &Machine,
    news: &mut Multiplexer,
    live: &Sub,
    from: u64,
    count: u64,
    blank: Blank,
) -> Result<Option<Lent>, Mem>
    requires within { from + count ≤ length machine.now.history }
    requires name { blank.name ≡ L.name }
    requires parts { blank.parts ≡ L.parts }
    requires whole { blank.parts ≡ 1 }
    ensures { SpansIn machine.now live.now from (from + count) news.old news.new result }
{
    let mut steps = Steps::<L>::new(blank);
    news.span(machine, live, from, count, &mut steps)
}

// What the subscription's publication tells of the entries to all that ask.
fn span(
    machine: &Machine,
    news: &mut Multiplexer,
    live: &Sub,
    from: u64,
    count: u64,
) -> Result<Option<Lent>, Mem>
    requires { from + count ≤ length machine.now.history }
    ensures { SpansIn machine.now live.now from (from + count) news.old news.new result }
{
    span_by::<Brand>(machine, news, live, from, count, Blank::new(1))
}

// The same, where none of the subscription's cursors has a limit.
fn told(
    connection: &Connection,
    machine: &Machine,
    news: &mut Multiplexer,
    sub: u64,
    from: u64,
    count: u64,
) -> Result<Option<Lent>, Mem>
    requires connection { IsConnection machine.now.app connection.now.own.name machine.now.history connection.now }
    requires news { AreNews machine.now news.old }
    requires is { cursor_of sub connection.now.session.carried.own.subs ≡ Some from }
    requires within { from + count ≤ length machine.now.history }
    ensures keeps { AreNews machine.now news.new }
    ensures feeds { IfOk result (λ told. IfSome told (FeedsSub machine.now connection.now sub count)) }
    ensures lent { IfOk result (λ told. IfSome told (IsLentTo machine.now connection.now sub from (from + count))) }
{
    match sub_of(connection.subs(), sub) {
        Some(live) if !live.cursors.limited() => span(machine, news, live, from, count),
        _ => Ok(None),
    }
}

// The subscription goes on over the entries by its own observer.
fn advance_alone(
    connection: &mut Connection,
    machine: &Machine,
    news: &mut Multiplexer,
    sub: u64,
    from: u64,
    count: u64,
) -> Result<Answer, Mem>
    requires news { AreNews machine.now news.old }
    requires is { cursor_of sub connection.old.session.carried.own.subs ≡ Some from }
    requires within { from + count ≤ length machine.now.history }
    requires few { length machine.now.history < 18446744073709551616 }
    ensures keeps { AreNews machine.now news.new }
    ensures advances { AnswersIn machine.now.app machine.now.history (act.Advance sub count) connection.old connection.new result }
{
    let batch = news.batch(machine, from, count)?;
    connection.advance_over(sub, &batch)
}

// The subscription goes on over entries that the history has. What is told of them to all is put back,
// with the texts that are known of it now.
fn advance_within(
    connection: &mut Connection,
    machine: &Machine,
    news: &mut Multiplexer,
    sub: u64,
    from: u64,
    count: u64,
) -> Result<Answer, Mem>
    requires connection { IsConnection machine.now.app connection.old.own.name machine.now.history connection.old }
    requires news { AreNews machine.now news.old }
    requires is { cursor_of sub connection.old.session.carried.own.subs ≡ Some from }
    requires within { from + count ≤ length machine.now.history }
    requires few { length machine.now.history < 18446744073709551616 }
    ensures keeps { AreNews machine.now news.new }
    ensures advances { AnswersIn machine.now.app machine.now.history (act.Advance sub count) connection.old connection.new result }
{
    match told(connection, machine, news, sub, from, count)? {
        Some(lent) => {
            let mut lent = lent;
            let answer = connection.feed(sub, count, &lent.span.told, &mut lent.span.texts)?;
            news.learn(lent);
            Ok(answer)
        }
        None => advance_alone(connection, machine, news, sub, from, count),
    }
}

/// The session leads the subscription on, by so many entries of the history: by what its publication
/// tells of them to all sessions, where that can be shared.
pub(crate) fn advance(
    connection: &mut Connection,
    machine: &Machine,
    news: &mut Multiplexer,
    sub: u64,
    count: u64,
) -> Result<Answer, Mem>
    requires connection { IsConnection machine.now.app connection.old.own.name machine.now.history connection.old }
    requires news { AreNews machine.now news.old }
    ensures keeps { AreNews machine.now news.new }
    ensures advances { AnswersIn machine.now.app machine.now.history (act.Advance sub count) connection.old connection.new result }
{
    let Some(from) = connection.cursor_of(sub) else {
        return Ok(Answer::Idle);
    };
    let length = machine.length();
    if from > length || count > length - from {
        return Ok(Answer::Idle);
    }
    advance_within(connection, machine, news, sub, from, count)
}
