//! Rounds of a world that settles.
ghost use Rattle.std.specs.Prelude.{◌≡◌, ◌++◌, ◌∷◌, [], ◌||◌, true, IfSome, IfOk, OnOk};
ghost use Rattle.std.specs.Option.{option_copied};
ghost use Rattle.world_news_laws.specs.News.{AreNews};
ghost use Rattle.world_laws.specs.World.{as_world, IsWorld};
ghost use Rattle.world_core.specs.Kept.{seen};
ghost use Rattle.world_core.specs.Names.{lesser};
ghost use Rattle.world_core.specs.Rounds.{IsNext, MakesRound, MakesRounds, Settles};
ghost use Rattle.world_core.specs.Runs.{AsksNothing, IsListener, IsRun, behind_all, TellsRun};

use crate::inside::Inside;
use crate::multiplexer::Multiplexer;
use crate::{Hands, visited};
use ejson_value::{Mem, Text};
use lanes::{Lanes, behind};
use std::cmp::Ordering;

// The lesser of two names.
fn lesser<'a>(one: Option<&'a Text>, other: Option<&'a Text>) -> Option<&'a Text>
    ensures { option_copied result ≡ lesser (option_copied one.entry) (option_copied other.entry) }
{
    match (one, other) {
        (Some(one), Some(other)) => match one.cmp(other) {
            Ordering::Greater => Some(other),
            _ => Some(one),
        },
        (Some(one), None) => Some(one),
        (None, other) => other,
    }
}

fn copied(name: Option<&Text>) -> Result<Option<Text>, Mem>
    ensures { IfOk result (λ name'. name' ≡ option_copied name.entry) }
{
    match name {
        Some(name) => Ok(Some(name.copy()?)),
        None => Ok(None),
    }
}

// Of the clients that may have something to do, the first whose name is this one or stands behind it.
// Where the history has grown since the world was settled last, these are all that are there.
fn worker_from(inside: &Inside, from: &Text) -> Result<Option<Text>, Mem>
    ensures { IfOk result (IsNext (seen inside.now) from.now) }
{
    let busy = inside.busy.from(from.copy()?);
    if inside.machine.length() == inside.settled {
        return copied(busy);
    }
    let present = inside.present.from(from.copy()?);
    copied(lesser(busy, present))
}

// Whether the client of this name asks for nothing.
fn asks_nothing(inside: &Inside, name: &Text) -> Result<bool, Mem>
    ensures { IfOk result (λ nothing. nothing ≡ true → AsksNothing (seen inside.now) name.now) }
{
    match inside.conns.get(name) {
        Some(connection) => connection.asks_nothing(),
        None => Ok(false),
    }
}

// The next client of a round, if it asks for nothing.
fn listener_from(inside: &Inside, from: &Text) -> Result<Option<Text>, Mem>
    ensures { IfOk result (λ next. IfSome next (IsListener (seen inside.now) from.now)) }
{
    let Some(name) = worker_from(inside, from)? else {
        return Ok(None);
    };
    if asks_nothing(inside, &name)? {
        Ok(Some(name))
    } else {
        Ok(None)
    }
}

// How many entries the subscriptions of the client don't show yet, all together.
fn behind_of(inside: &Inside, name: &Text) -> u64 {
    let entries = inside.machine.length();
    let mut all: u64 = 0;
    if let Some(connection) = inside.conns.get(name) {
        for sub in connection.subs() {
            all = all.saturating_add(entries.saturating_sub(sub.cursor.unwrap_or(0)));
        }
    }
    all
}

// Clients that come one after another in a round and ask for nothing.
#[derive(Drop)]
struct Run {
    names: Vec<Text>,
    // How many entries they have still to be told.
    work: u64,
    // The name from which on the round goes on behind them.
    from: Text,
}

// One more client.
fn add(run: &mut Run, name: Text, work: u64) -> Result<(), Mem>
    ensures names { OnOk result (run.new.names.items ≡ run.old.names.items ++ name ∷ []) }
    ensures from { OnOk result (run.new.from ≡ name ++ 0 ∷ []) }
{
    run.from = behind(&name)?;
    run.work = run.work.saturating_add(work);
    run.names.push(name)?;
    Ok(())
}

// Those that come from this name on, up to the first that asks for something.
fn run_from(inside: &Inside, from: &Text) -> Result<Run, Mem>
    ensures { IfOk result (λ run. IsRun (seen inside.now) from.now run.names.items × (run.from ≡ behind_all from.now run.names.items)) }
{
    let mut run = Run {
        names: Vec::new(inside.alloc),
        work: 0,
        from: from.copy()?,
    };
    while let Some(name) = listener_from(inside, &run.from)? {
        let work = behind_of(inside, &name);
        add(&mut run, name, work)?;
    }
    Ok(run)
}

// The clients from this name on that ask for nothing are told, up to the first that asks for something. The round goes
// on behind them. Whether any act was made.
fn tell<H: Hands>(
    hands: &H,
    inside: &mut Inside,
    news: &mut Multiplexer,
    from: &mut Text,
) -> Result<bool, Mem>
    requires ready { H.ready }
    requires world { IsWorld (seen inside.old) }
    requires news { AreNews inside.old.machine news.old }
    ensures news { AreNews inside.new.machine news.new }
    ensures told { TellsRun (seen inside.old) from.old (seen inside.new) from.new result }
{
    let run = run_from(inside, from)?;
    let told = hands.tell(
        inside.alloc,
        &inside.machine,
        news,
        &mut inside.heard,
        run.names.as_slice(),
        run.work,
        &mut inside.conns,
    )?;
    *from = run.from;
    Ok(told)
}

fn either(one: bool, other: bool) -> bool
    ensures { result ≡ (one || other) }
{
    one || other
}

// A round: by name, each client that may have something to do goes through its phases; those that come one after another
// and ask for nothing are told at once. Whether any act was made.
fn round<H: Hands>(hands: &H, inside: &mut Inside, news: &mut Multiplexer) -> Result<bool, Mem>
    requires ready { H.ready }
    requires world { IsWorld (seen inside.old) }
    requires news { AreNews inside.old.machine news.old }
    ensures news { AreNews inside.new.machine news.new }
    ensures round { MakesRound (seen inside.old) (seen inside.new) result }
{
    let mut from = Text::new(inside.alloc);
    let mut made = tell(hands, inside, news, &mut from)?;
    while let Some(name) = worker_from(inside, &from)? {
        let now = visited(
            inside.alloc,
            &mut inside.conns,
            &mut inside.machine,
            news,
            &mut inside.heard,
            &name,
        )?;
        made = either(now, made);
        from = behind(&name)?;
        let told = tell(hands, inside, news, &mut from)?;
        made = either(told, made);
    }
    Ok(made)
}

// Rounds are made until none of their acts is made.
fn rounds<H: Hands>(hands: &H, inside: &mut Inside, news: &mut Multiplexer) -> Result<(), Mem>
    requires ready { H.ready }
    requires world { IsWorld (seen inside.old) }
    requires news { AreNews inside.old.machine news.old }
    ensures { MakesRounds (seen inside.old) (seen inside.new) result }
{
    for _ in 0..u64::MAX {
        let made = round(hands, inside, news)?;
        if !made {
            return Ok(());
        }
    }
    Err(Mem)
}

/// Acts are made in rounds until none is left. Where memory runs out, those made so far stay made.
pub(crate) fn settle<H: Hands>(hands: &H, inside: &mut Inside) -> Result<(), Mem>
    requires ready { H.ready }
    requires world { IsWorld (seen inside.old) }
    ensures { Settles (seen inside.old) (seen inside.new) result }
{
    let mut news = Multiplexer::new(inside.alloc);
    rounds(hands, inside, &mut news)?;
    inside.settled = inside.machine.length();
    inside.busy.clear();
    Ok(())
}
