//! Two spans of one entry, one that is known, and the two answers of an entry that comes and goes, put together.
ghost use Rattle.std.specs.Prelude.{◌≡◌, ◌+◌, ◌≤◌, length};
ghost use Rattle.world_news_laws.specs.multiplexer.Looks.{looks, known_in};
ghost use Rattle.world_news_laws.specs.multiplexer.Spans.{HasItsSource, IsLent};
ghost use Rattle.world_news_laws.specs.multiplexer.Telling.{AreTold, IsSource};
ghost use Rattle.world_news_laws.specs.Sources.{cursors_at_of};

use crate::asked::{INSERT, REMOVE, app, operation, subscription, told};
use app_model::App;
use ejson_value::{Mem, Publishes};
use selector_match::Steps;
use session_state::Sub;
use std::alloc::Global;
use std::marker::Brand;
use std::sync::Arc;
use std::sync::ledger::{Blank, Ledger};
use std::test::Fail;
use store_machine::Machine;
use world_news_laws::multiplexer::{Lent, Multiplexer, lead};

fn ask_by<L: Ledger>(
    multiplexer: &mut Multiplexer,
    machine: &Machine,
    sub: &Sub,
    from: u64,
    blank: Blank,
) -> Result<Option<Lent>, Mem>
    requires within { from + 1 ≤ length machine.now.history }
    requires name { blank.name ≡ L.name }
    requires parts { blank.parts ≡ L.parts }
    requires whole { blank.parts ≡ 1 }
{
    let mut steps = Steps::<L>::new(blank);
    multiplexer.span(machine, sub, from, 1, &mut steps)
}

// The span is put back and asked for again: no document is looked at.
fn ask_again<L: Ledger>(
    multiplexer: &mut Multiplexer,
    machine: &Machine,
    sub: &Sub,
    from: u64,
    lent: Lent,
    steps: &mut Steps<L>,
) -> Result<Option<Lent>, Mem>
    requires within { from + 1 ≤ length machine.now.history }
    requires source { HasItsSource multiplexer.old.sources lent }
    requires lent { IsLent machine.now sub.now from (from + 1) lent }
    ensures { steps.new ≡ steps.old }
{
    multiplexer.learn(lent);
    multiplexer.span(machine, sub, from, 1, steps)
}

// A span that is asked for, put back and asked for again: no more documents are looked at than for the first time.
fn ask_twice<L: Ledger>(
    multiplexer: &mut Multiplexer,
    machine: &Machine,
    app: &App,
    sub: &Sub,
    from: u64,
    steps: &mut Steps<L>,
) -> Result<Option<Lent>, Mem>
    requires within { from + 1 ≤ length machine.now.history }
    requires told { AreTold (cursors_at_of app.now) machine.now multiplexer.old }
    requires source { IsSource (cursors_at_of app.now) sub.now }
    ensures { steps.new ≤ steps.old
        + looks (length sub.now.cursors) machine.now (known_in multiplexer.old.sources sub.now.name sub.now.params from (from + 1)) (from + 1) }
{
    let _app = app;
    match multiplexer.span(machine, sub, from, 1, steps)? {
        Some(lent) => ask_again(multiplexer, machine, sub, from, lent, steps),
        None => Ok(None),
    }
}

fn ask_new_twice<L: Ledger>(
    alloc: Global,
    machine: &Machine,
    app: &App,
    sub: &Sub,
    blank: Blank,
) -> Result<Option<Lent>, Mem>
    requires within { 1 ≤ length machine.now.history }
    requires source { IsSource (cursors_at_of app.now) sub.now }
    requires name { blank.name ≡ L.name }
    requires parts { blank.parts ≡ L.parts }
    requires whole { blank.parts ≡ 1 }
{
    let mut steps = Steps::<L>::new(blank);
    let mut multiplexer = Multiplexer::new(alloc);
    ask_twice(&mut multiplexer, machine, app, sub, 0, &mut steps)
}

// What is told of the first entry for the second time.
fn told_again(alloc: Global, machine: &Machine, app: &App, sub: &Sub) -> Result<Lent, Fail>
    requires { IsSource (cursors_at_of app.now) sub.now }
{
    if machine.length() == 0 {
        return Err("no entry")?;
    }
    let lent = ask_new_twice::<Brand>(alloc, machine, app, sub, Blank::new(1))?;
    Ok(lent.ok_or("no answer")?)
}

// What is told of the entry at this place.
fn ask(
    multiplexer: &mut Multiplexer,
    machine: &Machine,
    sub: &Sub,
    from: u64,
) -> Result<Lent, Fail> {
    if from >= machine.length() {
        return Err("no entry")?;
    }
    let lent = ask_by::<Brand>(multiplexer, machine, sub, from, Blank::new(1))?;
    Ok(lent.ok_or("no answer")?)
}

// The news that are told of the entry at this place.
fn told_at(
    multiplexer: &mut Multiplexer,
    machine: &Machine,
    sub: &Sub,
    from: u64,
) -> Result<Arc<Publishes>, Fail> {
    let lent = ask(multiplexer, machine, sub, from)?;
    Ok(Arc::try_clone(&lent.span.told)?)
}

fn is_told(alloc: Global, news: &Publishes, wanted: &str) -> Result<bool, Fail> {
    Ok(told(alloc, news)?.as_str() == wanted)
}

fn operate(alloc: Global, machine: &mut Machine, text: &str) -> Result<(), Fail> {
    let items = operation(alloc, text)?;
    match machine.admin(&items) {
        Ok(()) => Ok(()),
        Err(_) => Err("refused")?,
    }
}

// The machine, behind these operations.
fn made(alloc: Global, app: &App, operations: &[&str]) -> Result<Machine, Fail> {
    let mut machine = Machine::new(alloc, app)?;
    for operation in operations {
        operate(alloc, &mut machine, operation)?;
    }
    Ok(machine)
}

// Whether the first entry tells this, asked for thrice, the last time behind what was learnt, and is kept once.
fn tells_once(
    alloc: Global,
    multiplexer: &mut Multiplexer,
    machine: &Machine,
    sub: &Sub,
    wanted: &str,
) -> Result<bool, Fail> {
    let first = told_at(multiplexer, machine, sub, 0)?;
    let second = ask(multiplexer, machine, sub, 0)?;
    let same = is_told(alloc, &second.span.told, wanted)?;
    multiplexer.learn(second);
    let again = told_at(multiplexer, machine, sub, 0)?;
    Ok(
        same && is_told(alloc, &first, wanted)?
            && is_told(alloc, &again, wanted)?
            && multiplexer.kept() == 1,
    )
}

// Whether the first two entries, put together, tell this.
fn tell_together(
    alloc: Global,
    multiplexer: &mut Multiplexer,
    machine: &Machine,
    sub: &Sub,
    wanted: &str,
) -> Result<bool, Fail> {
    let first = told_at(multiplexer, machine, sub, 0)?;
    let second = told_at(multiplexer, machine, sub, 1)?;
    let told = lead(alloc, &[first, second])?;
    Ok(is_told(alloc, &told, wanted)? && multiplexer.kept() == 2)
}

// Whether the first entry is known once it was put back, and tells this, and the second one, for which nobody asked, is not.
fn is_known(
    alloc: Global,
    multiplexer: &mut Multiplexer,
    machine: &Machine,
    sub: &Sub,
    wanted: &str,
) -> Result<bool, Fail> {
    let lent = ask(multiplexer, machine, sub, 0)?;
    multiplexer.learn(lent);
    let second = multiplexer.known(sub, 1, 2)?;
    let first = multiplexer.known(sub, 0, 1)?;
    let first = first.ok_or("not known")?;
    Ok(second.is_none() && is_told(alloc, &first.span.told, wanted)?)
}

#[test]
fn an_entry_is_told_once(rt: HostRuntime) -> Result<(), Fail> {
    let alloc = rt.alloc();
    let app = app(alloc)?;
    let sub = subscription(alloc, &app)?;
    let machine = made(alloc, &app, &[INSERT])?;
    let mut multiplexer = Multiplexer::new(alloc);
    assert!(rt; tells_once(alloc, &mut multiplexer, &machine, &sub, "t1+")?);
    Ok(())
}

#[test]
fn answers_are_put_together(rt: HostRuntime) -> Result<(), Fail> {
    let alloc = rt.alloc();
    let app = app(alloc)?;
    let sub = subscription(alloc, &app)?;
    let machine = made(alloc, &app, &[INSERT, REMOVE])?;
    let mut multiplexer = Multiplexer::new(alloc);
    assert!(rt; tell_together(alloc, &mut multiplexer, &machine, &sub, "t1-")?);
    Ok(())
}

#[test]
fn an_entry_that_was_put_back_is_not_looked_at_again(rt: HostRuntime) -> Result<(), Fail> {
    let alloc = rt.alloc();
    let app = app(alloc)?;
    let sub = subscription(alloc, &app)?;
    let machine = made(alloc, &app, &[INSERT])?;
    let lent = told_again(alloc, &machine, &app, &sub)?;
    assert!(rt; is_told(alloc, &lent.span.told, "t1+")?);
    Ok(())
}

#[test]
fn what_was_put_back_is_known(rt: HostRuntime) -> Result<(), Fail> {
    let alloc = rt.alloc();
    let app = app(alloc)?;
    let sub = subscription(alloc, &app)?;
    let machine = made(alloc, &app, &[INSERT, REMOVE])?;
    let mut multiplexer = Multiplexer::new(alloc);
    assert!(rt; is_known(alloc, &mut multiplexer, &machine, &sub, "t1+")?);
    Ok(())
}
