//! A span of one entry of a shared store, as two subscriptions are told it by a shared multiplexer.
ghost use Rattle.std.specs.Prelude.{◌≡◌, IfOk};
ghost use Rattle.shared_store.specs.Store.{over};
ghost use Rattle.shared_multiplexer.specs.Copied.{AreBehind};
ghost use Rattle.world_news_laws.specs.multiplexer.Spans.{IsLent};
ghost use Rattle.world_news_laws.specs.multiplexer.Telling.{IsSource};
ghost use Rattle.world_news_laws.specs.Sources.{cursors_at_of};

use crate::asked::{INSERT, app, operation, subscription, told};
use app_model::App;
use ejson_value::Items;
use pass_log::Opened;
use session_state::Sub;
use shared_multiplexer::{CopiedEntries, SharedMultiplexer};
use shared_store::{SharedStore, StoreName, StorePass};
use std::alloc::Global;
use std::marker::Brand;
use std::sync::Wait;
use std::sync::ledger::Blank;
use std::test::Fail;
use store_machine::Entry;
use world_news_laws::multiplexer::Lent;

// What is lent to the subscription of the first entry.
fn lend<N: StoreName, R: Wait>(
    rt: &R,
    multiplexer: &SharedMultiplexer<N>,
    store: &SharedStore<N>,
    pass: &mut StorePass<N>,
    entries: &CopiedEntries,
    sub: &Sub,
) -> Result<Lent, Fail>
    requires entries { AreBehind N.app 0 5 pass.old entries.now }
    requires source { IsSource (cursors_at_of N.app) sub.now }
    ensures same { pass.new ≡ pass.old }
    ensures lent { IfOk result (IsLent (over N.app pass.old) sub.now 0 1) }
{
    let note = pass.note(store.log());
    match multiplexer.span(rt, store.log(), entries, sub, 0, 1, note)? {
        Some(lent) => Ok(lent),
        None => Err("no answer".into()),
    }
}

// What the subscription is told of the first entry. What was lent is put back.
fn told_of<N: StoreName, R: Wait>(
    rt: &R,
    alloc: Global,
    multiplexer: &SharedMultiplexer<N>,
    store: &SharedStore<N>,
    pass: &mut StorePass<N>,
    entries: &CopiedEntries,
    sub: &Sub,
) -> Result<String, Fail>
    requires entries { AreBehind N.app 0 5 pass.old entries.now }
    requires source { IsSource (cursors_at_of N.app) sub.now }
    ensures { pass.new ≡ pass.old }
{
    let lent = lend(rt, multiplexer, store, pass, entries, sub)?;
    let text = told(alloc, &lent.span.told);
    let note = pass.note(store.log());
    multiplexer.learn(rt, store.log(), lent, note);
    text
}

/// What two subscriptions are told, and how many answers are kept while threads share the multiplexer and behind that.
#[derive(Drop)]
struct Answers {
    first: String,
    second: String,
    kept: [u64; 2],
}

// What two subscriptions are told of the entries that were copied.
fn told_of_copied<N: StoreName, R: Wait>(
    rt: &R,
    alloc: Global,
    store: &SharedStore<N>,
    pass: &mut StorePass<N>,
    multiplexer: SharedMultiplexer<N>,
    entries: &CopiedEntries,
    one: &Sub,
    two: &Sub,
) -> Result<Answers, Fail>
    requires entries { AreBehind N.app 0 5 pass.old entries.now }
    requires one { IsSource (cursors_at_of N.app) one.now }
    requires two { IsSource (cursors_at_of N.app) two.now }
{
    let first = told_of(rt, alloc, &multiplexer, store, pass, entries, one)?;
    let second = told_of(rt, alloc, &multiplexer, store, pass, entries, two)?;
    let shared = multiplexer.kept(rt);
    let kept = [shared, multiplexer.finish().kept()];
    Ok(Answers {
        first,
        second,
        kept,
    })
}

fn told_of_store<N: StoreName, R: Wait>(
    rt: &R,
    alloc: Global,
    store: &SharedStore<N>,
    pass: &mut StorePass<N>,
    one: &Sub,
    two: &Sub,
) -> Result<Answers, Fail>
    requires one { IsSource (cursors_at_of N.app) one.now }
    requires two { IsSource (cursors_at_of N.app) two.now }
{
    let multiplexer = SharedMultiplexer::make(alloc, pass.note(store.log()).pass());
    match multiplexer.copied(rt, store, pass, 0, 5)? {
        Some(entries) => told_of_copied(rt, alloc, store, pass, multiplexer, &entries, one, two),
        None => Err("no entries".into()),
    }
}

fn told_to_two<N: StoreName, R: Wait>(
    rt: &R,
    alloc: Global,
    app: &App,
    opened: Opened<Entry>,
    blank: Blank,
    insert: &Items,
    one: &Sub,
    two: &Sub,
) -> Result<Answers, Fail>
    requires log { opened ≡ N.log }
    requires ledger { blank.name ≡ N.name }
    requires parts { blank.parts ≡ N.parts }
    requires many { blank.parts ≡ 65537 }
    requires app { app.now ≡ N.app }
    requires one { IsSource (cursors_at_of N.app) one.now }
    requires two { IsSource (cursors_at_of N.app) two.now }
{
    let (store, mut pass, mut callers) = SharedStore::<N>::make(alloc, app, opened, blank)?;
    let Some(mut operator) = callers.caller(store.log(), 0)? else {
        return Err("no operator".into());
    };
    store.admin(rt, &mut pass, &mut operator, insert)?;
    told_of_store(rt, alloc, &store, &mut pass, one, two)
}

fn told_of_new<R: Wait>(rt: &R, alloc: Global) -> Result<Answers, Fail> {
    let app = app(alloc)?;
    let insert = operation(alloc, INSERT)?;
    let one = subscription(alloc, &app)?;
    let two = subscription(alloc, &app)?;
    let opened = Opened::make(alloc)?;
    told_to_two::<Brand, R>(
        rt,
        alloc,
        &app,
        opened,
        Blank::new(65537),
        &insert,
        &one,
        &two,
    )
}

#[test]
fn two_subscriptions_share_an_answer(rt: HostRuntime) -> Result<(), Fail> {
    let told = told_of_new(&rt, rt.alloc())?;
    assert_eq!(rt; told.first.as_str(), "t1+");
    assert_eq!(rt; told.second.as_str(), "t1+");
    assert_eq!(rt; told.kept.as_slice(), [1, 1].as_slice());
    Ok(())
}
