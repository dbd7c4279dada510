//! What a store tells an operator, a session and a second pass, in one thread.
ghost use Rattle.std.specs.Prelude.{◌≡◌, ◌<◌, OnOk};
ghost use Rattle.store_thread_tests.specs.Given.{all_out};

use crate::bench::{Bench, Ended, end, make_bench};
use crate::calls::{INSERT, Named, app, begin, call, operation};
use app_model::{App, Status};
use ejson_codec::text;
use ejson_value::{Contents, Doc, Items, Key, Text, Value};
use pass_log::Opened;
use shared_store::{Placed, SharedBegin, SharedStore, StoreName, StorePass};
use std::alloc::Global;
use std::marker::Brand;
use std::sync::Wait;
use std::sync::ledger::Blank;
use std::test::Fail;
use store_machine::{AdminFault, Batch, Entry};

const NO_OPERATION: &str = r#"["insert"]"#;

const NO_COLLECTION: &str = r#"["insert","notes",{"_id":"t1"}]"#;

/// The operations and calls that are made.
#[derive(Drop)]
struct Words {
    insert: Items,
    unknown: Items,
    none: Items,
    empty: Named,
    put: Named,
}

// How many entries a batch has, if there is one.
fn counted(batch: Option<Batch>) -> u64 {
    match batch {
        Some(batch) => batch.count,
        None => 0,
    }
}

fn push_document(alloc: Global, told: &mut Text, key: &Key, doc: &Doc) -> Result<(), Fail> {
    told.push_str(key.collection.as_str())?;
    told.push_str(" ")?;
    told.push_str(key.id.as_str())?;
    told.push_str(" ")?;
    let fields = text(alloc, &Value::Object(doc.copy()?))?;
    Ok(told.push_str(fields.as_str())?)
}

fn documents(alloc: Global, contents: &Contents) -> Result<Text, Fail> {
    let mut told = Text::new(alloc);
    for (key, doc) in contents.iter() {
        push_document(alloc, &mut told, key, doc)?;
    }
    Ok(told)
}

/// What a pass is shown: the place of a snapshot, how many entries there are behind the first one and from the first one on,
/// and the pass's length; and the snapshot's documents.
#[derive(Drop)]
struct Shown {
    numbers: [u64; 4],
    documents: Text,
}

fn look<N: StoreName, R: Wait>(
    rt: &R,
    alloc: Global,
    store: &SharedStore<N>,
    pass: &mut StorePass<N>,
) -> Result<Shown, Fail> {
    let behind = counted(store.batch(rt, pass, 1, 5)?);
    let all = counted(store.batch(rt, pass, 0, 5)?);
    let shot = store.snapshot(rt, pass)?;
    let numbers = [shot.at, behind, all, pass.len()];
    let documents = documents(alloc, &shot.contents)?;
    Ok(Shown { numbers, documents })
}

// What a pass is shown that knew nothing of the store but what a note of the pass tells.
fn shown_to_another<N: StoreName, R: Wait>(
    rt: &R,
    alloc: Global,
    store: &SharedStore<N>,
    other: StorePass<N>,
    pass: &mut StorePass<N>,
) -> Result<Shown, Fail> {
    let mut other = other;
    let note = pass.note(store.log());
    other.meet(store.log(), note);
    look(rt, alloc, store, &mut other)
}

// The place of an operation, 99 where it is not made.
fn place(made: Result<u64, AdminFault>) -> u64 {
    made.unwrap_or(99)
}

// The code of a refused operation, 0 of one that is made.
fn code(made: Result<u64, AdminFault>) -> u64 {
    match made {
        Err(AdminFault::Refused { code }) => u64::from(code),
        _ => 0,
    }
}

// The place of an insert, the codes of an operation of an unknown collection, of one that is none and of the insert again, and
// how many entries the operator then made.
fn operated<N: StoreName, R: Wait>(rt: &R, bench: &mut Bench<N>, words: &Words) -> [u64; 5]
    requires { bench.old.operator.number ≡ 0 }
    ensures operator { bench.new.operator.number ≡ 0 }
    ensures one { bench.new.one.number ≡ bench.old.one.number }
    ensures two { bench.new.two.number ≡ bench.old.two.number }
    ensures callers { bench.new.callers.given ≡ bench.old.callers.given }
{
    let made = bench
        .store
        .admin(rt, &mut bench.pass, &mut bench.operator, &words.insert);
    let unknown = bench
        .store
        .admin(rt, &mut bench.pass, &mut bench.operator, &words.unknown);
    let none = bench
        .store
        .admin(rt, &mut bench.pass, &mut bench.operator, &words.none);
    let again = bench
        .store
        .admin(rt, &mut bench.pass, &mut bench.operator, &words.insert);
    [
        place(made),
        code(unknown),
        code(none),
        code(again),
        bench.operator.made(),
    ]
}

// Whether the number of session 1 is given to a second caller.
fn is_given_again<N: StoreName>(bench: &mut Bench<N>) -> Result<bool, Fail>
    requires { bench.old.callers.given ≡ all_out }
    ensures operator { bench.new.operator.number ≡ bench.old.operator.number }
    ensures one { bench.new.one.number ≡ bench.old.one.number }
    ensures two { bench.new.two.number ≡ bench.old.two.number }
    ensures callers { OnOk result (bench.new.callers.given ≡ all_out) }
{
    Ok(bench.callers.caller(bench.store.log(), 1)?.is_some())
}

// The greatest number of the session's calls, where a call is refused for it.
fn last(begun: Result<Placed, SharedBegin>) -> u64 {
    match begun {
        Err(SharedBegin::NotNext { last }) => last,
        _ => 99,
    }
}

// The place that is answered, 99 where the call is refused.
fn begun_at(begun: Result<Placed, SharedBegin>) -> u64 {
    match begun {
        Ok(placed) => placed.place,
        Err(_) => 99,
    }
}

// The places that the call 3 of session 1 is told, and again, the greatest number that its call 2 is told, and how many
// entries the session's caller then made.
fn begun<N: StoreName, R: Wait>(rt: &R, app: &App, bench: &mut Bench<N>, call: &Named) -> [u64; 4]
    requires app { app.now ≡ N.app }
    requires one { bench.old.one.number ≡ 1 }
    ensures operator { bench.new.operator.number ≡ bench.old.operator.number }
    ensures one { bench.new.one.number ≡ 1 }
    ensures two { bench.new.two.number ≡ bench.old.two.number }
    ensures callers { bench.new.callers.given ≡ bench.old.callers.given }
{
    let first = begin(
        rt,
        app,
        &bench.store,
        &mut bench.pass,
        &mut bench.one,
        3,
        call,
    );
    let again = begin(
        rt,
        app,
        &bench.store,
        &mut bench.pass,
        &mut bench.one,
        3,
        call,
    );
    let late = begin(
        rt,
        app,
        &bench.store,
        &mut bench.pass,
        &mut bench.one,
        2,
        call,
    );
    [
        begun_at(first),
        begun_at(again),
        last(late),
        bench.one.made(),
    ]
}

/// The place that is answered, and where the run has ended: 0 where it goes on, and 99 where nothing is answered.
type Point = [u64; 2];

fn ended_at(status: &Status) -> u64 {
    match &status.ended {
        Some(end) => end.at,
        None => 0,
    }
}

fn point_of(placed: Option<Placed>) -> Point {
    match placed {
        Some(placed) => [placed.place, ended_at(&placed.status)],
        None => [99, 99],
    }
}

/// What is told of a run with one step: before it begins, at its beginning, behind that, at its step, behind that, and where
/// another step is asked for.
type Run = [Point; 6];

fn run<N: StoreName, R: Wait>(
    rt: &R,
    app: &App,
    bench: &mut Bench<N>,
    call: &Named,
) -> Result<Run, Fail>
    requires app { app.now ≡ N.app }
    requires one { bench.old.one.number ≡ 1 }
    ensures operator { bench.new.operator.number ≡ bench.old.operator.number }
    ensures one { bench.new.one.number ≡ 1 }
    ensures two { bench.new.two.number ≡ bench.old.two.number }
    ensures callers { bench.new.callers.given ≡ bench.old.callers.given }
{
    let unknown = point_of(bench.store.status(rt, &mut bench.pass, 1, 4)?);
    let begun = point_of(begin(
        rt,
        app,
        &bench.store,
        &mut bench.pass,
        &mut bench.one,
        4,
        call,
    )
    .ok());
    let status = point_of(bench.store.status(rt, &mut bench.pass, 1, 4)?);
    let step = point_of(bench.store.step(rt, &mut bench.pass, 1, 4)?);
    let ended = point_of(bench.store.status(rt, &mut bench.pass, 1, 4)?);
    let again = point_of(bench.store.step(rt, &mut bench.pass, 1, 4)?);
    Ok([unknown, begun, status, step, ended, again])
}

/// All that is told.
#[derive(Drop)]
struct Told {
    operated: [u64; 5],
    shown: Shown,
    given_again: bool,
    begun: [u64; 4],
    run: Run,
    ended: Ended,
}

fn tell<N: StoreName, R: Wait>(
    rt: &R,
    alloc: Global,
    app: &App,
    opened: Opened<Entry>,
    blank: Blank,
    words: &Words,
) -> Result<Told, Fail>
    requires log { opened ≡ N.log }
    requires ledger { blank.name ≡ N.name }
    requires parts { blank.parts ≡ N.parts }
    requires many { blank.parts ≡ 65537 }
    requires app { app.now ≡ N.app }
{
    let mut bench = make_bench::<N>(alloc, app, opened, blank)?;
    let other = bench.pass.note(bench.store.log()).pass();
    let operated = operated(rt, &mut bench, words);
    let shown = shown_to_another(rt, alloc, &bench.store, other, &mut bench.pass)?;
    let given_again = is_given_again(&mut bench)?;
    let begun = begun(rt, app, &mut bench, &words.empty);
    let run = run(rt, app, &mut bench, &words.put)?;
    let ended = end(bench);
    Ok(Told {
        operated,
        shown,
        given_again,
        begun,
        run,
        ended,
    })
}

fn make_words(alloc: Global) -> Result<Words, Fail> {
    let insert = operation(alloc, INSERT)?;
    let unknown = operation(alloc, NO_COLLECTION)?;
    let none = operation(alloc, NO_OPERATION)?;
    let empty = call(alloc, "e")?;
    let put = call(alloc, "put")?;
    Ok(Words {
        insert,
        unknown,
        none,
        empty,
        put,
    })
}

fn tell_of_new<R: Wait>(rt: &R, alloc: Global) -> Result<Told, Fail> {
    let words = make_words(alloc)?;
    let app = app(alloc)?;
    let opened = Opened::make(alloc)?;
    tell::<Brand, R>(rt, alloc, &app, opened, Blank::new(65537), &words)
}

#[test]
fn a_store_tells_of_its_history(rt: HostRuntime) -> Result<(), Fail> {
    let told = tell_of_new(&rt, rt.alloc())?;
    assert_eq!(rt; told.operated.as_slice(), [0, 404, 400, 409, 1].as_slice());
    assert_eq!(rt; told.shown.numbers.as_slice(), [1, 0, 1, 1].as_slice());
    assert_eq!(rt; told.shown.documents.as_str(), r#"tasks t1 {"n":0}"#);
    assert!(rt; !told.given_again);
    assert_eq!(rt; told.begun.as_slice(), [1, 2, 3, 1].as_slice());
    let [unknown, begun, status, step, ended, again] = told.run;
    assert_eq!(rt; unknown.as_slice(), [99, 99].as_slice());
    assert_eq!(rt; begun.as_slice(), [2, 0].as_slice());
    assert_eq!(rt; status.as_slice(), [3, 0].as_slice());
    assert_eq!(rt; step.as_slice(), [3, 4].as_slice());
    assert_eq!(rt; ended.as_slice(), [4, 4].as_slice());
    assert_eq!(rt; again.as_slice(), [99, 99].as_slice());
    assert_eq!(rt; told.ended.made.as_slice(), [1, 2, 0].as_slice());
    assert_eq!(rt; told.ended.out.as_slice(), [3, 0].as_slice());
    assert_eq!(rt; told.ended.length, 4);
    Ok(())
}
