//! Two threads that begin calls at one store, each with a pass and a caller of its own.
ghost use Rattle.std.specs.Prelude.{◌≡◌, ◌<◌};

use crate::bench::{Bench, Ended, end, make_bench};
use crate::calls::{Named, app, begin, call};
use app_model::App;
use ejson_value::Mem;
use pass_log::Opened;
use shared_store::{Caller, SharedStore, StoreName, StorePass};
use std::alloc::Global;
use std::marker::Brand;
use std::sync::Wait;
use std::sync::ledger::Blank;
use std::test::Fail;
use std::thread::{Threads, join};
use store_machine::Entry;

const CALLS: u64 = 100;

// Begins calls, and keeps the places of their entries, each of which the pass's list has.
fn begin_calls<N: StoreName, R: Wait>(
    rt: &R,
    app: &App,
    store: &SharedStore<N>,
    pass: &mut StorePass<N>,
    caller: &mut Caller<N>,
    call: &Named,
    places: &mut Vec<u64>,
) -> Result<(), Mem>
    requires app { app.now ≡ N.app }
    requires session { 0 < caller.old.number }
    ensures { caller.new.number ≡ caller.old.number }
{
    for k in 0..CALLS {
        if let Ok(placed) = begin(rt, app, store, pass, caller, k, call) {
            if placed.place < pass.len() {
                places.push(placed.place)?;
            }
        }
    }
    Ok(())
}

// What a thread does. It gives its caller back, with the places.
fn work<N: StoreName, R: Wait>(
    rt: &R,
    alloc: Global,
    app: &App,
    store: &SharedStore<N>,
    pass: StorePass<N>,
    caller: Caller<N>,
    call: &Named,
) -> (Caller<N>, Vec<u64>)
    requires app { app.now ≡ N.app }
    requires session { 0 < caller.number }
    ensures { result.0.number ≡ caller.number }
{
    let mut pass = pass;
    let mut caller = caller;
    let mut places = Vec::new(alloc);
    let kept = begin_calls(rt, app, store, &mut pass, &mut caller, call, &mut places);
    if kept.is_err() {
        places.clear();
    }
    (caller, places)
}

/// The places of each thread, and what there is at the end.
#[derive(Drop)]
struct Begun {
    first: Vec<u64>,
    second: Vec<u64>,
    ended: Ended,
}

fn begun_by_two<N: StoreName + Send + Sync, R: Threads + Wait + Sync>(
    rt: &R,
    alloc: Global,
    app: &App,
    opened: Opened<Entry>,
    blank: Blank,
    call: &Named,
) -> Result<Begun, Fail>
    requires log { opened ≡ N.log }
    requires ledger { blank.name ≡ N.name }
    requires parts { blank.parts ≡ N.parts }
    requires many { blank.parts ≡ 65537 }
    requires app { app.now ≡ N.app }
{
    let Bench {
        store,
        mut pass,
        callers,
        operator,
        one,
        two,
    } = make_bench::<N>(alloc, app, opened, blank)?;
    let mine = pass.note(store.log()).pass();
    let other = pass.note(store.log()).pass();
    let shared = &store;
    let (first, second) = join(
        rt,
        move || -> (Caller<N>, Vec<u64>)
            requires app { app.now ≡ N.app }
            requires number { one.number ≡ 1 }
            ensures { result.0.number ≡ 1 }
        { work(rt, alloc, app, shared, mine, one, call) },
        move || -> (Caller<N>, Vec<u64>)
            requires app { app.now ≡ N.app }
            requires number { two.number ≡ 2 }
            ensures { result.0.number ≡ 2 }
        { work(rt, alloc, app, shared, other, two, call) },
    );
    let (one, first) = first;
    let (two, second) = second;
    let ended = end(Bench {
        store,
        pass,
        callers,
        operator,
        one,
        two,
    });
    Ok(Begun {
        first,
        second,
        ended,
    })
}

fn begun_of_new<R: Threads + Wait + Sync>(rt: &R, alloc: Global) -> Result<Begun, Fail> {
    let call = call(alloc, "e")?;
    let app = app(alloc)?;
    let opened = Opened::make(alloc)?;
    begun_by_two::<Brand, R>(rt, alloc, &app, opened, Blank::new(65537), &call)
}

// Whether the places of both are all that there are, each once.
fn are_all(first: &[u64], second: &[u64], length: u64) -> bool {
    for place in 0..length {
        if first.contains(&place) == second.contains(&place) {
            return false;
        }
    }
    true
}

#[test]
fn each_thread_finds_its_own_entries(rt: HostRuntime) -> Result<(), Fail> {
    let begun = begun_of_new(&rt, rt.alloc())?;
    assert_eq!(rt; begun.first.len(), 100);
    assert_eq!(rt; begun.second.len(), 100);
    assert_eq!(rt; begun.ended.made.as_slice(), [0, 100, 100].as_slice());
    assert_eq!(rt; begun.ended.out.as_slice(), [3, 0].as_slice());
    assert_eq!(rt; begun.ended.length, 200);
    assert!(rt; are_all(begun.first.as_slice(), begun.second.as_slice(), 200));
    Ok(())
}
