//! A new store with three callers: an operator, and two sessions.
ghost use Rattle.std.specs.Prelude.{◌≡◌, ◌<◌, true, IfOk, OnOk};
ghost use Rattle.shared_store.specs.Callers.{out_of, given_to};
ghost use Rattle.store_thread_tests.specs.Given.{all_out};

use app_model::App;
use pass_log::Opened;
use shared_store::{Caller, Callers, SharedStore, StoreName, StorePass};
use std::alloc::Global;
use std::sync::ledger::Blank;
use std::test::Fail;
use store_machine::Entry;

/// A store, a pass of it, and its callers: of the operator, and of the sessions 1 and 2.
#[derive(Drop)]
pub(crate) struct Bench<N: StoreName> {
    pub(crate) store: SharedStore<N>,
    pub(crate) pass: StorePass<N>,
    pub(crate) callers: Callers<N>,
    pub(crate) operator: Caller<N>,
    pub(crate) one: Caller<N>,
    pub(crate) two: Caller<N>,
}

// A caller of a number that was not given yet.
fn caller<N: StoreName>(
    store: &SharedStore<N>,
    callers: &mut Callers<N>,
    number: u32,
) -> Result<Caller<N>, Fail>
    requires { out_of callers.old.given < 65536 }
    ensures number { IfOk result (λ caller. caller.number ≡ number) }
    ensures given { OnOk result (callers.new.given ≡ given_to number true callers.old.given) }
{
    match callers.caller(store.log(), number)? {
        Some(caller) => Ok(caller),
        None => Err("the number was given".into()),
    }
}

/// A new store of the name `N`, with its callers.
pub(crate) fn make_bench<N: StoreName>(
    alloc: Global,
    app: &App,
    opened: Opened<Entry>,
    blank: Blank,
) -> Result<Bench<N>, Fail>
    requires log { opened ≡ N.log }
    requires ledger { blank.name ≡ N.name }
    requires parts { blank.parts ≡ N.parts }
    requires many { blank.parts ≡ 65537 }
    requires app { app.now ≡ N.app }
    ensures operator { IfOk result (λ bench. bench.operator.number ≡ 0) }
    ensures one { IfOk result (λ bench. bench.one.number ≡ 1) }
    ensures two { IfOk result (λ bench. bench.two.number ≡ 2) }
    ensures callers { IfOk result (λ bench. bench.callers.given ≡ all_out) }
{
    let (store, pass, mut callers) = SharedStore::<N>::make(alloc, app, opened, blank)?;
    let operator = caller(&store, &mut callers, 0)?;
    let one = caller(&store, &mut callers, 1)?;
    let two = caller(&store, &mut callers, 2)?;
    Ok(Bench {
        store,
        pass,
        callers,
        operator,
        one,
        two,
    })
}

/// How many entries each caller made, how many callers were out before and behind, and the length of the history.
#[derive(Drop)]
pub(crate) struct Ended {
    pub(crate) made: [u64; 3],
    pub(crate) out: [u64; 2],
    pub(crate) length: u64,
}

/// All callers are back, and the store is no longer shared.
pub(crate) fn end<N: StoreName>(bench: Bench<N>) -> Ended
    requires parts { N.parts ≡ 65537 }
    requires operator { bench.operator.number ≡ 0 }
    requires one { bench.one.number ≡ 1 }
    requires two { bench.two.number ≡ 2 }
    requires callers { bench.callers.given ≡ all_out }
{
    let Bench {
        store,
        mut pass,
        mut callers,
        operator,
        one,
        two,
    } = bench;
    let made = [operator.made(), one.made(), two.made()];
    let before = callers.out();
    callers.back(store.log(), operator);
    callers.back(store.log(), one);
    callers.back(store.log(), two);
    let out = [before, callers.out()];
    let note = pass.note(store.log());
    let machine = store.finish(callers, note);
    Ended {
        made,
        out,
        length: machine.length(),
    }
}
