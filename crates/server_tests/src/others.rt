//! A connection is served while another thread writes.
ghost use Rattle.std.specs.Prelude.{◌≡◌, ◌<◌, [], IfOk};

use crate::apps::{DRAWN, app, items};
use crate::calling::serve_link;
use crate::guide::Guide;
use app_model::App;
use ejson_value::{Items, Mem};
use pass_log::Opened;
use server_connection::Ended;
use shared_store::{Caller, Callers, SharedStore, StoreName, StorePass};
use std::alloc::Global;
use std::marker::Brand;
use std::sync::Wait;
use std::sync::atomic::{AtomicU64, Ordering};
use std::sync::ledger::Blank;
use std::test::Fail;
use std::thread;
use std::thread::Threads;
use store_machine::Entry;

const INSERT: &str = r#"["insert","tasks",{"_id":"t1","n":0}]"#;

// How often the flag is looked at at most.
const MOST_LOOKS: u64 = 100_000_000;

// Whether the flag was raised.
fn is_raised(flag: &AtomicU64) -> bool {
    for _ in 0..MOST_LOOKS {
        if flag.load(Ordering::SeqCst) == 1 {
            return true;
        }
        thread::yield_now();
    }
    false
}

// Makes the operation once the flag is raised. Whether it was made.
fn write<N: StoreName, R: Wait>(
    rt: &R,
    store: &SharedStore<N>,
    pass: StorePass<N>,
    caller: Caller<N>,
    flag: &AtomicU64,
    op: &Items,
) -> bool
    requires { caller.number ≡ 0 }
{
    let mut pass = pass;
    let mut caller = caller;
    is_raised(flag) && store.admin(rt, &mut pass, &mut caller, op).is_ok()
}

// Serves the guide. How that ends, if there was memory, and whether it was shown what was written.
fn guided<N: StoreName, R: Wait>(
    rt: &R,
    alloc: Global,
    app: &App,
    store: &SharedStore<N>,
    pass: StorePass<N>,
    caller: Caller<N>,
    flag: &AtomicU64,
) -> (Option<Ended>, bool)
    requires app { app.now ≡ N.app }
    requires number { 0 < caller.number }
    requires made { caller.made ≡ 0 }
{
    let mut pass = pass;
    let mut caller = caller;
    let mut guide = Guide::new(alloc, flag);
    let served = serve_link(rt, alloc, app, store, &mut pass, &mut caller, &mut guide);
    match served {
        Ok((end, _)) => (Some(end), guide.was_shown()),
        Err(_) => (None, false),
    }
}

// The callers of the session 1 and of the operator, the first of a store.
fn two_callers<N: StoreName>(
    store: &SharedStore<N>,
    callers: &mut Callers<N>,
) -> Result<(Caller<N>, Caller<N>), Mem>
    requires { callers.old.given ≡ [] }
    ensures session { IfOk result (λ made. made.0.number ≡ 1) }
    ensures none { IfOk result (λ made. made.0.made ≡ 0) }
    ensures operator { IfOk result (λ made. made.1.number ≡ 0) }
{
    let Some(session) = callers.caller(store.log(), 1)? else {
        return Err(Mem);
    };
    let Some(operator) = callers.caller(store.log(), 0)? else {
        return Err(Mem);
    };
    Ok((session, operator))
}

// Both on threads of their own.
fn beside<N: StoreName + Send + Sync, R: Threads + Wait + Sync>(
    rt: &R,
    alloc: Global,
    app: &App,
    op: &Items,
    opened: Opened<Entry>,
    blank: Blank,
) -> Result<((Option<Ended>, bool), bool), Mem>
    requires log { opened ≡ N.log }
    requires ledger { blank.name ≡ N.name }
    requires parts { blank.parts ≡ N.parts }
    requires many { N.parts ≡ 65537 }
    requires app { app.now ≡ N.app }
{
    let (store, mut pass, mut callers) = SharedStore::<N>::make(alloc, app, opened, blank)?;
    let (caller, admin) = two_callers(&store, &mut callers)?;
    let other = pass.note(store.log()).pass();
    let ready = AtomicU64::new(0);
    let shared = &store;
    let flag = &ready;
    let (served, written) = thread::join(
        rt,
        move ||
            requires app { app.now ≡ N.app }
            requires number { caller.number ≡ 1 }
            requires made { caller.made ≡ 0 }
        { guided(rt, alloc, app, shared, pass, caller, flag) },
        move ||
            requires { admin.number ≡ 0 }
        { write(rt, shared, other, admin, flag, op) },
    );
    Ok((served, written))
}

// The same over a new store.
fn beside_of_new<R: Threads + Wait + Sync>(
    rt: &R,
    alloc: Global,
    app: &App,
    op: &Items,
) -> Result<((Option<Ended>, bool), bool), Mem> {
    let opened = Opened::make(alloc)?;
    let blank = Blank::new(65537);
    beside::<Brand, R>(rt, alloc, app, op, opened, blank)
}

#[test]
fn subscriptions_show_what_others_write(rt: HostRuntime) -> Result<(), Fail> {
    let alloc = rt.alloc();
    let app = app(alloc, DRAWN)?;
    let op = items(alloc, INSERT)?;
    let ((end, shown), written) = beside_of_new(&rt, alloc, &app, &op)?;
    assert_eq!(rt; end, Some(Ended::PeerClosed));
    assert!(rt; shown);
    assert!(rt; written);
    Ok(())
}
