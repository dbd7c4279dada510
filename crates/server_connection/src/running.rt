//! The runs of the session's calls.
ghost use Rattle.std.specs.Prelude.{◌≡◌, IfErr};
ghost use Rattle.shared_session.specs.Standing.{WasSo};
ghost use Rattle.server_connection.specs.Looks.{IsServed, Sees, Works, StopsEvent, StopsLook, HadNoRoomFor};

use crate::ended::Ended;
use crate::taking::done;
use crate::wakes::{Wakes, tell_end};
use program_steps::Status;
use shared_session::HeldSession;
use shared_store::{Caller, SharedBegin, SharedStore};
use std::sync::Wait;
use store_name::{StoreName, StorePass};

// The session learns how far the run of its call was after some entries of the pass's list.
fn learn<N: StoreName>(
    store: &SharedStore<N>,
    pass: &mut StorePass<N>,
    session: &mut HeldSession<N>,
    k: u64,
    status: &Status,
) -> Result<(), Ended>
    requires { WasSo N.app session.old.session.carried.number pass.old k status.now }
    ensures sees { Sees pass.old session.old session.new }
    ensures same { pass.new ≡ pass.old }
    ensures cause { IfErr result (StopsEvent session.new.session) }
{
    let note = pass.note(store.log());
    done(session.learn(store.log(), k, status, note))
}

// The call that blocks is refused: the history of the pass's list has no room for it.
fn refuse<N: StoreName>(
    store: &SharedStore<N>,
    pass: &mut StorePass<N>,
    session: &mut HeldSession<N>,
    k: u64,
) -> Result<(), Ended>
    requires { HadNoRoomFor N.app pass.old k session.old.session }
    ensures sees { Sees pass.old session.old session.new }
    ensures same { pass.new ≡ pass.old }
    ensures cause { IfErr result (StopsEvent session.new.session) }
{
    let at = pass.len();
    let note = pass.note(store.log());
    done(session.refuse(store.log(), k, at, note))
}

// Begins the call that blocks, or refuses it where the history has no room. Nobody is told: that a run has begun shows to
// nobody else.
fn begin<R: Wait, N: StoreName>(
    rt: &R,
    store: &SharedStore<N>,
    pass: &mut StorePass<N>,
    caller: &mut Caller<N>,
    session: &mut HeldSession<N>,
) -> Result<(), Ended>
    requires { IsServed N.app caller.old pass.old session.old }
    ensures works { Works N.app caller.old caller.new pass.old pass.new session.old session.new }
    ensures cause { IfErr result (StopsLook caller.new pass.new session.new) }
{
    let Some(call) = session.blocking() else {
        return Ok(());
    };
    let k = call.k;
    match store.begin(rt, pass, caller, k, &call.method, &call.params, &call.seed) {
        Ok(placed) => learn(store, pass, session, k, &placed.status),
        Err(SharedBegin::Full { .. }) => refuse(store, pass, session, k),
        Err(SharedBegin::NotNext { last }) => Err(Ended::Foreign { last }),
        Err(SharedBegin::Memory) => Err(Ended::Memory),
    }
}

// The session learns how far the run of its call is, if it has one. Whether it has.
fn learn_now<R: Wait, N: StoreName>(
    rt: &R,
    store: &SharedStore<N>,
    pass: &mut StorePass<N>,
    caller: &Caller<N>,
    session: &mut HeldSession<N>,
    k: u64,
) -> Result<bool, Ended>
    requires { IsServed N.app caller.now pass.old session.old }
    ensures works { Works N.app caller.now caller.now pass.old pass.new session.old session.new }
    ensures cause { IfErr result (StopsEvent session.new.session) }
{
    match store.status(rt, pass, caller.number(), k) {
        Ok(Some(placed)) => match learn(store, pass, session, k, &placed.status) {
            Ok(()) => Ok(true),
            Err(end) => Err(end),
        },
        Ok(None) => Ok(false),
        Err(_) => Err(Ended::Memory),
    }
}

// The run of the call makes its next step, and the session learns of it. Whether it made one.
fn step<R: Wait, N: StoreName, W: Wakes>(
    rt: &R,
    store: &SharedStore<N>,
    wake: &W,
    pass: &mut StorePass<N>,
    caller: &Caller<N>,
    session: &mut HeldSession<N>,
    k: u64,
) -> Result<bool, Ended>
    requires { IsServed N.app caller.now pass.old session.old }
    ensures works { Works N.app caller.now caller.now pass.old pass.new session.old session.new }
    ensures cause { IfErr result (StopsEvent session.new.session) }
{
    match store.step(rt, pass, caller.number(), k) {
        Ok(Some(placed)) => {
            tell_end(wake, &placed.status);
            match learn(store, pass, session, k, &placed.status) {
                Ok(()) => Ok(true),
                Err(end) => Err(end),
            }
        }
        Ok(None) => Ok(false),
        Err(_) => Err(Ended::Memory),
    }
}

// The call goes on: its run makes a step, or is looked at where it makes none, or begins where it has none.
fn go_on<R: Wait, N: StoreName, W: Wakes>(
    rt: &R,
    store: &SharedStore<N>,
    wake: &W,
    pass: &mut StorePass<N>,
    caller: &mut Caller<N>,
    session: &mut HeldSession<N>,
    k: u64,
) -> Result<(), Ended>
    requires { IsServed N.app caller.old pass.old session.old }
    ensures works { Works N.app caller.old caller.new pass.old pass.new session.old session.new }
    ensures cause { IfErr result (StopsLook caller.new pass.new session.new) }
{
    match step(rt, store, wake, pass, caller, session, k) {
        Ok(true) => return Ok(()),
        Ok(false) => {}
        Err(end) => return Err(end),
    }
    match learn_now(rt, store, pass, caller, session, k) {
        Ok(true) => Ok(()),
        Ok(false) => begin(rt, store, pass, caller, session),
        Err(end) => Err(end),
    }
}

/// Each call that runs goes on.
pub(crate) fn run<R: Wait, N: StoreName, W: Wakes>(
    rt: &R,
    store: &SharedStore<N>,
    wake: &W,
    pass: &mut StorePass<N>,
    caller: &mut Caller<N>,
    session: &mut HeldSession<N>,
) -> Result<(), Ended>
    requires { IsServed N.app caller.old pass.old session.old }
    ensures works { Works N.app caller.old caller.new pass.old pass.new session.old session.new }
    ensures cause { IfErr result (StopsLook caller.new pass.new session.new) }
{
    let Ok(calls) = session.running() else {
        return Err(Ended::Memory);
    };
    for k in calls.iter() {
        go_on(rt, store, wake, pass, caller, session, *k)?;
    }
    Ok(())
}
