//! What the subscriptions show of the store.
ghost use Rattle.std.specs.Prelude.{◌≡◌, IfErr};
ghost use Rattle.shared_session.specs.Standing.{WereThere};
ghost use Rattle.server_connection.specs.Looks.{IsServed, Sees, Works, StopsEvent};

use crate::bringing::bring_all;
use crate::ended::Ended;
use crate::taking::done;
use session_state::Sub;
use shared_multiplexer::SharedMultiplexer;
use shared_session::HeldSession;
use shared_store::{Caller, SharedStore};
use std::sync::Wait;
use store_name::{Snapshot, StoreName, StorePass};

// The subscription at this place of the list, if it is not loaded.
fn unloaded_at(subs: &[Sub], place: usize) -> Option<u64> {
    let sub = subs.get(place)?;
    match sub.cursor {
        Some(_) => None,
        None => Some(sub.sub),
    }
}

// Whether a subscription is not loaded.
fn some_unloaded(subs: &[Sub]) -> bool {
    for sub in subs {
        if sub.cursor.is_none() {
            return true;
        }
    }
    false
}

// The subscription shows the snapshot.
fn load<N: StoreName>(
    store: &SharedStore<N>,
    pass: &mut StorePass<N>,
    session: &mut HeldSession<N>,
    sub: u64,
    shot: &Snapshot,
) -> Result<(), Ended>
    requires { WereThere N.app pass.old shot.now.at shot.now.contents }
    ensures sees { Sees pass.old session.old session.new }
    ensures same { pass.new ≡ pass.old }
    ensures cause { IfErr result (StopsEvent session.new.session) }
{
    let note = pass.note(store.log());
    done(session.load(store.log(), sub, shot, note))
}

// Each subscription that is not loaded shows the snapshot.
fn load_those<N: StoreName>(
    store: &SharedStore<N>,
    pass: &mut StorePass<N>,
    caller: &Caller<N>,
    session: &mut HeldSession<N>,
    shot: &Snapshot,
) -> Result<(), Ended>
    requires there { WereThere N.app pass.old shot.now.at shot.now.contents }
    requires served { IsServed N.app caller.now pass.old session.old }
    ensures works { Works N.app caller.now caller.now pass.old pass.new session.old session.new }
    ensures cause { IfErr result (StopsEvent session.new.session) }
{
    for place in 0..session.subs().len() {
        if let Some(sub) = unloaded_at(session.subs(), place) {
            load(store, pass, session, sub, shot)?;
        }
    }
    Ok(())
}

// Loads the subscriptions that are not loaded, all at one place.
fn load_all<R: Wait, N: StoreName>(
    rt: &R,
    store: &SharedStore<N>,
    pass: &mut StorePass<N>,
    caller: &Caller<N>,
    session: &mut HeldSession<N>,
) -> Result<(), Ended>
    requires { IsServed N.app caller.now pass.old session.old }
    ensures works { Works N.app caller.now caller.now pass.old pass.new session.old session.new }
    ensures cause { IfErr result (StopsEvent session.new.session) }
{
    if !some_unloaded(session.subs()) {
        return Ok(());
    }
    match store.snapshot(rt, pass) {
        Ok(shot) => load_those(store, pass, caller, session, &shot),
        Err(_) => Err(Ended::Memory),
    }
}

/// Shows the subscriptions more of the history, where there is more.
pub(crate) fn show<R: Wait, N: StoreName>(
    rt: &R,
    store: &SharedStore<N>,
    multiplexer: &SharedMultiplexer<N>,
    pass: &mut StorePass<N>,
    caller: &Caller<N>,
    session: &mut HeldSession<N>,
) -> Result<(), Ended>
    requires { IsServed N.app caller.now pass.old session.old }
    ensures works { Works N.app caller.now caller.now pass.old pass.new session.old session.new }
    ensures cause { IfErr result (StopsEvent session.new.session) }
{
    match load_all(rt, store, pass, caller, session) {
        Ok(()) => bring_all(rt, store, multiplexer, pass, caller, session),
        Err(end) => Err(end),
    }
}
