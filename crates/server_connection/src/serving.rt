//! The loop.
ghost use Rattle.std.specs.Prelude.{◌≡◌, ◌<◌, ◌≤◌, [], length, true, false, None, Err, IfErr, OnOk};
ghost use mathlib.Core.List.{IsPrefix};
ghost use Rattle.shared_session.specs.Held.{StandsFor};
ghost use Rattle.server_connection.specs.Serving.{Keeps, Closes};
ghost use Rattle.server_connection.specs.AtRest.{IsAtRest};
ghost use Rattle.server_connection.specs.Looks.{IsServed, Stays, IsRestful, StopsHear};
ghost use Rattle.server_connection.specs.Ends.{Leaves, Serves, IsCause, RunsAreOver, GoesOn, IsNew};
ghost use Rattle.server_connection.specs.declared.ended.Ended.TheVariants as ended;

use crate::desk::Desk;
use crate::ended::Ended;
use crate::ending::end_runs;
use crate::looking::look;
use crate::offering::offer_all;
use crate::polling::poll_once;
use crate::resting::is_idle;
use crate::taking::take_held;
use crate::wakes::Wakes;
use duct::Link;
use ejson_value::Mem;
use shared_multiplexer::SharedMultiplexer;
use shared_session::HeldSession;
use shared_store::{Caller, SharedStore};
use std::sync::Wait;
use store_name::{StoreName, StorePass};

// Polls the link where nothing is left to be done, or where the link takes no text.
fn hear<N: StoreName, L: Link>(
    session: &mut HeldSession<N>,
    place: u64,
    desk: &mut Desk,
    link: &mut L,
    all: bool,
) -> Result<(), Ended>
    requires within { length session.old.list ≤ place }
    requires sent { all ≡ true → (desk.old.back ≡ None) × (session.old.session.carried.outbox ≡ []) }
    requires waits { all ≡ false → desk.old.refused ≡ true }
    ensures keeps { Keeps StandsFor IsAtRest L.steps L.faults link.old session.old desk.old link.new session.new desk.new }
    ensures stays { Stays session.old session.new }
    ensures closed { result ≡ Err ended.PeerClosed → Closes StandsFor IsAtRest L.steps L.faults link.old session.old desk.old link.new session.new desk.new }
    ensures rest { IfErr result (λ end. Leaves end → IsRestful session.new desk.new) }
    ensures cause { IfErr result (StopsHear (L.faults link.old) (L.faults link.new) session.new.session) }
{
    if desk.held.is_some() {
        return Ok(());
    }
    let Ok(idle) = is_idle(session, place) else {
        return Err(Ended::Memory);
    };
    if all && !idle {
        return Ok(());
    }
    if session.failed() {
        return Err(Ended::VersionRefused);
    }
    poll_once(session, desk, link)
}

// Texts go to the link, and the one that is held to the session.
fn speak<R: Wait, N: StoreName, L: Link>(
    rt: &R,
    session: &mut HeldSession<N>,
    desk: &mut Desk,
    link: &mut L,
) -> Result<(), Ended>
    requires { session.old.session.dropped ≡ false }
    ensures keeps { Keeps StandsFor IsAtRest L.steps L.faults link.old session.old desk.old link.new session.new desk.new }
    ensures stays { Stays session.old session.new }
    ensures closed { result ≡ Err ended.PeerClosed → Closes StandsFor IsAtRest L.steps L.faults link.old session.old desk.old link.new session.new desk.new }
    ensures rest { IfErr result (λ end. Leaves end → IsRestful session.new desk.new) }
    ensures grows { L.faults link.old ≤ L.faults link.new }
    ensures cause { IfErr result (StopsHear (L.faults link.old) (L.faults link.new) session.new.session) }
{
    match offer_all(rt, session, desk, link) {
        Ok(_) => take_held(session, desk),
        Err(end) => Err(end),
    }
}

// Texts go to the link, and it is polled where nothing is left to be done.
fn listen<R: Wait, N: StoreName, L: Link>(
    rt: &R,
    session: &mut HeldSession<N>,
    place: u64,
    desk: &mut Desk,
    link: &mut L,
) -> Result<(), Ended>
    requires within { length session.old.list ≤ place }
    requires still { session.old.session.dropped ≡ false }
    ensures keeps { Keeps StandsFor IsAtRest L.steps L.faults link.old session.old desk.old link.new session.new desk.new }
    ensures stays { Stays session.old session.new }
    ensures closed { result ≡ Err ended.PeerClosed → Closes StandsFor IsAtRest L.steps L.faults link.old session.old desk.old link.new session.new desk.new }
    ensures rest { IfErr result (λ end. Leaves end → IsRestful session.new desk.new) }
    ensures cause { IfErr result (StopsHear (L.faults link.old) (L.faults link.new) session.new.session) }
{
    match offer_all(rt, session, desk, link) {
        Ok(all) => hear(session, place, desk, link, all),
        Err(end) => Err(end),
    }
}

// One round. The link is polled once at most, so that the store is looked at between any two polls.
fn round<R: Wait, N: StoreName, L: Link, W: Wakes>(
    rt: &R,
    store: &SharedStore<N>,
    multiplexer: &SharedMultiplexer<N>,
    wake: &W,
    pass: &mut StorePass<N>,
    caller: &mut Caller<N>,
    session: &mut HeldSession<N>,
    desk: &mut Desk,
    link: &mut L,
) -> Result<(), Ended>
    requires { IsServed N.app caller.old pass.old session.old }
    ensures served { IsServed N.app caller.new pass.new session.new }
    ensures goes_on { GoesOn caller.old caller.new pass.old pass.new }
    ensures keeps { Keeps StandsFor IsAtRest L.steps L.faults link.old session.old desk.old link.new session.new desk.new }
    ensures closed { result ≡ Err ended.PeerClosed → Closes StandsFor IsAtRest L.steps L.faults link.old session.old desk.old link.new session.new desk.new }
    ensures rest { IfErr result (λ end. Leaves end → IsRestful session.new desk.new) }
    ensures fault { result ≡ Err ended.LinkFault → L.faults link.old < L.faults link.new }
    ensures cause { IfErr result (IsCause caller.new pass.new session.new) }
{
    match speak(rt, session, desk, link) {
        Ok(()) => {}
        Err(end) => return Err(end),
    }
    match look(
        rt,
        store,
        multiplexer,
        wake,
        pass,
        caller,
        session,
        desk.back.is_none(),
    ) {
        Ok(()) => listen(rt, session, pass.len(), desk, link),
        Err(end) => Err(end),
    }
}

// Rounds, until one ends it.
fn serve<R: Wait, N: StoreName, L: Link, W: Wakes>(
    rt: &R,
    store: &SharedStore<N>,
    multiplexer: &SharedMultiplexer<N>,
    wake: &W,
    pass: &mut StorePass<N>,
    caller: &mut Caller<N>,
    session: &mut HeldSession<N>,
    link: &mut L,
) -> Ended
    requires served { IsServed N.app caller.old pass.old session.old }
    requires fresh { StandsFor [] [] session.old }
    ensures serves { Serves L.steps L.faults link.old link.new session.new result }
    ensures cause { IsCause caller.new pass.new session.new result }
    ensures goes_on { GoesOn caller.old caller.new pass.old pass.new }
    ensures number { session.new.session.carried.number ≡ caller.new.number }
{
    let mut desk = Desk {
        back: None,
        held: None,
        refused: false,
    };
    for _ in rt.forever() {
        if let Err(end) = round(
            rt,
            store,
            multiplexer,
            wake,
            pass,
            caller,
            session,
            &mut desk,
            link,
        ) {
            return end;
        }
    }
    unreachable!()
}

// The pass has all that the session knows of the history.
fn meet<N: StoreName>(
    store: &SharedStore<N>,
    pass: &mut StorePass<N>,
    session: &mut HeldSession<N>,
) -> Result<(), Mem>
    ensures same { session.new ≡ session.old }
    ensures grows { IsPrefix pass.old pass.new }
    ensures within { OnOk result (IsPrefix session.old.list pass.new) }
{
    match session.work(store.log()) {
        Ok((_, note)) => {
            pass.meet(store.log(), note);
            Ok(())
        }
        Err(mem) => Err(mem),
    }
}

/// Serves the link until its peer closes it or something else ends it, and makes the remaining steps of the runs that the
/// session's calls then have. What was sent are the texts of the session, in order. `wake` is told of each run that ended
/// by a step made here.
pub fn serve_connection<R: Wait, N: StoreName, L: Link, W: Wakes>(
    rt: &R,
    store: &SharedStore<N>,
    multiplexer: &SharedMultiplexer<N>,
    wake: &W,
    pass: &mut StorePass<N>,
    caller: &mut Caller<N>,
    session: &mut HeldSession<N>,
    link: &mut L,
) -> Ended
    requires { IsNew N.app caller.old session.old }
    ensures serves { Serves L.steps L.faults link.old link.new session.new result }
    ensures cause { IsCause caller.new pass.new session.new result }
    ensures runs { RunsAreOver N.app pass.new session.new result }
    ensures goes_on { GoesOn caller.old caller.new pass.old pass.new }
{
    if meet(store, pass, session).is_err() {
        return Ended::Memory;
    }
    let end = serve(rt, store, multiplexer, wake, pass, caller, session, link);
    match end_runs(rt, store, wake, pass, session, caller.number()) {
        Ok(()) => end,
        Err(_) => Ended::Memory,
    }
}
