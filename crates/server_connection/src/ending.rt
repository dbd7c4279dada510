//! What is done before a connection is left.
ghost use Rattle.std.specs.Prelude.{◌≡◌, true, IfOk, OnOk};
ghost use Rattle.history_model.specs.History.{held, status_in};
ghost use Rattle.world_model.specs.Store.{programs};
ghost use mathlib.Core.List.{IsPrefix};
ghost use Rattle.session_state.specs.Work.{running_from};
ghost use Rattle.server_connection.specs.Ends.{HasEnded, IsOver, AreOver};

use crate::wakes::{Wakes, tell_end};
use ejson_value::Mem;
use program_steps::Status;
use shared_session::HeldSession;
use shared_store::SharedStore;
use std::sync::Wait;
use store_name::{StoreName, StorePass};

// How far the run of the call is, if it has one.
fn status<R: Wait, N: StoreName>(
    rt: &R,
    store: &SharedStore<N>,
    pass: &mut StorePass<N>,
    number: u32,
    k: u64,
) -> Result<Option<Status>, Mem>
    ensures status { IfOk result (λ status. status_in (held (programs N.app) pass.new) number k ≡ status) }
    ensures grows { IsPrefix pass.old pass.new }
{
    match store.status(rt, pass, number, k) {
        Ok(Some(placed)) => Ok(Some(placed.status)),
        Ok(None) => Ok(None),
        Err(mem) => Err(mem),
    }
}

// The run of the call makes its next step. Whether there was one.
fn step<R: Wait, N: StoreName, W: Wakes>(
    rt: &R,
    store: &SharedStore<N>,
    wake: &W,
    pass: &mut StorePass<N>,
    number: u32,
    k: u64,
) -> Result<bool, Mem>
    ensures { IsPrefix pass.old pass.new }
{
    match store.step(rt, pass, number, k) {
        Ok(Some(placed)) => {
            tell_end(wake, &placed.status);
            Ok(true)
        }
        Ok(None) => Ok(false),
        Err(mem) => Err(mem),
    }
}

// Makes the remaining steps of the run of the call. Whether it has one.
fn end_run<R: Wait, N: StoreName, W: Wakes>(
    rt: &R,
    store: &SharedStore<N>,
    wake: &W,
    pass: &mut StorePass<N>,
    number: u32,
    k: u64,
) -> Result<bool, Mem>
    ensures over { OnOk result (IsOver N.app pass.new number k) }
    ensures some { IfOk result (λ some. some ≡ true → HasEnded N.app pass.new number k) }
    ensures grows { IsPrefix pass.old pass.new }
{
    for _ in rt.forever() {
        if step(rt, store, wake, pass, number, k)? {
            continue;
        }
        match status(rt, store, pass, number, k)? {
            None => return Ok(false),
            Some(status) if status.ended.is_some() => return Ok(true),
            Some(_) => {}
        }
    }
    unreachable!()
}

// Makes the remaining steps of the runs of these calls. Whether they are over all at once: a call that had no run may
// have been begun elsewhere since it was looked at.
fn end_each<R: Wait, N: StoreName, W: Wakes>(
    rt: &R,
    store: &SharedStore<N>,
    wake: &W,
    pass: &mut StorePass<N>,
    number: u32,
    calls: &[u64],
) -> Result<bool, Mem>
    ensures over { IfOk result (λ all. all ≡ true → AreOver N.app pass.new number calls.now) }
    ensures grows { IsPrefix pass.old pass.new }
{
    let mut begun = true;
    for k in calls {
        let before = pass.len();
        let some = end_run(rt, store, wake, pass, number, *k)?;
        if !begun && pass.len() > before {
            return Ok(false);
        }
        begun = begun && some;
    }
    Ok(true)
}

/// Makes the remaining steps of the runs of the session's calls.
pub(crate) fn end_runs<R: Wait, N: StoreName, W: Wakes>(
    rt: &R,
    store: &SharedStore<N>,
    wake: &W,
    pass: &mut StorePass<N>,
    session: &HeldSession<N>,
    number: u32,
) -> Result<(), Mem>
    ensures over { OnOk result (AreOver N.app pass.new number (running_from 0 session.now.session.carried.own.methods)) }
    ensures grows { IsPrefix pass.old pass.new }
{
    let calls = session.running()?;
    for _ in rt.forever() {
        if end_each(rt, store, wake, pass, number, calls.as_slice())? {
            return Ok(());
        }
    }
    unreachable!()
}
