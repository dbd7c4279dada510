//! Steps of calls.
ghost use Rattle.std.specs.Prelude.{◌≡◌, ◌+◌, ◌-◌, ◌<◌, ◌≤◌, ◌^◌, None, Some, option_map, true, IfOk, OnOk, OnErr, if◌then◌else◌};
ghost use Rattle.map_model.specs.Maps.{at};
ghost use Rattle.collection_store.specs.Limits.{new_bytes};
ghost use Rattle.history_model.specs.History.{run_cmp, goes_on, status_in};
ghost use Rattle.history_model.specs.LimitLaws.{left_of};
ghost use Rattle.history_log.specs.Log.{settled};
ghost use Rattle.store_machine.specs.State.{held_by, is_running, step_state};
ghost use Rattle.store_machine.specs.Standing.{begun_of, HasSteppedAt, AreSame, seen, Stand};

use crate::called::Made;
use crate::parts::{Calls, MAX_KEPT, Parts};
use app_model::App;
use collection_store::Store;
use ejson_value::Mem;
use history_log::{Entry, new_bytes};
use program_steps::Status;
use std::alloc::Global;

// How many steps the call's run has still to make.
fn left_of(app: &App, calls: &Calls, session: u32, k: u64) -> u64
    ensures { result ≡ left_of (option_map (begun_of app.now) (at run_cmp calls.now.entries (session, k))) }
{
    match calls.get(&(session, k)) {
        Some(called) => called.left(app),
        None => 0,
    }
}

// The call has begun, and not ended.
fn is_running(app: &App, calls: &Calls, session: u32, k: u64) -> bool
    ensures { result ≡ goes_on (option_map (begun_of app.now) (at run_cmp calls.now.entries (session, k))) }
{
    left_of(app, calls, session, k) > 0
}

// Makes the next step of the call's run. There is such a call.
fn step_at(
    alloc: Global,
    app: &App,
    store: &mut Store,
    calls: &mut Calls,
    session: u32,
    k: u64,
    room: u64,
    place: u64,
) -> Result<Made, Mem>
    ensures made { IfOk result (HasSteppedAt app.now store.old calls.old.entries (session, k) room place store.new calls.new.entries) }
    ensures calls { OnErr result (AreSame calls.old.entries calls.new.entries) }
    ensures store { OnErr result (store.new ≡ store.old) }
{
    match calls.get_mut(&(session, k)) {
        Some(called) => Ok(called.step(alloc, app, store, room, place)?),
        None => Err(Mem),
    }
}

// The entry behind the others made this, and left the run so many steps of those that it had.
fn settle(parts: &mut Parts, made: Made, had: u64, left: u64) -> Status
    requires room { parts.old.kept + new_bytes made.changes < 2 ^ 64 }
    requires among { had ≤ parts.old.reserved + left }
    requires few { parts.old.reserved + left < 2 ^ 64 }
    ensures parts { parts.new ≡ record parts.old
        { log = settled parts.old.log made.changes; kept = parts.old.kept + new_bytes made.changes; reserved = parts.old.reserved + left - had } }
    ensures status { result ≡ made.status }
{
    let Made { changes, status } = made;
    parts.kept += new_bytes(&changes);
    parts.reserved = parts.reserved + left - had;
    parts.log.settle(changes);
    status
}

fn step_running(
    alloc: Global,
    app: &App,
    parts: &mut Parts,
    session: u32,
    k: u64,
) -> Result<Status, Mem>
    requires stands { Stand app.now parts.old }
    requires goes { goes_on (option_map (begun_of app.now) (at run_cmp parts.old.calls.entries (session, k))) ≡ true }
    ensures stands { Stand app.now parts.new }
    ensures ok { OnOk result (seen app.now parts.new ≡ step_state (seen app.now parts.old) session k) }
    ensures status { IfOk result (λ status. status_in (held_by (seen app.now parts.new)) session k ≡ Some status) }
    ensures err { OnErr result (seen app.now parts.new ≡ seen app.now parts.old) }
{
    let room = MAX_KEPT - parts.kept;
    let place = parts.log.length() + 1;
    let had = left_of(app, &parts.calls, session, k);
    parts.log.push(Entry::Step { session, k })?;
    match step_at(
        alloc,
        app,
        &mut parts.store,
        &mut parts.calls,
        session,
        k,
        room,
        place,
    ) {
        Ok(made) => {
            let left = left_of(app, &parts.calls, session, k);
            Ok(settle(parts, made, had, left))
        }
        Err(mem) => {
            parts.log.pop();
            Err(mem)
        }
    }
}

/// Makes the next step of the call's run, None where it has no run, or one that has ended.
pub(crate) fn step(
    alloc: Global,
    app: &App,
    parts: &mut Parts,
    session: u32,
    k: u64,
) -> Result<Option<Status>, Mem>
    requires { Stand app.now parts.old }
    ensures stands { Stand app.now parts.new }
    ensures ok { OnOk result (seen app.now parts.new ≡ step_state (seen app.now parts.old) session k) }
    ensures status { IfOk result
        (λ status. status ≡ (if is_running (seen app.now parts.old) session k then status_in (held_by (seen app.now parts.new)) session k else None)) }
    ensures err { OnErr result (seen app.now parts.new ≡ seen app.now parts.old) }
{
    let running = is_running(app, &parts.calls, session, k);
    if !running {
        return Ok(None);
    }
    Ok(Some(step_running(alloc, app, parts, session, k)?))
}
