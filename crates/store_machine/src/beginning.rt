//! Calls that begin.
ghost use Rattle.std.specs.Prelude.{◌≡◌, ◌+◌, ◌-◌, ◌<◌, ◌≤◌, ℕ, ◌^◌, ◌||◌, nat_lt, ◌++◌, ◌∷◌, [], length, None, Some, true, is_some, option_map};
ghost use Rattle.std.specs.Prelude.{IfOk, OnOk, OnErr};
ghost use Rattle.map_model.specs.Maps.{at};
ghost use Rattle.app_model.specs.App.{App as AnApp, method as method_of};
ghost use Rattle.ejson_value.specs.View.{view};
ghost use Rattle.program_model.specs.Run.{begun};
ghost use Rattle.ejson_value.specs.Measure.{capped};
ghost use Rattle.history_model.specs.declared.entry.Entry.TheVariants.{Begin};
ghost use Rattle.history_model.specs.History.{run_cmp, status_of, status_in, steps_of, kept_with, is_next, max_entries, max_kept};
ghost use Rattle.store_machine.specs.State.{held_by, begin_answer, BeginGives, IsLastBegun};
ghost use Rattle.store_machine.specs.Standing.{begun_of, IsPut, AreSame, IsLastAmong, kept_of, uncounted, seen, Stand};

use crate::called::{Called, steps_of};
use crate::fault::BeginFault;
use crate::parts::{Calls, MAX_ENTRIES, MAX_KEPT, Parts, entries_with};
use app_model::App;
use ejson_value::{Items, Mem, Text, Value, copy};
use history_log::{Entry, call_bytes};
use program_steps::Status;
use std::alloc::Global;
use std::ops::Bound;

// How far the call's run is, None where it has none.
fn status_now(calls: &Calls, session: u32, k: u64) -> Result<Option<Status>, Mem>
    ensures { IfOk result (λ status. (app : AnApp) → status ≡ option_map (λ c. status_of (begun_of app c)) (at run_cmp calls.now.entries (session, k))) }
{
    match calls.get(&(session, k)) {
        Some(called) => Ok(Some(called.now()?)),
        None => Ok(None),
    }
}

fn copy_call(method: &Text, params: &Items) -> Result<(Text, Items), Mem>
    ensures { IfOk result (λ both. both ≡ (method.now, params.now)) }
{
    Ok((method.copy()?, params.copy()?))
}

fn begin_entry(
    session: u32,
    k: u64,
    method: &Text,
    params: &Items,
    seed: &Value,
) -> Result<Entry, Mem>
    ensures { IfOk result (λ entry. entry ≡ Begin session k method.now params.now seed.now) }
{
    let seed = copy(seed)?;
    let (method, params) = copy_call(method, params)?;
    Ok(Entry::Begin {
        session,
        k,
        method,
        params,
        seed,
    })
}

// Puts the call among those that have begun.
fn put(calls: &mut Calls, session: u32, k: u64, called: Called) -> Result<(), Mem>
    ensures put { OnOk result (IsPut calls.old.entries (session, k) called calls.new.entries) }
    ensures same { OnErr result (AreSame calls.old.entries calls.new.entries) }
{
    drop(calls.insert((session, k), called)?);
    Ok(())
}

// Puts the entry behind the others and the call among those that have begun, or neither.
fn add(parts: &mut Parts, session: u32, k: u64, called: Called, entry: Entry) -> Result<(), Mem>
    ensures log { OnOk result (parts.new.log ≡ parts.old.log ++ record { entry = entry; changes = [] } ∷ []) }
    ensures calls { OnOk result (IsPut parts.old.calls.entries (session, k) called parts.new.calls.entries) }
    ensures store { parts.new.store ≡ parts.old.store }
    ensures kept { parts.new.kept ≡ parts.old.kept }
    ensures reserved { parts.new.reserved ≡ parts.old.reserved }
    ensures same_log { OnErr result (parts.new.log ≡ parts.old.log) }
    ensures same_calls { OnErr result (AreSame parts.old.calls.entries parts.new.calls.entries) }
{
    parts.log.push(entry)?;
    let put = put(&mut parts.calls, session, k, called);
    if put.is_err() {
        parts.log.pop();
    }
    put
}

// The call as it begins at the place, and how far it is then.
fn begun_at(
    alloc: Global,
    app: &App,
    method: &Text,
    params: &Items,
    seed: &Value,
    place: u64,
) -> Result<(Called, Status), Mem>
    ensures places { IfOk result (λ both. (both.0.method ≡ method.now) × (both.0.begun ≡ place) × (both.0.unblocked ≡ None) × (both.0.at ≡ place)) }
    ensures run { IfOk result (λ both. (begun_of app.now both.0).run ≡ begun params.now (view seed.now) (steps_of (method_of app.now method.now))) }
    ensures status { IfOk result (λ both. both.1 ≡ status_of (begun_of app.now both.0)) }
{
    let called = Called::begin(alloc, app, method, params, seed, place)?;
    let status = called.now()?;
    Ok((called, status))
}

// Puts the call there with the entry that says that it began, or neither.
fn add_begun(
    parts: &mut Parts,
    session: u32,
    k: u64,
    called: Called,
    method: &Text,
    params: &Items,
    seed: &Value,
) -> Result<(), Mem>
    ensures log { OnOk result (parts.new.log ≡ parts.old.log ++ record { entry = Begin session k method.now params.now seed.now; changes = [] } ∷ []) }
    ensures calls { OnOk result (IsPut parts.old.calls.entries (session, k) called parts.new.calls.entries) }
    ensures store { parts.new.store ≡ parts.old.store }
    ensures kept { parts.new.kept ≡ parts.old.kept }
    ensures reserved { parts.new.reserved ≡ parts.old.reserved }
    ensures same_log { OnErr result (parts.new.log ≡ parts.old.log) }
    ensures same_calls { OnErr result (AreSame parts.old.calls.entries parts.new.calls.entries) }
{
    let entry = begin_entry(session, k, method, params, seed)?;
    add(parts, session, k, called, entry)
}

fn add_call(
    alloc: Global,
    app: &App,
    parts: &mut Parts,
    session: u32,
    k: u64,
    method: &Text,
    params: &Items,
    seed: &Value,
) -> Result<Status, Mem>
    requires { length parts.old.log < 2 ^ 64 - 1 }
    ensures keeps { OnOk result (kept_of app.now parts.new ≡ uncounted app.now parts.old session k method.now params.now seed.now) }
    ensures names { parts.new.store.names ≡ parts.old.store.names }
    ensures status { IfOk result (λ status. option_map (λ c. status_of (begun_of app.now c)) (at run_cmp parts.new.calls.entries (session, k)) ≡ Some status) }
    ensures err { OnErr result (kept_of app.now parts.new ≡ kept_of app.now parts.old) }
{
    let place = parts.log.length() + 1;
    let (called, status) = begun_at(alloc, app, method, params, seed, place)?;
    add_begun(parts, session, k, called, method, params, seed)?;
    Ok(status)
}

// How many bytes would be kept with the call.
fn kept_with(app: &App, parts: &Parts, params: &Items, seed: &Value) -> u64
    requires { Stand app.now parts.now }
    ensures { result ≡ capped (kept_with (held_by (seen app.now parts.now)) params.now (view seed.now)) }
{
    let _app = app;
    parts.kept.saturating_add(call_bytes(params, seed))
}

// One of the two is past its limit.
fn is_past(entries: u64, kept: u64) -> bool
    ensures { result ≡ (nat_lt max_entries entries || nat_lt max_kept kept) }
{
    entries > MAX_ENTRIES || kept > MAX_KEPT
}

// How many steps the method of this name has.
fn step_count(app: &App, method: &Text) -> u64
    ensures { result ≡ length (steps_of (method_of app.now method.now)) }
{
    steps_of(app, method).len() as u64
}

fn begin_new(
    alloc: Global,
    app: &App,
    parts: &mut Parts,
    session: u32,
    k: u64,
    method: &Text,
    params: &Items,
    seed: &Value,
) -> Result<Status, BeginFault>
    requires stands { Stand app.now parts.old }
    requires known { is_some (method_of app.now method.now) ≡ true }
    requires next { is_next session k (held_by (seen app.now parts.old)).runs ≡ true }
    requires none { at run_cmp parts.old.calls.entries (session, k) ≡ None }
    ensures stands { Stand app.now parts.new }
    ensures gives { BeginGives (λ status. seen app.now parts.new) result (begin_answer (seen app.now parts.old) session k method.now params.now seed.now) }
    ensures status { IfOk result (λ status. status_in (held_by (seen app.now parts.new)) session k ≡ Some status) }
    ensures refused { OnErr result (seen app.now parts.new ≡ seen app.now parts.old) }
{
    let steps = step_count(app, method);
    let entries = entries_with(app, parts, steps);
    let kept = kept_with(app, parts, params, seed);
    let past = is_past(entries, kept);
    if past {
        return Err(BeginFault::Full { entries, kept });
    }
    let status = add_call(alloc, app, parts, session, k, method, params, seed)?;
    parts.kept = kept;
    parts.reserved += steps;
    Ok(status)
}

/// Whether the call may be begun: it has a run, or its number is above those of its session's calls.
pub(crate) fn may_begin(app: &App, parts: &Parts, session: u32, k: u64) -> bool
    requires { Stand app.now parts.now }
    ensures { result ≡ (is_some (status_in (held_by (seen app.now parts.now)) session k) || is_next session k (held_by (seen app.now parts.now)).runs) }
{
    let _app = app;
    match parts.calls.range((session, k)..).next() {
        None => true,
        Some((key, _)) => key.0 != session || key.1 == k,
    }
}

fn fits(number: u64)
    ensures { number < 2 ^ 64 }
{
    let _number = number;
}

// No call has a number past the greatest that there is.
fn none_beyond(calls: &Calls, session: u32)
    ensures { (k : ℕ) → 2 ^ 64 ≤ k → at run_cmp calls.now.entries (session, k) ≡ None }
{
    let behind = (Bound::Excluded((session, u64::MAX)), Bound::Unbounded);
    if let Some((key, _)) = calls.range(behind).next() {
        fits(key.1);
    }
}

fn last_among(calls: &Calls, session: u32) -> Option<u64>
    ensures { IsLastAmong calls.now.entries session result }
{
    match calls.range(..=(session, u64::MAX)).next_back() {
        None => None,
        Some((key, _)) => { if key.0 == session { Some(key.1) } else { None } }
    }
}

/// The greatest number of the session's calls that have begun, None where none has.
pub(crate) fn last_begun(app: &App, parts: &Parts, session: u32) -> Option<u64>
    requires { Stand app.now parts.now }
    ensures { IsLastBegun (seen app.now parts.now) session result }
{
    let _app = app;
    none_beyond(&parts.calls, session);
    last_among(&parts.calls, session)
}

/// Begins the call's run, or answers how far it is where it has one.
pub(crate) fn begin(
    alloc: Global,
    app: &App,
    parts: &mut Parts,
    session: u32,
    k: u64,
    method: &Text,
    params: &Items,
    seed: &Value,
) -> Result<Status, BeginFault>
    requires stands { Stand app.now parts.old }
    requires known { is_some (method_of app.now method.now) ≡ true }
    requires next { (is_some (status_in (held_by (seen app.now parts.old)) session k) || is_next session k (held_by (seen app.now parts.old)).runs) ≡ true }
    ensures stands { Stand app.now parts.new }
    ensures gives { BeginGives (λ status. seen app.now parts.new) result (begin_answer (seen app.now parts.old) session k method.now params.now seed.now) }
    ensures status { IfOk result (λ status. status_in (held_by (seen app.now parts.new)) session k ≡ Some status) }
    ensures refused { OnErr result (seen app.now parts.new ≡ seen app.now parts.old) }
{
    let now = status_now(&parts.calls, session, k)?;
    match now {
        Some(status) => Ok(status),
        None => begin_new(alloc, app, parts, session, k, method, params, seed),
    }
}
