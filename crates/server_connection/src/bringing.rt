//! Loaded subscriptions on their way along the history.
ghost use Rattle.std.specs.Prelude.{◌≡◌, ◌+◌, ◌^◌, ◌<◌, ◌≤◌, IfErr};
ghost use Rattle.shared_store.specs.Store.{over};
ghost use Rattle.shared_session.specs.Standing.{WereMade};
ghost use Rattle.shared_multiplexer.specs.Copied.{AreCopiedOf};
ghost use Rattle.shared_multiplexer.specs.Lending.{IsLentTo};
ghost use Rattle.server_connection.specs.Looks.{IsServed, Sees, Works, StopsEvent};

use crate::ended::Ended;
use crate::taking::done;
use session_state::Sub;
use shared_multiplexer::{CopiedEntries, Lent, SharedMultiplexer, feed, lend, lend_known, may_ask};
use shared_session::HeldSession;
use shared_store::{Caller, SharedStore};
use std::sync::Wait;
use store_machine::Batch;
use store_name::{StoreName, StorePass};

// Over how many entries a session goes at most by copies, of which its publications tell one by one. A session that is further
// behind goes by its own observers, beside all others and with no lock held.
const COPIED: u64 = 64;

// The subscription at this place of the list, if it shows this place of the history.
fn shown_at(subs: &[Sub], place: usize, from: u64) -> Option<u64> {
    let sub = subs.get(place)?;
    match sub.cursor {
        Some(at) if at == from => Some(sub.sub),
        _ => None,
    }
}

// The least place that a loaded subscription shows.
fn least_shown(subs: &[Sub]) -> Option<u64> {
    let mut least: Option<u64> = None;
    for sub in subs {
        least = match (least, sub.cursor) {
            (Some(one), Some(other)) => Some(one.min(other)),
            (None, cursor) => cursor,
            (one, None) => one,
        };
    }
    least
}

// How far it is from a place to the next one that a subscription shows.
fn span_from(subs: &[Sub], from: u64) -> u64
    ensures { 1 ≤ result }
{
    let mut span = u64::MAX;
    for sub in subs {
        if let Some(at) = sub.cursor {
            if at > from {
                span = span.min(at - from);
            }
        }
    }
    span
}

// A loaded subscription goes over the batch by its own observer.
fn go_over<N: StoreName>(
    store: &SharedStore<N>,
    pass: &mut StorePass<N>,
    session: &mut HeldSession<N>,
    sub: u64,
    batch: &Batch,
) -> Result<(), Ended>
    requires { WereMade N.app pass.old batch.now.from batch.now.count batch.now.changes }
    ensures sees { Sees pass.old session.old session.new }
    ensures same { pass.new ≡ pass.old }
    ensures cause { IfErr result (StopsEvent session.new.session) }
{
    let note = pass.note(store.log());
    done(session.advance(store.log(), sub, batch, note))
}

// Brings each subscription over the batch that shows the place at which it begins, each by its own observer.
fn bring_those_alone<N: StoreName>(
    store: &SharedStore<N>,
    pass: &mut StorePass<N>,
    caller: &Caller<N>,
    session: &mut HeldSession<N>,
    batch: &Batch,
) -> Result<(), Ended>
    requires made { WereMade N.app pass.old batch.now.from batch.now.count batch.now.changes }
    requires served { IsServed N.app caller.now pass.old session.old }
    ensures works { Works N.app caller.now caller.now pass.old pass.new session.old session.new }
    ensures cause { IfErr result (StopsEvent session.new.session) }
{
    for place in 0..session.subs().len() {
        if let Some(sub) = shown_at(session.subs(), place, batch.from) {
            go_over(store, pass, session, sub, batch)?;
        }
    }
    Ok(())
}

// Brings the subscriptions that still show the place `from` over at most so many entries, each by its own observer.
fn bring_alone<R: Wait, N: StoreName>(
    rt: &R,
    store: &SharedStore<N>,
    pass: &mut StorePass<N>,
    caller: &Caller<N>,
    session: &mut HeldSession<N>,
    from: u64,
    most: u64,
) -> Result<(), Ended>
    requires some { 1 ≤ most }
    requires served { IsServed N.app caller.now pass.old session.old }
    ensures works { Works N.app caller.now caller.now pass.old pass.new session.old session.new }
    ensures cause { IfErr result (StopsEvent session.new.session) }
{
    if least_shown(session.subs()) != Some(from) {
        return Ok(());
    }
    match store.batch(rt, pass, from, most) {
        Ok(Some(batch)) => bring_those_alone(store, pass, caller, session, &batch),
        Ok(None) => Ok(()),
        Err(_) => Err(Ended::Memory),
    }
}

// A subscription goes on by what was lent to it, which is put back.
fn bring_lent<R: Wait, N: StoreName>(
    rt: &R,
    store: &SharedStore<N>,
    multiplexer: &SharedMultiplexer<N>,
    pass: &mut StorePass<N>,
    caller: &Caller<N>,
    session: &mut HeldSession<N>,
    sub: u64,
    from: u64,
    count: u64,
    lent: Lent,
) -> Result<(), Ended>
    requires lent { IsLentTo N.app pass.old session.old sub from (from + count) lent }
    requires served { IsServed N.app caller.now pass.old session.old }
    ensures works { Works N.app caller.now caller.now pass.old pass.new session.old session.new }
    ensures same { pass.new ≡ pass.old }
    ensures cause { IfErr result (StopsEvent session.new.session) }
{
    done(feed(
        rt,
        multiplexer,
        store.log(),
        session,
        sub,
        from,
        count,
        lent,
        pass,
    ))
}

// A subscription goes on over the entries, which begin at the place that it shows, by what its publication tells all
// sessions.
fn bring<R: Wait, N: StoreName>(
    rt: &R,
    store: &SharedStore<N>,
    multiplexer: &SharedMultiplexer<N>,
    pass: &mut StorePass<N>,
    caller: &Caller<N>,
    session: &mut HeldSession<N>,
    sub: u64,
    entries: &CopiedEntries,
) -> Result<(), Ended>
    requires entries { AreCopiedOf entries.now (over N.app pass.old) }
    requires served { IsServed N.app caller.now pass.old session.old }
    ensures works { Works N.app caller.now caller.now pass.old pass.new session.old session.new }
    ensures same { pass.new ≡ pass.old }
    ensures cause { IfErr result (StopsEvent session.new.session) }
{
    let from = entries.first();
    let count = entries.next() - from;
    match lend(
        rt,
        multiplexer,
        store.log(),
        session,
        sub,
        entries,
        from,
        count,
        pass,
    ) {
        Ok(Some(lent)) => {
            bring_lent(
                rt,
                store,
                multiplexer,
                pass,
                caller,
                session,
                sub,
                from,
                count,
                lent,
            )
        }
        Ok(None) => Ok(()),
        Err(_) => Err(Ended::Memory),
    }
}

// A subscription goes on to a place by what is known of the entries up to there. Whether it did: not where something is not
// known, or where it has a limited cursor.
fn bring_known<R: Wait, N: StoreName>(
    rt: &R,
    store: &SharedStore<N>,
    multiplexer: &SharedMultiplexer<N>,
    pass: &mut StorePass<N>,
    caller: &Caller<N>,
    session: &mut HeldSession<N>,
    sub: u64,
    from: u64,
    until: u64,
) -> Result<bool, Ended>
    requires order { from ≤ until }
    requires served { IsServed N.app caller.now pass.old session.old }
    ensures works { Works N.app caller.now caller.now pass.old pass.new session.old session.new }
    ensures cause { IfErr result (StopsEvent session.new.session) }
{
    match lend_known(
        rt,
        multiplexer,
        store.log(),
        session,
        sub,
        from,
        until,
        pass,
    ) {
        Ok(Some(lent)) => {
            let count = until - from;
            match bring_lent(
                rt,
                store,
                multiplexer,
                pass,
                caller,
                session,
                sub,
                from,
                count,
                lent,
            ) {
                Ok(()) => Ok(true),
                Err(end) => Err(end),
            }
        }
        Ok(None) => Ok(false),
        Err(_) => Err(Ended::Memory),
    }
}

// The same of the subscription at this place of the list. Whether it doesn't show the place `from` any more.
fn bring_known_at<R: Wait, N: StoreName>(
    rt: &R,
    store: &SharedStore<N>,
    multiplexer: &SharedMultiplexer<N>,
    pass: &mut StorePass<N>,
    caller: &Caller<N>,
    session: &mut HeldSession<N>,
    place: usize,
    from: u64,
    until: u64,
) -> Result<bool, Ended>
    requires order { from ≤ until }
    requires served { IsServed N.app caller.now pass.old session.old }
    ensures works { Works N.app caller.now caller.now pass.old pass.new session.old session.new }
    ensures cause { IfErr result (StopsEvent session.new.session) }
{
    match shown_at(session.subs(), place, from) {
        Some(sub) => bring_known(
            rt,
            store,
            multiplexer,
            pass,
            caller,
            session,
            sub,
            from,
            until,
        ),
        None => Ok(true),
    }
}

// The same of all. Whether none shows the place `from` any more.
fn bring_those_known<R: Wait, N: StoreName>(
    rt: &R,
    store: &SharedStore<N>,
    multiplexer: &SharedMultiplexer<N>,
    pass: &mut StorePass<N>,
    caller: &Caller<N>,
    session: &mut HeldSession<N>,
    from: u64,
    until: u64,
) -> Result<bool, Ended>
    requires order { from ≤ until }
    requires served { IsServed N.app caller.now pass.old session.old }
    ensures works { Works N.app caller.now caller.now pass.old pass.new session.old session.new }
    ensures cause { IfErr result (StopsEvent session.new.session) }
{
    let mut all = true;
    for place in 0..session.subs().len() {
        let went = bring_known_at(
            rt,
            store,
            multiplexer,
            pass,
            caller,
            session,
            place,
            from,
            until,
        )?;
        all = all && went;
    }
    Ok(all)
}

// The subscription at this place of the list, if it shows this place of the history and may ask what its publication tells.
fn asks_at<R: Wait, N: StoreName>(
    rt: &R,
    multiplexer: &SharedMultiplexer<N>,
    session: &HeldSession<N>,
    place: usize,
    from: u64,
) -> Option<u64> {
    let sub = shown_at(session.subs(), place, from)?;
    if may_ask(rt, multiplexer, session, sub, from) {
        Some(sub)
    } else {
        None
    }
}

// Whether a subscription does.
fn some_asks<R: Wait, N: StoreName>(
    rt: &R,
    multiplexer: &SharedMultiplexer<N>,
    session: &HeldSession<N>,
    from: u64,
) -> bool {
    for place in 0..session.subs().len() {
        if asks_at(rt, multiplexer, session, place, from).is_some() {
            return true;
        }
    }
    false
}

// Brings each subscription over the entries that shows the place at which they begin and may ask.
fn bring_those<R: Wait, N: StoreName>(
    rt: &R,
    store: &SharedStore<N>,
    multiplexer: &SharedMultiplexer<N>,
    pass: &mut StorePass<N>,
    caller: &Caller<N>,
    session: &mut HeldSession<N>,
    entries: &CopiedEntries,
) -> Result<(), Ended>
    requires entries { AreCopiedOf entries.now (over N.app pass.old) }
    requires served { IsServed N.app caller.now pass.old session.old }
    ensures works { Works N.app caller.now caller.now pass.old pass.new session.old session.new }
    ensures cause { IfErr result (StopsEvent session.new.session) }
{
    for place in 0..session.subs().len() {
        if let Some(sub) = asks_at(rt, multiplexer, session, place, entries.first()) {
            bring(rt, store, multiplexer, pass, caller, session, sub, entries)?;
        }
    }
    Ok(())
}

// Brings the subscriptions that show the place `from` and may ask over at most so many entries, which are copied, where they are
// few.
fn bring_asked<R: Wait, N: StoreName>(
    rt: &R,
    store: &SharedStore<N>,
    multiplexer: &SharedMultiplexer<N>,
    pass: &mut StorePass<N>,
    caller: &Caller<N>,
    session: &mut HeldSession<N>,
    from: u64,
    most: u64,
) -> Result<(), Ended>
    requires some { 1 ≤ most }
    requires served { IsServed N.app caller.now pass.old session.old }
    ensures works { Works N.app caller.now caller.now pass.old pass.new session.old session.new }
    ensures cause { IfErr result (StopsEvent session.new.session) }
{
    if most > COPIED {
        return Ok(());
    }
    if !some_asks(rt, multiplexer, session, from) {
        return Ok(());
    }
    match multiplexer.copied(rt, store, pass, from, most) {
        Ok(Some(entries)) => bring_those(rt, store, multiplexer, pass, caller, session, &entries),
        Ok(None) => Ok(()),
        Err(_) => Err(Ended::Memory),
    }
}

// Brings the subscriptions that still show the place `from` over at most so many entries: by copies of them, of which their
// publications tell, and the others each by its own observer.
fn bring_rest<R: Wait, N: StoreName>(
    rt: &R,
    store: &SharedStore<N>,
    multiplexer: &SharedMultiplexer<N>,
    pass: &mut StorePass<N>,
    caller: &Caller<N>,
    session: &mut HeldSession<N>,
    from: u64,
    most: u64,
) -> Result<(), Ended>
    requires some { 1 ≤ most }
    requires served { IsServed N.app caller.now pass.old session.old }
    ensures works { Works N.app caller.now caller.now pass.old pass.new session.old session.new }
    ensures cause { IfErr result (StopsEvent session.new.session) }
{
    match bring_asked(rt, store, multiplexer, pass, caller, session, from, most) {
        Ok(()) => bring_alone(rt, store, pass, caller, session, from, most),
        Err(end) => Err(end),
    }
}

// Brings the subscriptions that show the place `from` over so many entries: by what is known of them, and where that isn't
// enough, by what is asked of the store.
fn bring_from<R: Wait, N: StoreName>(
    rt: &R,
    store: &SharedStore<N>,
    multiplexer: &SharedMultiplexer<N>,
    pass: &mut StorePass<N>,
    caller: &Caller<N>,
    session: &mut HeldSession<N>,
    from: u64,
    most: u64,
) -> Result<(), Ended>
    requires some { 1 ≤ most }
    requires numbered { from + most < 2 ^ 64 }
    requires served { IsServed N.app caller.now pass.old session.old }
    ensures works { Works N.app caller.now caller.now pass.old pass.new session.old session.new }
    ensures cause { IfErr result (StopsEvent session.new.session) }
{
    match bring_those_known(
        rt,
        store,
        multiplexer,
        pass,
        caller,
        session,
        from,
        from + most,
    ) {
        Ok(true) => Ok(()),
        Ok(false) => bring_rest(rt, store, multiplexer, pass, caller, session, from, most),
        Err(end) => Err(end),
    }
}

/// Brings the subscriptions that are furthest behind to the next place that one shows, or to the end of the history.
pub(crate) fn bring_all<R: Wait, N: StoreName>(
    rt: &R,
    store: &SharedStore<N>,
    multiplexer: &SharedMultiplexer<N>,
    pass: &mut StorePass<N>,
    caller: &Caller<N>,
    session: &mut HeldSession<N>,
) -> Result<(), Ended>
    requires { IsServed N.app caller.now pass.old session.old }
    ensures works { Works N.app caller.now caller.now pass.old pass.new session.old session.new }
    ensures cause { IfErr result (StopsEvent session.new.session) }
{
    let Some(from) = least_shown(session.subs()) else {
        return Ok(());
    };
    let end = pass.confirm(store.log());
    if from >= end {
        return Ok(());
    }
    let most = span_from(session.subs(), from).min(end - from);
    bring_from(rt, store, multiplexer, pass, caller, session, from, most)
}
