//! Sessions that go on by what the multiplexer tells.
ghost use Rattle.std.specs.Prelude.{◌≡◌, ◌+◌, ◌≤◌, false, Some, IfOk, IfSome, IsTrue};
ghost use Rattle.std.specs.Arc.{arc_value};
ghost use mathlib.Core.List.{IsPrefix};
ghost use Rattle.world_news_laws.specs.Sources.{has_limit};
ghost use Rattle.shared_store.specs.Store.{over};
ghost use Rattle.shared_session.specs.Held.{IsKept};
ghost use Rattle.shared_session.specs.Events.{Keeps, Meets, FeedsHeld};
ghost use Rattle.shared_multiplexer.specs.Copied.{next_of, AreCopiedOf};
ghost use Rattle.shared_multiplexer.specs.Lending.{MayShare, IsKnownTo, IsLentTo};
ghost use Rattle.shared_multiplexer.specs.Told.{WasLent};

use crate::copied::CopiedEntries;
use crate::shared::SharedMultiplexer;
use ejson_value::Mem;
use history_model::entry::Entry;
use pass_log::Log;
use session_core::{EventFault, Sub};
use session_state::sub_of;
use shared_session::HeldSession;
use std::sync::Wait;
use store_name::{StoreName, StorePass};
use world_news_laws::multiplexer::Lent;

// How many entries a span may have that isn't put back where nothing was learnt of it: so many are put together anew without a
// look at a document.
const FEW: u64 = 64;

// The subscription shows this place, and none of its cursors has a limit.
fn may_share(live: &Sub, from: u64) -> bool
    ensures { IsTrue result → (live.now.cursor ≡ Some from) × (has_limit live.now.cursors ≡ false) }
{
    match live.cursor {
        Some(at) if at == from => !live.cursors.limited(),
        _ => false,
    }
}

/// Whether the subscription of this number may ask what is told behind this place: it shows the place, none of its cursors
/// has a limit, and its publication has a source or may have one there while no other goes but one that is far behind. Where
/// it may not, it goes on by its own observer.
pub fn may_ask<R: Wait, N: StoreName>(
    rt: &R,
    multiplexer: &SharedMultiplexer<N>,
    session: &HeldSession<N>,
    sub: u64,
    from: u64,
) -> bool
    ensures { IsTrue result → MayShare session.now sub from }
{
    match sub_of(session.subs(), sub) {
        Some(live) if may_share(live, from) => multiplexer.has_room(rt, live, from),
        _ => false,
    }
}

/// What is told of so many entries to the subscription of this number, behind the place that it shows. None where it
/// shows another place or one of its cursors has a limit: such a subscription goes on by its own observer. The session
/// knows all that the pass does from then on.
pub fn lend<R: Wait, N: StoreName>(
    rt: &R,
    multiplexer: &SharedMultiplexer<N>,
    log: &Log<Entry, N>,
    session: &mut HeldSession<N>,
    sub: u64,
    entries: &CopiedEntries,
    from: u64,
    count: u64,
    pass: &mut StorePass<N>,
) -> Result<Option<Lent>, Mem>
    requires kept { IsKept N.app session.old }
    requires first { entries.now.first ≤ from }
    requires next { from + count ≤ next_of entries.now }
    requires entries { AreCopiedOf entries.now (over N.app pass.old) }
    ensures same { pass.new ≡ pass.old }
    ensures meets { Meets pass.old session.old session.new }
    ensures session { session.new.session ≡ session.old.session }
    ensures keeps { Keeps session.old session.new }
    ensures lent { IfOk result (λ answer. IfSome answer (IsLentTo N.app pass.old session.new sub from (from + count))) }
{
    session.meet(log, pass.note(log));
    match sub_of(session.subs(), sub) {
        Some(live) if may_share(live, from) => {
            multiplexer.span(rt, log, entries, live, from, count, pass.note(log))
        }
        _ => Ok(None),
    }
}

// What is known of the entries between the places to the subscription of this number, where it shows the first of them
// and none of its cursors has a limit.
fn known<R: Wait, N: StoreName>(
    rt: &R,
    multiplexer: &SharedMultiplexer<N>,
    log: &Log<Entry, N>,
    session: &HeldSession<N>,
    sub: u64,
    from: u64,
    until: u64,
    pass: &mut StorePass<N>,
) -> Result<Option<Lent>, Mem>
    requires { IsKept N.app session.now }
    ensures grows { IsPrefix pass.old pass.new }
    ensures lent { IfOk result (λ answer. IfSome answer (IsKnownTo N.app pass.new session.now sub from until)) }
{
    match sub_of(session.subs(), sub) {
        Some(live) if may_share(live, from) => multiplexer.known(rt, log, live, from, until, pass),
        _ => Ok(None),
    }
}

/// What is told of the entries between the places to the subscription of this number, where each of them is known: none is
/// asked for. None where one of them is not known, where the subscription shows another place, or where one of its cursors
/// has a limit. The session knows all that the pass does from then on.
pub fn lend_known<R: Wait, N: StoreName>(
    rt: &R,
    multiplexer: &SharedMultiplexer<N>,
    log: &Log<Entry, N>,
    session: &mut HeldSession<N>,
    sub: u64,
    from: u64,
    until: u64,
    pass: &mut StorePass<N>,
) -> Result<Option<Lent>, Mem>
    requires { IsKept N.app session.old }
    ensures grows { IsPrefix pass.old pass.new }
    ensures meets { Meets pass.new session.old session.new }
    ensures session { session.new.session ≡ session.old.session }
    ensures keeps { Keeps session.old session.new }
    ensures lent { IfOk result (λ answer. IfSome answer (IsLentTo N.app pass.new session.new sub from until)) }
{
    let lent = known(rt, multiplexer, log, session, sub, from, until, pass);
    session.meet(log, pass.note(log));
    lent
}

// Whether the text of each publish is known.
fn is_whole(lent: &Lent) -> bool {
    for place in 0..lent.span.told.len() {
        if lent.span.texts.is_open(place) {
            return false;
        }
    }
    true
}

// Whether nothing can be learnt of a span of so many entries, and others can put it together anew of what is told of each.
fn is_settled(lent: &Lent, count: u64) -> bool {
    count <= FEW && is_whole(lent)
}

// What was lent is put back, unless it was settled.
fn put_back<R: Wait, N: StoreName>(
    rt: &R,
    multiplexer: &SharedMultiplexer<N>,
    log: &Log<Entry, N>,
    lent: Lent,
    settled: bool,
    pass: &mut StorePass<N>,
)
    requires { WasLent N.app pass.old lent }
    ensures { pass.new ≡ pass.old }
{
    if settled {
        drop(lent);
    } else {
        multiplexer.learn(rt, log, lent, pass.note(log));
    }
}

/// The subscription goes on by what was lent, and what was learnt of it is put back. Where all was known of few entries
/// nothing was learnt, and nothing is put back. The pass's list is the one of which it was lent.
pub fn feed<R: Wait, N: StoreName>(
    rt: &R,
    multiplexer: &SharedMultiplexer<N>,
    log: &Log<Entry, N>,
    session: &mut HeldSession<N>,
    sub: u64,
    from: u64,
    count: u64,
    lent: Lent,
    pass: &mut StorePass<N>,
) -> Result<(), EventFault>
    requires kept { IsKept N.app session.old }
    requires lent { IsLentTo N.app pass.old session.old sub from (from + count) lent }
    ensures same { pass.new ≡ pass.old }
    ensures feeds { FeedsHeld sub from count (arc_value lent.span.told) pass.old session.old session.new result }
{
    let settled = is_settled(&lent, count);
    let mut lent = lent;
    match session.feed(
        log,
        sub,
        from,
        count,
        &lent.span.told,
        &mut lent.span.texts,
        pass.note(log),
    ) {
        Ok(()) => {
            put_back(rt, multiplexer, log, lent, settled, pass);
            Ok(())
        }
        Err(fault) => Err(fault),
    }
}
