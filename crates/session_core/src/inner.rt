//! What a session keeps, and one item more.
ghost use Rattle.std.specs.Prelude.{◌≡◌, ◌≤◌, true, false, OnOk, OnErr};
ghost use Rattle.session_core.specs.session_model.Methods.{is_blocked_by};
ghost use Rattle.session_core.specs.Additions.{call_by};
ghost use Rattle.session_core.specs.Known.{AreRightBy, AreLearntBy};
ghost use Rattle.session_core.specs.session_laws.Session.{new_session, is_full, is_at_work, tested};
ghost use Rattle.session_core.specs.Kept.{seen, IsKept};
ghost use Rattle.session_core.specs.Adding.{IsAddedTo, AreAlike, Follows};

use crate::session_laws::EventFault;
use crate::{Addition, News, Parts};
use app_model::App;
use ejson_value::Mem;
use json::Scratch;
use known_texts::KnownTexts;
use method_queue::MethodQueue;
use std::alloc::Global;
use std::collections::VecDeque;

/// How many texts may wait to be sent before the session takes no further event.
const MAX_OUTBOX: usize = 4096;

/// How many items a journal may have.
pub(crate) const MAX_ITEMS: usize = 262_144;

/// How many messages may wait.
const MAX_WAITING: u32 = 4096;

/// What a session keeps.
#[derive(Drop)]
pub(crate) struct Inner {
    pub(crate) alloc: Global,
    pub(crate) app: App,
    pub(crate) number: u32,
    // How many texts it took.
    pub(crate) taken: u64,
    pub(crate) parts: Parts,
    pub(crate) queue: MethodQueue,
    // The place of each waiting message's text among those that it took.
    pub(crate) places: VecDeque<u64>,
    pub(crate) dropped: bool,
    // Room for reading, lent to each text.
    pub(crate) scratch: Box<Scratch>,
}

/// Nothing was taken.
pub(crate) fn new_inner(alloc: Global, app: App, number: u32, scratch: Box<Scratch>) -> Inner
    ensures seen { seen result ≡ new_session app number }
    ensures kept { IsKept result }
{
    Inner {
        alloc,
        app,
        number,
        taken: 0,
        parts: Parts::new(alloc),
        queue: MethodQueue::new(alloc, MAX_WAITING),
        places: VecDeque::new(alloc),
        dropped: false,
        scratch,
    }
}

/// Whether the session takes events that aren't of sending.
pub(crate) fn is_at_work(inner: &Inner) -> bool
    ensures { result ≡ is_at_work (seen inner.now) }
{
    !inner.dropped && !inner.parts.own.failed && inner.parts.outbox.len() < MAX_OUTBOX
}

/// The refusal of an event, if it is refused.
pub(crate) fn test(inner: &Inner, enabled: bool) -> Result<(), EventFault>
    ensures { result ≡ tested enabled (seen inner.now) }
{
    if !enabled {
        return Err(EventFault::Idle);
    }
    if inner.parts.journal.len() >= MAX_ITEMS {
        return Err(EventFault::JournalFull);
    }
    Ok(())
}

/// Whether the call of this number blocks.
pub(crate) fn is_blocked_by(inner: &Inner, k: u64) -> bool
    ensures { result ≡ is_blocked_by k (seen inner.now).carried.own.blocking }
{
    match &inner.parts.own.blocking {
        Some(call) => call.k == k,
        None => false,
    }
}

/// Adds an item, by the texts that are known of what is told.
pub(crate) fn add_known(
    inner: &mut Inner,
    addition: Addition,
    news: &News<'_>,
    known: &mut KnownTexts,
) -> Result<(), Mem>
    requires kept { IsKept inner.old }
    requires room { is_full (seen inner.old) ≡ false }
    requires follows { Follows addition.step (seen inner.old).carried.own }
    requires right { AreRightBy news.now (seen inner.old).carried.box known.old }
    ensures added { OnOk result (IsAddedTo addition (call_by news.now) inner.old inner.new) }
    ensures same { OnErr result (AreAlike inner.old inner.new) }
    ensures learnt { AreLearntBy news.now (seen inner.old).carried.box known.old known.new }
{
    inner.parts.add(inner.alloc, addition, news, known)
}

/// The same, where no text is known.
pub(crate) fn add(inner: &mut Inner, addition: Addition, news: &News<'_>) -> Result<(), Mem>
    requires kept { IsKept inner.old }
    requires room { is_full (seen inner.old) ≡ false }
    requires follows { Follows addition.step (seen inner.old).carried.own }
    ensures added { OnOk result (IsAddedTo addition (call_by news.now) inner.old inner.new) }
    ensures same { OnErr result (AreAlike inner.old inner.new) }
{
    let mut known = KnownTexts::new(inner.alloc);
    add_known(inner, addition, news, &mut known)
}
