//! The lock.
ghost use Rattle.std.specs.Prelude.{◌≡◌, ◌+◌, ◌≤◌, length, None, is_some, IfOk, IfSome};
ghost use mathlib.Core.List.{IsPrefix};
ghost use Rattle.world_news_laws.specs.multiplexer.Bounds.{kept_in, bytes_kept};
ghost use Rattle.world_news_laws.specs.multiplexer.Spans.{IsLent};
ghost use Rattle.world_news_laws.specs.multiplexer.Telling.{IsSource};
ghost use Rattle.world_news_laws.specs.Sources.{cursors_at_of};
ghost use Rattle.shared_store.specs.Store.{over};
ghost use Rattle.shared_multiplexer.specs.Copied.{next_of, AreCopiedOf, AreBehind};
ghost use Rattle.shared_multiplexer.specs.Told.{AreTheirs, WasLent};

use crate::copied::CopiedEntries;
use crate::held::HeldMultiplexer;
use ejson_value::Mem;
use history_model::entry::Entry;
use pass_log::{Log, Note};
use selector_match::Steps;
use session_state::Sub;
use shared_store::SharedStore;
use std::alloc::Global;
use std::marker::Brand;
use std::sync::ledger::{Blank, Ledger};
use std::sync::{Mutex, Wait};
use store_name::{StoreName, StorePass};
use world_news_laws::multiplexer::Lent;

/// A multiplexer that threads share. Each call takes its lock, and none of a store.
#[derive(Drop)]
pub struct SharedMultiplexer<N: StoreName> {
    alloc: Global,
    held: Mutex<HeldMultiplexer<N>>,
}

// The ledger counts how often documents are looked at.
fn span_by<N: StoreName, L: Ledger>(
    held: &mut HeldMultiplexer<N>,
    log: &Log<Entry, N>,
    entries: &CopiedEntries,
    sub: &Sub,
    from: u64,
    count: u64,
    note: Note<Entry, N>,
    blank: Blank,
) -> Result<Option<Lent>, Mem>
    requires first { entries.now.first ≤ from }
    requires next { from + count ≤ next_of entries.now }
    requires entries { AreCopiedOf entries.now (over N.app note) }
    requires source { IsSource (cursors_at_of N.app) sub.now }
    requires name { blank.name ≡ L.name }
    requires parts { blank.parts ≡ L.parts }
    requires whole { blank.parts ≡ 1 }
    ensures answers { IfOk result (λ answer. is_some answer ≡ is_some sub.now.observer) }
    ensures lent { IfOk result (λ answer. IfSome answer (IsLent (over N.app note) sub.now from (from + count))) }
{
    let mut steps = Steps::<L>::new(blank);
    held.span(log, entries, sub, from, count, note, &mut steps)
}

impl<N: StoreName> SharedMultiplexer<N> {
    /// Nothing was asked yet.
    pub fn make(alloc: Global, pass: StorePass<N>) -> SharedMultiplexer<N> {
        SharedMultiplexer {
            alloc,
            held: Mutex::new(HeldMultiplexer::make(alloc, pass)),
        }
    }

    /// The entries of the store behind the first `from`, at most so many of them: each is copied by a call of the store, with
    /// no lock of the multiplexer's. None where there is none.
    pub fn copied<R: Wait>(
        &self,
        rt: &R,
        store: &SharedStore<N>,
        pass: &mut StorePass<N>,
        from: u64,
        most: u64,
    ) -> Result<Option<CopiedEntries>, Mem>
        requires { 1 ≤ most }
        ensures grows { IsPrefix pass.old pass.new }
        ensures some { IfOk result (λ some. IfSome some (AreBehind N.app from most pass.new)) }
        ensures none { IfOk result (λ some. some ≡ None → length pass.new ≤ from) }
    {
        CopiedEntries::of_store(rt, self.alloc, store, pass, from, most)
    }

    /// What the publication of the subscription, which has no limited cursor, tells of so many entries of the note's
    /// list, behind the first `from`. None where no one observes. The span is lent, with no lock held: `learn` takes it
    /// back.
    pub fn span<R: Wait>(
        &self,
        rt: &R,
        log: &Log<Entry, N>,
        entries: &CopiedEntries,
        sub: &Sub,
        from: u64,
        count: u64,
        note: Note<Entry, N>,
    ) -> Result<Option<Lent>, Mem>
        requires first { entries.now.first ≤ from }
        requires next { from + count ≤ next_of entries.now }
        requires entries { AreCopiedOf entries.now (over N.app note) }
        requires source { IsSource (cursors_at_of N.app) sub.now }
        ensures answers { IfOk result (λ answer. is_some answer ≡ is_some sub.now.observer) }
        ensures lent { IfOk result (λ answer. IfSome answer (IsLent (over N.app note) sub.now from (from + count))) }
    {
        let mut held = self.held.lock(rt);
        span_by::<N, Brand>(
            &mut held,
            log,
            entries,
            sub,
            from,
            count,
            note,
            Blank::new(1),
        )
    }

    // Whether the publication of the subscription has a source, or may have one at this place of the history while no other
    // goes but one that is far behind. Others may ask meanwhile.
    pub(crate) fn has_room<R: Wait>(&self, rt: &R, sub: &Sub, from: u64) -> bool {
        let held = self.held.lock(rt);
        held.has_room(sub, from)
    }

    /// What the publication of the subscription, which has no limited cursor, tells of the entries between the places of
    /// the history, where each of them is known: none is asked for, and no store. None where one of them is not known.
    /// The span is lent, as by `span`. The pass knows then what the multiplexer does.
    pub fn known<R: Wait>(
        &self,
        rt: &R,
        log: &Log<Entry, N>,
        sub: &Sub,
        from: u64,
        until: u64,
        pass: &mut StorePass<N>,
    ) -> Result<Option<Lent>, Mem>
        requires { IsSource (cursors_at_of N.app) sub.now }
        ensures lent { IfOk result (λ answer. IfSome answer (IsLent (over N.app pass.new) sub.now from until)) }
        ensures grows { IsPrefix pass.old pass.new }
    {
        let mut held = self.held.lock(rt);
        held.known(log, sub, from, until, pass)
    }

    /// The span, which was lent of the note's list, is put back with the texts that are known now.
    pub fn learn<R: Wait>(&self, rt: &R, log: &Log<Entry, N>, lent: Lent, note: Note<Entry, N>)
        requires { WasLent N.app note lent }
    {
        let mut held = self.held.lock(rt);
        held.learn(log, lent, note);
    }

    /// How many answers are kept.
    pub fn kept<R: Wait>(&self, rt: &R) -> u64
        ensures { result ≤ 4096 }
    {
        let held = self.held.lock(rt);
        held.kept()
    }

    /// The multiplexer, when no thread has it any more: each answer that it keeps is that of its pass's list.
    pub fn finish(self) -> HeldMultiplexer<N>
        ensures theirs { AreTheirs N.app result }
        ensures few { kept_in result.news.sources ≤ 4096 }
        ensures light { bytes_kept result.news.sources ≤ 16777216 }
    {
        let SharedMultiplexer { alloc: _, held } = self;
        let held = held.into_inner();
        held.kept();
        held
    }
}
