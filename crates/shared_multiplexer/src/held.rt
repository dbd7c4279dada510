//! Multiplexers with a pass.
ghost use Rattle.std.specs.Prelude.{◌≡◌, ◌+◌, ◌<◌, ◌≤◌, length, true, is_some, IfOk, IfSome};
ghost use mathlib.Core.List.{IsPrefix};
ghost use Rattle.std.specs.Arc.{arc_value};
ghost use Rattle.pass_log.specs.History.{longer};
ghost use Rattle.world_news_laws.specs.multiplexer.Bounds.{kept_in, bytes_kept};
ghost use Rattle.world_news_laws.specs.multiplexer.Looks.{looks, known_in, has_room};
ghost use Rattle.world_news_laws.specs.multiplexer.Others.{OthersStay, LeavesOthers};
ghost use Rattle.world_news_laws.specs.multiplexer.Spans.{HasItsSource, IsKnownWhole, IsLent};
ghost use Rattle.world_news_laws.specs.multiplexer.Telling.{nothing_told, IsSource};
ghost use Rattle.world_news_laws.specs.Sources.{cursors_at_of};
ghost use Rattle.shared_store.specs.Store.{over};
ghost use Rattle.shared_multiplexer.specs.Copied.{next_of, AreCopiedOf};
ghost use Rattle.shared_multiplexer.specs.Told.{AreTheirs, WasLent};

use crate::copied::CopiedEntries;
use ejson_value::Mem;
use history_model::entry::Entry;
use pass_log::{Log, Note};
use selector_match::Steps;
use session_state::Sub;
use std::alloc::Global;
use std::marker::Model;
use std::sync::ledger::Ledger;
use store_name::{StoreName, StorePass};
use world_news_laws::multiplexer::{Lent, Multiplexer};

/// A multiplexer of the store `N`, with a pass of its history. Each answer that is kept is that of the pass's list.
#[derive(Drop)]
pub struct HeldMultiplexer<N: StoreName> {
    multiplexer: Multiplexer,
    pass: StorePass<N>,
}

impl<N: StoreName> Model for HeldMultiplexer<N> {
    ghost use Rattle.std.specs.Coded.{codes};
    ghost use Rattle.value_model.specs.Coding.{val_code};
    ghost use Rattle.shared_multiplexer.specs.Told.{AHeldNews, AreTheirs};

    ghost Value = { AHeldNews };

    ghost coded = { Prim.hlevel (codes, val_code) };

    ghost view = { λ h. record { news = h.multiplexer; list = h.pass } };

    ghost invariant = { λ h. AreTheirs N.app (record { news = h.multiplexer; list = h.pass }) };
}

impl<N: StoreName> HeldMultiplexer<N> {
    /// Nothing was asked yet.
    pub fn make(alloc: Global, pass: StorePass<N>) -> HeldMultiplexer<N>
        ensures { result ≡ record { news = nothing_told; list = pass } }
    {
        let multiplexer = Multiplexer::new(alloc);
        HeldMultiplexer { multiplexer, pass }
    }

    /// How many answers are kept. Each is that of the pass's list.
    pub fn kept(&self) -> u64
        ensures kept { result ≡ kept_in self.now.news.sources }
        ensures few { result ≤ 4096 }
        ensures light { bytes_kept self.now.news.sources ≤ 16777216 }
        ensures theirs { AreTheirs N.app self.now }
    {
        self.multiplexer.kept()
    }

    /// The pass takes a note. What is kept stays.
    pub fn meet(&mut self, log: &Log<Entry, N>, note: Note<Entry, N>)
        ensures list { self.new.list ≡ longer self.old.list note }
        ensures own { IsPrefix self.old.list self.new.list }
        ensures theirs { IsPrefix note self.new.list }
        ensures same { self.new.news ≡ self.old.news }
    {
        self.pass.meet(log, note);
    }

    // What is told of entries that are of the pass's list.
    fn told<L: Ledger>(
        &mut self,
        entries: &CopiedEntries,
        sub: &Sub,
        from: u64,
        count: u64,
        steps: &mut Steps<L>,
    ) -> Result<Option<Lent>, Mem>
        requires first { entries.now.first ≤ from }
        requires next { from + count ≤ next_of entries.now }
        requires entries { AreCopiedOf entries.now (over N.app self.old.list) }
        requires source { IsSource (cursors_at_of N.app) sub.now }
        ensures answers { IfOk result (λ answer. is_some answer ≡ is_some sub.now.observer) }
        ensures lent { IfOk result (λ answer. IfSome answer (IsLent (over N.app self.old.list) sub.now from (from + count))) }
        ensures source { IfOk result (λ answer. IfSome answer (HasItsSource self.new.news.sources)) }
        ensures others { LeavesOthers sub.now.name sub.now.params self.old.news.sources self.new.news.sources }
        ensures list { self.new.list ≡ self.old.list }
        ensures grows { steps.old ≤ steps.new }
        ensures ticks { steps.new ≤ steps.old + looks (length sub.now.cursors) (over N.app self.old.list)
            (known_in self.old.news.sources sub.now.name sub.now.params from (from + count)) (from + count) }
        ensures known { from + count ≤ known_in self.old.news.sources sub.now.name sub.now.params from (from + count) → steps.new ≡ steps.old }
    {
        self.multiplexer.span(entries, sub, from, count, steps)
    }

    /// What the publication of the subscription, which has no limited cursor, tells of so many entries of the note's
    /// list, behind the first `from`. None where no one observes. Each change of an entry that is not known yet is looked
    /// at twice at most for each cursor, and no document of one that is. The span is lent: `learn` takes it back, for which
    /// its publication has a source. What is told by the sources of other publications stays, unless a new source has no
    /// room beside them: then one that is far behind goes, or all do.
    pub fn span<L: Ledger>(
        &mut self,
        log: &Log<Entry, N>,
        entries: &CopiedEntries,
        sub: &Sub,
        from: u64,
        count: u64,
        note: Note<Entry, N>,
        steps: &mut Steps<L>,
    ) -> Result<Option<Lent>, Mem>
        requires first { entries.now.first ≤ from }
        requires next { from + count ≤ next_of entries.now }
        requires entries { AreCopiedOf entries.now (over N.app note) }
        requires source { IsSource (cursors_at_of N.app) sub.now }
        ensures answers { IfOk result (λ answer. is_some answer ≡ is_some sub.now.observer) }
        ensures lent { IfOk result (λ answer. IfSome answer (IsLent (over N.app note) sub.now from (from + count))) }
        ensures source { IfOk result (λ answer. IfSome answer (HasItsSource self.new.news.sources)) }
        ensures others { LeavesOthers sub.now.name sub.now.params self.old.news.sources self.new.news.sources }
        ensures list { self.new.list ≡ longer self.old.list note }
        ensures own { IsPrefix self.old.list self.new.list }
        ensures theirs { IsPrefix note self.new.list }
        ensures grows { steps.old ≤ steps.new }
        ensures ticks { steps.new ≤ steps.old + looks (length sub.now.cursors) (over N.app note)
            (known_in self.old.news.sources sub.now.name sub.now.params from (from + count)) (from + count) }
        ensures known { from + count ≤ known_in self.old.news.sources sub.now.name sub.now.params from (from + count) → steps.new ≡ steps.old }
    {
        self.meet(log, note);
        self.told(entries, sub, from, count, steps)
    }

    /// Whether the publication of the subscription has a source, or may have one at this place of the history while no other
    /// goes but one that is far behind.
    pub fn has_room(&self, sub: &Sub, from: u64) -> bool
        ensures { result ≡ has_room self.now.news.sources sub.now.name sub.now.params from }
    {
        self.multiplexer.has_room(sub, from)
    }

    // A note of the pass's list.
    fn note(&mut self, log: &Log<Entry, N>) -> Note<Entry, N>
        ensures note { result ≡ self.old.list }
        ensures same { self.new ≡ self.old }
    {
        self.pass.note(log)
    }

    // What is known of entries of the pass's list.
    fn known_here(&mut self, sub: &Sub, from: u64, until: u64) -> Result<Option<Lent>, Mem>
        requires { IsSource (cursors_at_of N.app) sub.now }
        ensures lent { IfOk result (λ answer. IfSome answer (IsLent (over N.app self.old.list) sub.now from until)) }
        ensures source { IfOk result (λ answer. IfSome answer (HasItsSource self.new.news.sources)) }
        ensures others { OthersStay sub.now.name sub.now.params self.old.news.sources self.new.news.sources }
        ensures list { self.new.list ≡ self.old.list }
        ensures known { from < until → until ≤ known_in self.old.news.sources sub.now.name sub.now.params from until →
            IfOk result (λ answer. is_some answer ≡ true) }
    {
        self.multiplexer.known(sub, from, until)
    }

    /// What the publication of the subscription, which has no limited cursor, tells of the entries between the places,
    /// where each of them is known: none is asked for, and no document is looked at. None where one of them is not known.
    /// The span is lent: `learn` takes it back. Both passes have met then. Other publications keep theirs as they are.
    pub fn known(
        &mut self,
        log: &Log<Entry, N>,
        sub: &Sub,
        from: u64,
        until: u64,
        pass: &mut StorePass<N>,
    ) -> Result<Option<Lent>, Mem>
        requires { IsSource (cursors_at_of N.app) sub.now }
        ensures lent { IfOk result (λ answer. IfSome answer (IsLent (over N.app pass.new) sub.now from until)) }
        ensures source { IfOk result (λ answer. IfSome answer (HasItsSource self.new.news.sources)) }
        ensures others { OthersStay sub.now.name sub.now.params self.old.news.sources self.new.news.sources }
        ensures grows { IsPrefix pass.old pass.new }
        ensures list { self.new.list ≡ longer self.old.list pass.old }
        ensures own { IsPrefix self.old.list self.new.list }
        ensures theirs { IsPrefix pass.old self.new.list }
        ensures known { from < until → until ≤ known_in self.old.news.sources sub.now.name sub.now.params from until →
            IfOk result (λ answer. is_some answer ≡ true) }
    {
        self.meet(log, pass.note(log));
        pass.meet(log, self.note(log));
        self.known_here(sub, from, until)
    }

    /// The span, which was lent of the note's list, is put back with the texts that are known now. Others may have asked
    /// meanwhile. Where its publication still has a source, all of the span is known then. Other publications keep theirs as
    /// they are.
    pub fn learn(&mut self, log: &Log<Entry, N>, lent: Lent, note: Note<Entry, N>)
        requires { WasLent N.app note lent }
        ensures known { HasItsSource self.old.news.sources lent → IsKnownWhole self.new.news.sources lent }
        ensures others { OthersStay lent.name (arc_value lent.params) self.old.news.sources self.new.news.sources }
        ensures list { self.new.list ≡ longer self.old.list note }
        ensures own { IsPrefix self.old.list self.new.list }
        ensures theirs { IsPrefix note self.new.list }
    {
        self.pass.meet(log, note);
        self.multiplexer.learn(lent);
    }

    /// The pass.
    pub fn finish(self) -> StorePass<N>
        ensures { result ≡ self.list }
    {
        let HeldMultiplexer { multiplexer, pass } = self;
        drop(multiplexer);
        pass
    }
}
