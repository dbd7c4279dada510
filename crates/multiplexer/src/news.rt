//! What is made once for all sessions.
ghost use Rattle.std.specs.Prelude.{◌≡◌, ℕ, ◌+◌, ◌*◌, ◌≤◌, ◌<◌, ◌==◌, ◌&&◌, List, length, take, slice_get, option_and_then, None, Some, true};
ghost use Rattle.std.specs.Prelude.{is_some, IfOk, IfSome, OnErr};
ghost use Rattle.std.specs.Arc.{arc_value};
ghost use Rattle.std.specs.List.{AllByRecursion, list_any};
ghost use Rattle.ejson_value.specs.Changes.{news_of};
ghost use Rattle.publication.specs.Published.{published};
ghost use Rattle.live_observer.specs.Observing.{AnObserver};
ghost use Rattle.session_state.specs.declared.subs.Sub.{Sub as ASub};
ghost use Rattle.store_machine.specs.State.{MachineState, programs, held_after};
ghost use Rattle.value_model.specs.Val.{Val as AVal};
ghost use Rattle.multiplexer.specs.Bounds.{max_sources, IsSmall, AreBounded, kept_in, bytes_kept};
ghost use Rattle.multiplexer.specs.Leading.{IsLead};
ghost use Rattle.multiplexer.specs.Looks.{looks, source_for, known_by, known_in, is_behind, has_room};
ghost use Rattle.multiplexer.specs.Others.{OthersStay, LeavesOthers};
ghost use Rattle.multiplexer.specs.Telling.{CursorsAt, nothing_told, batch_of, IsTold, AreTold, IsSource};
ghost use Rattle.multiplexer.specs.Sources.{IsPlaceOf};
ghost use Rattle.multiplexer.specs.Spans.{HasItsSource, IsAsked, IsKnownWhole, IsLent};

use crate::entries::Entries;
use crate::source::{Source, Span};
use ejson_value::{Items, Mem, Text};
use history_log::Batch;
use live_observer::Observer;
use selector_match::Steps;
use session_state::Sub;
use std::alloc::Global;
use std::marker::Model;
use std::sync::Arc;
use std::sync::ledger::Ledger;

/// How many publications are kept at most, each with its parameters.
const MAX_SOURCES: usize = 16;

/// A span that was asked for, of the publication of this name with these parameters.
#[derive(Drop)]
pub struct Lent {
    name: Text,
    params: Arc<Items>,
    pub span: Span,
}

/// What publications, each called with its parameters, tell of the entries of one store's history: what
/// is kept of it is made once, however many sessions ask. The last batch of changes is kept too. A
/// contract sees what each publication tells of each entry that is kept, and the batch.
pub struct Multiplexer {
    alloc: Global,
    sources: Vec<Source>,
    batch: Option<Arc<Batch>>,
}

// A `derive` would have each crate that lets one go prove anew how all that it holds is let go.
impl Drop for Multiplexer {
    fn drop(self) {
        let Multiplexer {
            alloc: _,
            sources,
            batch,
        } = self;
        drop(sources);
        drop(batch);
    }
}

impl Model for Multiplexer {
    ghost use Rattle.std.specs.Prelude.{option_map};
    ghost use Rattle.std.specs.Arc.{arc_value};
    ghost use Rattle.std.specs.Coded.{codes};
    ghost use Rattle.value_model.specs.Coding.{val_code};
    ghost use Rattle.multiplexer.specs.Bounds.{AreBounded};
    ghost use Rattle.multiplexer.specs.Telling.{ANews};

    ghost Value = { ANews };

    ghost coded = { Prim.hlevel (codes, val_code) };

    ghost view = { λ a. record { sources = a.sources.items; batch = option_map (λ batch. arc_value batch) a.batch } };

    ghost invariant = { λ a. AreBounded a.sources.items };
}

fn is_of(batch: &Batch, from: u64, count: u64) -> bool
    ensures { result ≡ (batch.now.from == from && batch.now.count == count) }
{
    batch.from == from && batch.count == count
}

// Where the publication stands first among the sources.
fn place_of(sources: &[Source], name: &Text, params: &Items) -> Option<usize>
    ensures within { IfSome result (λ place. place < length sources.now) }
    ensures place { IfSome result (IsPlaceOf sources.now name.now params.now) }
    ensures first { option_and_then (slice_get sources.now) result ≡ source_for name.now params.now sources.now }
    ensures none { IfSome result (λ place. source_for name.now params.now (take place sources.now) ≡ None) }
{
    for place in 0..sources.len() {
        if sources[place].is_for(name, params) {
            return Some(place);
        }
    }
    None
}

// Where a source stands that is far behind this place of the history, if one does.
fn place_behind(sources: &[Source], from: u64) -> Option<usize>
    ensures within { IfSome result (λ place. place < length sources.now) }
    ensures some { is_some result ≡ list_any (is_behind from) sources.now }
{
    for place in 0..sources.len() {
        if sources[place].is_behind(from) {
            return Some(place);
        }
    }
    None
}

// Whether the publication stands among the sources.
fn has_source(sources: &[Source], name: &Text, params: &Items) -> bool
    ensures { result ≡ is_some (source_for name.now params.now sources.now) }
{
    place_of(sources, name, params).is_some()
}

// How many entries are kept of all.
fn kept_in(sources: &[Source]) -> u64
    requires { AreBounded sources.now }
    ensures { result ≡ kept_in sources.now }
{
    let mut kept = 0u64;
    for place in 0..sources.len() {
        kept += sources[place].kept() as u64;
    }
    kept
}

// What the source at this place, which is the subscription's, tells of the span.
fn span_at<E: Entries, L: Ledger>(
    sources: &mut Vec<Source>,
    place: usize,
    entries: &E,
    sub: &Sub,
    observer: &Observer,
    from: u64,
    until: u64,
    steps: &mut Steps<L>,
) -> Result<Span, Mem>
    requires there { place < length sources.old.items }
    requires place { IsPlaceOf sources.old.items sub.now.name sub.now.params place }
    requires observer { sub.now.observer ≡ Some observer.now }
    requires order { from ≤ until }
    requires first { E.first entries.now ≤ from }
    requires next { until ≤ E.next entries.now }
    ensures bounded { AreBounded sources.old.items → AreBounded sources.new.items }
    ensures there { place < length sources.new.items }
    ensures place { IsPlaceOf sources.new.items sub.now.name sub.now.params place }
    ensures told { (cursors_at : CursorsAt) (m : MachineState) → E.are_of entries.now m →
        AllByRecursion (IsTold cursors_at (programs m.app) m.history) sources.old.items → IsSource cursors_at sub.now →
        IfOk result (IsAsked sub.now.cursors m from until) }
    ensures keeps { (cursors_at : CursorsAt) (m : MachineState) → E.are_of entries.now m →
        AllByRecursion (IsTold cursors_at (programs m.app) m.history) sources.old.items → IsSource cursors_at sub.now →
        AllByRecursion (IsTold cursors_at (programs m.app) m.history) sources.new.items }
    ensures others { OthersStay sub.now.name sub.now.params sources.old.items sources.new.items }
    ensures grows { steps.old ≤ steps.new }
    ensures ticks { (m : MachineState) → E.are_of entries.now m →
        steps.new ≤ steps.old + looks (length observer.now) m (known_by (slice_get sources.old.items place) from until) until }
{
    sources[place].span(entries, observer, from, until, steps)
}

// What the source at this place, which is the subscription's, knows of the span.
fn known_at(
    sources: &mut Vec<Source>,
    place: usize,
    sub: &Sub,
    from: u64,
    until: u64,
) -> Result<Option<Span>, Mem>
    requires there { place < length sources.old.items }
    requires place { IsPlaceOf sources.old.items sub.now.name sub.now.params place }
    ensures bounded { AreBounded sources.old.items → AreBounded sources.new.items }
    ensures there { place < length sources.new.items }
    ensures place { IsPlaceOf sources.new.items sub.now.name sub.now.params place }
    ensures told { (cursors_at : CursorsAt) (m : MachineState) → AllByRecursion (IsTold cursors_at (programs m.app) m.history) sources.old.items →
        IsSource cursors_at sub.now →
        IfOk result (λ answer. IfSome answer (IsAsked sub.now.cursors m from until)) }
    ensures keeps { (cursors_at : CursorsAt) (m : MachineState) → AllByRecursion (IsTold cursors_at (programs m.app) m.history) sources.old.items →
        IsSource cursors_at sub.now →
        AllByRecursion (IsTold cursors_at (programs m.app) m.history) sources.new.items }
    ensures others { OthersStay sub.now.name sub.now.params sources.old.items sources.new.items }
    ensures known { from < until → until ≤ known_by (slice_get sources.old.items place) from until → IfOk result (λ answer. is_some answer ≡ true) }
{
    sources[place].known_span(from, until)
}

// What is lent of a span that the source at this place, which is the subscription's, knows.
fn lend_known(
    sources: &mut Vec<Source>,
    place: usize,
    sub: &Sub,
    from: u64,
    until: u64,
) -> Result<Option<Lent>, Mem>
    requires there { place < length sources.old.items }
    requires place { IsPlaceOf sources.old.items sub.now.name sub.now.params place }
    ensures bounded { AreBounded sources.old.items → AreBounded sources.new.items }
    ensures lent { (cursors_at : CursorsAt) (m : MachineState) → AllByRecursion (IsTold cursors_at (programs m.app) m.history) sources.old.items →
        IsSource cursors_at sub.now →
        IfOk result (λ answer. IfSome answer (IsLent m sub.now from until)) }
    ensures keeps { (cursors_at : CursorsAt) (m : MachineState) → AllByRecursion (IsTold cursors_at (programs m.app) m.history) sources.old.items →
        IsSource cursors_at sub.now →
        AllByRecursion (IsTold cursors_at (programs m.app) m.history) sources.new.items }
    ensures source { IfOk result (λ answer. IfSome answer (HasItsSource sources.new.items)) }
    ensures others { OthersStay sub.now.name sub.now.params sources.old.items sources.new.items }
    ensures known { from < until → until ≤ known_by (slice_get sources.old.items place) from until → IfOk result (λ answer. is_some answer ≡ true) }
{
    let name = sub.name.copy()?;
    let params = sources[place].params()?;
    let known = known_at(sources, place, sub, from, until)?;
    match known {
        Some(span) => Ok(Some(Lent { name, params, span })),
        None => Ok(None),
    }
}

// The span is kept by the source at this place, if there is one.
fn learn_at(sources: &mut Vec<Source>, place: usize, span: Span)
    ensures bounded { AreBounded sources.old.items → AreBounded sources.new.items }
    ensures told { (cursors_at : CursorsAt) (m : MachineState) (sub : ASub) (from until : ℕ) →
        AllByRecursion (IsTold cursors_at (programs m.app) m.history) sources.old.items → IsSource cursors_at sub →
        IsPlaceOf sources.old.items sub.name sub.params place → IsAsked sub.cursors m from until span →
        AllByRecursion (IsTold cursors_at (programs m.app) m.history) sources.new.items }
    ensures known { (name : List ℕ) (params : List AVal) → place < length sources.old.items → source_for name params (take place sources.old.items) ≡ None →
        slice_get sources.old.items place ≡ source_for name params sources.old.items →
        known_in sources.new.items name params span.from span.until ≡ span.until }
    ensures others { (name : List ℕ) (params : List AVal) → IsPlaceOf sources.old.items name params place →
        OthersStay name params sources.old.items sources.new.items }
{
    if let Some(source) = sources.get_mut(place) {
        source.learn(span);
    }
}

impl Multiplexer {
    /// Nothing was asked yet.
    pub fn new(alloc: Global) -> Multiplexer
        ensures { result ≡ nothing_told }
    {
        Multiplexer {
            alloc,
            sources: Vec::new(alloc),
            batch: None,
        }
    }

    /// Forgets all that is told.
    pub fn clear(&mut self)
        ensures { self.new ≡ nothing_told }
    {
        self.sources.clear();
        self.batch = None;
    }

    /// How many answers are kept: of all publications, the entries that are told.
    pub fn kept(&self) -> u64
        ensures kept { result ≡ kept_in self.now.sources }
        ensures few { result ≤ 4096 }
        ensures light { bytes_kept self.now.sources ≤ 16777216 }
    {
        kept_in(self.sources.as_slice())
    }

    // The batch that is kept, where it is of this span.
    fn kept_batch(&self, from: u64, count: u64) -> Result<Option<Arc<Batch>>, Mem>
        ensures { IfOk result (λ kept.
            IfSome kept (λ batch. (self.now.batch ≡ Some (arc_value batch)) × ((arc_value batch).from ≡ from) × ((arc_value batch).count ≡ count))) }
    {
        match &self.batch {
            Some(batch) if is_of(batch, from, count) => Ok(Some(Arc::try_clone(batch)?)),
            _ => Ok(None),
        }
    }

    // The batch of this span, which is kept from now on.
    fn fetched<E: Entries>(&mut self, entries: &E, from: u64, count: u64) -> Result<Arc<Batch>, Mem>
        requires first { E.first entries.now ≤ from }
        requires next { from + count ≤ E.next entries.now }
        ensures batch { (m : MachineState) → E.are_of entries.now m → IfOk result (λ batch. arc_value batch ≡ batch_of m from count) }
        ensures kept { IfOk result (λ batch. self.new ≡ record self.old { batch = Some (arc_value batch) }) }
        ensures same { OnErr result (self.new ≡ self.old) }
    {
        let made = entries.batch_at(from, count)?;
        let batch = Arc::new(self.alloc, made)?;
        self.batch = Some(Arc::try_clone(&batch)?);
        Ok(batch)
    }

    /// The changes of so many entries, behind the first `from` of their history. They are kept from now on.
    pub fn batch<E: Entries>(
        &mut self,
        entries: &E,
        from: u64,
        count: u64,
    ) -> Result<Arc<Batch>, Mem>
        requires first { E.first entries.now ≤ from }
        requires next { from + count ≤ E.next entries.now }
        ensures batch { (cursors_at : CursorsAt) (m : MachineState) → E.are_of entries.now m → AreTold cursors_at m self.old →
            IfOk result (λ batch. arc_value batch ≡ batch_of m from count) }
        ensures told { (cursors_at : CursorsAt) (m : MachineState) → E.are_of entries.now m → AreTold cursors_at m self.old → AreTold cursors_at m self.new }
        ensures kept { IfOk result (λ batch. self.new.batch ≡ Some (arc_value batch)) }
        ensures sources { self.new.sources ≡ self.old.sources }
        ensures same { OnErr result (self.new ≡ self.old) }
    {
        entries.begins();
        let kept = self.kept_batch(from, count)?;
        match kept {
            Some(batch) => Ok(batch),
            None => self.fetched(entries, from, count),
        }
    }

    // Makes room for one source more: where there are as many as may be kept, one that is far behind goes; where none is, all go.
    fn make_room(&mut self, from: u64)
        ensures room { length self.new.sources < max_sources }
        ensures same { length self.old.sources < max_sources → self.new ≡ self.old }
        ensures batch { self.new.batch ≡ self.old.batch }
        ensures keeps { (cursors_at : CursorsAt) (m : MachineState) → AreTold cursors_at m self.old → AreTold cursors_at m self.new }
    {
        if self.sources.len() < MAX_SOURCES {
            return;
        }
        match place_behind(self.sources.as_slice(), from) {
            Some(place) => drop(self.sources.remove(place)),
            None => self.sources.clear(),
        }
    }

    // A source of the publication that begins at this place of the history.
    fn begin(&mut self, name: &Text, params: &Items, from: u64) -> Result<usize, Mem>
        ensures within { IfOk result (λ place. place < length self.new.sources) }
        ensures place { IfOk result (IsPlaceOf self.new.sources name.now params.now) }
        ensures known { IfOk result (λ place. (until : ℕ) → known_by (slice_get self.new.sources place) from until ≡ from) }
        ensures keeps { (cursors_at : CursorsAt) (m : MachineState) → from ≤ length m.history → AreTold cursors_at m self.old → AreTold cursors_at m self.new }
        ensures others { length self.old.sources < max_sources → OthersStay name.now params.now self.old.sources self.new.sources }
        ensures batch { self.new.batch ≡ self.old.batch }
    {
        let source = Source::new(self.alloc, name, params, from)?;
        self.make_room(from);
        self.sources.push(source)?;
        Ok(self.sources.len() - 1)
    }

    // The place of the source of the publication, which may be new.
    fn place(&mut self, name: &Text, params: &Items, from: u64) -> Result<usize, Mem>
        ensures within { IfOk result (λ place. place < length self.new.sources) }
        ensures place { IfOk result (IsPlaceOf self.new.sources name.now params.now) }
        ensures known { IfOk result (λ place. (until : ℕ) →
            known_by (slice_get self.new.sources place) from until ≡ known_in self.old.sources name.now params.now from until) }
        ensures keeps { (cursors_at : CursorsAt) (m : MachineState) → from ≤ length m.history → AreTold cursors_at m self.old → AreTold cursors_at m self.new }
        ensures others { LeavesOthers name.now params.now self.old.sources self.new.sources }
        ensures batch { self.new.batch ≡ self.old.batch }
    {
        match place_of(self.sources.as_slice(), name, params) {
            Some(place) => Ok(place),
            None => self.begin(name, params, from),
        }
    }

    // What is told of the span to an observer of the subscription's publication.
    fn told<E: Entries, L: Ledger>(
        &mut self,
        entries: &E,
        sub: &Sub,
        observer: &Observer,
        from: u64,
        until: u64,
        steps: &mut Steps<L>,
    ) -> Result<Lent, Mem>
        requires observer { sub.now.observer ≡ Some observer.now }
        requires order { from ≤ until }
        requires first { E.first entries.now ≤ from }
        requires next { until ≤ E.next entries.now }
        ensures told { (cursors_at : CursorsAt) (m : MachineState) → E.are_of entries.now m → AreTold cursors_at m self.old →
            IsSource cursors_at sub.now → IfOk result (IsLent m sub.now from until) }
        ensures keeps { (cursors_at : CursorsAt) (m : MachineState) → E.are_of entries.now m → AreTold cursors_at m self.old →
            IsSource cursors_at sub.now → AreTold cursors_at m self.new }
        ensures source { IfOk result (HasItsSource self.new.sources) }
        ensures others { LeavesOthers sub.now.name sub.now.params self.old.sources self.new.sources }
        ensures batch { self.new.batch ≡ self.old.batch }
        ensures grows { steps.old ≤ steps.new }
        ensures ticks { (m : MachineState) → E.are_of entries.now m →
            steps.new ≤ steps.old + looks (length observer.now) m (known_in self.old.sources sub.now.name sub.now.params from until) until }
    {
        entries.begins();
        let name = sub.name.copy()?;
        let place = self.place(&sub.name, &sub.params, from)?;
        let params = self.sources[place].params()?;
        let span = span_at(
            &mut self.sources,
            place,
            entries,
            sub,
            observer,
            from,
            until,
            steps,
        )?;
        Ok(Lent { name, params, span })
    }

    /// What the publication of the subscription, which has no limited cursor, tells of so many entries,
    /// behind the first `from` of their history: by key, each key of which they say something, with the
    /// document that is published then or none; and the texts of these that are known. None where no one
    /// observes. The span is lent: `learn` puts it back, for which its publication has a source. Each change of
    /// an entry that is not known yet is looked at twice at most for each cursor, and no document of one that
    /// is. What is told by the sources of other publications stays, unless a new source has no room beside them:
    /// then one that is far behind goes, or all do.
    pub fn span<E: Entries, L: Ledger>(
        &mut self,
        entries: &E,
        sub: &Sub,
        from: u64,
        count: u64,
        steps: &mut Steps<L>,
    ) -> Result<Option<Lent>, Mem>
        requires first { E.first entries.now ≤ from }
        requires next { from + count ≤ E.next entries.now }
        ensures answers { IfOk result (λ answer. is_some answer ≡ is_some sub.now.observer) }
        ensures told { (cursors_at : CursorsAt) (m : MachineState) → E.are_of entries.now m → AreTold cursors_at m self.old → IsSource cursors_at sub.now →
            IfOk result (λ answer. IfSome answer (λ lent.
            IsLead (published sub.now.cursors (held_after m from).rows) (published sub.now.cursors (held_after m (from + count)).rows)
            (news_of (arc_value lent.span.told)))) }
        ensures lent { (cursors_at : CursorsAt) (m : MachineState) → E.are_of entries.now m → AreTold cursors_at m self.old →
            IsSource cursors_at sub.now → IfOk result (λ answer. IfSome answer (IsLent m sub.now from (from + count))) }
        ensures keeps { (cursors_at : CursorsAt) (m : MachineState) → E.are_of entries.now m → AreTold cursors_at m self.old →
            IsSource cursors_at sub.now → AreTold cursors_at m self.new }
        ensures source { IfOk result (λ answer. IfSome answer (HasItsSource self.new.sources)) }
        ensures others { LeavesOthers sub.now.name sub.now.params self.old.sources self.new.sources }
        ensures batch { self.new.batch ≡ self.old.batch }
        ensures grows { steps.old ≤ steps.new }
        ensures ticks { (cursors_at : CursorsAt) (m : MachineState) → E.are_of entries.now m → IsSource cursors_at sub.now →
            steps.new ≤ steps.old
            + looks (length sub.now.cursors) m (known_in self.old.sources sub.now.name sub.now.params from (from + count)) (from + count) }
        ensures known { (m : MachineState) → E.are_of entries.now m →
            from + count ≤ known_in self.old.sources sub.now.name sub.now.params from (from + count) → steps.new ≡ steps.old }
    {
        entries.begins();
        match &sub.observer {
            Some(observer) => {
                let lent = self.told(entries, sub, observer, from, from + count, steps)?;
                Ok(Some(lent))
            }
            None => Ok(None),
        }
    }

    /// What the publication of the subscription, which has no limited cursor, tells of the entries between the places
    /// of their history, as `span` does, where each of them is known: none is asked for, and no document is looked at.
    /// None where one of them is not known. The span is lent: `learn` puts it back. Other publications keep theirs as
    /// they are.
    pub fn known(&mut self, sub: &Sub, from: u64, until: u64) -> Result<Option<Lent>, Mem>
        ensures lent { (cursors_at : CursorsAt) (m : MachineState) → AreTold cursors_at m self.old → IsSource cursors_at sub.now →
            IfOk result (λ answer. IfSome answer (IsLent m sub.now from until)) }
        ensures keeps { (cursors_at : CursorsAt) (m : MachineState) → AreTold cursors_at m self.old → IsSource cursors_at sub.now →
            AreTold cursors_at m self.new }
        ensures source { IfOk result (λ answer. IfSome answer (HasItsSource self.new.sources)) }
        ensures others { OthersStay sub.now.name sub.now.params self.old.sources self.new.sources }
        ensures batch { self.new.batch ≡ self.old.batch }
        ensures known { from < until → until ≤ known_in self.old.sources sub.now.name sub.now.params from until →
            IfOk result (λ answer. is_some answer ≡ true) }
    {
        match place_of(self.sources.as_slice(), &sub.name, &sub.params) {
            Some(place) => lend_known(&mut self.sources, place, sub, from, until),
            None => Ok(None),
        }
    }

    /// Whether the publication of the subscription has a source, or may have one at this place of the history while no other
    /// goes but one that is far behind.
    pub fn has_room(&self, sub: &Sub, from: u64) -> bool
        ensures { result ≡ has_room self.now.sources sub.now.name sub.now.params from }
    {
        let sources = self.sources.as_slice();
        has_source(sources, &sub.name, &sub.params)
            || sources.len() < MAX_SOURCES
            || place_behind(sources, from).is_some()
    }

    /// The span, with the texts that are known now, is put back: a text is known of a publish where each
    /// client is told it that sees the document as it was published before the span. Others may have
    /// asked meanwhile, and the history may have got longer. Where its publication still has a source, all
    /// of the span is known then. Other publications keep theirs as they are.
    pub fn learn(&mut self, lent: Lent)
        ensures known { HasItsSource self.old.sources lent → IsKnownWhole self.new.sources lent }
        ensures others { OthersStay lent.name (arc_value lent.params) self.old.sources self.new.sources }
        ensures batch { self.new.batch ≡ self.old.batch }
        ensures told { (cursors_at : CursorsAt) (m : MachineState) (sub : ASub) (from until : ℕ) → AreTold cursors_at m self.old →
            IsSource cursors_at sub → IsLent m sub from until lent → AreTold cursors_at m self.new }
    {
        let Lent { name, params, span } = lent;
        if let Some(place) = place_of(self.sources.as_slice(), &name, &params) {
            learn_at(&mut self.sources, place, span);
        }
    }
}
