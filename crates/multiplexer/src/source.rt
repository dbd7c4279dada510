//! What a publication tells of entries, one by one.
ghost use Rattle.std.specs.Prelude.{◌≡◌, ℕ, ◌+◌, ◌-◌, ◌*◌, ◌≤◌, ◌<◌, ◌==◌, ◌&&◌, length, map, true, is_some, Some, IfOk, IfSome, OnOk, OnErr, IsTrue};
ghost use Rattle.std.specs.Arc.{arc_value};
ghost use Rattle.publication.specs.Cursors.{ACursors};
ghost use Rattle.live_observer.specs.Observing.{cursors_of, HaveNoLimit};
ghost use Rattle.store_machine.specs.State.{MachineState, programs};
ghost use Rattle.multiplexer.specs.Bounds.{max_entries, max_bytes, bytes_in, IsSmall};
ghost use Rattle.multiplexer.specs.Inside.{seen_entry, seen_span, news_told};
ghost use Rattle.multiplexer.specs.Looks.{looks, is_last, is_for, is_behind, told_until, known_until};
ghost use Rattle.multiplexer.specs.Sources.{max_span, source_of, reached, without_first, trimmed, with_one, next_of, IsToldBy, IsAlike, IsOf};
ghost use Rattle.multiplexer.specs.Sources.{TellsBy, with_last, without_last, HasAll};
ghost use Rattle.multiplexer.specs.Telling.{IsSpan};
ghost use Rattle.multiplexer.specs.Spans.{IsAsked};

use crate::entries::Entries;
use crate::entry::Told;
use crate::joining::joined;
use crate::observing::observed;
use crate::origins::teach;
use crate::params::same_params;
use crate::weighing::counted;
use ejson_value::{Items, Mem, Publishes, Text};
use known_texts::KnownTexts;
use live_observer::Observer;
use selector_match::Steps;
use std::alloc::Global;
use std::marker::Model;
use std::sync::Arc;
use std::sync::ledger::Ledger;

/// How many entries are kept at most.
const MAX_ENTRIES: usize = 256;

/// How many bytes the documents have at most that are told of them.
const MAX_BYTES: u64 = 1_048_576;

/// How many entries a span has at most that is put together of them.
const MAX_SPAN: u64 = 64;

/// What is told of the entries between two places: the news, and the texts of them that clients were
/// told before.
#[derive(Drop)]
pub struct Span {
    from: u64,
    until: u64,
    /// By key, each key of which the entries say something, with the document that is published then or
    /// none.
    pub told: Arc<Publishes>,
    /// The texts that are known, each by the place of its publish.
    pub texts: KnownTexts,
    // The places of those that were not known when the span was put together.
    open: Vec<usize>,
}

/// What a publication, called with its parameters, tells of entries of a history, one after another, and
/// of the span that was asked for last. A contract sees the name, the parameters, how many entries stand
/// before these, what is told of each, and the span.
#[derive(Drop)]
pub(crate) struct Source {
    name: Text,
    params: Arc<Items>,
    first: u64,
    ones: Vec<Told>,
    // The bytes of the documents that are told of them.
    bytes: u64,
    last: Option<Span>,
}

impl Model for Source {
    ghost use Rattle.std.specs.Coded.{codes};
    ghost use Rattle.value_model.specs.Coding.{val_code};
    ghost use Rattle.multiplexer.specs.Telling.{ASource};

    ghost Value = { ASource };

    ghost coded = { Prim.hlevel (codes, val_code) };

    ghost use Rattle.multiplexer.specs.Inside.{seen, IsShort};

    ghost view = { seen };

    ghost invariant = { IsShort };
}

fn is_between(span: &Span, from: u64, until: u64) -> bool
    ensures { result ≡ (span.now.from == from && span.now.until == until) }
{
    span.from == from && span.until == until
}

// What is told of a span whose entries are not told one by one.
fn at_once<E: Entries, L: Ledger>(
    alloc: Global,
    entries: &E,
    observer: &Observer,
    from: u64,
    until: u64,
    steps: &mut Steps<L>,
) -> Result<Told, Mem>
    requires order { from ≤ until }
    requires first { E.first entries.now ≤ from }
    requires next { until ≤ E.next entries.now }
    ensures told { (m : MachineState) → E.are_of entries.now m → HaveNoLimit (cursors_of observer.now) →
        IfOk result (λ told. TellsBy (cursors_of observer.now) m from until (seen_entry told)) }
    ensures grows { steps.old ≤ steps.new }
    ensures ticks { (m : MachineState) → E.are_of entries.now m → steps.new ≤ steps.old + looks (length observer.now) m from until }
{
    let batch = entries.batch_at(from, until - from)?;
    observed(alloc, observer, batch.changes.as_slice(), steps)
}

// The places of publishes of which no text is known.
fn open_places(alloc: Global, told: &Told) -> Result<Vec<usize>, Mem> {
    let mut open = Vec::with_capacity(alloc, told.news.len())?;
    for place in 0..told.news.len() {
        if told.texts.is_open(place) {
            open.push(place)?;
        }
    }
    Ok(open)
}

impl Source {
    /// Nothing is told yet of the entries behind the first `first`.
    pub(crate) fn new(alloc: Global, name: &Text, params: &Items, first: u64) -> Result<Source, Mem>
        ensures { IfOk result (λ source. source ≡ source_of name.now params.now first) }
    {
        let params = Arc::new(alloc, params.copy()?)?;
        Ok(Source {
            name: name.copy()?,
            params,
            first,
            ones: Vec::new(alloc),
            bytes: 0,
            last: None,
        })
    }

    /// Whether it is of the publication of this name with these parameters.
    pub(crate) fn is_for(&self, name: &Text, params: &Items) -> bool
        ensures test { result ≡ is_for name.now params.now self.now }
        ensures is { IsTrue result → IsOf name.now params.now self.now }
    {
        self.name == *name && same_params(&self.params, params)
    }

    /// The parameters of the publication.
    pub(crate) fn params(&self) -> Result<Arc<Items>, Mem>
        ensures { IfOk result (λ params. arc_value params ≡ self.now.params) }
    {
        Ok(Arc::try_clone(&self.params)?)
    }

    /// How many entries are kept.
    pub(crate) fn kept(&self) -> usize
        ensures { result ≡ length self.now.ones }
    {
        self.ones.len()
    }

    fn allocator(&self) -> Global {
        *self.ones.allocator()
    }

    // How many entries stand before the next one.
    fn next(&self) -> u64
        ensures { result ≡ next_of self.now }
    {
        self.first + self.ones.len() as u64
    }

    /// Whether it is so far behind that nothing that it was told would be kept for an entry at this place.
    pub(crate) fn is_behind(&self, from: u64) -> bool
        ensures { result ≡ is_behind from self.now }
    {
        from.saturating_sub(self.next()) >= MAX_ENTRIES as u64
    }

    // Begins anew at an entry so far on that what is told before would not be kept, or where the
    // entries between can't be asked for.
    fn reach(&mut self, begins: u64, from: u64)
        ensures { self.new ≡ reached self.old begins from }
    {
        if self.next() < begins || from.saturating_sub(self.next()) >= MAX_ENTRIES as u64 {
            self.ones.clear();
            self.bytes = 0;
            self.first = from;
        }
    }

    // The first entry goes.
    fn forget_first(&mut self)
        requires { 0 < length self.old.ones }
        ensures { self.new ≡ without_first self.old }
    {
        let one = self.ones.remove(0);
        self.bytes -= counted(&one);
        self.first += 1;
    }

    // Makes room for one entry more: where there is none, the first entry goes.
    fn trim(&mut self)
        ensures trimmed { self.new ≡ trimmed self.old }
        ensures room { length self.new.ones < max_entries }
        ensures next { next_of self.new ≡ next_of self.old }
        ensures first { (from : ℕ) → self.old.first ≤ from → next_of self.old < from + max_entries → self.new.first ≤ from }
    {
        if self.ones.len() >= MAX_ENTRIES {
            self.forget_first();
        }
    }

    // There is an entry more.
    fn push(&mut self, told: Told) -> Result<(), Mem>
        requires numbered { next_of self.old < 18446744073709551615 }
        requires room { length self.old.ones < max_entries }
        ensures ok { OnOk result (self.new ≡ with_one self.old (seen_entry told)) }
        ensures err { OnErr result (self.new ≡ self.old) }
    {
        let bytes = counted(&told);
        self.ones.push(told)?;
        self.bytes += bytes;
        Ok(())
    }

    // What is told of the next entry is kept.
    fn keep(&mut self, told: Told) -> Result<(), Mem>
        requires { next_of self.old < 18446744073709551615 }
        ensures ok { OnOk result (self.new ≡ with_one (trimmed self.old) (seen_entry told)) }
        ensures err { OnErr result (self.new ≡ trimmed self.old) }
        ensures first { (from : ℕ) → self.old.first ≤ from → next_of self.old < from + max_entries → self.new.first ≤ from }
    {
        self.trim();
        self.push(told)
    }

    // The next entry is told.
    fn tell<E: Entries, L: Ledger>(
        &mut self,
        entries: &E,
        observer: &Observer,
        steps: &mut Steps<L>,
    ) -> Result<(), Mem>
        requires first { E.first entries.now ≤ next_of self.old }
        requires next { next_of self.old < E.next entries.now }
        requires numbered { next_of self.old < 18446744073709551615 }
        ensures same { IsAlike self.old self.new }
        ensures next { OnOk result (next_of self.new ≡ next_of self.old + 1) }
        ensures first { (from : ℕ) → self.old.first ≤ from → next_of self.old < from + max_entries → self.new.first ≤ from }
        ensures told { (m : MachineState) → E.are_of entries.now m → HaveNoLimit (cursors_of observer.now) →
            IsToldBy (cursors_of observer.now) m self.old → IsToldBy (cursors_of observer.now) m self.new }
        ensures grows { steps.old ≤ steps.new }
        ensures ticks { (m : MachineState) → E.are_of entries.now m →
            steps.new ≤ steps.old + looks (length observer.now) m (next_of self.old) (next_of self.old + 1) }
    {
        entries.begins();
        let changes = entries.changes_at(self.next());
        let told = observed(self.allocator(), observer, changes, steps)?;
        self.keep(told)
    }

    // The entries are told up to this place of the history, which is not far behind `from`.
    fn fill<E: Entries, L: Ledger>(
        &mut self,
        entries: &E,
        observer: &Observer,
        from: u64,
        until: u64,
        steps: &mut Steps<L>,
    ) -> Result<(), Mem>
        requires kept { self.old.first ≤ from }
        requires near { until ≤ from + max_span }
        requires first { E.first entries.now ≤ next_of self.old }
        requires next { until ≤ E.next entries.now }
        ensures same { IsAlike self.old self.new }
        ensures filled { OnOk result (until ≤ next_of self.new) }
        ensures kept { self.new.first ≤ from }
        ensures told { (m : MachineState) → E.are_of entries.now m → HaveNoLimit (cursors_of observer.now) →
            IsToldBy (cursors_of observer.now) m self.old → IsToldBy (cursors_of observer.now) m self.new }
        ensures grows { steps.old ≤ steps.new }
        ensures ticks { (m : MachineState) → E.are_of entries.now m → steps.new ≤ steps.old + looks (length observer.now) m (next_of self.old) until }
    {
        entries.begins();
        while self.next() < until {
            self.tell(entries, observer, steps)?;
        }
        Ok(())
    }

    // What is told of a span all of whose entries are kept.
    fn told(&self, from: u64, count: u64) -> Result<Told, Mem>
        requires first { self.now.first ≤ from }
        requires next { from + count ≤ next_of self.now }
        ensures { (cursors : ACursors) (m : MachineState) → IsToldBy cursors m self.now →
            IfOk result (λ told. TellsBy cursors m from (from + count) (seen_entry told)) }
    {
        let start = (from - self.first) as usize;
        let some = &self.ones[start..start + count as usize];
        joined(self.allocator(), some)
    }

    // What is told of a short span, put together of its entries.
    fn short<E: Entries, L: Ledger>(
        &mut self,
        entries: &E,
        observer: &Observer,
        from: u64,
        until: u64,
        steps: &mut Steps<L>,
    ) -> Result<Told, Mem>
        requires order { from ≤ until }
        requires kept { self.old.first ≤ from }
        requires near { until ≤ from + max_span }
        requires first { E.first entries.now ≤ from }
        requires next { until ≤ E.next entries.now }
        ensures same { IsAlike self.old self.new }
        ensures keeps { (m : MachineState) → E.are_of entries.now m → HaveNoLimit (cursors_of observer.now) →
            IsToldBy (cursors_of observer.now) m self.old → IsToldBy (cursors_of observer.now) m self.new }
        ensures told { (m : MachineState) → E.are_of entries.now m → HaveNoLimit (cursors_of observer.now) →
            IsToldBy (cursors_of observer.now) m self.old → IfOk result (λ told. TellsBy (cursors_of observer.now) m from until (seen_entry told)) }
        ensures grows { steps.old ≤ steps.new }
        ensures ticks { (m : MachineState) → E.are_of entries.now m → steps.new ≤ steps.old + looks (length observer.now) m (next_of self.old) until }
    {
        self.reach(entries.begins(), from);
        self.fill(entries, observer, from, until, steps)?;
        self.told(from, until - from)
    }

    // What is told of any span.
    fn made<E: Entries, L: Ledger>(
        &mut self,
        entries: &E,
        observer: &Observer,
        from: u64,
        until: u64,
        steps: &mut Steps<L>,
    ) -> Result<Told, Mem>
        requires order { from ≤ until }
        requires first { E.first entries.now ≤ from }
        requires next { until ≤ E.next entries.now }
        ensures same { IsAlike self.old self.new }
        ensures keeps { (m : MachineState) → E.are_of entries.now m → HaveNoLimit (cursors_of observer.now) →
            IsToldBy (cursors_of observer.now) m self.old → IsToldBy (cursors_of observer.now) m self.new }
        ensures told { (m : MachineState) → E.are_of entries.now m → HaveNoLimit (cursors_of observer.now) →
            IsToldBy (cursors_of observer.now) m self.old → IfOk result (λ told. TellsBy (cursors_of observer.now) m from until (seen_entry told)) }
        ensures grows { steps.old ≤ steps.new }
        ensures ticks { (m : MachineState) → E.are_of entries.now m →
            steps.new ≤ steps.old + looks (length observer.now) m (told_until self.old from until) until }
    {
        if self.first <= from && until - from <= MAX_SPAN {
            self.short(entries, observer, from, until, steps)
        } else {
            at_once(self.allocator(), entries, observer, from, until, steps)
        }
    }

    // The span that is kept, where it is this one. None is kept then.
    fn known(&mut self, from: u64, until: u64) -> Option<Span>
        ensures known { IfSome result (λ span. (self.old.last ≡ Some (seen_span span)) × (span.from ≡ from) × (span.until ≡ until)) }
        ensures is { is_some result ≡ is_last self.old.last from until }
        ensures left { self.new ≡ without_last self.old }
    {
        let last = self.last.take()?;
        if is_between(&last, from, until) {
            Some(last)
        } else {
            None
        }
    }

    // Whether the span that is kept is this one.
    fn has_last(&self, from: u64, until: u64) -> bool
        ensures { result ≡ is_last self.now.last from until }
    {
        match &self.last {
            Some(last) => is_between(last, from, until),
            None => false,
        }
    }

    // Whether all entries of a short span are kept.
    fn has(&self, from: u64, until: u64) -> bool
        ensures has { IsTrue result → HasAll self.now from until }
        ensures all { from < until → until ≤ told_until self.now from until → IsTrue result }
    {
        self.first <= from && from <= until && until <= self.next() && until - from <= MAX_SPAN
    }

    // What is told of a span all of whose entries are kept, with the texts that they know.
    fn of_ones(&self, from: u64, until: u64) -> Result<Span, Mem>
        requires { HasAll self.now from until }
        ensures { (cursors : ACursors) (m : MachineState) → IsToldBy cursors m self.now → IfOk result (IsAsked cursors m from until) }
    {
        let told = self.told(from, until - from)?;
        let open = open_places(self.allocator(), &told)?;
        Ok(Span {
            from,
            until,
            told: told.news,
            texts: told.texts,
            open,
        })
    }

    /// What is told of the entries between the places, where each of them is known: none is asked for. It is no
    /// longer kept. None where one of them is not known.
    pub(crate) fn known_span(&mut self, from: u64, until: u64) -> Result<Option<Span>, Mem>
        ensures same { IsAlike self.old self.new }
        ensures small { IsSmall self.old → IsSmall self.new }
        ensures keeps { (cursors : ACursors) (m : MachineState) → IsToldBy cursors m self.old → IsToldBy cursors m self.new }
        ensures told { (cursors : ACursors) (m : MachineState) → IsToldBy cursors m self.old →
            IfOk result (λ answer. IfSome answer (IsAsked cursors m from until)) }
        ensures known { from < until → until ≤ known_until self.old from until → IfOk result (λ answer. is_some answer ≡ true) }
    {
        if self.has_last(from, until) {
            Ok(self.known(from, until))
        } else if self.has(from, until) {
            Ok(Some(self.of_ones(from, until)?))
        } else {
            Ok(None)
        }
    }

    // What is told of a span that is not kept, with the texts that its entries know.
    fn fresh<E: Entries, L: Ledger>(
        &mut self,
        entries: &E,
        observer: &Observer,
        from: u64,
        until: u64,
        steps: &mut Steps<L>,
    ) -> Result<Span, Mem>
        requires order { from ≤ until }
        requires first { E.first entries.now ≤ from }
        requires next { until ≤ E.next entries.now }
        ensures same { IsAlike self.old self.new }
        ensures keeps { (m : MachineState) → E.are_of entries.now m → HaveNoLimit (cursors_of observer.now) →
            IsToldBy (cursors_of observer.now) m self.old → IsToldBy (cursors_of observer.now) m self.new }
        ensures told { (m : MachineState) → E.are_of entries.now m → HaveNoLimit (cursors_of observer.now) →
            IsToldBy (cursors_of observer.now) m self.old → IfOk result (IsAsked (cursors_of observer.now) m from until) }
        ensures grows { steps.old ≤ steps.new }
        ensures ticks { (m : MachineState) → E.are_of entries.now m →
            steps.new ≤ steps.old + looks (length observer.now) m (told_until self.old from until) until }
    {
        entries.begins();
        let told = self.made(entries, observer, from, until, steps)?;
        let open = open_places(self.allocator(), &told)?;
        Ok(Span {
            from,
            until,
            told: told.news,
            texts: told.texts,
            open,
        })
    }

    // The first entries go while the documents that are told have too many bytes.
    fn shrink(&mut self)
        ensures same { IsAlike self.old self.new }
        ensures small { IsSmall self.new }
        ensures keeps { (cursors : ACursors) (m : MachineState) → IsToldBy cursors m self.old → IsToldBy cursors m self.new }
    {
        while self.bytes > MAX_BYTES {
            self.forget_first();
        }
    }

    // What is told of the entries between the places. Too many may be kept then.
    fn asked<E: Entries, L: Ledger>(
        &mut self,
        entries: &E,
        observer: &Observer,
        from: u64,
        until: u64,
        steps: &mut Steps<L>,
    ) -> Result<Span, Mem>
        requires order { from ≤ until }
        requires first { E.first entries.now ≤ from }
        requires next { until ≤ E.next entries.now }
        ensures same { IsAlike self.old self.new }
        ensures keeps { (m : MachineState) → E.are_of entries.now m → HaveNoLimit (cursors_of observer.now) →
            IsToldBy (cursors_of observer.now) m self.old → IsToldBy (cursors_of observer.now) m self.new }
        ensures told { (m : MachineState) → E.are_of entries.now m → HaveNoLimit (cursors_of observer.now) →
            IsToldBy (cursors_of observer.now) m self.old → IfOk result (IsAsked (cursors_of observer.now) m from until) }
        ensures grows { steps.old ≤ steps.new }
        ensures ticks { (m : MachineState) → E.are_of entries.now m →
            steps.new ≤ steps.old + looks (length observer.now) m (known_until self.old from until) until }
    {
        match self.known(from, until) {
            Some(span) => Ok(span),
            None => self.fresh(entries, observer, from, until, steps),
        }
    }

    /// What is told of the entries between the places, to an observer of the publication. It is no
    /// longer kept.
    pub(crate) fn span<E: Entries, L: Ledger>(
        &mut self,
        entries: &E,
        observer: &Observer,
        from: u64,
        until: u64,
        steps: &mut Steps<L>,
    ) -> Result<Span, Mem>
        requires order { from ≤ until }
        requires first { E.first entries.now ≤ from }
        requires next { until ≤ E.next entries.now }
        ensures same { IsAlike self.old self.new }
        ensures small { IsSmall self.new }
        ensures keeps { (m : MachineState) → E.are_of entries.now m → HaveNoLimit (cursors_of observer.now) →
            IsToldBy (cursors_of observer.now) m self.old → IsToldBy (cursors_of observer.now) m self.new }
        ensures told { (m : MachineState) → E.are_of entries.now m → HaveNoLimit (cursors_of observer.now) →
            IsToldBy (cursors_of observer.now) m self.old → IfOk result (IsAsked (cursors_of observer.now) m from until) }
        ensures grows { steps.old ≤ steps.new }
        ensures ticks { (m : MachineState) → E.are_of entries.now m →
            steps.new ≤ steps.old + looks (length observer.now) m (known_until self.old from until) until }
    {
        let asked = self.asked(entries, observer, from, until, steps);
        self.shrink();
        asked
    }

    // The texts that are known of the span are known of its entries too, where they are kept.
    fn teach(&mut self, span: &Span)
        ensures same { IsAlike self.old self.new }
        ensures small { IsSmall self.old → IsSmall self.new }
        ensures told { (cursors : ACursors) (m : MachineState) → IsToldBy cursors m self.old →
            IsSpan cursors (programs m.app) m.history (seen_span span.now) → IsToldBy cursors m self.new }
    {
        if self.has(span.from, span.until) {
            let start = (span.from - self.first) as usize;
            let end = (span.until - self.first) as usize;
            teach(
                &mut self.ones,
                start,
                end,
                &span.told,
                &span.texts,
                span.open.as_slice(),
            );
        }
    }

    // The span is kept.
    fn keep_span(&mut self, span: Span)
        ensures { self.new ≡ with_last self.old (seen_span span) }
    {
        self.last = Some(span);
    }

    /// The span, with the texts that are known now, is kept, and its entries learn them.
    pub(crate) fn learn(&mut self, span: Span)
        ensures same { IsAlike self.old self.new }
        ensures kept { self.new.last ≡ Some (seen_span span) }
        ensures small { IsSmall self.old → IsSmall self.new }
        ensures told { (cursors : ACursors) (m : MachineState) → IsToldBy cursors m self.old →
            IsSpan cursors (programs m.app) m.history (seen_span span) → IsToldBy cursors m self.new }
    {
        let mut span = span;
        self.teach(&span);
        span.open.clear();
        self.keep_span(span);
    }
}
