//! Sessions.
ghost use Rattle.std.specs.Prelude.{◌≡◌, length, map, slice_get, option_map, option_copied, IfOk};
ghost use Rattle.session_core.specs.session_model.Subscriptions.{sub_named};
ghost use Rattle.session_core.specs.session_laws.Session.{new_session};
ghost use Rattle.session_core.specs.session_laws.Events.{Sends, Closes};
ghost use Rattle.session_core.specs.session_state.Own.{as_blocking};
ghost use Rattle.session_core.specs.session_state.Subs.{as_live, observers_of};
ghost use Rattle.session_state.specs.Work.{as_work, work_of, running_from};
ghost use Rattle.session_state.specs.Journal.{runs};
ghost use Rattle.session_core.specs.Limits.{is_limited};
ghost use Rattle.session_core.specs.Lines.{lines_of};

use crate::inner::{Inner, MAX_ITEMS, new_inner};
use crate::outside::send;
use crate::session_state::{Call, Sub, sub_named};
use crate::session_texts::Texts;
use app_model::App;
use ejson_value::{Mem, Text};
use json::Scratch;
use session_state::{Line, Work, running, tasks_of};
use std::alloc::Global;
use std::marker::Model;

/// A session of the server. It takes texts and makes texts, and keeps a journal of what it did. It
/// keeps neither the texts that it took, nor the moments of its store, nor the texts that were sent:
/// it stands for them by a relation that each event keeps. A call of `learn` or `refuse` hands in
/// what is so at some moment of the store.
pub struct Session {
    pub(crate) inner: Inner,
}

// A `derive` would have each crate that lets one go prove anew how all that it holds is let go.
impl Drop for Session {
    fn drop(self) {
        let Session { inner } = self;
        drop(inner);
    }
}

impl Model for Session {
    ghost use Rattle.std.specs.Coded.{codes};
    ghost use Rattle.value_model.specs.Coding.{val_code};
    ghost use Rattle.selector_match.specs.Coding.{query_code};
    ghost use Rattle.sort_window.specs.Coding.{window_code};
    ghost use Rattle.session_core.specs.session_laws.Session.{ASession};
    ghost use Rattle.session_core.specs.Kept.{seen, IsKept};

    ghost Value = { ASession };

    ghost coded = { Prim.hlevel (codes, val_code, query_code, window_code) };

    ghost view = { λ a. seen a.inner };

    ghost invariant = { λ a. IsKept a.inner };
}

impl Session {
    /// A session that has taken nothing.
    pub fn new(alloc: Global, app: &App, number: u32) -> Result<Session, Mem>
        ensures { IfOk result (λ session. session ≡ new_session app.now number) }
    {
        let app = app.copy()?;
        let scratch = Box::new(alloc, Scratch::new(alloc))?;
        Ok(Session {
            inner: new_inner(alloc, app, number, scratch),
        })
    }

    /// Takes the text out that is sent next. None where there is none, or the session was closed.
    pub fn send(&mut self) -> Option<Text>
        ensures { Sends self.old self.new result }
    {
        send(&mut self.inner)
    }

    /// The session is over: it takes no further event, and sends nothing.
    pub fn close(&mut self)
        ensures { Closes self.old self.new }
    {
        self.inner.dropped = true;
    }

    /// What is to be done for the session.
    pub fn work(&self) -> Result<Work, Mem>
        ensures { IfOk result (λ work. as_work work ≡ work_of self.now.carried.own) }
    {
        tasks_of(self.inner.alloc, &self.inner.parts.own)
    }

    /// The number of the live subscription with this id.
    pub fn sub_of(&self, id: &Text) -> Option<u64>
        ensures { result ≡ sub_named id.now self.now.carried.own.subs }
    {
        sub_named(self.inner.parts.own.subs.as_slice(), id)
    }

    /// The live subscriptions, by rising number.
    pub fn subs(&self) -> &[Sub]
        ensures live { map as_live result.now ≡ self.now.carried.own.subs }
        ensures observers { observers_of result.now ≡ self.now.observers }
    {
        self.inner.parts.own.subs.as_slice()
    }

    /// How many messages wait to be handled.
    pub fn waiting(&self) -> usize
        ensures { result ≡ length self.now.carried.waiting }
    {
        self.inner.places.len()
    }

    /// The call that blocks, if one does.
    pub fn blocking(&self) -> Option<&Call>
        ensures { option_map as_blocking (option_copied result) ≡ self.now.carried.own.blocking }
    {
        self.inner.parts.own.blocking.as_ref()
    }

    /// The numbers of the calls that run, rising.
    pub fn running(&self) -> Result<Vec<u64>, Mem>
        ensures { IfOk result (λ calls. calls.items ≡ running_from 0 self.now.carried.own.methods) }
    {
        running(self.inner.alloc, &self.inner.parts.own)
    }

    /// Whether a `connect` of another version was taken.
    pub fn failed(&self) -> bool
        ensures { result ≡ self.now.carried.own.failed }
    {
        self.inner.parts.own.failed
    }

    /// Whether the journal is full or a call was refused.
    pub fn limited(&self) -> bool
        ensures { result ≡ is_limited self.now }
    {
        self.inner.parts.journal.len() >= MAX_ITEMS || self.inner.parts.own.has_refused()
    }

    /// How many records the journal has: runs of equal neighbouring advances, and other items.
    pub fn records(&self) -> u64
        ensures { result ≡ length (runs (lines_of self.now)) }
    {
        self.inner.parts.journal.records()
    }

    /// The record at this place: an item with the id that a print of it shows, and how many such
    /// items stand there.
    pub fn record(&self, place: usize) -> Option<(&Line, u64)>
        ensures { option_map (λ r. (r.0.now, r.1)) result ≡ slice_get (runs (lines_of self.now)) place }
    {
        self.inner.parts.journal.record(place)
    }

    /// How many texts each item has.
    pub fn counts(&self) -> &[usize]
        ensures { result.now ≡ self.now.carried.counts }
    {
        self.inner.parts.journal.counts()
    }

    /// The texts that are to be sent.
    pub fn outbox(&self) -> &Texts
        ensures { result.now.items ≡ self.now.carried.outbox }
    {
        &self.inner.parts.outbox
    }
}
