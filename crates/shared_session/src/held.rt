//! Sessions with a pass.
ghost use Rattle.std.specs.Prelude.{◌≡◌, map, option_map, option_copied, length, Some, IfOk, IfSome, IsTrue, IsFalse};
ghost use Rattle.ejson_value.specs.Changes.{news_of};
ghost use Rattle.shared_session.specs.Reached.{AreReached};
ghost use Rattle.session_model.specs.Subscriptions.{cursor_of, sub_named};
ghost use Rattle.session_laws.specs.Session.{new_session};
ghost use Rattle.session_laws.specs.Events.{Advances, cursors_at};
ghost use Rattle.session_state.specs.Own.{as_blocking};
ghost use Rattle.session_state.specs.Subs.{as_live, observers_of};
ghost use Rattle.session_state.specs.Work.{as_work, work_of, running_from};
ghost use Rattle.session_core.specs.Known.{AreRight, AreLearnt};
ghost use Rattle.session_core.specs.Limits.{is_limited};
ghost use Rattle.shared_session.specs.Held.{Stands};
ghost use Rattle.shared_session.specs.Standing.{WereThere, WereMade, WasSo, HadNoRoom, WereTold};
ghost use Rattle.shared_session.specs.Events.{Keeps, Meets, TakesHeld, HandlesHeld, SendsHeld, ClosesHeld, LoadsHeld, AdvancesHeld, FeedsHeld};
ghost use Rattle.shared_session.specs.Events.{LearnsHeld, RefusesHeld, AdvancesFrom, FeedsFrom};

use app_model::App;
use ejson_value::{Mem, Publishes, Text};
use history_model::entry::Entry;
use known_texts::KnownTexts;
use pass_log::{Log, Note};
use program_steps::Status;
use selector_match::Steps;
use session_core::{Batch, Call, EventFault, Session, Sub, Work};
use std::alloc::Global;
use std::marker::{Brand, Model};
use std::sync::ledger::{Blank, Ledger};
use store_name::{Snapshot, StoreName, StorePass};

/// A session of the store `N`, with a pass of its history. The session stands for the texts that it took and those that
/// it sent, over the moments of the pass's list.
#[derive(Drop)]
pub struct HeldSession<N: StoreName> {
    session: Session,
    pass: StorePass<N>,
}

impl<N: StoreName> Model for HeldSession<N> {
    ghost use Rattle.std.specs.Coded.{codes};
    ghost use Rattle.value_model.specs.Coding.{val_code};
    ghost use Rattle.selector_match.specs.Coding.{query_code};
    ghost use Rattle.sort_window.specs.Coding.{window_code};
    ghost use Rattle.shared_session.specs.Held.{AHeld, IsKept};

    ghost Value = { AHeld };

    ghost coded = { Prim.hlevel (codes, val_code, query_code, window_code) };

    ghost view = { λ h. record { session = h.session; list = h.pass } };

    ghost invariant = { λ h. IsKept N.app (record { session = h.session; list = h.pass }) };
}

// The place that the subscription with this number shows.
fn cursor_of(subs: &[Sub], number: u64) -> Option<u64>
    ensures { result ≡ cursor_of number (map as_live subs.now) }
{
    for sub in subs {
        if number == sub.sub {
            return sub.cursor;
        }
    }
    None
}

// The subscription shows this place.
fn is_at(session: &Session, sub: u64, from: u64) -> bool
    ensures yes { IsTrue result → cursor_of sub session.now.carried.own.subs ≡ Some from }
    ensures no { IsFalse result → cursor_of sub session.now.carried.own.subs ≡ Some from → ⊥ }
{
    match cursor_of(session.subs(), sub) {
        Some(at) => at == from,
        None => false,
    }
}

// The ledger counts how often the observer asks.
fn advance_by<L: Ledger>(
    session: &mut Session,
    sub: u64,
    batch: &Batch,
    blank: Blank,
) -> Result<(), EventFault>
    requires name { blank.name ≡ L.name }
    requires parts { blank.parts ≡ L.parts }
    requires whole { blank.parts ≡ 1 }
    ensures { Advances sub batch.now.from batch.now.count batch.now.changes session.old session.new result }
{
    let mut steps = Steps::<L>::new(blank);
    session.advance(sub, batch, &mut steps)
}

fn advance(session: &mut Session, sub: u64, batch: &Batch) -> Result<(), EventFault>
    ensures { AdvancesFrom sub batch.now.from batch.now.count batch.now.changes session.old session.new result }
{
    let here = is_at(session, sub, batch.from);
    if here {
        advance_by::<Brand>(session, sub, batch, Blank::new(1))
    } else {
        Err(EventFault::Idle)
    }
}

fn feed(
    session: &mut Session,
    sub: u64,
    from: u64,
    count: u64,
    news: &Publishes,
    known: &mut KnownTexts,
) -> Result<(), EventFault>
    requires right { AreRight sub session.old.carried.box (news_of news.now) known.old }
    ensures feeds { FeedsFrom sub from count news.now session.old session.new result }
    ensures learnt { AreLearnt sub session.old.carried.box (news_of news.now) known.old known.new }
{
    let here = is_at(session, sub, from);
    if here {
        session.feed(sub, count, news, known)
    } else {
        Err(EventFault::Idle)
    }
}

impl<N: StoreName> HeldSession<N> {
    /// A session that has taken nothing, with this pass.
    pub fn make(
        alloc: Global,
        app: &App,
        number: u32,
        pass: StorePass<N>,
    ) -> Result<HeldSession<N>, Mem>
        requires { app.now ≡ N.app }
        ensures { IfOk result (λ held. held ≡ record { session = new_session N.app number; list = pass }) }
    {
        let session = Session::new(alloc, app, number)?;
        Ok(HeldSession { session, pass })
    }

    /// The pass takes a note. The session stays.
    pub fn meet(&mut self, log: &Log<Entry, N>, note: Note<Entry, N>)
        ensures meets { Meets note self.old self.new }
        ensures same { self.new.session ≡ self.old.session }
        ensures keeps { Keeps self.old self.new }
    {
        self.pass.meet(log, note);
    }

    /// Takes a text of the client.
    pub fn take(&mut self, text: &Text) -> Result<(), EventFault>
        ensures { TakesHeld text.now self.old self.new result }
    {
        self.session.take(text)
    }

    /// Handles the message that came first, unless a call blocks.
    pub fn handle(&mut self) -> Result<(), EventFault>
        ensures { HandlesHeld self.old self.new result }
    {
        self.session.handle()
    }

    /// The subscription shows what it publishes of the snapshot, which was taken at a place of the note's list.
    pub fn load(
        &mut self,
        log: &Log<Entry, N>,
        sub: u64,
        shot: &Snapshot,
        note: Note<Entry, N>,
    ) -> Result<(), EventFault>
        requires { WereThere N.app note shot.now.at shot.now.contents }
        ensures { LoadsHeld sub shot.now.at shot.now.contents note self.old self.new result }
    {
        self.pass.meet(log, note);
        self.session.load(sub, shot.at, &shot.contents)
    }

    /// The subscription goes on over a batch of entries of the note's list. `Idle` also where the batch doesn't begin at
    /// the place that the subscription shows.
    pub fn advance(
        &mut self,
        log: &Log<Entry, N>,
        sub: u64,
        batch: &Batch,
        note: Note<Entry, N>,
    ) -> Result<(), EventFault>
        requires { WereMade N.app note batch.now.from batch.now.count batch.now.changes }
        ensures { AdvancesHeld sub batch.now.from batch.now.count batch.now.changes note self.old self.new result }
    {
        self.pass.meet(log, note);
        advance(&mut self.session, sub, batch)
    }

    /// The subscription goes `count` entries on, by what was told elsewhere of the entries of the note's list behind the
    /// first `from`. `Idle` also where the subscription doesn't show that place.
    pub fn feed(
        &mut self,
        log: &Log<Entry, N>,
        sub: u64,
        from: u64,
        count: u64,
        news: &Publishes,
        known: &mut KnownTexts,
        note: Note<Entry, N>,
    ) -> Result<(), EventFault>
        requires told { WereTold N.app note (cursors_at sub self.old.session) from count news.now }
        requires right { AreRight sub self.old.session.carried.box (news_of news.now) known.old }
        ensures feeds { FeedsHeld sub from count news.now note self.old self.new result }
        ensures learnt { AreLearnt sub self.old.session.carried.box (news_of news.now) known.old known.new }
    {
        self.pass.meet(log, note);
        feed(&mut self.session, sub, from, count, news, known)
    }

    /// The run of the call of this number had this status after some entries of the note's list.
    pub fn learn(
        &mut self,
        log: &Log<Entry, N>,
        k: u64,
        status: &Status,
        note: Note<Entry, N>,
    ) -> Result<(), EventFault>
        requires { WasSo N.app self.old.session.carried.number note k status.now }
        ensures { LearnsHeld k status.now note self.old self.new result }
    {
        self.pass.meet(log, note);
        self.session.learn(k, status)
    }

    /// The history, when it had the first `at` entries of the note's list, had no room for the call of this number.
    pub fn refuse(
        &mut self,
        log: &Log<Entry, N>,
        k: u64,
        at: u64,
        note: Note<Entry, N>,
    ) -> Result<(), EventFault>
        requires { IfSome self.old.session.carried.own.blocking (λ call. call.k ≡ k → HadNoRoom N.app self.old.session.carried.number note at k call) }
        ensures { RefusesHeld k at note self.old self.new result }
    {
        self.pass.meet(log, note);
        self.session.refuse(k, at)
    }

    /// Takes the text out that is sent next.
    pub fn send(&mut self) -> Option<Text>
        ensures { SendsHeld self.old self.new result }
    {
        self.session.send()
    }

    /// What is to be done for the session, with a note of the pass's list. It has each place that a subscription may not
    /// show less than.
    pub fn work(&mut self, log: &Log<Entry, N>) -> Result<(Work, Note<Entry, N>), Mem>
        ensures same { self.new ≡ self.old }
        ensures work { IfOk result (λ r. as_work r.0 ≡ work_of self.old.session.carried.own) }
        ensures note { IfOk result (λ r. r.1 ≡ self.old.list) }
        ensures reached { AreReached (length self.old.list) self.old.session.carried.own.subs }
    {
        let work = self.session.work()?;
        Ok((work, self.pass.note(log)))
    }

    /// The session is over.
    pub fn close(&mut self)
        ensures { ClosesHeld self.old self.new }
    {
        self.session.close();
    }

    /// The number of the live subscription with this id.
    pub fn sub_of(&self, id: &Text) -> Option<u64>
        ensures { result ≡ sub_named id.now self.now.session.carried.own.subs }
    {
        self.session.sub_of(id)
    }

    /// The live subscriptions, by rising number.
    pub fn subs(&self) -> &[Sub]
        ensures live { map as_live result.now ≡ self.now.session.carried.own.subs }
        ensures observers { observers_of result.now ≡ self.now.session.observers }
    {
        self.session.subs()
    }

    /// How many messages wait to be handled.
    pub fn waiting(&self) -> usize
        ensures { result ≡ length self.now.session.carried.waiting }
    {
        self.session.waiting()
    }

    /// The call that blocks, if one does.
    pub fn blocking(&self) -> Option<&Call>
        ensures { option_map as_blocking (option_copied result) ≡ self.now.session.carried.own.blocking }
    {
        self.session.blocking()
    }

    /// The numbers of the calls that run, rising.
    pub fn running(&self) -> Result<Vec<u64>, Mem>
        ensures { IfOk result (λ calls. calls.items ≡ running_from 0 self.now.session.carried.own.methods) }
    {
        self.session.running()
    }

    /// Whether a `connect` of another version was taken.
    pub fn failed(&self) -> bool
        ensures { result ≡ self.now.session.carried.own.failed }
    {
        self.session.failed()
    }

    /// Whether the journal is full or a call was refused.
    pub fn limited(&self) -> bool
        ensures { result ≡ is_limited self.now.session }
    {
        self.session.limited()
    }

    /// The session, which is one of the store's application, and the pass.
    pub fn finish(self) -> (Session, StorePass<N>)
        ensures session { result.0 ≡ self.session }
        ensures pass { result.1 ≡ self.list }
        ensures served { self.session.carried.app ≡ N.app }
        ensures stands { Stands self }
    {
        let HeldSession { session, pass } = self;
        (session, pass)
    }
}
