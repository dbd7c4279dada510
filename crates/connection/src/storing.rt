//! What a session does with its store.
ghost use Rattle.std.specs.Prelude.{◌≡◌, ◌+◌, ◌≤◌, ℕ, List, length, true, false, is_some, Some, option_map, IfOk};
ghost use Rattle.app_model.specs.App.{App, method};
ghost use Rattle.connection.specs.history_model.declared.entry.Entry.{Entry};
ghost use Rattle.connection.specs.history_model.History.{status_in, is_next};
ghost use Rattle.connection.specs.store_machine.State.{held_by};
ghost use Rattle.connection.specs.session_model.Subscriptions.{cursor_of};
ghost use Rattle.connection.specs.world_model.declared.events.Act.TheVariants as act;
ghost use Rattle.connection.specs.world_model.Acts.{is_kept};
ghost use Rattle.connection.specs.world_invariant_laws.Session.{IsServed};
ghost use Rattle.connection.specs.connection_laws.Connection.{as_conn, IsConnection};
ghost use Rattle.ejson_value.specs.Changes.{news_of};
ghost use Rattle.connection.specs.session_core.Known.{AreRight, AreLearnt};
ghost use Rattle.connection.specs.Kept.{as_refusal, seen, IsKept};
ghost use Rattle.connection.specs.Answers.{AnswersIn};
ghost use Rattle.connection.specs.Storing.{Tries, Begins, StepsOn, Learns, LearnsFrom, LoadsFrom, AdvancesBy, FeedsBy};

use crate::Call;
use crate::acting::refused;
use crate::connection::Connection;
use crate::history_log::Batch;
use crate::session_state::{cursor_of, may_load};
use crate::side::{Refusal, Side};
use crate::store_machine::{BeginFault, Machine};
use crate::world_model::Answer;
use ejson_value::{Contents, Mem, Publishes};
use known_texts::KnownTexts;
use program_steps::Status;
use selector_match::Steps;
use std::marker::Brand;
use std::sync::ledger::{Blank, Ledger};

// Whether a refusal of the call is kept.
fn is_kept(kept: &Option<Refusal>, k: u64) -> bool
    ensures { result ≡ is_kept k (option_map as_refusal kept.now) }
{
    match kept {
        Some(refusal) => k == refusal.k,
        None => false,
    }
}

// Whether the call has a run.
fn has_run(machine: &Machine, number: u32, k: u64) -> Result<bool, Mem>
    ensures { IfOk result (λ there. there ≡ is_some (status_in (held_by machine.now) number k)) }
{
    Ok(machine.status(number, k, machine.length())?.is_some())
}

// Begins the call, or answers the refusal where the history has no room for it.
fn try_begin(machine: &mut Machine, number: u32, call: &Call) -> Result<Option<Refusal>, Mem>
    requires known { is_some (method machine.old.app call.now.method) ≡ true }
    requires next { is_next number call.now.k (held_by machine.old).runs ≡ true }
    ensures { Tries number call.now machine.old machine.new result }
{
    let at = machine.length();
    match machine.begin(number, call.k, &call.method, &call.params, &call.seed) {
        Ok(status) => {
            drop(status);
            Ok(None)
        }
        Err(BeginFault::Full { .. }) => Ok(Some(Refusal { k: call.k, at })),
        Err(BeginFault::Memory) => Err(Mem),
    }
}

// Begins the call that blocks, unless it has a run or a refusal of it is kept.
fn begin_blocking(side: &mut Side, machine: &mut Machine) -> Result<Answer, Mem>
    requires kept { IsKept side.old }
    requires there { side.old.is_dropped ≡ false }
    requires connection { IsConnection machine.old.app side.old.client.name machine.old.history (seen side.old) }
    requires served { IsServed machine.old.app machine.old.history (as_conn (seen side.old)) }
    ensures kept { IsKept side.new }
    ensures begins { Begins machine.old machine.new (seen side.old) (seen side.new) result }
{
    let Some(call) = side.session.blocking() else {
        return Ok(Answer::Idle);
    };
    if is_kept(&side.kept, call.k) {
        return Ok(Answer::Idle);
    }
    if has_run(machine, side.number, call.k)? {
        return Ok(Answer::Idle);
    }
    match try_begin(machine, side.number, call) {
        Ok(None) => Ok(Answer::Done),
        Ok(Some(refusal)) => {
            side.kept = Some(refusal);
            Ok(Answer::Done)
        }
        Err(mem) => Err(mem),
    }
}

// The session learns that its call was refused.
fn learn_refusal(side: &mut Side, k: u64, refusal: Refusal) -> Result<Answer, Mem>
    requires kept { IsKept side.old }
    requires is { side.old.kept ≡ Some refusal }
    requires its { k ≡ refusal.k }
    ensures kept { IsKept side.new }
    ensures learns { (app : App) (history : List Entry) (at : ℕ) → Learns app history k at (seen side.old) (seen side.new) result }
{
    match side.session.refuse(k, refusal.at) {
        Ok(()) => {
            side.kept = None;
            Ok(Answer::Done)
        }
        Err(fault) => refused(fault),
    }
}

// The session learns that the run of its call had this status at a place of the history.
fn learn_from(side: &mut Side, k: u64, status: &Status) -> Result<Answer, Mem>
    requires kept { IsKept side.old }
    requires free { is_kept k (option_map as_refusal side.old.kept) ≡ false }
    ensures kept { IsKept side.new }
    ensures learns { LearnsFrom k status.now (seen side.old) (seen side.new) result }
{
    match side.session.learn(k, status) {
        Ok(()) => Ok(Answer::Done),
        Err(fault) => refused(fault),
    }
}

// The session learns how far the run of the call was at a place of the history.
fn learn_status(side: &mut Side, machine: &Machine, k: u64, at: u64) -> Result<Answer, Mem>
    requires kept { IsKept side.old }
    requires free { is_kept k (option_map as_refusal side.old.kept) ≡ false }
    ensures kept { IsKept side.new }
    ensures learns { Learns machine.now.app machine.now.history k at (seen side.old) (seen side.new) result }
{
    if at > machine.length() {
        return Ok(Answer::Idle);
    }
    match machine.status(side.number, k, at) {
        Ok(None) => Ok(Answer::Idle),
        Ok(Some(status)) => learn_from(side, k, &status),
        Err(mem) => Err(mem),
    }
}

// The session loads the subscription with the contents of a place of the history.
fn load_from(side: &mut Side, sub: u64, at: u64, contents: &Contents) -> Result<Answer, Mem>
    requires { IsKept side.old }
    ensures kept { IsKept side.new }
    ensures loads { LoadsFrom sub at contents.now (seen side.old) (seen side.new) result }
{
    match side.session.load(sub, at, contents) {
        Ok(()) => Ok(Answer::Done),
        Err(fault) => refused(fault),
    }
}

// Loads the subscription at an earlier place of the history, whose contents are made only where it may
// be loaded there.
fn load_earlier(side: &mut Side, machine: &Machine, sub: u64, at: u64) -> Result<Answer, Mem>
    requires kept { IsKept side.old }
    requires there { at ≤ length machine.now.history }
    ensures kept { IsKept side.new }
    ensures loads { AnswersIn machine.now.app machine.now.history (act.Load sub at) (seen side.old) (seen side.new) result }
{
    if !may_load(side.session.subs(), sub, at) {
        return Ok(Answer::Idle);
    }
    let contents = machine.contents_at(at)?;
    load_from(side, sub, at, &contents)
}

fn advance_by<L: Ledger>(
    side: &mut Side,
    sub: u64,
    batch: &Batch,
    blank: Blank,
) -> Result<Answer, Mem>
    requires kept { IsKept side.old }
    requires name { blank.name ≡ L.name }
    requires parts { blank.parts ≡ L.parts }
    requires whole { blank.parts ≡ 1 }
    ensures kept { IsKept side.new }
    ensures advances { AdvancesBy sub batch.now.from batch.now.count batch.now.changes (seen side.old) (seen side.new) result }
{
    let mut steps = Steps::<L>::new(blank);
    match side.session.advance(sub, batch, &mut steps) {
        Ok(()) => Ok(Answer::Done),
        Err(fault) => refused(fault),
    }
}

// The subscription goes on over so many entries behind the place that it shows.
fn advance_from(
    side: &mut Side,
    machine: &Machine,
    sub: u64,
    from: u64,
    count: u64,
) -> Result<Answer, Mem>
    requires kept { IsKept side.old }
    requires is { cursor_of sub side.old.session.carried.own.subs ≡ Some from }
    requires there { from + count ≤ length machine.now.history }
    ensures kept { IsKept side.new }
    ensures advances { AnswersIn machine.now.app machine.now.history (act.Advance sub count) (seen side.old) (seen side.new) result }
{
    let _length = machine.length();
    let batch = machine.batch(from, count)?;
    advance_by::<Brand>(side, sub, &batch, Blank::new(1))
}

impl Connection {
    /// The store begins the session's call that blocks, or the refusal is kept.
    pub fn begin(&mut self, machine: &mut Machine) -> Result<Answer, Mem>
        requires connection { IsConnection machine.old.app self.old.own.name machine.old.history self.old }
        requires served { IsServed machine.old.app machine.old.history (as_conn self.old) }
        ensures { Begins machine.old machine.new self.old self.new result }
    {
        if self.side.is_dropped {
            return Ok(Answer::Idle);
        }
        begin_blocking(&mut self.side, machine)
    }

    /// The run of the session's call makes its next step.
    pub fn step(&self, machine: &mut Machine, k: u64) -> Result<Answer, Mem>
        ensures { StepsOn k machine.old machine.new self.now result }
    {
        match machine.step(self.side.number, k)? {
            Some(status) => {
                drop(status);
                Ok(Answer::Done)
            }
            None => Ok(Answer::Idle),
        }
    }

    /// The session learns how far the run of the call was at a place of the history, or that the call
    /// was refused.
    pub fn learn(&mut self, machine: &Machine, k: u64, at: u64) -> Result<Answer, Mem>
        ensures { Learns machine.now.app machine.now.history k at self.old self.new result }
    {
        match self.side.kept {
            Some(refusal) if k == refusal.k => learn_refusal(&mut self.side, k, refusal),
            _ => learn_status(&mut self.side, machine, k, at),
        }
    }

    /// The session loads the subscription, at a place of the history.
    pub fn load(&mut self, machine: &Machine, sub: u64, at: u64) -> Result<Answer, Mem>
        ensures { AnswersIn machine.now.app machine.now.history (act.Load sub at) self.old self.new result }
    {
        if at > machine.length() {
            return Ok(Answer::Idle);
        }
        if at == machine.length() {
            return load_from(&mut self.side, sub, at, machine.contents());
        }
        load_earlier(&mut self.side, machine, sub, at)
    }

    /// The session leads the subscription on, by so many entries of the history.
    pub fn advance(&mut self, machine: &Machine, sub: u64, count: u64) -> Result<Answer, Mem>
        ensures { AnswersIn machine.now.app machine.now.history (act.Advance sub count) self.old self.new result }
    {
        let Some(from) = cursor_of(self.side.session.subs(), sub) else {
            return Ok(Answer::Idle);
        };
        let length = machine.length();
        if from > length || count > length - from {
            return Ok(Answer::Idle);
        }
        advance_from(&mut self.side, machine, sub, from, count)
    }

    /// The session leads the subscription on over a batch of entries that was made elsewhere.
    pub fn advance_over(&mut self, sub: u64, batch: &Batch) -> Result<Answer, Mem>
        ensures { AdvancesBy sub batch.now.from batch.now.count batch.now.changes self.old self.new result }
    {
        advance_by::<Brand>(&mut self.side, sub, batch, Blank::new(1))
    }

    /// The session leads the subscription on, by what was told elsewhere of so many entries of the
    /// history.
    pub fn feed(
        &mut self,
        sub: u64,
        count: u64,
        news: &Publishes,
        known: &mut KnownTexts,
    ) -> Result<Answer, Mem>
        requires right { AreRight sub self.old.session.carried.box (news_of news.now) known.old }
        ensures feeds { FeedsBy sub count news.now self.old self.new result }
        ensures learnt { AreLearnt sub self.old.session.carried.box (news_of news.now) known.old known.new }
    {
        match self.side.session.feed(sub, count, news, known) {
            Ok(()) => {}
            Err(fault) => return refused(fault),
        }
        Ok(Answer::Done)
    }
}
