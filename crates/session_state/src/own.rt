//! All of a session's subscriptions and calls.
ghost use Rattle.std.specs.Prelude.{◌≡◌, ◌<◌, ◌++◌, ◌∷◌, [], Some, option_map, IfOk, IfSome, OnOk};
ghost use Rattle.live_observer.specs.Observing.{IsPlanOf, carried};
ghost use Rattle.session_model.specs.State.{started};
ghost use Rattle.session_model.specs.Methods.{freed};
ghost use Rattle.session_journal_laws.specs.Stands.{fired_state};
ghost use Rattle.session_state.specs.declared.own.Step.TheVariants as step;
ghost use Rattle.session_state.specs.Own.{as_state, as_blocking, stepped, turned_state, started_by, ended_by, told_with, watch_after, CanStep};
ghost use Rattle.session_state.specs.Own.{HasRoom, SameOwn, max_items};
ghost use Rattle.session_model.specs.Observers.{observer_at, observers_with, observers_changed};
ghost use Rattle.session_state.specs.Subs.{observers_of};
ghost use Rattle.session_state.specs.Calls.{as_phase, has_refused, passed_by};
ghost use Rattle.session_state.specs.Progress.{progress_of};

use crate::calls::{Method, Phase, fire, has_refused, more_settled, turn};
use crate::kept::Own;
use crate::progress::{
    Progress, progress_closed, progress_loaded, progress_now, progress_opened, updated_ids,
};
use crate::subs::{Sub, close, commit, load, sub_of, watch};
use ejson_value::{Items, Mem, Names, Text, Value};
use live_observer::{Observer, Plan};
use std::alloc::Global;

/// A call that is to be run: the session's call of this number.
#[derive(Drop)]
pub struct Call {
    pub k: u64,
    pub method: Text,
    pub params: Items,
    pub seed: Value,
}

/// What an item of the journal does to subscriptions and calls.
#[derive(Drop)]
pub enum Step {
    Stay,
    Connect,
    Fail,
    /// The subscription is opened; it has the next number.
    Open(Sub),
    /// The subscription with this number shows this place of the history from now on.
    Show { sub: u64, at: u64 },
    Close { sub: u64 },
    /// The call of this id is handled, and blocks; it has the next number.
    Handle { id: Text, call: Call },
    Refuse { k: u64 },
    Unblock { k: u64 },
    Finish { k: u64, at: u64 },
}

// What still blocks once the call of this number doesn't.
fn freed(blocking: Option<Call>, k: u64) -> Option<Call>
    ensures { option_map as_blocking result ≡ freed k (option_map as_blocking blocking) }
{
    match blocking {
        Some(call) if call.k != k => Some(call),
        _ => None,
    }
}

// The calls that need not be looked at where so many are settled and the call of that number ends.
fn passed_by(settled: usize, ended: Option<(u64, u64)>) -> usize
    ensures { result ≡ passed_by settled ended }
{
    match ended {
        Some((k, _)) => settled.min(k as usize),
        None => settled,
    }
}

impl Step {
    /// The call that blocks from the step on.
    pub fn started(&self) -> Option<u64>
        ensures { result ≡ started_by self.now }
    {
        match self {
            Step::Handle { call, .. } => Some(call.k),
            _ => None,
        }
    }

    /// The call that ended, and where.
    pub fn ended(&self) -> Option<(u64, u64)>
        ensures { result ≡ ended_by self.now }
    {
        match self {
            Step::Finish { k, at } => Some((*k, *at)),
            _ => None,
        }
    }
}

impl Own {
    /// Nothing was taken.
    pub fn new(alloc: Global) -> Own
        ensures { as_state result ≡ started }
    {
        Own {
            connected: false,
            failed: false,
            subs: Vec::new(alloc),
            opened: 0,
            methods: Vec::new(alloc),
            blocking: None,
            reach: 0,
            settled: 0,
        }
    }

    /// Makes room for one more subscription and one more call.
    pub fn reserve(&mut self) -> Result<(), Mem>
        ensures same { SameOwn self.old self.new }
        ensures room { OnOk result (HasRoom self.new) }
    {
        self.subs.reserve(1)?;
        self.methods.reserve(1)?;
        Ok(())
    }

    /// How far the live subscriptions are after the step.
    pub fn progress_after(&self, step: &Step) -> Progress
        ensures { result ≡ progress_of (stepped step.now (as_state self.now)).subs }
    {
        let subs = self.subs.as_slice();
        match step {
            Step::Open(sub) => progress_opened(subs, sub),
            Step::Show { sub, at } => progress_loaded(subs, *sub, *at),
            Step::Close { sub } => progress_closed(subs, *sub),
            _ => progress_now(subs),
        }
    }

    /// The ids of the calls that are told with the step, by rising number.
    pub fn told(&self, alloc: Global, step: &Step, progress: &Progress) -> Result<Names, Mem>
        requires can { CanStep step.now (as_state self.now) }
        requires progress { progress.now ≡ progress_of (stepped step.now (as_state self.now)).subs }
        ensures { IfOk result (λ ids. ids ≡ told_with step.now (as_state self.now)) }
    {
        let ended = step.ended();
        let passed = passed_by(self.settled, ended);
        let ids = updated_ids(alloc, self.methods.as_slice(), passed, ended, progress)?;
        Ok(ids)
    }

    // The subscription is opened, in the room that was made.
    fn open(&mut self, sub: Sub)
        requires room { HasRoom self.old }
        requires few { self.old.opened < max_items }
        ensures opened { as_state self.new ≡ stepped (step.Open sub) (as_state self.old) }
        ensures observers { observers_of self.new.subs.items ≡ observers_of self.old.subs.items ++ sub.observer ∷ [] }
    {
        self.subs.push(sub).unwrap();
        self.opened += 1;
    }

    // The subscription shows this place.
    fn show(&mut self, sub: u64, at: u64)
        ensures shown { as_state self.new ≡ stepped (step.Show sub at) (as_state self.old) }
        ensures observers { observers_of self.new.subs.items ≡ observers_of self.old.subs.items }
    {
        load(&mut self.subs, sub, at);
        self.reach = self.reach.max(at);
    }

    // The call is handled, in the room that was made.
    fn handle(&mut self, id: Text, call: Call)
        requires { HasRoom self.old }
        ensures handled { as_state self.new ≡ stepped (step.Handle id call) (as_state self.old) }
        ensures subs { self.new.subs ≡ self.old.subs }
    {
        let phase = Phase::Running;
        self.methods.push(Method { id, phase }).unwrap();
        self.blocking = Some(call);
    }

    // The call of this number blocks no longer.
    fn free(&mut self, k: u64)
        ensures freed { as_state self.new ≡ stepped (step.Unblock k) (as_state self.old) }
        ensures subs { self.new.subs ≡ self.old.subs }
    {
        let blocking = self.blocking.take();
        self.blocking = freed(blocking, k);
    }

    // The call is so far, and blocks no longer.
    fn end(&mut self, k: u64, phase: Phase)
        ensures turned { as_state self.new ≡ turned_state k (as_phase phase) (as_state self.old) }
        ensures subs { self.new.subs ≡ self.old.subs }
    {
        self.settled = self.settled.min(k as usize);
        turn(&mut self.methods, k, phase);
        self.free(k);
    }

    // Carries the step out.
    fn carry(&mut self, step: Step)
        requires room { HasRoom self.old }
        requires few { self.old.opened < max_items }
        ensures stepped { as_state self.new ≡ stepped step (as_state self.old) }
        ensures observers { observers_of self.new.subs.items ≡ watch_after step self.old }
    {
        match step {
            Step::Stay => {}
            Step::Connect => self.connected = true,
            Step::Fail => self.failed = true,
            Step::Open(sub) => self.open(sub),
            Step::Show { sub, at } => self.show(sub, at),
            Step::Close { sub } => close(&mut self.subs, sub),
            Step::Handle { id, call } => self.handle(id, call),
            Step::Refuse { k } => self.end(k, Phase::Refused),
            Step::Unblock { k } => self.free(k),
            Step::Finish { k, at } => {
                self.end(k, Phase::Finished { at });
                self.reach = self.reach.max(at);
            }
        }
    }

    /// The observer of the subscription with this number, once it is loaded.
    pub fn observer_of(&self, number: u64) -> Option<&Observer>
        ensures { option_map (λ o. o.now) result ≡ observer_at number (as_state self.now).subs (observers_of self.now.subs.items) }
    {
        sub_of(self.subs.as_slice(), number)?.observer.as_ref()
    }

    /// The subscription with this number has this observer from now on.
    pub fn watch(&mut self, number: u64, observer: Observer)
        ensures same { as_state self.new ≡ as_state self.old }
        ensures observers { observers_of self.new.subs.items
            ≡ observers_with number (Some observer) (as_state self.old).subs (observers_of self.old.subs.items) }
    {
        watch(&mut self.subs, number, observer);
    }

    /// Carries out what the observer of the subscription with this number has planned.
    pub fn commit(&mut self, number: u64, plan: Plan)
        requires { IfSome (observer_at number (as_state self.old).subs (observers_of self.old.subs.items)) (λ o. IsPlanOf o plan) }
        ensures same { as_state self.new ≡ as_state self.old }
        ensures observers { observers_of self.new.subs.items
            ≡ observers_changed number (λ o. carried o plan) (as_state self.old).subs (observers_of self.old.subs.items) }
    {
        commit(&mut self.subs, number, plan);
    }

    /// Whether the history had no room for some call.
    pub fn has_refused(&self) -> bool
        ensures { result ≡ has_refused (as_state self.now).methods }
    {
        has_refused(self.methods.as_slice())
    }

    /// Carries the step out, and tells each finished call whose fence is open then. `reserve` has
    /// made the room that it needs.
    pub fn take(&mut self, step: Step, progress: &Progress)
        requires room { HasRoom self.old }
        requires few { self.old.opened < max_items }
        requires progress { progress.now ≡ progress_of (stepped step (as_state self.old)).subs }
        ensures fired { as_state self.new ≡ fired_state (stepped step (as_state self.old)) }
        ensures observers { observers_of self.new.subs.items ≡ watch_after step self.old }
    {
        self.carry(step);
        fire(&mut self.methods, self.settled, progress);
        self.settled = more_settled(self.methods.as_slice(), self.settled);
    }
}
