//! The lock.
ghost use Rattle.std.specs.Prelude.{◌≡◌, ◌≤◌, ◌<◌, [], is_some, IfOk, IsTrue};
ghost use mathlib.Core.List.{IsPrefix};
ghost use Rattle.app_model.specs.App.{method as method_of};
ghost use Rattle.history_model.specs.History.{IsLegal};
ghost use Rattle.store_machine.specs.State.{programs};
ghost use Rattle.shared_store.specs.Callers.{AreExact, amounts, out_of};
ghost use Rattle.shared_store.specs.Counting.{counted};
ghost use Rattle.shared_store.specs.Store.{Once, BeginsAt, StepsAt, MakesAt, IsShown, Tells, IsShot, Fetches};

use crate::answers::{Placed, SharedBegin};
use crate::caller::{Caller, Callers};
use crate::held::HeldStore;
use app_model::App;
use ejson_value::{Items, Mem, Text, Value};
use pass_log::{Log, Note, Opened};
use std::alloc::Global;
use std::sync::ledger::Blank;
use std::sync::{Mutex, Wait};
use store_machine::{AdminFault, Batch, Entry, Machine};
use store_name::{Snapshot, StoreName, StorePass};

/// A store that threads share. Each call takes its lock.
#[derive(Drop)]
pub struct SharedStore<N: StoreName> {
    log: Log<Entry, N>,
    held: Mutex<HeldStore<N>>,
}

impl<N: StoreName> SharedStore<N> {
    /// The store `N`, with an empty history, a pass of it, and its callers, of which none was made.
    pub fn make(
        alloc: Global,
        app: &App,
        opened: Opened<Entry>,
        blank: Blank,
    ) -> Result<(SharedStore<N>, StorePass<N>, Callers<N>), Mem>
        requires log { opened ≡ N.log }
        requires ledger { blank.name ≡ N.name }
        requires parts { blank.parts ≡ N.parts }
        requires many { N.parts ≡ 65537 }
        requires app { app.now ≡ N.app }
        ensures pass { IfOk result (λ made. made.1 ≡ []) }
        ensures callers { IfOk result (λ made. made.2 ≡ record { given = []; list = [] }) }
    {
        let (log, writer, mut pass) = opened.named::<N>();
        let (book, share) = blank.open::<N>();
        let held = HeldStore::new(alloc, app, writer, book)?;
        let callers = Callers::new(alloc, pass.note(&log).pass(), share);
        let store = SharedStore {
            log,
            held: Mutex::new(held),
        };
        Ok((store, pass, callers))
    }

    /// The log of the history.
    pub fn log(&self) -> &Log<Entry, N> {
        &self.log
    }

    /// Begins the call `k` of the caller's session, or answers how far its run is where it has one.
    pub fn begin<R: Wait>(
        &self,
        rt: &R,
        pass: &mut StorePass<N>,
        caller: &mut Caller<N>,
        k: u64,
        method: &Text,
        params: &Items,
        seed: &Value,
    ) -> Result<Placed, SharedBegin>
        requires session { 0 < caller.old.number }
        requires known { IsTrue (is_some (method_of N.app method.now)) }
        ensures { Once (λ before. BeginsAt N.app k method.now params.now seed.now before pass.old pass.new caller.old caller.new result) }
    {
        let mut held = self.held.lock(rt);
        held.begin(&self.log, pass, caller, k, method, params, seed)
    }

    /// The run of the session's call makes its next step. None where it has no run, or one that has ended.
    pub fn step<R: Wait>(
        &self,
        rt: &R,
        pass: &mut StorePass<N>,
        session: u32,
        k: u64,
    ) -> Result<Option<Placed>, Mem>
        ensures { Once (λ before. StepsAt N.app session k before pass.old pass.new result) }
    {
        let mut held = self.held.lock(rt);
        held.step(&self.log, pass, session, k)
    }

    /// Makes an administrator's operation, and answers the place of its entry.
    pub fn admin<R: Wait>(
        &self,
        rt: &R,
        pass: &mut StorePass<N>,
        caller: &mut Caller<N>,
        op: &Items,
    ) -> Result<u64, AdminFault>
        requires { caller.old.number ≡ 0 }
        ensures { Once (λ before. MakesAt N.app op.now before pass.old pass.new caller.old caller.new result) }
    {
        let mut held = self.held.lock(rt);
        held.admin(&self.log, pass, caller, op)
    }

    /// How far the run of the session's call is now.
    pub fn status<R: Wait>(
        &self,
        rt: &R,
        pass: &mut StorePass<N>,
        session: u32,
        k: u64,
    ) -> Result<Option<Placed>, Mem>
        ensures shown { IsShown N.app pass.new pass.new pass.old pass.new }
        ensures tells { Tells N.app session k pass.new result }
    {
        let mut held = self.held.lock(rt);
        held.status(&self.log, pass, session, k)
    }

    /// The documents now.
    pub fn snapshot<R: Wait>(&self, rt: &R, pass: &mut StorePass<N>) -> Result<Snapshot, Mem>
        ensures shown { IsShown N.app pass.new pass.new pass.old pass.new }
        ensures shot { IfOk result (IsShot N.app pass.new) }
    {
        let mut held = self.held.lock(rt);
        held.snapshot(&self.log, pass)
    }

    /// The changes of the entries behind the first `from`, at most `most` of them. None where there is none.
    pub fn batch<R: Wait>(
        &self,
        rt: &R,
        pass: &mut StorePass<N>,
        from: u64,
        most: u64,
    ) -> Result<Option<Batch>, Mem>
        requires { 1 ≤ most }
        ensures shown { IsShown N.app pass.new pass.new pass.old pass.new }
        ensures fetches { Fetches N.app from most pass.new result }
    {
        let mut held = self.held.lock(rt);
        held.batch(&self.log, pass, from, most)
    }

    /// Ends the sharing, when all callers are back.
    pub fn finish(self, callers: Callers<N>, note: Note<Entry, N>) -> Machine
        requires parts { N.parts ≡ 65537 }
        requires back { out_of callers.given ≡ 0 }
        ensures app { result.app ≡ N.app }
        ensures legal { IsLegal (programs N.app) result.history }
        ensures begins { IsPrefix note result.history }
        ensures callers { IsPrefix callers.list result.history }
        ensures exact { AreExact result.history callers.given }
        ensures total { counted result.history ≡ amounts callers.given }
    {
        let SharedStore { log, held } = self;
        held.into_inner().finish(&log, callers, note)
    }
}
