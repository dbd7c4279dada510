//! What lies under the lock.
ghost use Rattle.std.specs.Prelude.{◌≡◌, ◌≤◌, ◌<◌, ◌+◌, [], length, false, is_some, IfOk, IsTrue};
ghost use mathlib.Core.List.{IsPrefix};
ghost use Rattle.app_model.specs.App.{method as method_of};
ghost use Rattle.history_model.specs.History.{IsLegal, status_in, is_next};
ghost use Rattle.store_machine.specs.State.{programs, held_by};
ghost use Rattle.shared_store.specs.Callers.{AreExact, amounts, out_of};
ghost use Rattle.shared_store.specs.Counting.{counted};
ghost use Rattle.shared_store.specs.Store.{Begins, StepsOn, Makes, Tells, IsShot, Fetches, IsShown, HasCounted, IsTurnedDown};

use crate::answers::{Placed, SharedBegin};
use crate::appending::{append_admin, append_begin, append_step};
use crate::caller::{Caller, Callers};
use app_model::App;
use ejson_value::{Items, Mem, Text, Value};
use pass_log::{Log, Note, Pass, Writer};
use std::alloc::Global;
use std::marker::Model;
use std::sync::ledger::{Book, Share};
use store_machine::{AdminFault, Batch, Entry, Machine};
use store_name::{Snapshot, StoreName};

/// A machine, with the writer of the log that has its history, and the book that counts its callers' entries. A contract
/// sees it as the history.
#[derive(Drop)]
pub struct HeldStore<N: StoreName> {
    pub(crate) machine: Machine,
    pub(crate) writer: Writer<Entry, N>,
    pub(crate) book: Book<N>,
}

impl<N: StoreName> Model for HeldStore<N> {
    ghost use Rattle.std.specs.Prelude.{List};
    ghost use Rattle.std.specs.Coded.{codes};
    ghost use Rattle.value_model.specs.Coding.{val_code};
    ghost use Rattle.history_model.specs.declared.entry.Entry.{Entry};

    ghost Value = { List Entry };

    ghost coded = { Prim.hlevel (codes, val_code) };

    ghost use Rattle.shared_store.specs.Standing.{IsHeld};

    ghost view = { λ s. s.writer };

    ghost invariant = { λ s. IsHeld N.app s.machine s.writer s.book.total };
}

// Why the call can't be begun, whose number is not above those of its session's calls.
fn not_next(machine: &Machine, session: u32, k: u64) -> SharedBegin
    requires none { is_some (status_in (held_by machine.now) session k) ≡ false }
    requires not_next { is_next session k (held_by machine.now).runs ≡ false }
    ensures { IsTurnedDown machine.now session k result }
{
    match machine.last_begun(session) {
        Some(last) => SharedBegin::NotNext { last },
        None => SharedBegin::Memory,
    }
}

impl<N: StoreName> HeldStore<N> {
    /// The store of an application, with an empty history.
    pub(crate) fn new(
        alloc: Global,
        app: &App,
        writer: Writer<Entry, N>,
        book: Book<N>,
    ) -> Result<HeldStore<N>, Mem>
        requires app { app.now ≡ N.app }
        requires writer { writer ≡ [] }
        requires book { book.total ≡ 0 }
        ensures { IfOk result (λ held. held ≡ []) }
    {
        let machine = Machine::new(alloc, app)?;
        Ok(HeldStore {
            machine,
            writer,
            book,
        })
    }

    /// How many entries the history has.
    pub fn length(&self) -> u64
        ensures length { result ≡ length self.now }
        ensures within { length self.now ≤ 1048576 }
    {
        self.machine.length()
    }

    // Lets a pass see the whole history.
    fn show(&mut self, log: &Log<Entry, N>, pass: &mut Pass<Entry, N>)
        ensures same { self.new ≡ self.old }
        ensures shown { IsShown N.app self.old self.old pass.old pass.new }
    {
        let theirs = pass.note(log);
        self.writer.meet(log, theirs);
        let whole = self.writer.note(log);
        pass.meet(log, whole);
    }

    // Begins the call, and counts its entry, if one is made.
    fn begin_counted(
        &mut self,
        log: &Log<Entry, N>,
        share: &mut Share<N>,
        session: u32,
        k: u64,
        method: &Text,
        params: &Items,
        seed: &Value,
    ) -> Result<Placed, SharedBegin>
        requires part { 0 < share.old.parts }
        requires known { IsTrue (is_some (method_of N.app method.now)) }
        ensures begins { Begins N.app session k method.now params.now seed.now self.old self.new result }
        ensures amount { share.new.amount + length self.old ≡ share.old.amount + length self.new }
        ensures parts { share.new.parts ≡ share.old.parts }
    {
        let may = self.machine.may_begin(session, k);
        if !may {
            return Err(not_next(&self.machine, session, k));
        }
        let place = self.machine.length();
        let status = self.machine.begin(session, k, method, params, seed)?;
        if self.machine.length() > place {
            append_begin(&mut self.writer, log, session, k, method, params, seed);
            self.book.add(share, 1);
        }
        Ok(Placed { place, status })
    }

    /// Begins the call `k` of the caller's session, or answers how far its run is where it has one. The pass then has
    /// the whole history.
    pub fn begin(
        &mut self,
        log: &Log<Entry, N>,
        pass: &mut Pass<Entry, N>,
        caller: &mut Caller<N>,
        k: u64,
        method: &Text,
        params: &Items,
        seed: &Value,
    ) -> Result<Placed, SharedBegin>
        requires session { 0 < caller.old.number }
        requires known { IsTrue (is_some (method_of N.app method.now)) }
        ensures begins { Begins N.app caller.old.number k method.now params.now seed.now self.old self.new result }
        ensures shown { IsShown N.app self.old self.new pass.old pass.new }
        ensures counted { HasCounted self.old self.new caller.old caller.new }
    {
        self.show(log, &mut caller.pass);
        self.show(log, pass);
        let before = self.length();
        let begun = self.begin_counted(
            log,
            &mut caller.share,
            caller.number,
            k,
            method,
            params,
            seed,
        );
        caller.made += self.length() - before;
        self.show(log, &mut caller.pass);
        self.show(log, pass);
        begun
    }

    /// The run of the session's call makes its next step. None where it has no run, or one that has ended.
    pub fn step(
        &mut self,
        log: &Log<Entry, N>,
        pass: &mut Pass<Entry, N>,
        session: u32,
        k: u64,
    ) -> Result<Option<Placed>, Mem>
        ensures steps { StepsOn N.app session k self.old self.new result }
        ensures shown { IsShown N.app self.old self.new pass.old pass.new }
    {
        self.show(log, pass);
        let stepped = self.step_on(log, session, k);
        self.show(log, pass);
        stepped
    }

    fn step_on(&mut self, log: &Log<Entry, N>, session: u32, k: u64) -> Result<Option<Placed>, Mem>
        ensures { StepsOn N.app session k self.old self.new result }
    {
        let place = self.machine.length();
        match self.machine.step(session, k)? {
            Some(status) => {
                append_step(&mut self.writer, log, session, k);
                Ok(Some(Placed { place, status }))
            }
            None => Ok(None),
        }
    }

    // Makes the operation, and counts its entry.
    fn admin_counted(
        &mut self,
        log: &Log<Entry, N>,
        share: &mut Share<N>,
        op: &Items,
    ) -> Result<u64, AdminFault>
        requires { 0 < share.old.parts }
        ensures makes { Makes N.app op.now self.old self.new result }
        ensures amount { share.new.amount + length self.old ≡ share.old.amount + length self.new }
        ensures parts { share.new.parts ≡ share.old.parts }
    {
        self.machine.admin(op)?;
        let place = append_admin(&mut self.writer, log, op);
        self.book.add(share, 1);
        Ok(place)
    }

    /// Makes an administrator's operation, and answers the place of its entry.
    pub fn admin(
        &mut self,
        log: &Log<Entry, N>,
        pass: &mut Pass<Entry, N>,
        caller: &mut Caller<N>,
        op: &Items,
    ) -> Result<u64, AdminFault>
        requires { caller.old.number ≡ 0 }
        ensures makes { Makes N.app op.now self.old self.new result }
        ensures shown { IsShown N.app self.old self.new pass.old pass.new }
        ensures counted { HasCounted self.old self.new caller.old caller.new }
    {
        self.show(log, &mut caller.pass);
        self.show(log, pass);
        let before = self.length();
        let made = self.admin_counted(log, &mut caller.share, op);
        caller.made += self.length() - before;
        self.show(log, &mut caller.pass);
        self.show(log, pass);
        made
    }

    /// How far the run of the session's call is now.
    pub fn status(
        &mut self,
        log: &Log<Entry, N>,
        pass: &mut Pass<Entry, N>,
        session: u32,
        k: u64,
    ) -> Result<Option<Placed>, Mem>
        ensures same { self.new ≡ self.old }
        ensures shown { IsShown N.app self.old self.old pass.old pass.new }
        ensures tells { Tells N.app session k self.old result }
    {
        self.show(log, pass);
        let place = self.machine.length();
        match self.machine.status(session, k, place)? {
            Some(status) => Ok(Some(Placed { place, status })),
            None => Ok(None),
        }
    }

    /// The documents now.
    pub fn snapshot(
        &mut self,
        log: &Log<Entry, N>,
        pass: &mut Pass<Entry, N>,
    ) -> Result<Snapshot, Mem>
        ensures same { self.new ≡ self.old }
        ensures shown { IsShown N.app self.old self.old pass.old pass.new }
        ensures shot { IfOk result (IsShot N.app self.old) }
    {
        self.show(log, pass);
        let at = self.machine.length();
        let contents = self.machine.contents_at(at)?;
        Ok(Snapshot { at, contents })
    }

    /// The changes of the entries behind the first `from`, at most `most` of them. None where there is none.
    pub fn batch(
        &mut self,
        log: &Log<Entry, N>,
        pass: &mut Pass<Entry, N>,
        from: u64,
        most: u64,
    ) -> Result<Option<Batch>, Mem>
        requires { 1 ≤ most }
        ensures same { self.new ≡ self.old }
        ensures shown { IsShown N.app self.old self.old pass.old pass.new }
        ensures fetches { Fetches N.app from most self.old result }
    {
        self.show(log, pass);
        let length = self.machine.length();
        if from >= length {
            return Ok(None);
        }
        let count = most.min(length - from);
        Ok(Some(self.machine.batch(from, count)?))
    }

    /// The machine, when all callers are back. It has the store's own history.
    pub fn finish(self, log: &Log<Entry, N>, callers: Callers<N>, note: Note<Entry, N>) -> Machine
        requires parts { N.parts ≡ 65537 }
        requires back { out_of callers.given ≡ 0 }
        ensures app { result.app ≡ N.app }
        ensures history { result.history ≡ self }
        ensures legal { IsLegal (programs N.app) result.history }
        ensures begins { IsPrefix note result.history }
        ensures callers { IsPrefix callers.list result.history }
        ensures exact { AreExact result.history callers.given }
        ensures total { counted result.history ≡ amounts callers.given }
    {
        let HeldStore {
            machine,
            mut writer,
            mut book,
        } = self;
        let Callers {
            mut pass,
            mut share,
            out: _,
            given: _,
        } = callers;
        writer.meet(log, note);
        writer.meet(log, pass.note(log));
        book.audit(&mut share);
        machine
    }
}
