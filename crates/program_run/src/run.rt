//! Runs.
ghost use Rattle.std.specs.Prelude.{◌≡◌, ◌<◌, ◌==◌, ◌∷◌, [], ℕ, suc, true, List, length, drop, slice_get, IfOk, IfErr, IfSome, IfNone, OnOk, OnErr};
ghost use Rattle.std.specs.Prelude.{Option, None, Some, option_map, if◌then◌else◌};
ghost use Rattle.std.specs.Option.{option_copied};
ghost use Rattle.ejson_value.specs.View.{view};
ghost use Rattle.collection_store.specs.Applied.{Applied, applied};
ghost use Rattle.app_model.specs.App.{App as AnApp};
ghost use Rattle.program_steps.specs.declared.step.ProgramStep.{ProgramStep as AStep};
ghost use Rattle.program_steps.specs.Runs.{done, outcome_view};
ghost use Rattle.program_model.specs.Run.{Run as ARun, begun, gone_on, ended};
ghost use Rattle.program_model.specs.Steps.{by_answer, stepped};
ghost use Rattle.program_run.specs.Progress.{with_left, run_of};
ghost use Rattle.program_run.specs.Planned.{setting_of, run_behind, IsStepMade, answered_as, with_ids, progress_with, planned, inserted_id, IsAnswer};

use crate::errors::fault_of;
use crate::plan::{Ids, Plan};
use crate::planning::plan;
use app_model::App;
use collection_store::{Op, OpFault, Reply, Store};
use ejson_codec::text;
use ejson_value::{Changes, Fault, Items, Keys, Mem, Names, Text, Value};
use program_steps::{Outcome, ProgramStep};
use std::alloc::Global;
use std::marker::Model;

/// How far a run of a method is: what the method was called with, how many steps it has made, the ids
/// of the documents that it inserted, and what it came to. The program whose steps it makes stands
/// beside it, and each call is given the same.
#[derive(Drop)]
pub struct Run {
    params: Items,
    seed: Text,
    next: usize,
    made: Names,
    drawn: Names,
    unblocked: bool,
    outcome: Option<Outcome>,
}

impl Model for Run {
    ghost use Rattle.std.specs.Prelude.{option_map};
    ghost use Rattle.std.specs.Coded.{codes};
    ghost use Rattle.value_model.specs.Coding.{val_code};
    ghost use Rattle.program_steps.specs.Runs.{outcome_view};
    ghost use Rattle.program_run.specs.Progress.{Progress};

    ghost Value = { Progress };

    ghost coded = { Prim.hlevel (codes, val_code) };

    ghost view = { λ r. record {
      params = r.params;
      seed = r.seed;
      next = r.next;
      made = r.made;
      drawn = r.drawn;
      unblocked = r.unblocked;
      outcome = option_map outcome_view r.outcome;
    } };
}

/// What a step did: the documents that differ, by key, the keys of those that it inserted, changed,
/// matched or removed, and what the run came to, where it has ended.
#[derive(Drop)]
pub struct Effect {
    pub changes: Changes,
    pub touched: Keys,
    pub outcome: Option<Outcome>,
}

fn no_effect(alloc: Global, outcome: Option<Outcome>) -> Effect
    ensures { result ≡ record { changes = []; touched = []; outcome = outcome } }
{
    Effect {
        changes: Changes::new(alloc),
        touched: Keys::new(alloc),
        outcome,
    }
}

fn effect_of(reply: Reply, outcome: Option<Outcome>) -> Effect
    ensures { result ≡ record { changes = reply.changes; touched = reply.touched; outcome = outcome } }
{
    Effect {
        changes: reply.changes,
        touched: reply.touched,
        outcome,
    }
}

fn copy_outcome(outcome: &Option<Outcome>) -> Result<Option<Outcome>, Mem>
    ensures { IfOk result (λ copy. option_map outcome_view copy ≡ option_map outcome_view outcome.now) }
{
    match outcome {
        Some(outcome) => Ok(Some(outcome.copy()?)),
        None => Ok(None),
    }
}

// A run with no step left has ended, without a result.
fn over_if(is_over: bool) -> Option<Outcome>
    ensures { option_map outcome_view result ≡ (if is_over then Some (done None) else None) }
{
    if is_over {
        Some(Outcome::Done(None))
    } else {
        None
    }
}

// The id that the operation answers, if it is an insert.
fn inserted_id(op: &Op) -> Result<Option<Text>, Mem>
    ensures { IfOk result (λ id. id ≡ inserted_id op.now) }
{
    match op {
        Op::Insert { id, .. } => Ok(Some(id.copy()?)),
        Op::Update { .. } | Op::Remove { .. } => Ok(None),
    }
}

// A second answer: the id of an insert, or the number that the other operations answer.
fn told_again(answer: &Value, id: Option<Text>) -> Value
    requires { IsAnswer id (view answer.now) }
    ensures { view result ≡ view answer.now }
{
    match id {
        Some(id) => Value::Text(id),
        None => match answer {
            Value::Int(number) => Value::Int(*number),
            _ => Value::Null,
        },
    }
}

// What the store answers to the operation: what it did, or the error that tells its refusal. It takes
// the operation, so that no caller has to drop it.
fn answer_of(
    alloc: Global,
    store: &mut Store,
    op: Op,
    room: u64,
) -> Result<Result<Reply, Fault>, Mem>
    ensures does { IfOk result (λ answer. (run : ARun) (next : Applied → ARun) →
        by_answer store.old.rows run (applied store.old.names store.old.rows op room) next ≡ answered_as store.new.rows run next answer) }
    ensures refused { IfOk result (λ answer. IfErr answer (λ fault. store.new ≡ store.old)) }
    ensures answer { IfOk result (λ answer. IfOk answer (λ reply. IsAnswer (inserted_id op) (view reply.answer))) }
    ensures names { store.new.names ≡ store.old.names }
    ensures err { OnErr result (store.new ≡ store.old) }
{
    let applied = store.apply(&op, room);
    drop(op);
    match applied {
        Ok(reply) => Ok(Ok(reply)),
        Err(OpFault::Memory) => Err(Mem),
        Err(refusal) => Ok(Err(fault_of(alloc, refusal)?)),
    }
}

fn step_at(steps: &[ProgramStep], place: usize) -> Option<&ProgramStep>
    ensures { option_copied result ≡ slice_get steps.now place }
{
    steps.get(place)
}

impl Run {
    /// A run of the program of these steps, called with the parameters and the seed. One of a program
    /// without steps has ended.
    pub fn begin(
        alloc: Global,
        steps: &[ProgramStep],
        params: &Items,
        seed: &Value,
    ) -> Result<Run, Mem>
        ensures { IfOk result (λ run. run_of steps.now run ≡ begun params.now (view seed.now) steps.now) }
    {
        let params = params.copy()?;
        let seed = text(alloc, seed)?;
        Ok(Run {
            params,
            seed,
            next: 0,
            made: Names::new(alloc),
            drawn: Names::new(alloc),
            unblocked: false,
            outcome: over_if(steps.is_empty()),
        })
    }

    /// Whether it let the next message be handled (`this.unblock`).
    pub fn is_unblocked(&self) -> bool
        ensures { result ≡ self.now.unblocked }
    {
        self.unblocked
    }

    /// What it came to, once it has ended.
    pub fn outcome(&self) -> &Option<Outcome>
        ensures { option_map outcome_view result.now ≡ self.now.outcome }
    {
        &self.outcome
    }

    pub(crate) fn params(&self) -> &Items
        ensures { result.now ≡ self.now.params }
    {
        &self.params
    }

    pub(crate) fn seed(&self) -> &Text
        ensures { result.now ≡ self.now.seed }
    {
        &self.seed
    }

    pub(crate) fn made(&self) -> &Names
        ensures { result.now ≡ self.now.made }
    {
        &self.made
    }

    pub(crate) fn drawn(&self) -> &Names
        ensures { result.now ≡ self.now.drawn }
    {
        &self.drawn
    }

    /// How many steps of the program it has still to make.
    pub fn left(&self, steps: &[ProgramStep]) -> usize
        ensures { result ≡ length (run_of steps.now self.now).left }
    {
        match &self.outcome {
            Some(_) => 0,
            None => steps.len().saturating_sub(self.next),
        }
    }

    fn next_step<'a>(&self, steps: &'a [ProgramStep]) -> Option<&'a ProgramStep>
        ensures none { IfNone result ((run_of steps.now self.now).left ≡ []) }
        ensures some { IfSome result (λ step. (self.now.outcome ≡ None) × (drop self.now.next steps.now ≡ step.now ∷ drop (suc self.now.next) steps.now)) }
    {
        match &self.outcome {
            Some(_) => None,
            None => step_at(steps, self.next),
        }
    }

    // One step more is made.
    fn go_on(&mut self, steps: &[ProgramStep]) -> Option<Outcome>
        requires left { self.old.next < length steps.now }
        requires goes_on { self.old.outcome ≡ None }
        ensures goes { run_of steps.now self.new ≡ gone_on (run_behind steps.now self.old) }
        ensures told { option_map outcome_view result ≡ self.new.outcome }
    {
        self.next += 1;
        self.outcome = over_if(self.next == steps.len());
        over_if(self.next == steps.len())
    }

    // One step more is made, which writes nothing.
    fn pass(&mut self, alloc: Global, steps: &[ProgramStep]) -> Effect
        requires left { self.old.next < length steps.now }
        requires goes_on { self.old.outcome ≡ None }
        ensures goes { run_of steps.now self.new ≡ gone_on (run_behind steps.now self.old) }
        ensures nothing { (result.changes ≡ []) × (result.touched ≡ []) }
        ensures told { option_map outcome_view result.outcome ≡ self.new.outcome }
    {
        let outcome = self.go_on(steps);
        no_effect(alloc, outcome)
    }

    fn end(&mut self, outcome: Outcome)
        ensures ends { (steps left : List AStep) → run_of steps self.new ≡ ended (outcome_view outcome) (with_left self.old left) }
        ensures told { self.new.outcome ≡ Some (outcome_view outcome) }
    {
        self.outcome = Some(outcome);
    }

    fn end_with(&mut self, alloc: Global, outcome: Outcome) -> Result<Effect, Mem>
        ensures ends { OnOk result ((steps left : List AStep) → run_of steps self.new ≡ ended (outcome_view outcome) (with_left self.old left)) }
        ensures nothing { IfOk result (λ effect. (effect.changes ≡ []) × (effect.touched ≡ [])) }
        ensures told { IfOk result (λ effect. option_map outcome_view effect.outcome ≡ self.new.outcome) }
        ensures err { OnErr result (self.new ≡ self.old) }
    {
        let told = outcome.copy()?;
        self.end(outcome);
        Ok(no_effect(alloc, Some(told)))
    }

    fn end_with_answer(&mut self, reply: Reply, id: Option<Text>) -> Effect
        requires { IsAnswer id (view reply.answer) }
        ensures ends { (steps left : List AStep) → run_of steps self.new ≡ ended (done (Some (view reply.answer))) (with_left self.old left) }
        ensures changes { result.changes ≡ reply.changes }
        ensures touched { result.touched ≡ reply.touched }
        ensures told { option_map outcome_view result.outcome ≡ self.new.outcome }
    {
        let Reply {
            changes,
            touched,
            answer,
        } = reply;
        let told = told_again(&answer, id);
        self.end(Outcome::Done(Some(answer)));
        Effect {
            changes,
            touched,
            outcome: Some(Outcome::Done(Some(told))),
        }
    }

    fn set_ids(&mut self, ids: Option<Ids>)
        ensures { self.new ≡ progress_with ids self.old }
    {
        if let Some(ids) = ids {
            self.made = ids.made;
            self.drawn = ids.drawn;
        }
    }

    // Makes the operation, and the run goes on.
    fn make(
        &mut self,
        alloc: Global,
        steps: &[ProgramStep],
        op: Op,
        ids: Option<Ids>,
        store: &mut Store,
        room: u64,
    ) -> Result<Effect, Mem>
        requires left { self.old.next < length steps.now }
        requires goes_on { self.old.outcome ≡ None }
        ensures does { IfOk result (IsStepMade (by_answer store.old.rows (run_behind steps.now self.old) (applied store.old.names store.old.rows op room)
            (λ a. gone_on (with_ids ids (run_behind steps.now self.old)))) steps.now store.new.rows self.new) }
        ensures told { IfOk result (λ effect. option_map outcome_view effect.outcome ≡ self.new.outcome) }
        ensures names { store.new.names ≡ store.old.names }
        ensures run { OnErr result (self.new ≡ self.old) }
        ensures store { OnErr result (store.new ≡ store.old) }
    {
        match answer_of(alloc, store, op, room)? {
            Ok(reply) => {
                self.set_ids(ids);
                let outcome = self.go_on(steps);
                Ok(effect_of(reply, outcome))
            }
            Err(fault) => self.end_with(alloc, Outcome::Failed(fault)),
        }
    }

    // Makes the operation, and the run ends with its answer.
    fn answer(
        &mut self,
        alloc: Global,
        op: Op,
        ids: Option<Ids>,
        store: &mut Store,
        room: u64,
    ) -> Result<Effect, Mem>
        ensures does { IfOk result (λ effect. (steps left : List AStep) →
            IsStepMade (by_answer store.old.rows (with_left self.old left) (applied store.old.names store.old.rows op room)
            (λ a. ended (done (Some a.answer)) (with_ids ids (with_left self.old left)))) steps store.new.rows self.new effect) }
        ensures told { IfOk result (λ effect. option_map outcome_view effect.outcome ≡ self.new.outcome) }
        ensures names { store.new.names ≡ store.old.names }
        ensures run { OnErr result (self.new ≡ self.old) }
        ensures store { OnErr result (store.new ≡ store.old) }
    {
        let id = inserted_id(&op)?;
        match answer_of(alloc, store, op, room)? {
            Ok(reply) => {
                self.set_ids(ids);
                Ok(self.end_with_answer(reply, id))
            }
            Err(fault) => self.end_with(alloc, Outcome::Failed(fault)),
        }
    }

    fn unblock(&mut self)
        ensures { self.new ≡ record self.old { unblocked = true } }
    {
        self.unblocked = true;
    }

    fn carry_out(
        &mut self,
        alloc: Global,
        steps: &[ProgramStep],
        plan: Plan,
        store: &mut Store,
        room: u64,
    ) -> Result<Effect, Mem>
        requires left { self.old.next < length steps.now }
        requires goes_on { self.old.outcome ≡ None }
        ensures does { IfOk result (λ effect. (app : Option AnApp) → IsStepMade
            (planned (setting_of app store.old room) store.old.rows (run_behind steps.now self.old) plan) steps.now store.new.rows self.new effect) }
        ensures told { IfOk result (λ effect. option_map outcome_view effect.outcome ≡ self.new.outcome) }
        ensures names { store.new.names ≡ store.old.names }
        ensures run { OnErr result (self.new ≡ self.old) }
        ensures store { OnErr result (store.new ≡ store.old) }
    {
        match plan {
            Plan::GoesOn => Ok(self.pass(alloc, steps)),
            Plan::Unblocks => {
                self.unblock();
                Ok(self.pass(alloc, steps))
            }
            Plan::Ends(outcome) => self.end_with(alloc, outcome),
            Plan::Makes(op, ids) => self.make(alloc, steps, op, ids, store, room),
            Plan::Answers(op, ids) => self.answer(alloc, op, ids, store, room),
        }
    }

    /// Makes the next step of the program over the store, whose new documents may have as many bytes
    /// as `room` says, and answers what it did to documents. A run that has ended makes none. A step
    /// that is refused ends the run and leaves the documents as they were. A client's own writes are
    /// judged by the rules of `app`, and none is allowed where there is none.
    pub fn step(
        &mut self,
        alloc: Global,
        steps: &[ProgramStep],
        app: Option<&App>,
        store: &mut Store,
        room: u64,
    ) -> Result<Effect, Mem>
        ensures does { IfOk result (IsStepMade (stepped (setting_of (option_copied app.entry) store.old room) store.old.rows
            (run_of steps.now self.old)) steps.now store.new.rows self.new) }
        ensures told { IfOk result (λ effect. option_map outcome_view effect.outcome ≡ self.new.outcome) }
        ensures names { store.new.names ≡ store.old.names }
        ensures run { OnErr result (self.new ≡ self.old) }
        ensures store { OnErr result (store.new ≡ store.old) }
    {
        let Some(step) = self.next_step(steps) else {
            let outcome = copy_outcome(&self.outcome)?;
            return Ok(no_effect(alloc, outcome));
        };
        let plan = plan(alloc, self, step, app, store)?;
        self.carry_out(alloc, steps, plan, store, room)
    }
}
