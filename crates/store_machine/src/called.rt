//! Calls whose runs have begun.
ghost use Rattle.std.specs.Prelude.{◌≡◌, length, nat_le, Some, None, IfOk, OnErr, option_map, if◌then◌else◌};
ghost use Rattle.app_model.specs.App.{App as AnApp, method as method_of};
ghost use Rattle.program_steps.specs.Runs.{outcome_view};
ghost use Rattle.program_model.specs.Run.{begun};
ghost use Rattle.ejson_value.specs.View.{view};
ghost use Rattle.history_model.specs.History.{steps_of, status_of};
ghost use Rattle.store_machine.specs.Places.{is_by, noted};
ghost use Rattle.store_machine.specs.Standing.{end_in, called_by, begun_of, HasStepped};

use app_model::App;
use collection_store::Store;
use ejson_value::{Changes, Items, Mem, Text, Value};
use program_run::{Effect, Run};
use program_steps::{End, Outcome, ProgramStep, Status};
use std::alloc::Global;

/// A call's run, with the method whose steps it makes and the places of the history at which it began,
/// let the next message be handled, and made its last entry. A place counts the entries up to it.
#[derive(Drop)]
pub(crate) struct Called {
    pub(crate) method: Text,
    pub(crate) run: Run,
    pub(crate) begun: u64,
    pub(crate) unblocked: Option<u64>,
    pub(crate) at: u64,
}

/// What a step of a call's run did to documents, and how far the run is.
#[derive(Drop)]
pub(crate) struct Made {
    pub(crate) changes: Changes,
    pub(crate) status: Status,
}

/// The steps of the method of this name.
pub(crate) fn steps_of<'a>(app: &'a App, name: &Text) -> &'a [ProgramStep]
    ensures { result.now ≡ steps_of (method_of app.now name.now) }
{
    match app.method(name) {
        Some(program) => program.steps.as_slice(),
        None => &[],
    }
}

/// How a run that came to this ended.
pub(crate) fn end_of(outcome: Option<Outcome>, at: u64) -> Option<End>
    ensures { result ≡ end_in (option_map outcome_view outcome) at }
{
    match outcome {
        Some(outcome) => Some(End { outcome, at }),
        None => None,
    }
}

fn end_at(outcome: &Option<Outcome>, at: u64) -> Result<Option<End>, Mem>
    ensures { IfOk result (λ end. end ≡ end_in (option_map outcome_view outcome.now) at) }
{
    match outcome {
        None => Ok(None),
        Some(outcome) => Ok(Some(End {
            outcome: outcome.copy()?,
            at,
        })),
    }
}

// What a step that had this effect made.
fn made_of(effect: Effect, unblocked: bool, at: u64) -> Made
    ensures { result
        ≡ record { changes = effect.changes; status = record { unblocked = unblocked; ended = end_in (option_map outcome_view effect.outcome) at } } }
{
    let Effect {
        changes,
        outcome,
        ..
    } = effect;
    let ended = end_of(outcome, at);
    Made {
        changes,
        status: Status { unblocked, ended },
    }
}

fn is_by(place: Option<u64>, at: u64) -> bool
    ensures { result ≡ is_by at place }
{
    match place {
        None => false,
        Some(place) => place <= at,
    }
}

fn noted(place: Option<u64>, free: bool, now: u64) -> Option<u64>
    ensures { result ≡ noted place free now }
{
    match place {
        Some(place) => Some(place),
        None => { if free { Some(now) } else { None } }
    }
}

impl Called {
    /// A call whose run begins at the place.
    pub(crate) fn begin(
        alloc: Global,
        app: &App,
        method: &Text,
        params: &Items,
        seed: &Value,
        place: u64,
    ) -> Result<Called, Mem>
        ensures places { IfOk result (λ c. (c.method ≡ method.now) × (c.begun ≡ place) × (c.unblocked ≡ None) × (c.at ≡ place)) }
        ensures run { IfOk result (λ c. (begun_of app.now c).run ≡ begun params.now (view seed.now) (steps_of (method_of app.now method.now))) }
    {
        let run = Run::begin(alloc, steps_of(app, method), params, seed)?;
        Ok(Called {
            method: method.copy()?,
            run,
            begun: place,
            unblocked: None,
            at: place,
        })
    }

    /// How far the run is.
    pub(crate) fn now(&self) -> Result<Status, Mem>
        ensures { IfOk result (λ status. (app : AnApp) → status ≡ status_of (begun_of app self.now)) }
    {
        Ok(Status {
            unblocked: self.run.is_unblocked(),
            ended: end_at(self.run.outcome(), self.at)?,
        })
    }

    fn ended_by(&self, place: u64) -> Result<Option<End>, Mem>
        ensures { IfOk result (λ end. end ≡ (if nat_le self.now.at place then end_in self.now.run.outcome self.now.at else None)) }
    {
        if self.at <= place {
            end_at(self.run.outcome(), self.at)
        } else {
            Ok(None)
        }
    }

    /// How far the run was at the place, None where it had not begun.
    pub(crate) fn status(&self, place: u64) -> Result<Option<Status>, Mem>
        ensures { IfOk result (λ status. status ≡ called_by place self.now) }
    {
        if self.begun > place {
            return Ok(None);
        }
        Ok(Some(Status {
            unblocked: is_by(self.unblocked, place),
            ended: self.ended_by(place)?,
        }))
    }

    /// How many steps the run has still to make.
    pub(crate) fn left(&self, app: &App) -> u64
        ensures { result ≡ length (begun_of app.now self.now).run.left }
    {
        self.run.left(steps_of(app, &self.method)) as u64
    }

    fn note(&mut self, place: u64)
        ensures { self.new ≡ record self.old { at = place; unblocked = noted self.old.unblocked self.old.run.unblocked place } }
    {
        self.at = place;
        self.unblocked = noted(self.unblocked, self.run.is_unblocked(), place);
    }

    /// Makes the run's next step, whose entry is at the place.
    pub(crate) fn step(
        &mut self,
        alloc: Global,
        app: &App,
        store: &mut Store,
        room: u64,
        place: u64,
    ) -> Result<Made, Mem>
        ensures made { IfOk result (λ made. HasStepped app.now store.old self.old room place store.new self.new made) }
        ensures err { OnErr result (self.new ≡ self.old) }
        ensures store { OnErr result (store.new ≡ store.old) }
    {
        let steps = steps_of(app, &self.method);
        let effect = self.run.step(alloc, steps, Some(app), store, room)?;
        self.note(place);
        Ok(made_of(effect, self.run.is_unblocked(), place))
    }
}
