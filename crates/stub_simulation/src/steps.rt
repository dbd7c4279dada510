//! The steps of a stub.
ghost use Rattle.std.specs.Prelude.{◌≡◌, ◌∷◌, [], List, false, option_map, IfOk, IfNone, IfSome, OnOk};
ghost use Rattle.ejson_value.specs.Rows.{Rows};
ghost use Rattle.program_steps.specs.declared.step.ProgramStep.{ProgramStep as AStep};
ghost use Rattle.program_steps.specs.Runs.{outcome_view};
ghost use Rattle.program_model.specs.Steps.{client_setting, stepped, further, all_stepped};
ghost use Rattle.program_run.specs.Progress.{run_of};
ghost use Rattle.program_run.specs.Planned.{IsStepMade};
ghost use Rattle.stub_simulation.specs.Drafts.{IsWithin, IsMade, IsFollowed, CarriesOn};

use crate::draft::Draft;
use crate::fitting::is_taken;
use crate::window::window;
use collection_store::Store;
use ejson_value::{Contents, Items, Mem, Names};
use program_run::{Effect, Run};
use program_steps::ProgramStep;
use std::alloc::Global;

/// How many bytes the new documents of one step of a stub may have.
const STUB_ROOM: u64 = 134_217_728;

/// A call of a stub: its steps, what it is called with, and the view that it works on, with the names
/// of the collections.
#[derive(Clone, Copy)]
pub(crate) struct StubCall<'a> {
    pub(crate) alloc: Global,
    pub(crate) names: &'a Names,
    pub(crate) steps: &'a [ProgramStep],
    pub(crate) params: &'a Items,
    pub(crate) view: &'a Contents,
}

// The step that the run makes next.
fn next_step<'a>(steps: &'a [ProgramStep], run: &Run) -> Option<&'a ProgramStep>
    ensures none { IfNone result ((run_of steps.now run.now).left ≡ []) }
    ensures some { IfSome result (λ step. (rest : List AStep) × ((run_of steps.now run.now).left ≡ step.now ∷ rest)) }
{
    let left = run.left(steps);
    if left == 0 {
        return None;
    }
    steps.get(steps.len().saturating_sub(left))
}

// Makes the next step over these documents alone.
fn made_over(call: &StubCall, run: &mut Run, window: Contents) -> Result<Effect, Mem>
    ensures does { IfOk result (λ effect. (left : Rows)
        × IsStepMade (stepped (client_setting call.now.names.now) window (run_of call.now.steps.now run.old)) call.now.steps.now left run.new effect) }
    ensures told { IfOk result (λ effect. option_map outcome_view effect.outcome ≡ run.new.outcome) }
{
    let mut store = Store::over(call.alloc, call.names, window)?;
    run.step(call.alloc, call.steps, None, &mut store, STUB_ROOM)
}

// Makes the step over the documents that it looks at.
fn made(call: &StubCall, run: &mut Run, draft: &Draft, step: &ProgramStep) -> Result<Effect, Mem>
    requires { IsWithin draft.now }
    ensures { IfOk result (IsMade call.now.names.now call.now.params.now call.now.steps.now call.now.view.now draft.now step.now run.old run.new) }
{
    let window = window(call.alloc, call.params, call.view, draft, step)?;
    made_over(call, run, window)
}

// Takes what the step did over the documents that it looks at, or the stub is refused there.
fn follow(
    view: &Contents,
    draft: &mut Draft,
    step: &ProgramStep,
    effect: &Effect,
) -> Result<(), Mem>
    requires { IsWithin draft.old }
    ensures { OnOk result (IsFollowed view.now step.now effect.now draft.old draft.new) }
{
    let totals = draft.totals.after(&effect.changes)?;
    if !is_taken(view, draft, step, &effect.changes, totals) {
        draft.is_over = true;
        return Ok(());
    }
    draft.take(step, effect, totals)?;
    Ok(())
}

// Makes the step that is next.
fn make(call: &StubCall, run: &mut Run, draft: &mut Draft, step: &ProgramStep) -> Result<(), Mem>
    requires next { (rest : List AStep) × ((run_of call.now.steps.now run.old).left ≡ step.now ∷ rest) }
    requires within { IsWithin draft.old }
    ensures within { OnOk result (IsWithin draft.new) }
    ensures left { OnOk result (draft.old.is_over ≡ false → CarriesOn call.now.view.now call.now.params.now call.now.steps.now
        (further (client_setting call.now.names.now)) run.old draft.old run.new draft.new) }
{
    call.view.known();
    draft.left.known();
    let effect = made(call, run, draft, step)?;
    follow(call.view, draft, step, &effect)?;
    Ok(())
}

// One step more.
fn make_step(call: &StubCall, run: &mut Run, draft: &mut Draft) -> Result<(), Mem>
    requires { IsWithin draft.old }
    ensures within { OnOk result (IsWithin draft.new) }
    ensures left { OnOk result (draft.old.is_over ≡ false → CarriesOn call.now.view.now call.now.params.now call.now.steps.now
        (further (client_setting call.now.names.now)) run.old draft.old run.new draft.new) }
{
    match next_step(call.steps, run) {
        None => {
            draft.is_over = true;
            Ok(())
        }
        Some(step) => make(call, run, draft, step),
    }
}

/// As many steps as there are, up to the stub's end.
pub(crate) fn make_steps(call: &StubCall, run: &mut Run, draft: &mut Draft) -> Result<(), Mem>
    requires { IsWithin draft.old }
    ensures { OnOk result (CarriesOn call.now.view.now call.now.params.now call.now.steps.now
        (all_stepped (client_setting call.now.names.now) call.now.steps.now) run.old draft.old run.new draft.new) }
{
    for _step in call.steps {
        if draft.is_over {
            return Ok(());
        }
        make_step(call, run, draft)?;
    }
    Ok(())
}
