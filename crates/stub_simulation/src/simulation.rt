//! Running a stub.
ghost use Rattle.std.specs.Prelude.{◌≡◌, [], map, length, IfOk};
ghost use Rattle.std.specs.Option.{option_copied};
ghost use Rattle.map_model.specs.Maps.{at};
ghost use Rattle.ejson_value.specs.Key.{key_cmp};
ghost use Rattle.value_model.specs.Val.{Val};
ghost use Rattle.ejson_value.specs.View.{view as value_view};
ghost use Rattle.program_run.specs.Progress.{run_of};
ghost use Rattle.app_model.specs.App.{method as method_of};
ghost use Rattle.program_model.specs.Run.{begun};
ghost use Rattle.program_model.specs.Steps.{steps_of, stub_of, client_setting, whole_run};
ghost use Rattle.collection_store.specs.Limits.{bytes_of};
ghost use Rattle.stub_simulation.specs.Simulating.{simulation, change_at, IsSimulated};
ghost use Rattle.stub_simulation.specs.Drafts.{IsLeftBy};

use crate::draft::Draft;
use crate::fitting::Totals;
use crate::steps::{StubCall, make_steps};
use crate::traces::Traces;
use app_model::App;
use counted_contents::bytes_in;
use ejson_value::{Change, Changes, Contents, Doc, Items, Key, Keys, Mem, Text, Value};
use program_run::Run;
use program_steps::ProgramSteps;
use std::alloc::Global;

/// What a simulation does: the documents that differ from the view, each once and by key, and the
/// keys of those that the stub inserted, changed, matched or removed, each once and rising.
#[derive(Drop)]
pub struct Simulated {
    pub changes: Changes,
    pub touched: Keys,
}

// The steps of the method's stub, if it has one.
fn stub_of<'a>(app: &'a App, method: &Text) -> Option<&'a ProgramSteps>
    ensures { steps_of (option_copied result) ≡ stub_of (method_of app.now method.now) }
{
    match app.method(method) {
        None => None,
        Some(program) => program.stub.as_ref(),
    }
}

// Makes the steps of a run that has begun.
fn drafted(call: &StubCall, run: &mut Run, totals: Totals) -> Result<Draft, Mem>
    requires documents { totals.documents ≡ length call.now.view.now }
    requires bytes { totals.bytes ≡ bytes_of call.now.view.now }
    ensures { IfOk result (λ draft. (seed : Val) → run_of call.now.steps.now run.old ≡ begun call.now.params.now seed call.now.steps.now → IsLeftBy
        call.now.view.now (whole_run (client_setting call.now.names.now) call.now.view.now (begun call.now.params.now seed call.now.steps.now)) draft) }
{
    let mut draft = Draft::new(call.alloc, totals);
    make_steps(call, run, &mut draft)?;
    Ok(draft)
}

// Runs the steps over the view, and answers what they left.
fn run_stub(call: &StubCall, seed: &Value, totals: Totals) -> Result<Draft, Mem>
    requires documents { totals.documents ≡ length call.now.view.now }
    requires bytes { totals.bytes ≡ bytes_of call.now.view.now }
    ensures { IfOk result (λ draft. IsLeftBy call.now.view.now
        (whole_run (client_setting call.now.names.now) call.now.view.now (begun call.now.params.now (value_view seed.now) call.now.steps.now)) draft) }
{
    let mut run = Run::begin(call.alloc, call.steps, call.params, seed)?;
    drafted(call, &mut run, totals)
}

// A copy of what stands at the key.
fn doc_at(contents: &Contents, key: &Key) -> Result<Option<Doc>, Mem>
    ensures { IfOk result (λ doc. doc ≡ at key_cmp contents.now key.now) }
{
    match contents.get(key) {
        None => Ok(None),
        Some(doc) => Ok(Some(doc.copy()?)),
    }
}

// What became of the document at the key.
fn change_at(view: &Contents, left: &Contents, key: &Key) -> Result<Change, Mem>
    ensures { IfOk result (λ change. change ≡ change_at view.now left.now key.now) }
{
    let key = key.copy()?;
    let before = doc_at(view, &key)?;
    let after = doc_at(left, &key)?;
    Ok(Change { key, before, after })
}

fn changes_at(alloc: Global, view: &Contents, left: &Contents, keys: &[Key]) -> Result<Changes, Mem>
    ensures { IfOk result (λ changes. changes ≡ map (change_at view.now left.now) keys.now) }
{
    let mut changes = Changes::new(alloc);
    for key in keys {
        changes.push(change_at(view, left, key)?)?;
    }
    Ok(changes)
}

// What led from the view to the documents that are left.
fn differences(
    alloc: Global,
    view: &Contents,
    left: &Contents,
    traces: &Traces,
) -> Result<Simulated, Mem>
    ensures changes { IfOk result (λ s. s.changes ≡ map (change_at view.now left.now) traces.now.changed) }
    ensures touched { IfOk result (λ s. s.touched ≡ traces.now.touched) }
{
    let changed = traces.changed.listed(alloc)?;
    let changes = changes_at(alloc, view, left, changed.as_slice())?;
    Ok(Simulated {
        changes,
        touched: traces.touched.listed(alloc)?,
    })
}

fn simulate_steps(call: &StubCall, seed: &Value, bytes: u64) -> Result<Simulated, Mem>
    requires { bytes ≡ bytes_of call.now.view.now }
    ensures { IfOk result (IsSimulated call.now.view.now
        (whole_run (client_setting call.now.names.now) call.now.view.now (begun call.now.params.now (value_view seed.now) call.now.steps.now))) }
{
    call.view.known();
    let totals = Totals {
        documents: call.view.len(),
        bytes,
    };
    let draft = run_stub(call, seed, totals)?;
    differences(call.alloc, call.view, &draft.left, &draft.traces)
}

/// Runs the method's stub on a view of the documents, whose collections are those of the application,
/// until it ends, throws or is refused; what it wrote before that stays. It draws the ids that the
/// method draws with the same seed. A method without a stub, or one that the application doesn't
/// have, does nothing. The documents of the view have this many bytes. It costs what the stub's steps
/// look at and what they write, whatever else the view has.
pub fn simulate_over(
    alloc: Global,
    app: &App,
    method: &Text,
    params: &Items,
    seed: &Value,
    view: &Contents,
    bytes: u64,
) -> Result<Simulated, Mem>
    requires { bytes ≡ bytes_of view.now }
    ensures { IfOk result (IsSimulated view.now (simulation app.now method.now params.now (value_view seed.now) view.now)) }
{
    match stub_of(app, method) {
        Some(steps) => {
            let call = StubCall {
                alloc,
                names: app.collections(),
                steps: steps.as_slice(),
                params,
                view,
            };
            simulate_steps(&call, seed, bytes)
        }
        None => Ok(Simulated {
            changes: Changes::new(alloc),
            touched: Keys::new(alloc),
        }),
    }
}

/// The same where nobody knows how many bytes the view's documents have: it looks once at each of
/// them.
pub fn simulate(
    alloc: Global,
    app: &App,
    method: &Text,
    params: &Items,
    seed: &Value,
    view: &Contents,
) -> Result<Simulated, Mem>
    ensures { IfOk result (IsSimulated view.now (simulation app.now method.now params.now (value_view seed.now) view.now)) }
{
    let bytes = bytes_in(view)?;
    simulate_over(alloc, app, method, params, seed, view, bytes)
}
