//! What each step comes to.
ghost use Rattle.std.specs.Prelude.{◌≡◌, IfOk, Some, None, nat_lt, length, if◌then◌else◌};
ghost use Rattle.std.specs.Option.{option_copied};
ghost use Rattle.collection_store.specs.Applied.{matching};
ghost use Rattle.collection_store.specs.declared.operation.Op.TheVariants.{Insert as insert_operation};
ghost use Rattle.program_steps.specs.declared.outcome.Outcome.TheVariants.{Failed};
ghost use Rattle.program_steps.specs.declared.step.ProgramStep.TheVariants.{Insert, Update, Remove, Require, Return};
ghost use Rattle.program_model.specs.Faults.{bad_parameters};
ghost use Rattle.program_run.specs.declared.plan.Plan.TheVariants.{GoesOn, Ends, Makes};
ghost use Rattle.program_run.specs.Planned.{ids_with, IsPlan, IsPlanAnywhere, IsPlanOver};

use crate::documents::{NewDocument, ids_with, new_in};
use crate::errors::bad_parameters;
use crate::filling::{filled_in, modifier_in, selector_in};
use crate::guarded::guarded_plan;
use crate::plan::Plan;
use crate::run::Run;
use app_model::App;
use collection_store::{Op, Store};
use ejson_value::{Fault, Mem, Text};
use program_steps::{Outcome, ProgramStep, Template};
use selector_match::Selector;
use std::alloc::Global;

/// The run fails, since a template could not be filled or was filled to what the step can't use.
pub(crate) fn bad_plan(alloc: Global) -> Result<Plan, Mem>
    ensures { IfOk result (λ plan. plan ≡ Ends (Failed bad_parameters)) }
{
    Ok(Plan::Ends(Outcome::Failed(bad_parameters(alloc)?)))
}

fn insertion(run: &Run, collection: &Text, new: NewDocument) -> Result<Plan, Mem>
    ensures { IfOk result (λ plan. plan ≡ Makes (insert_operation collection.now new.id new.doc) (Some (ids_with run.now collection.now new))) }
{
    let ids = ids_with(run, collection, &new)?;
    let collection = collection.copy()?;
    let NewDocument { id, doc, .. } = new;
    Ok(Plan::Makes(
        Op::Insert {
            collection,
            id,
            doc,
        },
        Some(ids),
    ))
}

fn insert_plan(alloc: Global, run: &Run, collection: &Text, doc: &Template) -> Result<Plan, Mem>
    ensures { IfOk result (λ plan. IsPlanAnywhere run.now (Insert collection.now doc.now) plan) }
{
    match new_in(alloc, run, collection, doc)? {
        Some(new) => insertion(run, collection, new),
        None => bad_plan(alloc),
    }
}

fn update_plan(
    alloc: Global,
    run: &Run,
    collection: &Text,
    selector: &Template,
    modifier: &Template,
    all: bool,
) -> Result<Plan, Mem>
    ensures { IfOk result (λ plan. IsPlanAnywhere run.now (Update collection.now selector.now modifier.now all) plan) }
{
    let collection = collection.copy()?;
    let Some(selector) = selector_in(alloc, run, selector)? else {
        return bad_plan(alloc);
    };
    let Some(modifier) = modifier_in(alloc, run, modifier)? else {
        return bad_plan(alloc);
    };
    Ok(Plan::Makes(
        Op::Update {
            collection,
            selector,
            modifier,
            all,
        },
        None,
    ))
}

fn remove_plan(
    alloc: Global,
    run: &Run,
    collection: &Text,
    selector: &Template,
) -> Result<Plan, Mem>
    ensures { IfOk result (λ plan. IsPlanAnywhere run.now (Remove collection.now selector.now) plan) }
{
    let collection = collection.copy()?;
    let Some(selector) = selector_in(alloc, run, selector)? else {
        return bad_plan(alloc);
    };
    Ok(Plan::Makes(
        Op::Remove {
            collection,
            selector,
        },
        None,
    ))
}

// The run goes on where the selector holds of a document, and else fails.
fn if_found(
    store: &Store,
    collection: &Text,
    selector: &Selector,
    fault: &Fault,
) -> Result<Plan, Mem>
    ensures { IfOk result
        (λ plan. plan ≡ (if nat_lt 0 (length (matching collection.now selector.now store.now.rows)) then GoesOn else Ends (Failed fault.now))) }
{
    if store.has_match(collection, selector)? {
        Ok(Plan::GoesOn)
    } else {
        Ok(Plan::Ends(Outcome::Failed(fault.copy()?)))
    }
}

fn require_plan(
    alloc: Global,
    run: &Run,
    store: &Store,
    collection: &Text,
    selector: &Template,
    fault: &Fault,
) -> Result<Plan, Mem>
    ensures { IfOk result (λ plan. IsPlanOver store.now run.now (Require collection.now selector.now fault.now) plan) }
{
    match selector_in(alloc, run, selector)? {
        Some(selector) => if_found(store, collection, &selector, fault),
        None => bad_plan(alloc),
    }
}

fn return_plan(alloc: Global, run: &Run, template: &Template) -> Result<Plan, Mem>
    ensures { IfOk result (λ plan. IsPlanAnywhere run.now (Return template.now) plan) }
{
    match filled_in(alloc, run, template)? {
        Some(value) => Ok(Plan::Ends(Outcome::Done(Some(value)))),
        None => bad_plan(alloc),
    }
}

/// What the run's step comes to.
pub(crate) fn plan(
    alloc: Global,
    run: &Run,
    step: &ProgramStep,
    app: Option<&App>,
    store: &Store,
) -> Result<Plan, Mem>
    ensures { IfOk result (λ plan. IsPlan (option_copied app.entry) store.now run.now step.now plan) }
{
    match step {
        ProgramStep::Insert { collection, doc } => insert_plan(alloc, run, collection, doc),
        ProgramStep::Update {
            collection,
            selector,
            modifier,
            all,
        } => update_plan(alloc, run, collection, selector, modifier, *all),
        ProgramStep::Remove {
            collection,
            selector,
        } => remove_plan(alloc, run, collection, selector),
        ProgramStep::Require {
            collection,
            selector,
            fault,
        } => require_plan(alloc, run, store, collection, selector, fault),
        ProgramStep::Unblock => Ok(Plan::Unblocks),
        ProgramStep::Throw(fault) => Ok(Plan::Ends(Outcome::Failed(fault.copy()?))),
        ProgramStep::Return(template) => return_plan(alloc, run, template),
        ProgramStep::Guarded { collection, action } => {
            guarded_plan(alloc, run, app, store, collection, *action)
        }
    }
}
