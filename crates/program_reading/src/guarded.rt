//! The methods that rules make.
ghost use Rattle.std.specs.Prelude.{◌≡◌, ◌≤ℤ◌, ◌∷◌, [], pos, false, codes, IfOk};
ghost use Rattle.value_model.specs.Val.{int, object, field, no_fields};
ghost use Rattle.ejson_value.specs.View.{view};
ghost use Rattle.program_steps.specs.Guards.{action_name, method_name, param, by_id, plain_step, guarded_program};

use crate::place::below;
use ejson_value::{Doc, Mem, Text, Value, Whole};
use program_steps::{Action, Program, ProgramStep, ProgramSteps, Template};
use std::alloc::Global;

fn action_name(action: Action) -> &'static str
    ensures { result.now ≡ action_name action }
{
    match action {
        Action::Insert => "insert",
        Action::Update => "update",
        Action::Remove => "remove",
    }
}

/// The name of the method by which a client does this to a collection: `/collection/action`.
pub fn method_name(alloc: Global, collection: &Text, action: Action) -> Result<Text, Mem>
    ensures { IfOk result (λ name. name ≡ method_name collection.now action) }
{
    let of_collection = below(alloc, "", collection.as_str())?;
    below(alloc, of_collection.as_str(), action_name(action))
}

// An object with one field.
fn object(alloc: Global, name: &str, value: Value) -> Result<Value, Mem>
    ensures { IfOk result (λ v. view v ≡ object (field name.now (view value) no_fields)) }
{
    let mut fields = Doc::new(alloc);
    fields.put(Text::from_str(alloc, name)?, value)?;
    Ok(Value::Object(fields))
}

// A template of a parameter.
fn param(alloc: Global, number: i64) -> Result<Value, Mem>
    requires low { pos 0 ≤ℤ number }
    requires high { number ≤ℤ pos 1 }
    ensures { IfOk result (λ v. view v ≡ object (field (codes "$param") (int number) no_fields)) }
{
    let Some(whole) = Whole::of(number) else {
        unreachable!()
    };
    object(alloc, "$param", Value::Int(whole))
}

fn first_param(alloc: Global) -> Result<Template, Mem>
    ensures { IfOk result (λ t. t ≡ param 0) }
{
    Ok(Template {
        value: param(alloc, 0)?,
    })
}

fn second_param(alloc: Global) -> Result<Template, Mem>
    ensures { IfOk result (λ t. t ≡ param 1) }
{
    Ok(Template {
        value: param(alloc, 1)?,
    })
}

// A template of the selector of the document whose id is the first parameter.
fn by_id(alloc: Global) -> Result<Template, Mem>
    ensures { IfOk result (λ t. t ≡ by_id) }
{
    let id = param(alloc, 0)?;
    Ok(Template {
        value: object(alloc, "_id", id)?,
    })
}

fn plain_update(alloc: Global, collection: Text) -> Result<ProgramStep, Mem>
    ensures { IfOk result (λ step. step ≡ ProgramStep.Update collection by_id (param 1) false) }
{
    let selector = by_id(alloc)?;
    let modifier = second_param(alloc)?;
    Ok(ProgramStep::Update {
        collection,
        selector,
        modifier,
        all: false,
    })
}

// The step without rules.
fn plain_step(alloc: Global, collection: Text, action: Action) -> Result<ProgramStep, Mem>
    ensures { IfOk result (λ step. step ≡ plain_step collection action) }
{
    match action {
        Action::Insert => Ok(ProgramStep::Insert {
            collection,
            doc: first_param(alloc)?,
        }),
        Action::Update => plain_update(alloc, collection),
        Action::Remove => Ok(ProgramStep::Remove {
            collection,
            selector: by_id(alloc)?,
        }),
    }
}

fn single(alloc: Global, step: ProgramStep) -> Result<ProgramSteps, Mem>
    ensures { IfOk result (λ steps. steps ≡ step ∷ []) }
{
    let mut steps = ProgramSteps::new(alloc);
    steps.push(step)?;
    Ok(steps)
}

fn guarded(alloc: Global, collection: Text, action: Action) -> Result<ProgramSteps, Mem>
    ensures { IfOk result (λ steps. steps ≡ ProgramStep.Guarded collection action ∷ []) }
{
    single(alloc, ProgramStep::Guarded { collection, action })
}

fn plain(alloc: Global, collection: Text, action: Action) -> Result<ProgramSteps, Mem>
    ensures { IfOk result (λ steps. steps ≡ plain_step collection action ∷ []) }
{
    let step = plain_step(alloc, collection, action)?;
    single(alloc, step)
}

/// The program of that method: one guarded step, and a stub of one step without rules.
pub fn guarded_program(alloc: Global, collection: &Text, action: Action) -> Result<Program, Mem>
    ensures { IfOk result (λ program. program ≡ guarded_program collection.now action) }
{
    let steps = guarded(alloc, collection.copy()?, action)?;
    let stub = plain(alloc, collection.copy()?, action)?;
    Ok(Program {
        steps,
        stub: Some(stub),
    })
}
