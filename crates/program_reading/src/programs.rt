//! Reading the programs of methods.
ghost use Rattle.std.specs.Prelude.{◌≡◌, [], IfOk, length, codes, option_map};
ghost use Rattle.value_model.specs.Val.{vals_of, fields_of};
ghost use Rattle.value_model.specs.Branches.{field_of};
ghost use Rattle.ejson_value.specs.View.{view};
ghost use Rattle.program_reading.specs.Faults.{below, element, Gives};
ghost use Rattle.program_reading.specs.Steps.{step_reading};
ghost use Rattle.program_reading.specs.Programs.{steps_behind, steps_reading, own_steps_reading, is_true, stub_reading, is_program, parts_reading};
ghost use Rattle.program_reading.specs.Programs.{program_reading};

use crate::fault::{AppFault, Flaw, bad};
use crate::names::{Shape, has_more_items, has_only_keys, is_valid_name, member};
use crate::place::{below, element};
use crate::steps::read_step;
use ejson_value::{Doc, Items, Mem, Names, Text, Value};
use program_steps::{Program, ProgramStep, ProgramSteps};
use std::alloc::Global;

const MAX_STEPS: usize = 64;

fn read_next_step(
    alloc: Global,
    collections: &Names,
    place: &Text,
    steps: &ProgramSteps,
    value: &Value,
) -> Result<ProgramStep, AppFault>
    ensures { Gives (λ step. step) result (step_reading collections.now (element place.now (length steps.now)) (view value.now)) }
{
    let place = element(alloc, place.as_str(), steps.len())?;
    read_step(alloc, collections, &place, value)
}

fn read_each_step(
    alloc: Global,
    collections: &Names,
    place: &Text,
    items: &Items,
) -> Result<ProgramSteps, AppFault>
    ensures { Gives (λ steps. steps) result (steps_behind collections.now place.now [] (vals_of items.now)) }
{
    let mut steps = ProgramSteps::new(alloc);
    for item in items.as_slice() {
        let step = read_next_step(alloc, collections, place, &steps, item)?;
        steps.push(step)?;
    }
    Ok(steps)
}

fn read_steps(
    alloc: Global,
    collections: &Names,
    place: &Text,
    value: &Value,
) -> Result<ProgramSteps, AppFault>
    ensures { Gives (λ steps. steps) result (steps_reading collections.now place.now (view value.now)) }
{
    let Value::List(items) = value else {
        return Err(bad(Flaw::BadShape, place.copy()?));
    };
    if has_more_items(items, MAX_STEPS) {
        return Err(bad(Flaw::TooMany, place.copy()?));
    }
    read_each_step(alloc, collections, place, items)
}

fn is_true(value: &Value) -> bool
    ensures { result ≡ is_true (view value.now) }
{
    match value {
        Value::Bool(b) => *b,
        _ => false,
    }
}

fn read_stub(
    alloc: Global,
    collections: &Names,
    place: &Text,
    steps: &ProgramSteps,
    stub: Option<&Value>,
) -> Result<Option<ProgramSteps>, AppFault>
    ensures { Gives (λ stub. stub) result (stub_reading collections.now place.now steps.now (option_map (λ v. view v.now) stub.entry)) }
{
    let Some(value) = stub else {
        return Ok(None);
    };
    if is_true(value) {
        Ok(Some(steps.copy()?))
    } else {
        Ok(Some(read_steps(alloc, collections, place, value)?))
    }
}

fn read_needed(
    alloc: Global,
    collections: &Names,
    place: &Text,
    steps: Option<&Value>,
) -> Result<ProgramSteps, AppFault>
    ensures { Gives (λ steps. steps) result (own_steps_reading collections.now place.now (option_map (λ v. view v.now) steps.entry)) }
{
    match steps {
        None => Err(bad(Flaw::BadShape, place.copy()?)),
        Some(value) => read_steps(alloc, collections, place, value),
    }
}

fn read_own_steps(
    alloc: Global,
    collections: &Names,
    place: &Text,
    fields: &Doc,
) -> Result<ProgramSteps, AppFault>
    ensures { Gives (λ steps. steps) result
        (own_steps_reading collections.now (below place.now (codes "steps")) (field_of (fields_of fields.now) (codes "steps"))) }
{
    let at_steps = below(alloc, place.as_str(), "steps")?;
    read_needed(
        alloc,
        collections,
        &at_steps,
        member(alloc, fields, "steps")?,
    )
}

fn read_own_stub(
    alloc: Global,
    collections: &Names,
    place: &Text,
    steps: &ProgramSteps,
    fields: &Doc,
) -> Result<Option<ProgramSteps>, AppFault>
    ensures { Gives (λ stub. stub) result
        (stub_reading collections.now (below place.now (codes "stub")) steps.now (field_of (fields_of fields.now) (codes "stub"))) }
{
    let at_stub = below(alloc, place.as_str(), "stub")?;
    read_stub(
        alloc,
        collections,
        &at_stub,
        steps,
        member(alloc, fields, "stub")?,
    )
}

fn read_parts(
    alloc: Global,
    collections: &Names,
    place: &Text,
    fields: &Doc,
) -> Result<Program, AppFault>
    ensures { Gives (λ program. program) result (parts_reading collections.now place.now (fields_of fields.now)) }
{
    let steps = read_own_steps(alloc, collections, place, fields)?;
    let stub = read_own_stub(alloc, collections, place, &steps, fields)?;
    Ok(Program { steps, stub })
}

// Whether the object has the keys of a program: no other ones, and its steps.
fn is_program(alloc: Global, fields: &Doc) -> Result<bool, Mem>
    ensures { IfOk result (λ b. b ≡ is_program (fields_of fields.now)) }
{
    let steps = member(alloc, fields, "steps")?;
    Ok(has_only_keys(Shape::Program, fields) && steps.is_some())
}

/// The program of the method of this name, which the part at this place describes: an object with
/// `steps`, and perhaps with `stub`.
pub fn read_program(
    alloc: Global,
    collections: &Names,
    place: &Text,
    name: &Text,
    value: &Value,
) -> Result<Program, AppFault>
    ensures { Gives (λ program. program) result (program_reading collections.now place.now name.now (view value.now)) }
{
    let Value::Object(fields) = value else {
        return Err(bad(Flaw::BadShape, place.copy()?));
    };
    if !is_program(alloc, fields)? {
        return Err(bad(Flaw::BadShape, place.copy()?));
    }
    if is_valid_name(name) {
        read_parts(alloc, collections, place, fields)
    } else {
        Err(bad(Flaw::BadName, place.copy()?))
    }
}
