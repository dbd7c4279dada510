//! Reading the steps of programs.
ghost use Rattle.std.specs.Prelude.{◌≡◌, [], IfOk, option_map};
ghost use Rattle.std.specs.Fmt.{signed_decimal};
ghost use Rattle.ejson_value.specs.View.{view};
ghost use Rattle.program_reading.specs.Faults.{Gives};
ghost use Rattle.program_reading.specs.Steps.{form_named, length_of, form_at, form_of, template_reading, code_reading, reason_reading, fault_reading};
ghost use Rattle.program_reading.specs.Steps.{collection_reading, insert_reading, update_reading, remove_reading, require_reading, form_reading};
ghost use Rattle.program_reading.specs.Steps.{elements_reading, step_reading};

use crate::fault::{AppFault, Flaw, bad};
use crate::names::read_known;
use crate::place::element;
use ejson_value::{Fault, Items, Mem, Names, Text, Value, copy};
use program_steps::{ProgramStep, Template};
use std::alloc::Global;

// What a step does.
#[derive(Clone, Copy)]
enum StepForm {
    Insert,
    Update,
    UpdateAll,
    Remove,
    Require,
    Unblock,
    Throw,
    Return,
}

fn form_named(name: &Text) -> Option<StepForm>
    ensures { result ≡ form_named name.now }
{
    match name.as_str() {
        "insert" => Some(StepForm::Insert),
        "update" => Some(StepForm::Update),
        "updateAll" => Some(StepForm::UpdateAll),
        "remove" => Some(StepForm::Remove),
        "require" => Some(StepForm::Require),
        "unblock" => Some(StepForm::Unblock),
        "throw" => Some(StepForm::Throw),
        "return" => Some(StepForm::Return),
        _ => None,
    }
}

fn length_of(form: StepForm) -> usize
    ensures { result ≡ length_of form }
{
    match form {
        StepForm::Unblock => 1,
        StepForm::Return => 2,
        StepForm::Insert | StepForm::Remove | StepForm::Throw => 3,
        StepForm::Update | StepForm::UpdateAll => 4,
        StepForm::Require => 5,
    }
}

// What a list of this length with this first element does.
fn form_at(length: usize, first: Option<&Value>) -> Option<StepForm>
    ensures { result ≡ form_at length (option_map (λ v. view v.now) first.entry) }
{
    let Some(value) = first else {
        return None;
    };
    let Value::Text(name) = value else {
        return None;
    };
    match form_named(name) {
        None => None,
        Some(form) => {
            if length == length_of(form) {
                Some(form)
            } else {
                None
            }
        }
    }
}

fn form_of(items: &Items) -> Option<StepForm>
    ensures { result ≡ form_of items.now }
{
    form_at(items.len(), items.get(0))
}

fn read_template(place: &Text, part: Option<&Value>) -> Result<Template, AppFault>
    ensures { Gives (λ t. t) result (template_reading place.now (option_map (λ v. view v.now) part.entry)) }
{
    match part {
        None => Err(bad(Flaw::BadShape, place.copy()?)),
        Some(value) => Ok(Template {
            value: copy(value)?,
        }),
    }
}

// The decimal text of a whole number.
fn decimal(alloc: Global, number: i64) -> Result<Text, Mem>
    ensures { IfOk result (λ t. t ≡ signed_decimal number) }
{
    Text::from_string(format!(in alloc; "{number}")?)
}

fn read_code(alloc: Global, place: Text, part: Option<&Value>) -> Result<Text, AppFault>
    ensures { Gives (λ t. t) result (code_reading place (option_map (λ v. view v.now) part.entry)) }
{
    let Some(value) = part else {
        return Err(bad(Flaw::BadShape, place));
    };
    match value {
        Value::Text(code) => Ok(code.copy()?),
        Value::Int(number) => Ok(decimal(alloc, number.get())?),
        _ => Err(bad(Flaw::BadShape, place)),
    }
}

fn read_reason(place: Text, part: Option<&Value>) -> Result<Text, AppFault>
    ensures { Gives (λ t. t) result (reason_reading place (option_map (λ v. view v.now) part.entry)) }
{
    let Some(value) = part else {
        return Err(bad(Flaw::BadShape, place));
    };
    match value {
        Value::Text(reason) => Ok(reason.copy()?),
        _ => Err(bad(Flaw::BadShape, place)),
    }
}

// The error whose code and reason stand at these places in the step.
fn read_fault(
    alloc: Global,
    place: &Text,
    items: &Items,
    code: usize,
    reason: usize,
) -> Result<Fault, AppFault>
    ensures { Gives (λ fault. fault) result (fault_reading place.now items.now code reason) }
{
    let at_code = element(alloc, place.as_str(), code)?;
    let code = read_code(alloc, at_code, items.get(code))?;
    let at_reason = element(alloc, place.as_str(), reason)?;
    let reason = read_reason(at_reason, items.get(reason))?;
    Ok(Fault { code, reason })
}

fn read_collection(
    alloc: Global,
    collections: &Names,
    place: &Text,
    items: &Items,
) -> Result<Text, AppFault>
    ensures { Gives (λ name. name) result (collection_reading collections.now place.now items.now) }
{
    let at_collection = element(alloc, place.as_str(), 1)?;
    read_known(collections, &at_collection, items.get(1))
}

fn read_insert(
    alloc: Global,
    collections: &Names,
    place: &Text,
    items: &Items,
) -> Result<ProgramStep, AppFault>
    ensures { Gives (λ step. step) result (insert_reading collections.now place.now items.now) }
{
    let collection = read_collection(alloc, collections, place, items)?;
    let doc = read_template(place, items.get(2))?;
    Ok(ProgramStep::Insert { collection, doc })
}

fn read_update(
    alloc: Global,
    collections: &Names,
    place: &Text,
    items: &Items,
    all: bool,
) -> Result<ProgramStep, AppFault>
    ensures { Gives (λ step. step) result (update_reading collections.now place.now items.now all) }
{
    let collection = read_collection(alloc, collections, place, items)?;
    let selector = read_template(place, items.get(2))?;
    let modifier = read_template(place, items.get(3))?;
    Ok(ProgramStep::Update {
        collection,
        selector,
        modifier,
        all,
    })
}

fn read_remove(
    alloc: Global,
    collections: &Names,
    place: &Text,
    items: &Items,
) -> Result<ProgramStep, AppFault>
    ensures { Gives (λ step. step) result (remove_reading collections.now place.now items.now) }
{
    let collection = read_collection(alloc, collections, place, items)?;
    let selector = read_template(place, items.get(2))?;
    Ok(ProgramStep::Remove {
        collection,
        selector,
    })
}

fn read_require(
    alloc: Global,
    collections: &Names,
    place: &Text,
    items: &Items,
) -> Result<ProgramStep, AppFault>
    ensures { Gives (λ step. step) result (require_reading collections.now place.now items.now) }
{
    let collection = read_collection(alloc, collections, place, items)?;
    let selector = read_template(place, items.get(2))?;
    let fault = read_fault(alloc, place, items, 3, 4)?;
    Ok(ProgramStep::Require {
        collection,
        selector,
        fault,
    })
}

fn read_throw(alloc: Global, place: &Text, items: &Items) -> Result<ProgramStep, AppFault>
    ensures { Gives (λ step. step) result (form_reading [] place.now items.now StepForm.Throw) }
{
    Ok(ProgramStep::Throw(read_fault(alloc, place, items, 1, 2)?))
}

fn read_return(place: &Text, items: &Items) -> Result<ProgramStep, AppFault>
    ensures { Gives (λ step. step) result (form_reading [] place.now items.now StepForm.Return) }
{
    Ok(ProgramStep::Return(read_template(place, items.get(1))?))
}

fn read_form(
    alloc: Global,
    collections: &Names,
    place: &Text,
    items: &Items,
    form: StepForm,
) -> Result<ProgramStep, AppFault>
    ensures { Gives (λ step. step) result (form_reading collections.now place.now items.now form) }
{
    match form {
        StepForm::Insert => read_insert(alloc, collections, place, items),
        StepForm::Update => read_update(alloc, collections, place, items, false),
        StepForm::UpdateAll => read_update(alloc, collections, place, items, true),
        StepForm::Remove => read_remove(alloc, collections, place, items),
        StepForm::Require => read_require(alloc, collections, place, items),
        StepForm::Unblock => Ok(ProgramStep::Unblock),
        StepForm::Throw => read_throw(alloc, place, items),
        StepForm::Return => read_return(place, items),
    }
}

fn read_elements(
    alloc: Global,
    collections: &Names,
    place: &Text,
    items: &Items,
) -> Result<ProgramStep, AppFault>
    ensures { Gives (λ step. step) result (elements_reading collections.now place.now items.now) }
{
    match form_of(items) {
        None => Err(bad(Flaw::BadShape, place.copy()?)),
        Some(form) => read_form(alloc, collections, place, items, form),
    }
}

// The step at this place.
pub(crate) fn read_step(
    alloc: Global,
    collections: &Names,
    place: &Text,
    value: &Value,
) -> Result<ProgramStep, AppFault>
    ensures { Gives (λ step. step) result (step_reading collections.now place.now (view value.now)) }
{
    match value {
        Value::List(items) => read_elements(alloc, collections, place, items),
        _ => Err(bad(Flaw::BadShape, place.copy()?)),
    }
}
