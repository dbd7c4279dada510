//! The documents that a step looks at.
ghost use Rattle.std.specs.Prelude.{◌≡◌, [], IfOk, option_map};
ghost use Rattle.map_model.specs.Maps.{at};
ghost use Rattle.ejson_value.specs.Key.{key_cmp, key_of};
ghost use Rattle.ejson_value.specs.View.{view as value_view};
ghost use Rattle.selector_match.specs.Reading.{reading};
ghost use Rattle.program_steps.specs.Template.{filled};
ghost use Rattle.program_model.specs.Run.{if_ok};
ghost use Rattle.stub_simulation.specs.Naming.{row_at};
ghost use Rattle.stub_simulation.specs.Drafts.{shown_by, selector_by, IsWithin, IsFoundBy, IsWindow};

use crate::draft::Draft;
use crate::finding::found;
use crate::naming::id_named_by;
use ejson_value::{Contents, Items, Key, Mem, Names, Text, Value};
use program_steps::{FillFault, ProgramStep, Template};
use selector_match::{Selector, SelectorFault};
use std::alloc::Global;

// The filled template, None where it can't be filled.
fn filled_by(
    alloc: Global,
    params: &Items,
    made: &Names,
    template: &Template,
) -> Result<Option<Value>, Mem>
    ensures { IfOk result (λ o. option_map value_view o ≡ if_ok (filled params.now made.now template.now)) }
{
    match template.fill(alloc, params, made) {
        Ok(value) => Ok(Some(value)),
        Err(FillFault::NoParam) => Ok(None),
        Err(FillFault::TooDeep) => Ok(None),
        Err(FillFault::TooLarge) => Ok(None),
        Err(FillFault::Memory) => Err(Mem),
    }
}

fn read_selector(alloc: Global, value: &Value) -> Result<Option<Selector>, Mem>
    ensures { IfOk result (λ o. o ≡ if_ok (reading (value_view value.now))) }
{
    match Selector::read(alloc, value) {
        Ok(selector) => Ok(Some(selector)),
        Err(SelectorFault::NotObject) => Ok(None),
        Err(SelectorFault::UnknownOperator) => Ok(None),
        Err(SelectorFault::BadOperand) => Ok(None),
        Err(SelectorFault::Memory) => Err(Mem),
    }
}

// The selector that the template is filled to, None where it is filled to none.
fn selector_by(
    alloc: Global,
    params: &Items,
    made: &Names,
    template: &Template,
) -> Result<Option<Selector>, Mem>
    ensures { IfOk result (λ o. o ≡ selector_by params.now made.now template.now) }
{
    match filled_by(alloc, params, made, template)? {
        Some(value) => read_selector(alloc, &value),
        None => Ok(None),
    }
}

// A copy of the document with this id, if there is one.
fn found_at(
    alloc: Global,
    view: &Contents,
    draft: &Draft,
    collection: &Text,
    id: &Text,
) -> Result<Contents, Mem>
    requires { IsWithin draft.now }
    ensures { IfOk result (λ found. found ≡ row_at (key_of collection.now id.now) (at key_cmp (shown_by view.now draft.now) (key_of collection.now id.now))) }
{
    let key = Key::of(collection, id)?;
    let mut found = Contents::new(alloc);
    if let Some(doc) = draft.doc_at(view, &key) {
        found.put(key, doc.copy()?)?;
    }
    Ok(found)
}

// The documents that the selector holds of which the template is filled to. One that names an id
// alone holds of the document with this id, and isn't read for that.
fn found_by(
    alloc: Global,
    params: &Items,
    view: &Contents,
    draft: &Draft,
    collection: &Text,
    template: &Template,
) -> Result<Contents, Mem>
    requires { IsWithin draft.now }
    ensures { IfOk result (IsFoundBy (selector_by params.now draft.now.made template.now) collection.now (shown_by view.now draft.now)) }
{
    view.known();
    if let Some(id) = id_named_by(params, template) {
        return found_at(alloc, view, draft, collection, id);
    }
    match selector_by(alloc, params, &draft.made, template)? {
        Some(selector) => found(alloc, view, draft, collection, &selector),
        None => Ok(Contents::new(alloc)),
    }
}

/// Copies of the documents that the step looks at, but for the one that stands where it inserts.
pub(crate) fn window(
    alloc: Global,
    params: &Items,
    view: &Contents,
    draft: &Draft,
    step: &ProgramStep,
) -> Result<Contents, Mem>
    requires { IsWithin draft.now }
    ensures { IfOk result (IsWindow params.now draft.now.made (shown_by view.now draft.now) step.now) }
{
    match step {
        ProgramStep::Update {
            collection,
            selector,
            ..
        } => found_by(alloc, params, view, draft, collection, selector),
        ProgramStep::Remove {
            collection,
            selector,
        } => found_by(alloc, params, view, draft, collection, selector),
        ProgramStep::Require {
            collection,
            selector,
            ..
        } => found_by(alloc, params, view, draft, collection, selector),
        ProgramStep::Insert { .. }
        | ProgramStep::Unblock
        | ProgramStep::Throw(_)
        | ProgramStep::Return(_)
        | ProgramStep::Guarded { .. } => Ok(Contents::new(alloc)),
    }
}
