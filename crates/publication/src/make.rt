//! Making the cursors of a publication.
ghost use Rattle.std.specs.Prelude.{◌≡◌, []};
ghost use Rattle.ejson_value.specs.View.{view};
ghost use Rattle.selector_match.specs.Reading.{reading};
ghost use Rattle.program_steps.specs.Template.{filled};
ghost use Rattle.publication.specs.Faults.{Gives, lifted, fill_fault, selector_fault};
ghost use Rattle.publication.specs.Cursors.{selector_made, cursor_made, cursors_behind, cursors_made};

use crate::cursor::{Cursor, Cursors, copy_names, copy_shown};
use crate::fault::CursorFault;
use app_model::{CursorRule, CursorRules, FillFault, Publication, Template};
use ejson_value::{Items, Names, Value};
use selector_match::{Selector, SelectorFault};
use std::alloc::Global;

fn fill(alloc: Global, template: &Template, params: &Items) -> Result<Value, CursorFault>
    ensures { Gives view result (lifted fill_fault (filled params.now [] template.now)) }
{
    match template.fill(alloc, params, &Names::new(alloc)) {
        Ok(value) => Ok(value),
        Err(FillFault::NoParam) => Err(CursorFault::Fill(1)),
        Err(FillFault::TooDeep) => Err(CursorFault::Fill(2)),
        Err(FillFault::TooLarge) => Err(CursorFault::Fill(3)),
        Err(FillFault::Memory) => Err(CursorFault::Memory),
    }
}

fn read(alloc: Global, value: &Value) -> Result<Selector, CursorFault>
    ensures { Gives (λ q. q) result (lifted selector_fault (reading (view value.now))) }
{
    match Selector::read(alloc, value) {
        Ok(selector) => Ok(selector),
        Err(SelectorFault::NotObject) => Err(CursorFault::Selector(1)),
        Err(SelectorFault::UnknownOperator) => Err(CursorFault::Selector(2)),
        Err(SelectorFault::BadOperand) => Err(CursorFault::Selector(3)),
        Err(SelectorFault::Memory) => Err(CursorFault::Memory),
    }
}

fn make_selector(
    alloc: Global,
    template: &Template,
    params: &Items,
) -> Result<Selector, CursorFault>
    ensures { Gives (λ q. q) result (selector_made params.now template.now) }
{
    let value = fill(alloc, template, params)?;
    read(alloc, &value)
}

fn make_cursor(alloc: Global, rule: &CursorRule, params: &Items) -> Result<Cursor, CursorFault>
    ensures { Gives (λ cursor. cursor) result (cursor_made params.now rule.now) }
{
    let selector = make_selector(alloc, &rule.selector, params)?;
    let names = copy_names(&rule.collection, &rule.name)?;
    let shown = copy_shown(&rule.fields, &rule.sort)?;
    Ok(Cursor::of(names, selector, shown, rule.limit))
}

fn make_each(alloc: Global, rules: &CursorRules, params: &Items) -> Result<Vec<Cursor>, CursorFault>
    ensures { Gives (λ cursors. cursors.items) result (cursors_behind params.now [] rules.now) }
{
    let mut cursors = Vec::new(alloc);
    for rule in rules.as_slice() {
        let cursor = make_cursor(alloc, rule, params)?;
        cursors.push(cursor)?;
    }
    Ok(cursors)
}

impl Cursors {
    /// The cursors of a publication with the parameters of a call. The first cursor that can't be
    /// made is answered.
    pub fn make(
        alloc: Global,
        publication: &Publication,
        params: &Items,
    ) -> Result<Cursors, CursorFault>
        ensures { Gives (λ cursors. cursors) result (cursors_made params.now publication.now) }
    {
        let cursors = make_each(alloc, &publication.cursors, params)?;
        Ok(Cursors { cursors })
    }
}
