//! Whether a rule is read, and whether it holds of a write.
ghost use Rattle.std.specs.Prelude.{◌≡◌, ◌||◌, not, is_ok, IfOk, option_map};
ghost use Rattle.ejson_value.specs.View.{view};
ghost use Rattle.selector_match.specs.Reading.{reading};
ghost use Rattle.program_model.specs.Guarded.{same_action, is_read, are_read, held_by, selects, speaks_of, fields_in, allows, denies};
ghost use Rattle.program_run.specs.Acts.{write_of};

use crate::act::Act;
use crate::fields::{has_all_fields, has_some_field};
use ejson_value::{Doc, Mem, Names, Text, Value};
use program_steps::{Action, Rule};
use selector_match::{Selector, SelectorFault, holds};
use std::alloc::Global;

fn same_action(one: Action, other: Action) -> bool
    ensures { result ≡ same_action one other }
{
    one == other
}

fn is_selector(alloc: Global, value: &Value) -> Result<bool, Mem>
    ensures { IfOk result (λ b. b ≡ is_ok (reading (view value.now))) }
{
    match Selector::read(alloc, value) {
        Ok(selector) => {
            drop(selector);
            Ok(true)
        }
        Err(SelectorFault::NotObject) => Ok(false),
        Err(SelectorFault::UnknownOperator) => Ok(false),
        Err(SelectorFault::BadOperand) => Ok(false),
        Err(SelectorFault::Memory) => Err(Mem),
    }
}

fn is_read(alloc: Global, selector: &Option<Value>) -> Result<bool, Mem>
    ensures { IfOk result (λ b. b ≡ is_read (option_map (λ v. view v) selector.now)) }
{
    match selector {
        None => Ok(true),
        Some(value) => is_selector(alloc, value),
    }
}

// Whether the rule is on another action, or its selector is read.
fn can_be_asked(alloc: Global, action: Action, rule: &Rule) -> Result<bool, Mem>
    ensures { IfOk result (λ b. b ≡ (not (same_action rule.now.on action) || is_read rule.now.selector)) }
{
    if same_action(rule.on, action) {
        is_read(alloc, &rule.selector)
    } else {
        Ok(true)
    }
}

/// Whether each rule on the action has a selector that is read, or none.
pub(crate) fn are_read(alloc: Global, action: Action, rules: &[Rule]) -> Result<bool, Mem>
    ensures { IfOk result (λ b. b ≡ are_read action rules.now) }
{
    for rule in rules {
        if !can_be_asked(alloc, action, rule)? {
            return Ok(false);
        }
    }
    Ok(true)
}

fn held_by(alloc: Global, value: &Value, id: &Text, doc: &Doc) -> Result<bool, Mem>
    ensures { IfOk result (λ b. b ≡ held_by (reading (view value.now)) id.now doc.now) }
{
    match Selector::read(alloc, value) {
        Ok(selector) => Ok(holds(&selector, id, doc)),
        Err(SelectorFault::NotObject) => Ok(false),
        Err(SelectorFault::UnknownOperator) => Ok(false),
        Err(SelectorFault::BadOperand) => Ok(false),
        Err(SelectorFault::Memory) => Err(Mem),
    }
}

fn selects(alloc: Global, selector: &Option<Value>, id: &Text, doc: &Doc) -> Result<bool, Mem>
    ensures { IfOk result (λ b. b ≡ selects (option_map (λ v. view v) selector.now) id.now doc.now) }
{
    match selector {
        None => Ok(true),
        Some(value) => held_by(alloc, value, id, doc),
    }
}

fn speaks_of(alloc: Global, rule: &Rule, act: &Act, doc: &Doc) -> Result<bool, Mem>
    ensures { IfOk result (λ b. b ≡ speaks_of rule.now (write_of act.now) doc.now) }
{
    if same_action(rule.on, act.action()) {
        selects(alloc, &rule.selector, act.id(), doc)
    } else {
        Ok(false)
    }
}

/// Whether the allow rule holds of the act, whose fields are these.
pub(crate) fn allows(
    alloc: Global,
    rule: &Rule,
    act: &Act,
    parts: &Names,
    doc: &Doc,
) -> Result<bool, Mem>
    requires { parts.now ≡ fields_in (write_of act.now) }
    ensures { IfOk result (λ b. b ≡ allows (write_of act.now) doc.now rule.now) }
{
    let speaks = speaks_of(alloc, rule, act, doc)?;
    Ok(speaks && has_all_fields(&rule.fields, parts))
}

/// Whether the deny rule holds of the act, whose fields are these.
pub(crate) fn denies(
    alloc: Global,
    rule: &Rule,
    act: &Act,
    parts: &Names,
    doc: &Doc,
) -> Result<bool, Mem>
    requires { parts.now ≡ fields_in (write_of act.now) }
    ensures { IfOk result (λ b. b ≡ denies (write_of act.now) doc.now rule.now) }
{
    let speaks = speaks_of(alloc, rule, act, doc)?;
    Ok(speaks && has_some_field(&rule.fields, parts))
}
