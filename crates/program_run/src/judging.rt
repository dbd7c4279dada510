//! What rules answer to an act.
ghost use Rattle.std.specs.Prelude.{◌≡◌, ◌&&◌, true, Some, IfOk, option_copied};
ghost use Rattle.std.specs.List.{list_any};
ghost use Rattle.program_model.specs.Guarded.{fields_in, judged_document, are_read, allows, first_denial, on_document, judged, no_rules, or_none};
ghost use Rattle.app_model.specs.App.{write_rules};
ghost use Rattle.program_run.specs.Acts.{write_of, is_write};

use crate::act::Act;
use crate::fields::fields_in;
use crate::holding::{allows, are_read, denies};
use app_model::App;
use ejson_value::{Doc, Mem, Names, Text};
use program_model::verdict::Verdict;
use program_steps::{Action, Rule, RuleList, Rules};
use std::alloc::Global;

// The place as a verdict has it. Rules that fit in memory are fewer than 2^32.
fn number(place: usize) -> Result<u32, Mem>
    ensures { IfOk result (λ n. n ≡ place) }
{
    if place > u32::MAX as usize {
        Err(Mem)
    } else {
        Ok(place as u32)
    }
}

// The place of the first deny rule that holds.
fn first_denial(
    alloc: Global,
    rules: &[Rule],
    act: &Act,
    parts: &Names,
    doc: &Doc,
) -> Result<Option<usize>, Mem>
    requires { parts.now ≡ fields_in (write_of act.now) }
    ensures { IfOk result (λ place. place ≡ first_denial (write_of act.now) doc.now 0 rules.now) }
{
    for (place, rule) in rules.iter().enumerate() {
        if denies(alloc, rule, act, parts, doc)? {
            return Ok(Some(place));
        }
    }
    Ok(None)
}

fn some_allows(
    alloc: Global,
    rules: &[Rule],
    act: &Act,
    parts: &Names,
    doc: &Doc,
) -> Result<bool, Mem>
    requires { parts.now ≡ fields_in (write_of act.now) }
    ensures { IfOk result (λ b. b ≡ list_any (allows (write_of act.now) doc.now) rules.now) }
{
    for rule in rules {
        if allows(alloc, rule, act, parts, doc)? {
            return Ok(true);
        }
    }
    Ok(false)
}

// What the rules answer to the act, whose fields are these. Deny rules go before allow rules.
fn weigh(alloc: Global, rules: &Rules, act: &Act, parts: &Names, doc: &Doc) -> Result<Verdict, Mem>
    requires { parts.now ≡ fields_in (write_of act.now) }
    ensures { IfOk result (λ verdict. verdict ≡ on_document rules.now (write_of act.now) (Some doc.now)) }
{
    if let Some(place) = first_denial(alloc, rules.deny.as_slice(), act, parts, doc)? {
        return Ok(Verdict::Denied(number(place)?));
    }
    if some_allows(alloc, rules.allow.as_slice(), act, parts, doc)? {
        Ok(Verdict::Allowed)
    } else {
        Ok(Verdict::NotAllowed)
    }
}

fn on_document(alloc: Global, rules: &Rules, act: &Act, doc: &Doc) -> Result<Verdict, Mem>
    requires { is_write act.now ≡ true }
    ensures { IfOk result (λ verdict. verdict ≡ on_document rules.now (write_of act.now) (Some doc.now)) }
{
    let parts = fields_in(alloc, act)?;
    weigh(alloc, rules, act, &parts, doc)
}

// Whether all rules on the action are read.
fn all_read(alloc: Global, rules: &Rules, action: Action) -> Result<bool, Mem>
    ensures { IfOk result (λ b. b ≡ (are_read action rules.now.allow && are_read action rules.now.deny)) }
{
    if are_read(alloc, action, rules.allow.as_slice())? {
        are_read(alloc, action, rules.deny.as_slice())
    } else {
        Ok(false)
    }
}

// The document that rules look at.
fn judged_document<'a>(act: &'a Act, present: Option<&'a Doc>) -> Option<&'a Doc>
    ensures { option_copied result ≡ judged_document (write_of act.now) (option_copied present.entry) }
{
    match act {
        Act::Insert { doc, .. } => Some(doc),
        Act::Update { .. } => present,
        Act::Remove { .. } => present,
    }
}

fn judge_by(alloc: Global, rules: &Rules, act: &Act, present: Option<&Doc>) -> Result<Verdict, Mem>
    requires { is_write act.now ≡ true }
    ensures { IfOk result (λ verdict. verdict ≡ judged rules.now (write_of act.now) (option_copied present.entry)) }
{
    if !all_read(alloc, rules, act.action())? {
        return Ok(Verdict::BadRule);
    }
    match judged_document(act, present) {
        None => Ok(Verdict::Absent),
        Some(doc) => on_document(alloc, rules, act, doc),
    }
}

fn no_rules(alloc: Global) -> Rules
    ensures { result ≡ no_rules }
{
    Rules {
        allow: RuleList::new(alloc),
        deny: RuleList::new(alloc),
    }
}

/// What the rules for the collection answer to the act of a client, where `present` is the document
/// that the store has under the act's id. The first of these that applies: `BadRule`, where a rule on
/// the action has a selector that is not read; `Absent`, where a document to be changed or removed is
/// not there; `Denied`, by the first deny rule that holds; `NotAllowed`, where no allow rule holds, as
/// in a collection without rules; and else `Allowed`. A rule holds where its selector does, of the new
/// document of an insert and else of `present`, and where its fields have the first part of each path
/// of the modifier (allow) or of some path (deny). `Act::is_write` tells whether an act can be judged.
pub fn judge(
    alloc: Global,
    app: &App,
    collection: &Text,
    act: &Act,
    present: Option<&Doc>,
) -> Result<Verdict, Mem>
    requires { is_write act.now ≡ true }
    ensures { IfOk result (λ verdict. verdict ≡ judged (or_none (write_rules app.now collection.now)) (write_of act.now) (option_copied present.entry)) }
{
    match app.rules(collection) {
        Some(rules) => judge_by(alloc, rules, act, present),
        None => judge_by(alloc, &no_rules(alloc), act, present),
    }
}
