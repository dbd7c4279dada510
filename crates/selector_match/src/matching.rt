//! Whether a selector holds of a document, and a test of an element.
ghost use Rattle.std.specs.Prelude.{◌≡◌, ◌+◌, option_map};
ghost use Rattle.std.specs.List.{list_any};
ghost use Rattle.ejson_value.specs.View.{view, views};
ghost use Rattle.selector_match.specs.View.{clause_view, predicate_view};
ghost use Rattle.selector_match.specs.Holds.{elements, query_holds, clause_holds, all_hold, some_holds, predicates_hold, predicate_holds, fits, holds};
ghost use Rattle.selector_match.specs.Reached.{reached_view};
ghost use Rattle.selector_match.specs.Asked.{subject_branches, fields_seen};

use crate::asking::{Subject, has_id, plain_holds, subject_at};
use crate::reached::{Reached, reached_by, reached_list};
use crate::selector::{Condition, Operator, Operators, Selector, Selectors, Test, TestKind};
use crate::steps::Steps;
use ejson_value::{Doc, Text, Value, some_branch};
use std::sync::ledger::Ledger;

// Whether what was reached is a list with an element that the test passes.
#[cycle(matching)]
fn has_fitting(test: &Test, reached: Reached) -> bool
    ensures { result ≡ list_any (λ v. fits test.now v) (elements (reached_view reached.entry)) }
{
    match reached_list(reached) {
        None => false,
        Some(items) => some_element_fits(test, items.as_slice()),
    }
}

#[cycle(matching)]
fn some_element_fits(test: &Test, elements: &[Value]) -> bool
    ensures { result ≡ list_any (λ v. fits test.now v) (views elements.now) }
{
    for element in elements {
        if fits(test, element) {
            return true;
        }
    }
    false
}

/// Whether the test passes one element.
#[cycle(matching)]
pub fn fits(test: &Test, element: &Value) -> bool
    ensures { result ≡ fits test.now (view element.now) }
{
    match &test.kind {
        TestKind::Operators(operators) => operators_hold(operators, Subject::Element(element)),
        TestKind::Fields(selector) => match element {
            Value::Object(fields) => selector_holds(selector, None, fields),
            Value::Null
            | Value::Bool(_)
            | Value::Int(_)
            | Value::Text(_)
            | Value::Date(_)
            | Value::Bytes(_)
            | Value::List(_)
            | Value::User { .. } => false,
        },
    }
}

// Whether some branch is a list with an element that the test passes.
#[cycle(matching)]
fn some_fitting(test: &Test, subject: Subject) -> bool
    ensures { result ≡ list_any (λ b. list_any (λ v. fits test.now v) (elements b.0)) (subject_branches subject.entry) }
{
    match subject {
        Subject::Branches(doc, path) => some_branch(
            doc,
            path,
            &|value: Option<&Value>, _whole: bool| -> bool
                ensures { result ≡ list_any (λ v. fits test.entry.now v) (elements (option_map (λ v. view v.now) value.entry)) }
            { has_fitting(test, reached_by(value)) },
        ),
        Subject::Element(element) => has_fitting(test, Reached::Value(element)),
        Subject::Id(_) | Subject::Nothing => false,
    }
}

#[cycle(matching)]
fn operator_holds(operator: &Operator, subject: Subject) -> bool
    ensures { result ≡ predicate_holds (predicate_view operator.now) (subject_branches subject.entry) }
{
    match operator {
        Operator::Plain(plain) => plain_holds(plain, subject),
        Operator::HasElement(test) => some_fitting(test, subject),
        Operator::Negated(operators) => !operators_hold(operators, subject),
    }
}

#[cycle(matching)]
fn operators_hold(operators: &Operators, subject: Subject) -> bool
    ensures { result ≡ predicates_hold operators.now (subject_branches subject.entry) }
{
    for operator in &operators.operators {
        if !operator_holds(operator, subject) {
            return false;
        }
    }
    true
}

#[cycle(matching)]
fn condition_holds(condition: &Condition, id: Option<&Text>, doc: &Doc) -> bool
    ensures { result ≡ clause_holds (clause_view condition.now) (fields_seen id.entry doc.now) }
{
    match condition {
        Condition::All(selectors) => all_hold(selectors, id, doc),
        Condition::Any(selectors) => some_holds(selectors, id, doc),
        Condition::Neither(selectors) => !some_holds(selectors, id, doc),
        Condition::AtPath(path, operators) => operators_hold(operators, subject_at(id, doc, path)),
        Condition::HasId(wanted) => has_id(wanted, id, doc),
    }
}

#[cycle(matching)]
fn all_hold(selectors: &Selectors, id: Option<&Text>, doc: &Doc) -> bool
    ensures { result ≡ all_hold selectors.now (fields_seen id.entry doc.now) }
{
    for selector in &selectors.selectors {
        if !selector_holds(selector, id, doc) {
            return false;
        }
    }
    true
}

#[cycle(matching)]
fn some_holds(selectors: &Selectors, id: Option<&Text>, doc: &Doc) -> bool
    ensures { result ≡ some_holds selectors.now (fields_seen id.entry doc.now) }
{
    for selector in &selectors.selectors {
        if selector_holds(selector, id, doc) {
            return true;
        }
    }
    false
}

#[cycle(matching)]
fn selector_holds(selector: &Selector, id: Option<&Text>, doc: &Doc) -> bool
    ensures { result ≡ query_holds selector.now (fields_seen id.entry doc.now) }
{
    for condition in &selector.conditions {
        if !condition_holds(condition, id, doc) {
            return false;
        }
    }
    true
}

/// Whether the selector holds of the document with this id. It takes one step.
pub fn matches<L: Ledger>(selector: &Selector, id: &Text, doc: &Doc, steps: &mut Steps<L>) -> bool
    ensures holds { result ≡ holds selector.now id.now doc.now }
    ensures ticks { steps.new ≡ steps.old + 1 }
{
    steps.tick();
    selector_holds(selector, Some(id), doc)
}
