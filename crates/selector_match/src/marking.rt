//! Which of many operands some candidate equals, by one walk over the branches of a path.
ghost use Rattle.std.specs.Prelude.{◌≡◌, ◌≤◌, ◌<◌, ◌∷◌, ℕ, [], length, slice_index_or, Some, None, true, false, option_map, if◌then◌else◌};
ghost use Rattle.std.specs.List.{list_any, list_all, flat_map};
ghost use Rattle.std.specs.Option.{option_map_or};
ghost use Rattle.value_model.specs.Val.{object, fields_of, vals_of};
ghost use Rattle.value_model.specs.Branches.{branches, if_object, field_of, element_at};
ghost use Rattle.ejson_value.specs.View.{view, views};
ghost use Rattle.selector_match.specs.Holds.{equals, has_equal};
ghost use Rattle.selector_match.specs.Reached.{reached_view};
ghost use Rattle.selector_match.specs.Asked.{subject_branches};
ghost use Rattle.selector_match.specs.Operands.{IsRising, Marked, met_at, met};

use crate::asking::Subject;
use crate::operands::{Operands, place_of};
use crate::reached::{Reached, is_list, reached_by, reached_list};
use ejson_value::{Doc, Items, Part, Path, Value};

// How many operands one walk looks for.
const BLOCK: usize = 1024;

// Marks the operand that equals what was reached.
fn mark(rising: &[Value], reached: Reached, marks: &mut [bool])
    requires rising { IsRising (views rising.now) }
    requires as_many { length marks.old ≡ length rising.now }
    ensures { Marked (views rising.now) (λ v. equals v (reached_view reached.entry)) marks.old marks.new }
{
    match place_of(rising, reached) {
        None => {}
        Some(place) => marks[place] = true,
    }
}

fn mark_elements(rising: &[Value], elements: &[Value], marks: &mut [bool])
    requires rising { IsRising (views rising.now) }
    requires as_many { length marks.old ≡ length rising.now }
    ensures { Marked (views rising.now) (λ v. list_any (λ w. equals v (Some w)) (views elements.now)) marks.old marks.new }
{
    for element in elements {
        mark(rising, Reached::Value(element), marks);
    }
}

// Marks the operands that a candidate of the branch equals.
fn mark_candidates(rising: &[Value], reached: Reached, whole: bool, marks: &mut [bool])
    requires rising { IsRising (views rising.now) }
    requires as_many { length marks.old ≡ length rising.now }
    ensures { Marked (views rising.now) (λ v. met_at v (reached_view reached.entry) whole) marks.old marks.new }
{
    mark(rising, reached, marks);
    if whole {
        return;
    }
    match reached_list(reached) {
        None => {}
        Some(items) => mark_elements(rising, items.as_slice(), marks),
    }
}

// The branch that reached nothing, unless the path went on from an element of a list.
fn mark_nothing(rising: &[Value], from_list: bool, marks: &mut [bool])
    requires rising { IsRising (views rising.now) }
    requires as_many { length marks.old ≡ length rising.now }
    ensures { Marked (views rising.now) (λ v. met v (if from_list then [] else (None, false) ∷ [])) marks.old marks.new }
{
    if !from_list {
        mark_candidates(rising, Reached::Nothing, false, marks);
    }
}

// Marks the operands that a candidate equals of the branches of the rest of a path from what was
// reached so far.
#[cycle(marking)]
fn mark_from(
    rising: &[Value],
    reached: Option<&Value>,
    from_list: bool,
    rest: &[Part],
    marks: &mut [bool],
)
    requires rising { IsRising (views rising.now) }
    requires as_many { length marks.old ≡ length rising.now }
    ensures { Marked (views rising.now) (λ v. met v (branches rest.now (option_map (λ w. view w.now) reached.entry) from_list)) marks.old marks.new }
{
    match rest.split_first() {
        None => {
            let reached = reached_by(reached);
            mark_candidates(rising, reached, from_list && is_list(reached), marks);
        }
        Some((part, more)) => mark_after(rising, reached, from_list, part, more, marks),
    }
}

// The same, where the path goes on with this part.
#[cycle(marking)]
fn mark_after(
    rising: &[Value],
    reached: Option<&Value>,
    from_list: bool,
    part: &Part,
    more: &[Part],
    marks: &mut [bool],
)
    requires rising { IsRising (views rising.now) }
    requires as_many { length marks.old ≡ length rising.now }
    ensures { Marked (views rising.now) (λ v. met v (branches (part.now ∷ more.now) (option_map (λ w. view w.now) reached.entry) from_list))
        marks.old marks.new }
{
    let Some(value) = reached else {
        return mark_nothing(rising, from_list, marks);
    };
    match value {
        Value::Object(fields) => mark_from(rising, fields.get(part.name()), false, more, marks),
        Value::List(items) => {
            mark_at_place(rising, items, part, more, marks);
            mark_in_elements(rising, items, part, more, marks);
        }
        Value::Null
        | Value::Bool(_)
        | Value::Int(_)
        | Value::Text(_)
        | Value::Date(_)
        | Value::Bytes(_)
        | Value::User { .. } => mark_nothing(rising, from_list, marks),
    }
}

// The branches through the element at the position that the part writes.
#[cycle(marking)]
fn mark_at_place(rising: &[Value], items: &Items, part: &Part, more: &[Part], marks: &mut [bool])
    requires rising { IsRising (views rising.now) }
    requires as_many { length marks.old ≡ length rising.now }
    ensures { Marked (views rising.now)
        (λ v. met v (option_map_or (λ w. branches more.now (Some w) true) (element_at (vals_of items.now) part.now) [])) marks.old marks.new }
{
    let Some(place) = part.place() else {
        return;
    };
    match items.get(place) {
        None => {}
        Some(item) => mark_from(rising, Some(item), true, more, marks),
    }
}

// The branches through the elements that are objects.
#[cycle(marking)]
fn mark_in_elements(rising: &[Value], items: &Items, part: &Part, more: &[Part], marks: &mut [bool])
    requires rising { IsRising (views rising.now) }
    requires as_many { length marks.old ≡ length rising.now }
    ensures { Marked (views rising.now) (λ v. met v (flat_map (λ w. if_object (λ fs. branches more.now (field_of fs part.now) false) w) items.now))
        marks.old marks.new }
{
    for item in items.as_slice() {
        mark_in_element(rising, item, part, more, marks);
    }
}

#[cycle(marking)]
fn mark_in_element(rising: &[Value], item: &Value, part: &Part, more: &[Part], marks: &mut [bool])
    requires rising { IsRising (views rising.now) }
    requires as_many { length marks.old ≡ length rising.now }
    ensures { Marked (views rising.now) (λ v. met v (if_object (λ fs. branches more.now (field_of fs part.now) false) (view item.now))) marks.old marks.new }
{
    match item {
        Value::Object(fields) => mark_from(rising, fields.get(part.name()), false, more, marks),
        Value::Null
        | Value::Bool(_)
        | Value::Int(_)
        | Value::Text(_)
        | Value::Date(_)
        | Value::Bytes(_)
        | Value::List(_)
        | Value::User { .. } => {}
    }
}

fn mark_in_document(rising: &[Value], doc: &Doc, path: &Path, marks: &mut [bool])
    requires rising { IsRising (views rising.now) }
    requires as_many { length marks.old ≡ length rising.now }
    ensures { Marked (views rising.now) (λ v. met v (branches path.now (Some (object (fields_of doc.now))) false)) marks.old marks.new }
{
    match path.parts().split_first() {
        None => unreachable!(),
        Some((part, more)) => mark_from(rising, doc.get(part.name()), false, more, marks),
    }
}

fn mark_subject(rising: &[Value], subject: Subject, marks: &mut [bool])
    requires rising { IsRising (views rising.now) }
    requires as_many { length marks.old ≡ length rising.now }
    ensures { Marked (views rising.now) (λ v. met v (subject_branches subject.entry)) marks.old marks.new }
{
    match subject {
        Subject::Branches(doc, path) => mark_in_document(rising, doc, path, marks),
        Subject::Element(element) => mark_candidates(rising, Reached::Value(element), true, marks),
        Subject::Id(id) => mark_candidates(rising, Reached::Id(id), false, marks),
        Subject::Nothing => mark_candidates(rising, Reached::Nothing, false, marks),
    }
}

fn are_all_marked(rising: &[Value], subject: Subject, marks: &mut [bool]) -> bool
    requires rising { IsRising (views rising.now) }
    requires as_many { length marks.old ≡ length rising.now }
    requires unmarked { (k : ℕ) → k < length marks.old → slice_index_or marks.old k false ≡ false }
    ensures { result ≡ list_all (λ v. has_equal v (subject_branches subject.entry)) (views rising.now) }
{
    mark_subject(rising, subject, marks);
    marks.iter().all(|marked| *marked)
}

// Whether some candidate equals each of the operands, which fit into one block.
fn equals_each_of(rising: &[Value], subject: Subject) -> bool
    requires rising { IsRising (views rising.now) }
    requires few { length rising.now ≤ 1024 }
    ensures { result ≡ list_all (λ v. has_equal v (subject_branches subject.entry)) (views rising.now) }
{
    let mut marks = [false; BLOCK];
    are_all_marked(rising, subject, &mut marks[..rising.len()])
}

// Whether some candidate equals each of the operands. It walks over the branches once for each
// block of operands.
pub(crate) fn equals_each(operands: &Operands, subject: Subject) -> bool
    ensures { result ≡ list_all (λ v. has_equal v (subject_branches subject.entry)) operands.now }
{
    let mut rest = operands.rising();
    while rest.len() > BLOCK {
        let (block, more) = rest.split_at(BLOCK);
        if !equals_each_of(block, subject) {
            return false;
        }
        rest = more;
    }
    equals_each_of(rest, subject)
}
