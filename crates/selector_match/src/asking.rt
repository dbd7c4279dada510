//! What operators without operators in them ask of the branches of a path.
ghost use Rattle.std.specs.Prelude.{◌≡◌, Some, codes, false, option_map, unwrap_or};
ghost use Rattle.std.specs.List.{list_any};
ghost use Rattle.std.specs.Ordering.{is_eq};
ghost use Rattle.value_model.specs.Val.{null, object, vals_of};
ghost use Rattle.value_model.specs.Order.{kind, text_cmp};
ghost use Rattle.value_model.specs.Doc.{get};
ghost use Rattle.value_model.specs.Branches.{branches};
ghost use Rattle.ejson_value.specs.View.{view, views};
ghost use Rattle.selector_match.specs.View.{plain_view};
ghost use Rattle.selector_match.specs.Holds.{branch_candidates, candidates, has_equal, clause_holds, predicate_holds};
ghost use Rattle.selector_match.specs.Named.{has_id};
ghost use Rattle.selector_match.specs.Reached.{reached_view};
ghost use Rattle.selector_match.specs.Asked.{relates, meets, asked, subject_branches, fields_seen};

use crate::marking::equals_each;
use crate::operands::Operands;
use crate::reached::{
    Reached, is_of_kind, is_present, order_to, reached_by, reached_has_length, reached_is_text,
    reached_list,
};
use crate::selector::Plain;
use ejson_value::{Doc, Path, Text, Value, some_branch};

#[derive(Clone, Copy)]
pub(crate) enum Relation {
    Equal,
    Greater,
    AtLeast,
    Less,
    AtMost,
}

// What a candidate has to meet: so to relate to an operand, to equal one of several, or to be a text.
#[derive(Clone, Copy)]
pub(crate) enum Criterion<'a> {
    Relates(Relation, &'a Value),
    Among(&'a Operands),
    IsText(&'a Text),
}

// What an operator asks of each branch.
#[derive(Clone, Copy)]
pub(crate) enum Question<'a> {
    Candidate(Criterion<'a>),
    Present,
    HasLength(u64),
}

// What operators look at: the branches of a path, or one branch.
#[derive(Clone, Copy)]
pub(crate) enum Subject<'a> {
    Branches(&'a Doc, &'a Path),
    Element(&'a Value),
    Id(&'a Text),
    Nothing,
}

fn relates(relation: Relation, reached: Reached, operand: &Value) -> bool
    ensures { result ≡ relates relation (view operand.now) (reached_view reached.entry) }
{
    let order = order_to(reached, operand);
    let same_kind = is_of_kind(reached, operand);
    match relation {
        Relation::Equal => order.is_eq(),
        Relation::Greater => same_kind && order.is_gt(),
        Relation::AtLeast => same_kind && order.is_ge(),
        Relation::Less => same_kind && order.is_lt(),
        Relation::AtMost => same_kind && order.is_le(),
    }
}

fn meets(criterion: Criterion, reached: Reached) -> bool
    ensures { result ≡ meets criterion.entry (reached_view reached.entry) }
{
    match criterion {
        Criterion::Relates(relation, operand) => relates(relation, reached, operand),
        Criterion::Among(operands) => operands.has(reached),
        Criterion::IsText(text) => reached_is_text(reached, text),
    }
}

fn some_element_meets(criterion: Criterion, elements: &[Value]) -> bool
    ensures { result ≡ list_any (λ v. meets criterion.entry (Some v)) (views elements.now) }
{
    for element in elements {
        if meets(criterion, Reached::Value(element)) {
            return true;
        }
    }
    false
}

fn some_candidate_meets(criterion: Criterion, reached: Reached, whole: bool) -> bool
    ensures { result ≡ list_any (λ c. meets criterion.entry c) (branch_candidates (reached_view reached.entry, whole)) }
{
    if meets(criterion, reached) {
        return true;
    }
    if whole {
        return false;
    }
    match reached_list(reached) {
        None => false,
        Some(items) => some_element_meets(criterion, items.as_slice()),
    }
}

// What the question says of one branch.
fn answer(question: Question, reached: Reached, whole: bool) -> bool
    ensures { result ≡ asked question.entry (reached_view reached.entry) whole }
{
    match question {
        Question::Candidate(criterion) => some_candidate_meets(criterion, reached, whole),
        Question::Present => is_present(reached),
        Question::HasLength(length) => reached_has_length(reached, length),
    }
}

// Whether the answer is yes at some branch.
fn some_answer(question: Question, subject: Subject) -> bool
    ensures { result ≡ list_any (λ b. asked question.entry b.0 b.1) (subject_branches subject.entry) }
{
    match subject {
        Subject::Branches(doc, path) => some_branch(
            doc,
            path,
            &|value: Option<&Value>, whole: bool| -> bool
                ensures { result ≡ asked question.entry (option_map (λ v. view v.now) value.entry) whole }
            { answer(question, reached_by(value), whole) },
        ),
        Subject::Element(element) => answer(question, Reached::Value(element), true),
        Subject::Id(id) => answer(question, Reached::Id(id), false),
        Subject::Nothing => answer(question, Reached::Nothing, false),
    }
}

// Whether some candidate meets the criterion. It walks over the branches once.
fn some_meets(criterion: Criterion, subject: Subject) -> bool
    ensures { result ≡ list_any (λ c. meets criterion.entry c) (candidates (subject_branches subject.entry)) }
{
    some_answer(Question::Candidate(criterion), subject)
}

fn some_relates(relation: Relation, operand: &Value, subject: Subject) -> bool
    ensures { result ≡ list_any (λ c. relates relation (view operand.now) c) (candidates (subject_branches subject.entry)) }
{
    some_meets(Criterion::Relates(relation, operand), subject)
}

fn equals_some(operands: &Operands, subject: Subject) -> bool
    ensures { result ≡ list_any (λ v. has_equal v (subject_branches subject.entry)) operands.now }
{
    some_meets(Criterion::Among(operands), subject)
}

pub(crate) fn plain_holds(operator: &Plain, subject: Subject) -> bool
    ensures { result ≡ predicate_holds (plain_view operator.now) (subject_branches subject.entry) }
{
    match operator {
        Plain::Equal(operand) => some_relates(Relation::Equal, operand, subject),
        Plain::NotEqual(operand) => !some_relates(Relation::Equal, operand, subject),
        Plain::Among(operands) => equals_some(operands, subject),
        Plain::NotAmong(operands) => !equals_some(operands, subject),
        Plain::Greater(operand) => some_relates(Relation::Greater, operand, subject),
        Plain::AtLeast(operand) => some_relates(Relation::AtLeast, operand, subject),
        Plain::Less(operand) => some_relates(Relation::Less, operand, subject),
        Plain::AtMost(operand) => some_relates(Relation::AtMost, operand, subject),
        Plain::Present(wanted) => some_answer(Question::Present, subject) == *wanted,
        Plain::Sized(length) => some_answer(Question::HasLength(*length), subject),
        Plain::HasAll(operands) => !operands.is_empty() && equals_each(operands, subject),
    }
}

// The branches of a path in the document, where `_id` is the id if one is given.
pub(crate) fn subject_at<'a>(id: Option<&'a Text>, doc: &'a Doc, path: &'a Path) -> Subject<'a>
    ensures { subject_branches result ≡ branches path.now (Some (object (fields_seen id.entry doc.now))) false }
{
    let Some(id) = id else {
        return Subject::Branches(doc, path);
    };
    match path.parts().split_first() {
        None => unreachable!(),
        Some((first, rest)) => {
            if !is_id(first.name()) {
                Subject::Branches(doc, path)
            } else if rest.is_empty() {
                Subject::Id(id)
            } else {
                Subject::Nothing
            }
        }
    }
}

// What stands in the field `_id`.
fn id_field(doc: &Doc) -> Option<&Value>
    ensures { option_map (λ v. view v.now) result ≡ get doc.now (codes "_id") }
{
    for (name, value) in doc.iter() {
        if "_id".cmp(name.as_str()).is_eq() {
            return Some(value);
        }
    }
    None
}

// Whether the document has this id, where `_id` is the id if one is given.
pub(crate) fn has_id(wanted: &Text, id: Option<&Text>, doc: &Doc) -> bool
    ensures { result ≡ clause_holds (has_id wanted.now) (fields_seen id.entry doc.now) }
{
    match id {
        Some(id) => id.cmp(wanted).is_eq(),
        None => some_candidate_meets(Criterion::IsText(wanted), reached_by(id_field(doc)), false),
    }
}

// Whether the name is `_id`.
pub(crate) fn is_id(name: &Text) -> bool
    ensures { result ≡ is_eq (text_cmp name.now (codes "_id")) }
{
    name.as_str().cmp("_id").is_eq()
}
