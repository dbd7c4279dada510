//! The id that a selector names.
ghost use Rattle.std.specs.Prelude.{◌≡◌, ℕ, List, true, IfOk, IfSome};
ghost use Rattle.std.specs.Option.{option_copied};
ghost use Rattle.value_model.specs.Val.{Entries};
ghost use Rattle.ejson_value.specs.View.{view};
ghost use Rattle.selector_match.specs.View.{clause_view, plain_view, predicate_view};
ghost use Rattle.selector_match.specs.Holds.{holds};
ghost use Rattle.selector_match.specs.Named.{text_in, named_by_predicate, named_by_predicates, is_id_path, named_by_clause, named_id, by_id};

use crate::asking::is_id;
use crate::selector::{Condition, Operator, Operators, Plain, Selector};
use ejson_value::{Mem, Path, Text, Value};
use std::alloc::Global;

fn text_in(value: &Value) -> Option<&Text>
    ensures { option_copied result ≡ text_in (view value.now) }
{
    match value {
        Value::Text(text) => Some(text),
        Value::Null
        | Value::Bool(_)
        | Value::Int(_)
        | Value::Date(_)
        | Value::Bytes(_)
        | Value::List(_)
        | Value::Object(_)
        | Value::User { .. } => None,
    }
}

fn named_by_operator(operator: &Operator) -> Option<&Text>
    ensures { option_copied result ≡ named_by_predicate (predicate_view operator.now) }
{
    match operator {
        Operator::Plain(plain) => named_by_plain(plain),
        Operator::HasElement(_) | Operator::Negated(_) => None,
    }
}

fn named_by_plain(operator: &Plain) -> Option<&Text>
    ensures { option_copied result ≡ named_by_predicate (plain_view operator.now) }
{
    match operator {
        Plain::Equal(operand) => text_in(operand),
        Plain::NotEqual(_)
        | Plain::Among(_)
        | Plain::NotAmong(_)
        | Plain::Greater(_)
        | Plain::AtLeast(_)
        | Plain::Less(_)
        | Plain::AtMost(_)
        | Plain::Present(_)
        | Plain::Sized(_)
        | Plain::HasAll(_) => None,
    }
}

fn named_by_operators(operators: &Operators) -> Option<&Text>
    ensures { option_copied result ≡ named_by_predicates operators.now }
{
    for operator in &operators.operators {
        match named_by_operator(operator) {
            Some(text) => return Some(text),
            None => {}
        }
    }
    None
}

fn is_id_path(path: &Path) -> bool
    ensures { result ≡ is_id_path path.now }
{
    match path.parts().split_first() {
        None => false,
        Some((first, rest)) => rest.is_empty() && is_id(first.name()),
    }
}

fn named_by_condition(condition: &Condition) -> Option<&Text>
    ensures { option_copied result ≡ named_by_clause (clause_view condition.now) }
{
    match condition {
        Condition::AtPath(path, operators) => {
            if is_id_path(path) {
                named_by_operators(operators)
            } else {
                None
            }
        }
        Condition::HasId(id) => Some(id),
        Condition::All(_) | Condition::Any(_) | Condition::Neither(_) => None,
    }
}

impl Selector {
    /// The selector of the document with this id.
    pub fn by_id(alloc: Global, id: Text) -> Result<Selector, Mem>
        ensures { IfOk result (λ q. q ≡ by_id id) }
    {
        let mut conditions = Vec::with_capacity(alloc, 1)?;
        conditions.push(Condition::HasId(id))?;
        Ok(Selector { conditions })
    }

    /// The text that `_id` must equal by one of the conditions, if there is such a condition. A
    /// query then has to look at the document with this id alone.
    pub fn named_id(&self) -> Option<&Text>
        ensures named { option_copied result ≡ named_id self.now }
        ensures only { IfSome result (λ text. (id : List ℕ) (doc : Entries) → holds self.now id doc ≡ true → id ≡ text.now) }
    {
        for condition in &self.conditions {
            match named_by_condition(condition) {
                Some(text) => return Some(text),
                None => {}
            }
        }
        None
    }
}
