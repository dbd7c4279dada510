//! Copies of selectors.
ghost use Rattle.std.specs.Prelude.{◌≡◌, IfOk};
ghost use Rattle.selector_match.specs.View.{clause_view, plain_view, predicate_view};

use crate::selector::{Condition, Operator, Operators, Plain, Selector, Selectors, Test, TestKind};
use ejson_value::{Mem, copy};

#[cycle(copying)]
fn copy_condition(condition: &Condition) -> Result<Condition, Mem>
    ensures { IfOk result (λ c. clause_view c ≡ clause_view condition.now) }
{
    match condition {
        Condition::All(selectors) => copy_selectors(selectors).map(Condition::All),
        Condition::Any(selectors) => copy_selectors(selectors).map(Condition::Any),
        Condition::Neither(selectors) => copy_selectors(selectors).map(Condition::Neither),
        Condition::AtPath(path, operators) => Ok(Condition::AtPath(
            path.copy()?,
            copy_operators(operators)?,
        )),
        Condition::HasId(id) => id.copy().map(Condition::HasId),
    }
}

#[cycle(copying)]
fn copy_selectors(selectors: &Selectors) -> Result<Selectors, Mem>
    ensures { IfOk result (λ qs. qs ≡ selectors.now) }
{
    let mut copies = Vec::new(*selectors.selectors.allocator());
    for selector in &selectors.selectors {
        let copied = selector.copy()?;
        copies.push(copied)?;
    }
    Ok(Selectors { selectors: copies })
}

#[cycle(copying)]
fn copy_operators(operators: &Operators) -> Result<Operators, Mem>
    ensures { IfOk result (λ ps. ps ≡ operators.now) }
{
    let mut copies = Vec::new(*operators.operators.allocator());
    for operator in &operators.operators {
        let copied = copy_operator(operator)?;
        copies.push(copied)?;
    }
    Ok(Operators { operators: copies })
}

#[cycle(copying)]
fn copy_operator(operator: &Operator) -> Result<Operator, Mem>
    ensures { IfOk result (λ p. predicate_view p ≡ predicate_view operator.now) }
{
    match operator {
        Operator::Plain(plain) => copy_plain(plain).map(Operator::Plain),
        Operator::HasElement(test) => test.copy().map(Operator::HasElement),
        Operator::Negated(operators) => copy_operators(operators).map(Operator::Negated),
    }
}

fn copy_plain(operator: &Plain) -> Result<Plain, Mem>
    ensures { IfOk result (λ p. plain_view p ≡ plain_view operator.now) }
{
    match operator {
        Plain::Equal(operand) => copy(operand).map(Plain::Equal),
        Plain::NotEqual(operand) => copy(operand).map(Plain::NotEqual),
        Plain::Among(operands) => operands.copy().map(Plain::Among),
        Plain::NotAmong(operands) => operands.copy().map(Plain::NotAmong),
        Plain::Greater(operand) => copy(operand).map(Plain::Greater),
        Plain::AtLeast(operand) => copy(operand).map(Plain::AtLeast),
        Plain::Less(operand) => copy(operand).map(Plain::Less),
        Plain::AtMost(operand) => copy(operand).map(Plain::AtMost),
        Plain::Present(wanted) => Ok(Plain::Present(*wanted)),
        Plain::Sized(length) => Ok(Plain::Sized(*length)),
        Plain::HasAll(operands) => operands.copy().map(Plain::HasAll),
    }
}

impl Selector {
    /// A selector equal to this one.
    #[cycle(copying)]
    pub fn copy(&self) -> Result<Selector, Mem>
        ensures { IfOk result (λ q. q ≡ self.now) }
    {
        let mut copies = Vec::new(*self.conditions.allocator());
        for condition in &self.conditions {
            let copied = copy_condition(condition)?;
            copies.push(copied)?;
        }
        Ok(Selector { conditions: copies })
    }
}

impl Test {
    /// A test equal to this one.
    #[cycle(copying)]
    pub fn copy(&self) -> Result<Test, Mem>
        ensures { IfOk result (λ t. t ≡ self.now) }
    {
        match &self.kind {
            TestKind::Operators(operators) => Ok(Test {
                kind: TestKind::Operators(copy_operators(operators)?),
            }),
            TestKind::Fields(selector) => Ok(Test {
                kind: TestKind::Fields(selector.copy()?),
            }),
        }
    }
}
