//! Selectors in memory.
use crate::operands::Operands;
use ejson_value::{Path, Text, Value};
use std::marker::Model;

/// A selector: conditions on a document, all of which must hold.
#[derive(Drop)]
#[cycle(selector)]
pub struct Selector {
    pub(crate) conditions: Vec<Condition>,
}

// One condition: `$and`, `$or` and `$nor` of selectors, operators at a path, or `_id` with a text.
#[derive(Drop)]
#[cycle(selector)]
pub(crate) enum Condition {
    All(Selectors),
    Any(Selectors),
    Neither(Selectors),
    AtPath(Path, Operators),
    HasId(Text),
}

#[derive(Drop)]
#[cycle(selector)]
pub(crate) struct Selectors {
    pub(crate) selectors: Vec<Selector>,
}

// A set of operators, all of which must hold.
#[derive(Drop)]
#[cycle(selector)]
pub(crate) struct Operators {
    pub(crate) operators: Vec<Operator>,
}

// One operator with its operand.
#[derive(Drop)]
#[cycle(selector)]
pub(crate) enum Operator {
    Plain(Plain),
    HasElement(Test),
    Negated(Operators),
}

// An operator whose operand holds no operators.
#[derive(Drop)]
pub(crate) enum Plain {
    Equal(Value),
    NotEqual(Value),
    Among(Operands),
    NotAmong(Operands),
    Greater(Value),
    AtLeast(Value),
    Less(Value),
    AtMost(Value),
    Present(bool),
    Sized(u64),
    HasAll(Operands),
}

/// The test of one element of a list, as in `$elemMatch` and `$pull`.
#[derive(Drop)]
#[cycle(selector)]
pub struct Test {
    pub(crate) kind: TestKind,
}

// A set of operators, or a selector for elements that are objects.
#[derive(Drop)]
#[cycle(selector)]
pub(crate) enum TestKind {
    Operators(Operators),
    Fields(Selector),
}

impl Model for Selector {
    ghost use Rattle.selector_match.specs.Query.{Query};
    ghost use Rattle.selector_match.specs.Coding.{query_code};

    ghost Value = { Query };

    ghost coded = { query_code };

    ghost use Rattle.std.proofs.Common.{arith};
    ghost use Rattle.selector_match.specs.Query.{query_height};
    ghost use Rattle.selector_match.specs.View.{clauses_view};

    ghost view = { λ a. clauses_view a.conditions.items };

    ghost size = { query_height };

    ghost use Rattle.selector_match.specs.Falls.{most_le-query_height};

    ghost size_decreases = { λ a h. Prim.omega (arith, most_le-query_height a.conditions.items) };
}

impl Model for Selectors {
    ghost use Rattle.selector_match.specs.Query.{Queries};
    ghost use Rattle.selector_match.specs.Coding.{queries_code};

    ghost Value = { Queries };

    ghost coded = { queries_code };

    ghost use Rattle.std.proofs.Common.{arith};
    ghost use Rattle.selector_match.specs.Query.{queries_of, queries_height};

    ghost view = { λ a. queries_of a.selectors.items };

    ghost size = { queries_height };

    ghost use Rattle.selector_match.specs.Falls.{most_le-queries_height};

    ghost size_decreases = { λ a h. Prim.omega (arith, most_le-queries_height a.selectors.items) };
}

impl Model for Operators {
    ghost use Rattle.selector_match.specs.Query.{Predicates};
    ghost use Rattle.selector_match.specs.Coding.{predicates_code};

    ghost Value = { Predicates };

    ghost coded = { predicates_code };

    ghost use Rattle.std.proofs.Common.{arith};
    ghost use Rattle.selector_match.specs.Query.{predicates_height};
    ghost use Rattle.selector_match.specs.View.{predicates_view};

    ghost view = { λ a. predicates_view a.operators.items };

    ghost size = { predicates_height };

    ghost use Rattle.selector_match.specs.Falls.{most_le-predicates_height};

    ghost size_decreases = { λ a h. Prim.omega (arith, most_le-predicates_height a.operators.items) };
}

impl Model for Test {
    ghost use Rattle.selector_match.specs.Query.{ElementTest};
    ghost use Rattle.selector_match.specs.Coding.{test_code};

    ghost Value = { ElementTest };

    ghost coded = { test_code };

    ghost use Rattle.std.proofs.Common.{arith};
    ghost use Rattle.selector_match.specs.Query.{test_height};
    ghost use Rattle.selector_match.specs.View.{kind_view};

    ghost view = { λ a. kind_view a.kind };

    ghost size = { test_height };

    ghost use Rattle.selector_match.specs.Falls.{deep_le-test_height};

    ghost size_decreases = { λ a h. Prim.omega (arith, deep_le-test_height a.kind) };
}
