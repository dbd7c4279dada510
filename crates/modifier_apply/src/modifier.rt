//! Modifiers in memory.
use ejson_value::{Doc, Items, Path, Value, Whole};
use selector_match::Test;
use std::marker::Model;

/// A modifier: new fields of a document, or operators that change it.
#[derive(Drop)]
pub struct Modifier {
    pub(crate) kind: ModifierKind,
}

// New fields, or updates in the order in which they are made.
#[derive(Drop)]
pub(crate) enum ModifierKind {
    Replacement(Doc),
    Updates(Vec<Update>),
}

// One operator at one path.
#[derive(Drop)]
pub(crate) struct Update {
    pub(crate) path: Path,
    pub(crate) operator: Operator,
}

// One operator with its operand, in the order of `Edit` in specs/.
#[derive(Drop)]
pub(crate) enum Operator {
    Set(Value),
    Unset,
    Increment(Whole),
    Min(Value),
    Max(Value),
    Push(Items),
    AddToSet(Items),
    PullEqual(Value),
    PullPassing(Test),
    PopLast,
    PopFirst,
}

impl Model for Modifier {
    ghost use Rattle.modifier_apply.specs.Change.{Modification};
    ghost use Rattle.modifier_apply.specs.Coding.{modification_code};

    ghost Value = { Modification };

    ghost coded = { modification_code };

    ghost use Rattle.modifier_apply.specs.View.{kind_view};

    ghost view = { λ a. kind_view a.kind };
}
