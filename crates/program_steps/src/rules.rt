//! Rules by which clients may write.
use ejson_value::{ListOf, Names, Value};
use std::marker::Model;

/// What a client does to a collection by itself.
#[derive(Clone, Copy, Debug, PartialEq, Eq)]
pub enum Action {
    Insert,
    Update,
    Remove,
}

/// One rule: the action that it speaks of, a selector of the documents that it speaks of (all where
/// it has none; it is no template), and for an update the first parts of the paths that it speaks of
/// (all where it has none). Meteor's documentation, "allow" and "deny", has functions in their place.
#[derive(Drop)]
pub struct Rule {
    pub on: Action,
    pub selector: Option<Value>,
    pub fields: Option<Names>,
}

impl Model for Rule {
    ghost use Rattle.std.specs.Prelude.{option_map};
    ghost use Rattle.std.specs.Coded.{codes};
    ghost use Rattle.value_model.specs.Coding.{val_code};
    ghost use Rattle.ejson_value.specs.View.{view as seen_as};
    ghost use Rattle.program_steps.specs.Guards.{Rule as ARule};

    ghost Value = { ARule };

    ghost coded = { Prim.hlevel (codes, val_code) };

    ghost view = { λ r. record { on = r.on; selector = option_map (λ v. seen_as v) r.selector; fields = r.fields } };
}

/// Rules, in order.
pub type RuleList = ListOf<Rule>;

/// The rules of a collection: a write is refused where a deny rule holds, and where no allow rule
/// does.
#[derive(Drop)]
pub struct Rules {
    pub allow: RuleList,
    pub deny: RuleList,
}
