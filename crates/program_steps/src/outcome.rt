//! What a run comes to.
use ejson_value::{Fault, Value};
use std::marker::Model;

/// How a run ended: with a result, without one, or with an error (Meteor's DDP.md, "Remote procedure
/// calls").
#[derive(Drop)]
pub enum Outcome {
    Done(Option<Value>),
    Failed(Fault),
}

/// The end of a run: how it ended, and how many entries the history had then, the run's last one
/// among them.
#[derive(Drop)]
pub struct End {
    pub outcome: Outcome,
    pub at: u64,
}

impl Model for End {
    ghost use Rattle.program_steps.specs.Runs.{End as AnEnd, outcome_view};
    ghost use Rattle.std.specs.Coded.{codes};
    ghost use Rattle.value_model.specs.Coding.{val_code};

    ghost Value = { AnEnd };

    ghost coded = { Prim.hlevel (codes, val_code) };

    ghost view = { λ e. record { outcome = outcome_view e.outcome; at = e.at } };
}

/// How far a run is: whether it let the next message be handled, and its end, once it has ended.
#[derive(Drop)]
pub struct Status {
    pub unblocked: bool,
    pub ended: Option<End>,
}
