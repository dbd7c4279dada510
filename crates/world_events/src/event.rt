//! Events of the program.
ghost use Rattle.std.specs.Prelude.{◌≡◌};
ghost use Rattle.ejson_value.specs.View.{view};
ghost use Rattle.world_model.specs.Events.{IsEvent};
ghost use Rattle.world_events.specs.Events.{event_in};
ghost use Rattle.world_events.specs.Faults.{GivesEvent};

use crate::fault::LineFault;
use crate::grammar::event_in;
use ejson_value::Value;
use std::alloc::Global;
use std::marker::Model;
use world_model::Event as Happening;

/// An event of the program, as a line describes it. A contract sees it as what happens; its parameters
/// have at most 32 levels each, and an operation is of values of the program.
#[derive(Drop)]
pub struct Event {
    happening: Happening,
}

impl Model for Event {
    ghost use Rattle.world_model.specs.declared.events.Event.{Event as AnEvent};

    ghost Value = { AnEvent };

    ghost use Rattle.std.specs.Coded.{codes};
    ghost use Rattle.value_model.specs.Coding.{val_code};

    ghost coded = { Prim.hlevel (codes, val_code) };

    ghost use Rattle.world_model.specs.Events.{IsEvent};

    ghost view = { λ a. a.happening };

    ghost invariant = { λ a. IsEvent a.happening };
}

impl Event {
    /// The event that the line describes: `["client",c]`; `["sub",c,id,name]`, `["call",c,method]`,
    /// both also with a list of parameters; `["unsub",c,id]`, `["raw",c,text]`, `["drop",c]`; for a single
    /// act `["up",c]`, `["recv",c]`, `["handle",c]`, `["begin",c]`, `["send",c]`, `["take",c]`,
    /// `["step",c,k]`, and `["learn",c,k]`, `["load",c,id]`, `["advance",c,id]`, these three also with a
    /// number; `["admin",op]` where `op` is any list, `["settle"]`, `["show",c]`, `["journal",c]`,
    /// `["store"]` and `["history"]`.
    pub fn read(alloc: Global, line: &Value) -> Result<Event, LineFault>
        ensures { GivesEvent result (event_in (view line.now)) }
    {
        match event_in(alloc, line)? {
            Some(happening) => Ok(Event { happening }),
            None => Err(LineFault::NotAnEvent),
        }
    }

    /// What happens.
    pub fn happening(&self) -> &Happening
        ensures { result.now ≡ self.now }
    {
        &self.happening
    }

    /// Tells a proof what every event keeps; it does nothing.
    pub fn known(&self)
        ensures { IsEvent self.now }
    {
        let _ = &self.happening;
    }
}
