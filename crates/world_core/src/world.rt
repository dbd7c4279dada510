//! The world.
ghost use Rattle.std.specs.Prelude.{◌≡◌, IfOk, OnOk, OnErr};
ghost use Rattle.world_laws.specs.world_values_laws.Values.{HasValues};
ghost use Rattle.world_core.specs.history_model.Operations.{operation_in};
ghost use Rattle.world_core.specs.history_log.Entries.{told_operation};
ghost use Rattle.world_core.specs.world_model.declared.events.Event.TheVariants.{Admin};
ghost use Rattle.world_core.specs.world_model.declared.events.Event.TheVariants as happening;
ghost use Rattle.world_core.specs.world_model.Store.{programs};
ghost use Rattle.world_core.specs.world_model.World.{start};
ghost use Rattle.world_core.specs.world_model.Settle.{round, settled};
ghost use Rattle.world_core.specs.world_model.Events.{step, IsEvent, Reachable};
ghost use Rattle.world_core.specs.world_model.Lines.{lines_of};
ghost use Rattle.world_core.specs.world_model.Headline.{IsTrueWorld, HaveLongAlone, AreAtRest};
ghost use Rattle.world_laws.specs.Doing.{ActsLead};
ghost use Rattle.world_core.specs.Promises.{IsLeft, IsSettled};

use crate::events::{admin_told, happen};
use crate::inside::Inside;
use crate::rounds::settle;
use crate::store_machine::Machine;
use crate::{Hands, InTurn, Printed, no_clients};
use app_model::App;
use collection_store::Op;
use ejson_value::{Mem, Text};
use heard_messages::Heard;
use lanes::Names;
use std::alloc::Global;
use std::marker::Model;
use world_events::Event;

/// A world. A contract sees its application, the history of its store, how many clients there were so
/// far, and the clients by name, each with its session and the texts between them.
pub struct World {
    inside: Inside,
}

// A `derive` would have each crate that lets worlds go prove anew how all that they hold is let go.
impl Drop for World {
    fn drop(self) {
        let World { inside } = self;
        drop(inside);
    }
}

impl Model for World {
    ghost use Rattle.std.specs.Coded.{codes};
    ghost use Rattle.value_model.specs.Coding.{val_code};
    ghost use Rattle.selector_match.specs.Coding.{query_code};
    ghost use Rattle.sort_window.specs.Coding.{window_code};
    ghost use Rattle.world_core.specs.minimongo.State.{documents_code};
    ghost use Rattle.world_core.specs.world_model.World.{World as AWorld};
    ghost use Rattle.world_laws.specs.World.{as_world, IsWorld};
    ghost use Rattle.world_core.specs.Kept.{seen};

    ghost Value = { AWorld };

    ghost coded = { Prim.hlevel (codes, val_code, query_code, window_code, documents_code) };

    ghost view = { λ a. as_world (seen a.inside) };

    ghost invariant = { λ a. IsWorld (seen a.inside) };
}

impl World {
    /// The world of the application at its beginning.
    pub fn new(alloc: Global, app: &App) -> Result<World, Mem>
        requires { HasValues (programs app.now) }
        ensures { IfOk result (λ world. world ≡ start app.now) }
    {
        let machine = Machine::new(alloc, app)?;
        Ok(World {
            inside: Inside {
                alloc,
                machine,
                opened: 0,
                conns: no_clients(alloc),
                present: Names::new(alloc),
                busy: Names::new(alloc),
                settled: 0,
                heard: Heard::new(alloc),
            },
        })
    }

    /// The event happens, and what it prints is answered. A world that settles has these hands to tell its
    /// clients. After want of memory the world is as it was, or, where it was to settle, as the acts so far
    /// left it.
    pub fn event<H: Hands>(&mut self, hands: &H, event: &Event) -> Result<Printed, Mem>
        requires { H.ready }
        ensures step { OnOk result (self.new ≡ step self.old event.now) }
        ensures lines { IfOk result (λ printed. printed ≡ lines_of self.old event.now) }
        ensures settles { OnOk result (event.now ≡ happening.Settle → IsSettled self.new) }
        ensures left { OnErr result (IsLeft event.now self.old self.new) }
        ensures true_world { IsTrueWorld self.new }
        ensures long_alone { HaveLongAlone self.new }
    {
        event.known();
        happen(hands, &mut self.inside, event.happening())
    }

    /// The administrator's operation happens that the text tells of, as `event` makes it happen, and what
    /// it prints is answered. The history keeps the text.
    pub fn admin_told(&mut self, text: &Text, operation: &Op) -> Result<Printed, Mem>
        requires reads { operation_in (told_operation text.now) ≡ Some operation.now }
        requires good { IsEvent (Admin (told_operation text.now)) }
        ensures step { OnOk result (self.new ≡ step self.old (Admin (told_operation text.now))) }
        ensures lines { IfOk result (λ printed. printed ≡ lines_of self.old (Admin (told_operation text.now))) }
        ensures left { OnErr result (IsLeft (Admin (told_operation text.now)) self.old self.new) }
        ensures true_world { IsTrueWorld self.new }
        ensures long_alone { HaveLongAlone self.new }
    {
        admin_told(&mut self.inside, text, operation)
    }

    /// Acts of clients, sessions and runs are made in rounds until none is left: only those clients are
    /// asked that may have something to do.
    pub fn settle(&mut self) -> Result<(), Mem>
        ensures settled { OnOk result (self.new ≡ settled self.old) }
        ensures at_rest { OnOk result (AreAtRest self.new) }
        ensures stays { OnOk result (round self.new ≡ self.new) }
        ensures left { OnErr result (ActsLead self.old self.new) }
        ensures true_world { IsTrueWorld self.new }
        ensures long_alone { HaveLongAlone self.new }
    {
        settle(&InTurn, &mut self.inside)
    }

    /// Tells a proof what every world is; it does nothing.
    pub fn known(&self)
        ensures values { HasValues (programs self.now.app) }
        ensures reachable { Reachable self.now }
        ensures true_world { IsTrueWorld self.now }
        ensures long_alone { HaveLongAlone self.now }
    {
        let _ = &self.inside;
    }
}
