//! The subscriptions whose end was asked for.
ghost use Rattle.std.specs.Prelude.{◌≡◌, [], None, IfOk, OnOk, OnErr};
ghost use Rattle.map_model.specs.Maps.{set};
ghost use Rattle.value_model.specs.Order.{text_cmp};
ghost use Rattle.reconnect_model.specs.Saying.{entered};
ghost use Rattle.reconnect_model.specs.Giving.{half_ended};

use crate::texts::push_copy;
use ejson_value::{Mem, Names, Text};
use std::alloc::Global;
use std::collections::BTreeMap;
use std::marker::Model;

/// The ids of the subscriptions that have no `nosub` since their `unsub`, with the place of the first one.
#[derive(Drop)]
pub struct Ended {
    places: BTreeMap<Text, u64>,
}

impl Model for Ended {
    ghost use Rattle.std.specs.Prelude.{List, ℕ};
    ghost use Rattle.std.specs.Coded.{codes};

    ghost Value = { List (List ℕ × ℕ) };

    ghost coded = { Prim.hlevel codes };

    ghost view = { λ a. a.places.entries };
}

impl Ended {
    pub fn new(alloc: Global) -> Ended
        ensures { result ≡ [] }
    {
        Ended {
            places: BTreeMap::new(alloc),
        }
    }

    /// An `unsub` was queued.
    pub fn ask(&mut self, id: &Text, place: u64) -> Result<(), Mem>
        ensures ok { OnOk result (self.new ≡ entered self.old id.now place) }
        ensures err { OnErr result (self.new ≡ self.old) }
    {
        if self.places.contains_key(id) {
            return Ok(());
        }
        let id = id.copy()?;
        drop(self.places.insert(id, place)?);
        Ok(())
    }

    /// The subscription is over.
    pub fn end(&mut self, id: &Text)
        ensures { self.new ≡ set text_cmp self.old id.now None }
    {
        let _place = self.places.remove(id);
    }

    /// The ids of those whose `unsub` was among the first texts.
    pub fn earlier(&self, alloc: Global, begun: u64) -> Result<Names, Mem>
        ensures { IfOk result (λ ids. ids ≡ half_ended begun self.now) }
    {
        let mut ids = Names::new(alloc);
        for (id, place) in self.places.iter() {
            if *place < begun {
                push_copy(&mut ids, id)?;
            }
        }
        Ok(ids)
    }
}
