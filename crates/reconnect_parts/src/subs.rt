//! The subscriptions that are wanted.
ghost use Rattle.std.specs.Prelude.{◌≡◌, [], None, map, IfOk, OnOk, OnErr};
ghost use Rattle.std.specs.Map.{keys_of};
ghost use Rattle.map_model.specs.Maps.{set};
ghost use Rattle.value_model.specs.Order.{text_cmp};
ghost use Rattle.reconnect_model.specs.Saying.{entered, placed};

use crate::places::{Ids, Placed, enter, place};
use ejson_value::{Mem, Text};
use std::alloc::Global;
use std::collections::BTreeMap;
use std::marker::Model;

/// A subscription: how many texts were queued before its own, and that text.
#[derive(Drop)]
pub struct Sub {
    place: u64,
    text: Text,
}

impl Model for Sub {
    ghost use Rattle.std.specs.Coded.{codes};
    ghost use Rattle.reconnect_model.specs.Revival.{Wanted};

    ghost Value = { Wanted };

    ghost coded = { Prim.hlevel codes };

    ghost view = { λ a. record { place = a.place; text = a.text } };
}

/// The subscriptions by rising id.
#[derive(Drop)]
pub struct Subs {
    subs: BTreeMap<Text, Sub>,
}

impl Model for Subs {
    ghost use Rattle.std.specs.Prelude.{List, ℕ};
    ghost use Rattle.std.specs.Coded.{codes};
    ghost use Rattle.map_model.specs.Maps.{IsSorted};
    ghost use Rattle.value_model.specs.Order.{text_cmp};
    ghost use Rattle.reconnect_model.specs.Revival.{Wanted};

    ghost Value = { List (List ℕ × Wanted) };

    ghost coded = { Prim.hlevel codes };

    ghost view = { λ a. a.subs.entries };

    ghost invariant = { λ a. IsSorted text_cmp a.subs.entries };
}

impl Subs {
    pub fn new(alloc: Global) -> Subs
        ensures { result ≡ [] }
    {
        Subs {
            subs: BTreeMap::new(alloc),
        }
    }

    /// The subscription is wanted, if it isn't already.
    pub fn ask(&mut self, id: &Text, place: u64, text: &Text) -> Result<(), Mem>
        ensures ok { OnOk result (self.new ≡ entered self.old id.now (record { place = place; text = text.now })) }
        ensures err { OnErr result (self.new ≡ self.old) }
    {
        if self.subs.contains_key(id) {
            return Ok(());
        }
        let id = id.copy()?;
        let text = text.copy()?;
        drop(self.subs.insert(id, Sub { place, text })?);
        Ok(())
    }

    /// It is wanted no more.
    pub fn end(&mut self, id: &Text)
        ensures { self.new ≡ set text_cmp self.old id.now None }
    {
        drop(self.subs.remove(id));
    }

    /// Their texts by place.
    pub fn texts(&self, alloc: Global) -> Result<Placed, Mem>
        ensures { IfOk result (λ texts. texts.entries ≡ placed [] (map (λ e. (e.1.place, e.1.text)) self.now)) }
    {
        let mut texts = Placed::new(alloc);
        for (_, sub) in self.subs.iter() {
            place(&mut texts, sub.place, &sub.text)?;
        }
        Ok(texts)
    }

    /// Their ids.
    pub fn ids(&self, alloc: Global) -> Result<Ids, Mem>
        ensures { IfOk result (λ ids. ids.keys ≡ keys_of self.now) }
    {
        let mut ids = Ids::new(alloc);
        for (id, _) in self.subs.iter() {
            enter(&mut ids, id)?;
        }
        Ok(ids)
    }
}
