//! The methods that have no result yet, or no `updated`.
ghost use Rattle.std.specs.Prelude.{◌≡◌, [], true, Some, map, filter, IfOk, OnOk, OnErr};
ghost use Rattle.std.specs.Map.{keys_of};
ghost use Rattle.map_model.specs.Maps.{at};
ghost use Rattle.value_model.specs.Order.{text_cmp};
ghost use Rattle.reconnect_model.specs.Saying.{entered, called, placed, owed};
ghost use Rattle.reconnect_model.specs.Giving.{answered, updated, changed_from, change_of, all_updated, updated_before};

use crate::places::{Ids, Placed, enter, place};
use ejson_value::{Mem, Names, Text};
use std::alloc::Global;
use std::collections::BTreeMap;
use std::marker::Model;

/// A method: how many texts were queued before its own, that text, and which of its two answers the client was given.
#[derive(Drop)]
pub struct Call {
    place: u64,
    text: Text,
    is_answered: bool,
    is_updated: bool,
}

impl Model for Call {
    ghost use Rattle.std.specs.Coded.{codes};
    ghost use Rattle.reconnect_model.specs.Revival.{Called};

    ghost Value = { Called };

    ghost coded = { Prim.hlevel codes };

    ghost view = { λ a. record { place = a.place; text = a.text; is_answered = a.is_answered; is_updated = a.is_updated } };
}

impl Call {
    // The client was given its result.
    fn set_answered(&mut self)
        ensures { self.new ≡ record self.old { is_answered = true } }
    {
        self.is_answered = true;
    }

    // The client was given its `updated`.
    fn set_updated(&mut self)
        ensures { self.new ≡ record self.old { is_updated = true } }
    {
        self.is_updated = true;
    }
}

/// The methods by rising id.
#[derive(Drop)]
pub struct Calls {
    calls: BTreeMap<Text, Call>,
}

impl Model for Calls {
    ghost use Rattle.std.specs.Prelude.{List, ℕ};
    ghost use Rattle.std.specs.Coded.{codes};
    ghost use Rattle.map_model.specs.Maps.{IsSorted};
    ghost use Rattle.value_model.specs.Order.{text_cmp};
    ghost use Rattle.reconnect_model.specs.Revival.{Called};

    ghost Value = { List (List ℕ × Called) };

    ghost coded = { Prim.hlevel codes };

    ghost view = { λ a. a.calls.entries };

    ghost invariant = { λ a. IsSorted text_cmp a.calls.entries };
}

impl Calls {
    pub fn new(alloc: Global) -> Calls
        ensures { result ≡ [] }
    {
        Calls {
            calls: BTreeMap::new(alloc),
        }
    }

    /// A method was queued.
    pub fn ask(&mut self, id: &Text, place: u64, text: &Text) -> Result<(), Mem>
        ensures ok { OnOk result (self.new ≡ entered self.old id.now (called place text.now)) }
        ensures err { OnErr result (self.new ≡ self.old) }
    {
        if self.calls.contains_key(id) {
            return Ok(());
        }
        let id = id.copy()?;
        let text = text.copy()?;
        drop(
            self.calls.insert(
                id,
                Call {
                    place,
                    text,
                    is_answered: false,
                    is_updated: false,
                },
            )?,
        );
        Ok(())
    }

    // It has its result.
    fn set_answered(&mut self, id: &Text)
        ensures { self.new ≡ changed_from (λ c. Some (record c { is_answered = true })) id.now self.old (at text_cmp self.old id.now) }
    {
        if let Some(call) = self.calls.get_mut(id) {
            call.set_answered();
        }
    }

    // It has its `updated`.
    fn set_updated(&mut self, id: &Text)
        ensures { self.new ≡ changed_from (λ c. Some (record c { is_updated = true })) id.now self.old (at text_cmp self.old id.now) }
    {
        if let Some(call) = self.calls.get_mut(id) {
            call.set_updated();
        }
    }

    /// The client was given its result.
    pub fn answer(&mut self, id: &Text)
        ensures { self.new ≡ change_of answered id.now self.old }
    {
        let is_updated = match self.calls.get(id) {
            None => return,
            Some(call) => call.is_updated,
        };
        if is_updated {
            drop(self.calls.remove(id));
        } else {
            self.set_answered(id);
        }
    }

    /// The client was given its `updated`.
    pub fn update(&mut self, id: &Text)
        ensures { self.new ≡ change_of updated id.now self.old }
    {
        let is_answered = match self.calls.get(id) {
            None => return,
            Some(call) => call.is_answered,
        };
        if is_answered {
            drop(self.calls.remove(id));
        } else {
            self.set_updated(id);
        }
    }

    /// The client was given an `updated` that names these.
    pub fn update_all(&mut self, ids: &Names)
        ensures { self.new ≡ all_updated ids.now self.old }
    {
        for id in ids.as_slice() {
            self.update(id);
        }
    }

    /// The texts of those without a result, by place.
    pub fn owed_texts(&self, alloc: Global) -> Result<Placed, Mem>
        ensures { IfOk result (λ texts. texts.entries ≡ placed [] (map (λ e. (e.1.place, e.1.text)) (owed self.now))) }
    {
        let mut texts = Placed::new(alloc);
        for (_, call) in self.calls.iter() {
            if !call.is_answered {
                place(&mut texts, call.place, &call.text)?;
            }
        }
        Ok(texts)
    }

    /// The ids of those with a result and no `updated`, by place.
    pub fn half_done(&self, alloc: Global) -> Result<Placed, Mem>
        ensures { IfOk result (λ ids. ids.entries ≡ placed [] (map (λ e. (e.1.place, e.0)) (filter (λ e. e.1.is_answered) self.now))) }
    {
        let mut ids = Placed::new(alloc);
        for (id, call) in self.calls.iter() {
            if call.is_answered {
                place(&mut ids, call.place, id)?;
            }
        }
        Ok(ids)
    }

    /// The ids of those without a result.
    pub fn owed_ids(&self, alloc: Global) -> Result<Ids, Mem>
        ensures { IfOk result (λ ids. ids.keys ≡ keys_of (owed self.now)) }
    {
        let mut ids = Ids::new(alloc);
        for (id, call) in self.calls.iter() {
            if !call.is_answered {
                enter(&mut ids, id)?;
            }
        }
        Ok(ids)
    }

    /// The ids of those whose `updated` the client was given.
    pub fn updated_ids(&self, alloc: Global) -> Result<Ids, Mem>
        ensures { IfOk result (λ ids. ids.keys ≡ updated_before self.now) }
    {
        let mut ids = Ids::new(alloc);
        for (id, call) in self.calls.iter() {
            if call.is_updated {
                enter(&mut ids, id)?;
            }
        }
        Ok(ids)
    }
}
