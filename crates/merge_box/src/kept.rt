//! What is kept of documents, each in a slot of its own.
ghost use Rattle.std.specs.Prelude.{◌≡◌, ℕ, [], length, false, Some, None, IsSome, IfSome, IfNone, IfOk, OnOk, option_copied};
ghost use Rattle.std.specs.Ordering.{eq_by_cmp};
ghost use Rattle.map_model.specs.Maps.{at, IsSorted};
ghost use Rattle.merge_model.specs.Kept.{publishers_at};
ghost use Rattle.ejson_value.specs.declared.key.Key.{Key};
ghost use Rattle.ejson_value.specs.Key.{key_cmp};
ghost use Rattle.kept_document.specs.Held.{is_shared};
ghost use Rattle.merge_box.specs.Slots.{named, key_in, IsNamed};
ghost use Rattle.merge_box.specs.Inside.{HasGrown};

use ejson_value::{Key, Mem};
use kept_document::Held;
use slab::Slab;
use std::alloc::Global;
use std::collections::BTreeMap;
use std::marker::Model;

/// A document: its key, and what is kept of it.
#[derive(Drop)]
pub(crate) struct Slot {
    key: Key,
    pub(crate) held: Held,
}

/// What is kept of documents. Each stands in a slot, which it has as long as it is kept, so that it
/// is found again without its key.
#[derive(Drop)]
pub(crate) struct KeptMap {
    places: BTreeMap<Key, usize>,
    pub(crate) slots: Slab<Slot>,
}

impl Model for KeptMap {
    ghost use Rattle.merge_box.specs.Slots.{SlotState, keys_in, docs_in, IsPlaced};
    ghost use Rattle.merge_box.specs.StateCoding.{slots_code};

    ghost Value = { SlotState };

    ghost coded = { slots_code };

    ghost view = { λ a. record { docs = docs_in a.places.entries a.slots; keys = keys_in a.slots } };

    ghost invariant = { λ a. IsPlaced a.places.entries a.slots };
}

impl KeptMap {
    pub(crate) fn new(alloc: Global) -> KeptMap
        ensures { result ≡ record { docs = []; keys = [] } }
    {
        KeptMap {
            places: BTreeMap::new(alloc),
            slots: Slab::new(alloc),
        }
    }

    /// How many documents there are.
    pub(crate) fn len(&self) -> usize
        ensures len { result ≡ length self.now.docs }
        ensures by_key { IsSorted key_cmp self.now.docs }
    {
        self.places.len()
    }

    /// What is kept of the document at the key, if it has a slot.
    pub(crate) fn get(&self, key: &Key) -> Option<&Held>
        ensures { option_copied result ≡ at key_cmp self.now.docs key.now }
    {
        match self.places.get(key) {
            None => None,
            Some(slot) => Some(&self.slots[*slot].held),
        }
    }

    /// The key of the document in the slot.
    pub(crate) fn key(&self, slot: usize) -> &Key
        requires { IsNamed self.now.keys slot }
        ensures { result.now ≡ key_in self.now.keys slot }
    {
        &self.slots[slot].key
    }

    // The slot of the document at the key, if it has one.
    fn find(&self, key: &Key) -> Option<usize>
        ensures named { IfSome result (λ slot. named self.now.keys slot ≡ Some key.now) }
        ensures room { IfSome result (λ _. IsSome (at key_cmp self.now.docs key.now)) }
        ensures none { IfNone result (at key_cmp self.now.docs key.now ≡ None) }
    {
        match self.places.get(key) {
            None => None,
            Some(slot) => Some(*slot),
        }
    }

    // A slot for a document that has none.
    fn add(&mut self, key: &Key) -> Result<usize, Mem>
        requires { at key_cmp self.old.docs key.now ≡ None }
        ensures grown { HasGrown self.old self.new }
        ensures others { (k : Key) → eq_by_cmp key_cmp k key.now ≡ false →
            at key_cmp self.new.docs k ≡ at key_cmp self.old.docs k }
        ensures named { IfOk result (λ slot. named self.new.keys slot ≡ Some key.now) }
        ensures room { OnOk result (IsSome (at key_cmp self.new.docs key.now)) }
    {
        let copy = key.copy()?;
        self.slots.reserve(1)?;
        let place = self.slots.vacant_key();
        drop(self.places.insert(key.copy()?, place)?);
        Ok(
            self.slots.insert_reserved(Slot {
                key: copy,
                held: Held::new(),
            }),
        )
    }

    /// The slot of the document at the key, which gets one where it has none.
    pub(crate) fn slot_for(&mut self, key: &Key) -> Result<usize, Mem>
        ensures grown { HasGrown self.old self.new }
        ensures others { (k : Key) → eq_by_cmp key_cmp k key.now ≡ false →
            at key_cmp self.new.docs k ≡ at key_cmp self.old.docs k }
        ensures named { IfOk result (λ slot. named self.new.keys slot ≡ Some key.now) }
        ensures room { OnOk result (IsSome (at key_cmp self.new.docs key.now)) }
    {
        match self.find(key) {
            Some(slot) => Ok(slot),
            None => self.add(key),
        }
    }

    /// Takes the document's slot away, and answers whether two or more subscriptions published it. It
    /// takes no memory.
    pub(crate) fn trim(&mut self, slot: usize) -> bool
        requires { IsNamed self.old.keys slot }
        ensures was { result ≡ is_shared (publishers_at key_cmp self.old.docs (key_in self.old.keys slot)) }
        ensures gone { at key_cmp self.new.docs (key_in self.old.keys slot) ≡ None }
        ensures others { (k : Key) → eq_by_cmp key_cmp k (key_in self.old.keys slot) ≡ false →
            at key_cmp self.new.docs k ≡ at key_cmp self.old.docs k }
        ensures names { (s : ℕ) (k : Key) → eq_by_cmp key_cmp k (key_in self.old.keys slot) ≡ false →
            named self.old.keys s ≡ Some k → named self.new.keys s ≡ Some k }
    {
        let Slot { key, held } = self.slots.remove(slot);
        let _slot = self.places.remove(&key);
        held.is_shared()
    }
}
