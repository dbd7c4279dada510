//! The saved originals of a client.
ghost use Rattle.std.specs.Prelude.{◌≡◌, ◌≢◌, ◌↔◌, ◌∷◌, ◌++◌, ℕ, [], map, true, false, not, IsTrue, IfSome, Some, None, is_some, IfOk, OnOk, OnErr};
ghost use Rattle.std.specs.Prelude.{if◌then◌else◌};
ghost use Rattle.std.specs.List.{list_all};
ghost use Rattle.std.specs.Ordering.{eq_by_cmp, nat_cmp};
ghost use Rattle.std.specs.BTreeSet.{contains};
ghost use Rattle.map_model.specs.Maps.{at, collect};
ghost use Rattle.view_model.specs.Pending.{is_among, holders};
ghost use Rattle.ejson_value.specs.declared.key.Key.{Key};
ghost use Rattle.ejson_value.specs.Key.{key_cmp};
ghost use Rattle.ejson_value.specs.Messages.{said};
ghost use Rattle.minimongo.specs.Originals.{joined, left_by, saves_of, due, due_at, some_save, IsSaved, IsForgotten, IsServed, ServedFrom, is_holder};
ghost use Rattle.minimongo.specs.Originals.{AreOriginals};
ghost use Rattle.minimongo.specs.Index.{is_key_among, is_listed};
ghost use Rattle.minimongo.specs.Taking.{IsFittingIf};

use crate::index::{Index, list, listed};
use crate::original::Kept;
use crate::save::{Save, Saves};
use crate::serve_fault::{ServeFault, Served};
use ejson_value::{DataMsg, Key, Keys, Mem};
use std::alloc::Global;
use std::collections::{BTreeMap, BTreeSet};
use std::marker::Model;

/// The originals by key.
pub(crate) type Saved = BTreeMap<Key, Kept>;

/// For each document that an open simulation touched, what the server has there, and the numbers of
/// the simulations that hold it. Contracts see the originals by key.
#[derive(Drop)]
pub struct Originals {
    alloc: Global,
    saved: Saved,
    index: Index,
}

impl Model for Originals {
    ghost use Rattle.minimongo.specs.Originals.{Originals, originals_code};
    ghost use Rattle.minimongo.specs.Index.{IsWhole};

    ghost Value = { Originals };

    ghost coded = { originals_code };

    ghost view = { λ a. a.saved.entries };

    ghost invariant = { λ a. IsWhole a.saved.entries a.index.entries };
}

/// The key of the message's document.
pub fn key_of(message: &DataMsg) -> &Key
    ensures { result.now ≡ (said message.now).0 }
{
    match message {
        DataMsg::Added { key, .. } | DataMsg::Changed { key, .. } | DataMsg::Removed { key } => key,
    }
}

// Nobody held the document.
fn save_first(saved: &mut Saved, alloc: Global, number: u32, save: &Save) -> Result<(), Mem>
    ensures ok { OnOk result ((k : Key) → at key_cmp saved.new.entries k ≡
        (if eq_by_cmp key_cmp k save.now.key then Some (joined number save.now.doc None) else at key_cmp saved.old.entries k)) }
    ensures err { OnErr result (saved.new.entries ≡ saved.old.entries) }
{
    let original = Kept::first(alloc, &save.doc, number)?;
    drop(saved.insert(save.key.copy()?, original)?);
    Ok(())
}

// The simulation holds the document.
fn hold(saved: &mut Saved, alloc: Global, number: u32, save: &Save) -> Result<(), Mem>
    ensures ok { OnOk result ((k : Key) → at key_cmp saved.new.entries k ≡
        (if eq_by_cmp key_cmp k save.now.key then Some (joined number save.now.doc (at key_cmp saved.old.entries k)) else at key_cmp saved.old.entries k)) }
    ensures err { OnErr result ((k : Key) → at key_cmp saved.new.entries k ≡ at key_cmp saved.old.entries k) }
{
    match saved.get_mut(&save.key) {
        None => save_first(saved, alloc, number, save),
        Some(original) => original.hold(number),
    }
}

// The simulation holds the document no more. It answers whether nobody does then.
fn lets_go(saved: &mut Saved, number: u32, key: &Key) -> bool
    ensures others { (k : Key) → eq_by_cmp key_cmp k key.now ≡ false → at key_cmp saved.new.entries k ≡ at key_cmp saved.old.entries k }
    ensures here { result ≡ false → at key_cmp saved.new.entries key.now ≡ left_by (number ∷ []) (at key_cmp saved.old.entries key.now) }
    ensures gone { result ≡ true → left_by (number ∷ []) (at key_cmp saved.old.entries key.now) ≡ None }
{
    match saved.get_mut(key) {
        None => false,
        Some(original) => original.let_go(number),
    }
}

// The simulation holds the document no more; an original that nobody holds goes.
fn let_go(saved: &mut Saved, number: u32, key: &Key)
    ensures { (k : Key) → at key_cmp saved.new.entries k ≡
        (if eq_by_cmp key_cmp k key.now then left_by (number ∷ []) (at key_cmp saved.old.entries k) else at key_cmp saved.old.entries k) }
{
    let _len = saved.len();
    if lets_go(saved, number, key) {
        drop(saved.remove(key));
    }
}

// The simulation holds none of these documents any more.
fn let_all_go(saved: &mut Saved, number: u32, keys: &Keys)
    ensures { (k : Key) → at key_cmp saved.new.entries k ≡
        (if is_key_among keys.now k then left_by (number ∷ []) (at key_cmp saved.old.entries k) else at key_cmp saved.old.entries k) }
{
    for key in keys.as_slice() {
        let_go(saved, number, key);
    }
}

// The simulation holds nothing any more.
fn forget_in(saved: &mut Saved, index: &mut Index, number: u32)
    requires held { (k : Key) → IfSome (at key_cmp saved.old.entries k) (λ original. original.holders ≢ []) }
    requires listed { (k : Key) → is_holder saved.old.entries number k ≡ true → is_listed index.old.entries number k ≡ true }
    ensures gone { IsForgotten (number ∷ []) saved.old.entries saved.new.entries }
    ensures others { (n : ℕ) (k : Key) → eq_by_cmp nat_cmp number n ≡ false →
        is_listed index.new.entries n k ≡ is_listed index.old.entries n k }
{
    match index.remove(&number) {
        None => {}
        Some(keys) => let_all_go(saved, number, &keys),
    }
}

// The saved copy of the message's document takes it, if there is one.
fn serve_in(saved: &mut Saved, message: &DataMsg) -> Result<Served, ServeFault>
    ensures fits { IsFittingIf (at key_cmp saved.old.entries (said message.now).0) (said message.now).1 result }
    ensures answer { IfOk result (ServedFrom (at key_cmp saved.old.entries (said message.now).0)) }
    ensures ok { OnOk result (IsServed (said message.now) saved.old.entries saved.new.entries) }
    ensures err { OnErr result ((k : Key) → at key_cmp saved.new.entries k ≡ at key_cmp saved.old.entries k) }
{
    match saved.get_mut(key_of(message)) {
        None => Ok(Served::NotSaved),
        Some(original) => {
            original.serve(message)?;
            Ok(Served::Saved)
        }
    }
}

// A set of the numbers.
fn set_of(alloc: Global, numbers: &[u32]) -> Result<BTreeSet<u32>, Mem>
    ensures { IfOk result (λ set. (n : ℕ) → contains nat_cmp set n ≡ is_among numbers.now n) }
{
    let mut set = BTreeSet::new(alloc);
    for number in numbers {
        let _new = set.insert(*number)?;
    }
    Ok(set)
}

// Puts the document's saved copy behind the others, where only these simulations hold it.
fn push_due(saves: &mut Saves, saved: &Saved, numbers: &BTreeSet<u32>, key: &Key) -> Result<(), Mem>
    ensures { OnOk result (saves_of saves.new ≡ saves_of saves.old ++
        some_save key.now (due_at (λ n. contains nat_cmp numbers.now n) (at key_cmp saved.now.entries key.now))) }
{
    match saved.get(key) {
        None => Ok(()),
        Some(original) => {
            if original.is_held_among(numbers) {
                let key = key.copy()?;
                saves.push(Save {
                    key,
                    doc: original.doc()?,
                })?;
            }
            Ok(())
        }
    }
}

// The saved copies of those of these documents that only these simulations hold.
fn due_of(alloc: Global, saved: &Saved, numbers: &BTreeSet<u32>, keys: &[Key]) -> Result<Saves, Mem>
    ensures { IfOk result (λ saves. saves_of saves ≡
        collect (λ k. due_at (λ n. contains nat_cmp numbers.now n) (at key_cmp saved.now.entries k)) keys.now) }
{
    let mut saves = Saves::new(alloc);
    for key in keys {
        push_due(&mut saves, saved, numbers, key)?;
    }
    Ok(saves)
}

// Whether the simulation holds the document.
fn is_held_by(saved: &Saved, number: u32, key: &Key) -> bool
    ensures { result ≡ is_holder saved.now.entries number key.now }
{
    match saved.get(key) {
        None => false,
        Some(original) => original.is_held_by(number),
    }
}

// Whether the simulation holds none of these documents.
fn holds_none(saved: &Saved, number: u32, keys: &Keys) -> bool
    ensures { result ≡ list_all (λ k. not (is_holder saved.now.entries number k)) keys.now }
{
    keys.as_slice()
        .iter()
        .all(|key| !is_held_by(saved, number, key))
}

impl Originals {
    /// No document is saved.
    pub fn new(alloc: Global) -> Originals
        ensures { result ≡ [] }
    {
        Originals {
            alloc,
            saved: BTreeMap::new(alloc),
            index: BTreeMap::new(alloc),
        }
    }

    /// Tells a proof what originals keep; it does nothing.
    pub fn known(&self)
        ensures { AreOriginals self.now }
    {
        let _ = &self.saved;
    }

    /// Whether the simulation of this number holds no document.
    pub fn is_free(&self, method: u32) -> bool
        ensures { IsTrue result ↔ ((k : Key) → is_holder self.now method k ≡ false) }
    {
        match self.index.get(&method) {
            None => true,
            Some(keys) => holds_none(&self.saved, method, keys),
        }
    }

    // The simulation holds one document more.
    fn save_one(&mut self, method: u32, save: &Save) -> Result<(), Mem>
        ensures ok { OnOk result (IsSaved method (saves_of (save.now ∷ [])) self.old self.new) }
        ensures err { OnErr result (self.new ≡ self.old) }
    {
        list(&mut self.index, self.alloc, method, &save.key)?;
        let held = hold(&mut self.saved, self.alloc, method, save);
        let _len = self.saved.len();
        held
    }

    // The simulation holds nothing any more.
    fn forget_one(&mut self, method: u32)
        ensures { IsForgotten (method ∷ []) self.old self.new }
    {
        forget_in(&mut self.saved, &mut self.index, method);
        let _len = self.saved.len();
    }

    /// The simulation of this number touches these documents. Of each that nobody held it saves what
    /// is there; the first save of a document stays. On an error nothing has changed.
    pub fn save(&mut self, method: u32, saves: &Saves) -> Result<(), Mem>
        requires { (k : Key) → is_holder self.old method k ≡ false }
        ensures ok { OnOk result (IsSaved method (saves_of saves.now) self.old self.new) }
        ensures err { OnErr result (self.new ≡ self.old) }
    {
        self.known();
        for save in saves.as_slice() {
            if let Err(mem) = self.save_one(method, save) {
                self.forget_one(method);
                self.known();
                return Err(mem);
            }
        }
        Ok(())
    }

    /// Takes a message of the server about a document that is saved. Where it isn't saved nothing
    /// changes, and the answer says so. `Wrong` comes exactly where the message doesn't fit the saved
    /// copy.
    pub fn serve(&mut self, message: &DataMsg) -> Result<Served, ServeFault>
        ensures fits { IsFittingIf (at key_cmp self.old (said message.now).0) (said message.now).1 result }
        ensures answer { IfOk result (ServedFrom (at key_cmp self.old (said message.now).0)) }
        ensures ok { OnOk result (IsServed (said message.now) self.old self.new) }
        ensures err { OnErr result (self.new ≡ self.old) }
    {
        let served = serve_in(&mut self.saved, message);
        let _len = self.saved.len();
        served
    }

    /// By key, the documents that these simulations hold and no other one does, as they were saved.
    pub fn due(&self, methods: &[u32]) -> Result<Saves, Mem>
        ensures { IfOk result (λ saves. saves_of saves ≡ due methods.now self.now) }
    {
        let numbers = set_of(self.alloc, methods)?;
        let keys = listed(&self.index, self.alloc, &numbers)?;
        due_of(self.alloc, &self.saved, &numbers, keys.as_slice())
    }

    /// These simulations hold no document any more, and one that nobody holds is no longer saved. It
    /// takes no memory.
    pub fn forget(&mut self, methods: &[u32])
        ensures { IsForgotten methods.now self.old self.new }
    {
        for method in methods {
            self.forget_one(*method);
        }
        self.known();
    }
}
