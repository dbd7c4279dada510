//! The store.
ghost use Rattle.std.specs.Prelude.{◌≡◌, ◌+◌, ◌<◌, ◌^◌, ◌∷◌, length, nat_lt, true, is_some, is_none, OnOk, OnErr, IfOk, IfSome, IfNone, IsTrue};
ghost use Rattle.std.specs.Prelude.{IsFalse, Ok, Err, Some, None, [], if◌then◌else◌};
ghost use Rattle.map_model.specs.Maps.{at, set};
ghost use Rattle.value_model.specs.Size.{size};
ghost use Rattle.ejson_value.specs.declared.key.Key.{Key};
ghost use Rattle.ejson_value.specs.Key.{key_cmp, key_of};
ghost use Rattle.ejson_value.specs.Measure.{capped};
ghost use Rattle.collection_store.specs.Outcome.{Gives};
ghost use Rattle.collection_store.specs.Limits.{document, bytes_of, is_full, new_bytes};
ghost use Rattle.collection_store.specs.Applied.{is_listed, after, done, chosen, matching, insertion, update_plan, remove_plan, if_listed, applied};
ghost use Rattle.collection_store.specs.Inserting.{inserted, is_full_with, HasRoom, Fits};
ghost use Rattle.collection_store.specs.Answered.{plan_of, applied_as, AreFor};
ghost use Rattle.collection_store.specs.declared.fault.OpFault.TheVariants.{Duplicate, Full};
ghost use Rattle.collection_store.specs.declared.operation.Op.TheVariants.{Insert, Update};

use crate::changes::{new_bytes, old_bytes};
use crate::documents::is_too_large;
use crate::fault::OpFault;
use crate::finding::matching;
use crate::operation::{Op, Reply};
use crate::updates::{all_removed, all_updated, reply};
use ejson_value::{
    Change, Changes, Contents, Doc, Key, Keys, Mem, Names, Text, Value, document_size,
};
use modifier_apply::Modifier;
use selector_match::Selector;
use std::alloc::Global;
use std::marker::Model;

const MAX_DOCUMENTS: usize = 262_144;

const MAX_BYTES: u64 = 67_108_864;

/// Documents by collection and id, and the names of the collections. A contract sees the names and
/// the documents.
#[derive(Drop)]
pub struct Store {
    alloc: Global,
    names: Names,
    contents: Contents,
    // Of all documents.
    bytes: u64,
}

impl Model for Store {
    ghost use Rattle.std.specs.Prelude.{◌≡◌};
    ghost use Rattle.collection_store.specs.State.{StoreState, state_code};
    ghost use Rattle.collection_store.specs.Limits.{bytes_of};

    ghost Value = { StoreState };

    ghost coded = { state_code };

    ghost view = { λ a. record { names = a.names; rows = a.contents } };

    ghost invariant = { λ a. a.bytes ≡ bytes_of a.contents };
}

fn is_listed(names: &Names, collection: &Text) -> bool
    ensures { result ≡ is_listed names.now collection.now }
{
    names
        .as_slice()
        .iter()
        .any(|name| name.as_str() == collection.as_str())
}

fn is_there(contents: &Contents, key: &Key) -> bool
    ensures { result ≡ is_some (at key_cmp contents.now key.now) }
{
    contents.get(key).is_some()
}

// The bytes of all documents. Those of documents that fit in memory are below 2^64.
fn bytes_in(contents: &Contents) -> Result<u64, Mem>
    ensures { IfOk result (λ bytes. bytes ≡ bytes_of contents.now) }
{
    let mut total = 0u64;
    for (_, doc) in contents.iter() {
        total = total.saturating_add(document_size(doc));
    }
    if total == u64::MAX {
        Err(Mem)
    } else {
        Ok(total)
    }
}

fn one_key(alloc: Global, key: &Key) -> Result<Keys, Mem>
    ensures { IfOk result (λ keys. keys ≡ key.now ∷ []) }
{
    let key = key.copy()?;
    let mut keys = Keys::new(alloc);
    keys.push(key)?;
    Ok(keys)
}

fn new_document(key: &Key, doc: &Doc) -> Result<Change, Mem>
    ensures { IfOk result (λ change. change ≡ record { key = key.now; before = None; after = Some doc.now }) }
{
    Ok(Change {
        key: key.copy()?,
        before: None,
        after: Some(doc.copy()?),
    })
}

fn one_change(alloc: Global, key: &Key, doc: &Doc) -> Result<Changes, Mem>
    ensures { IfOk result (λ changes. changes ≡ (insertion key.now doc.now).changes) }
{
    let mut changes = Changes::new(alloc);
    changes.push(new_document(key, doc)?)?;
    Ok(changes)
}

fn insertion(alloc: Global, key: &Key, doc: &Doc) -> Result<Reply, Mem>
    ensures { IfOk result (λ reply. plan_of reply ≡ insertion key.now doc.now) }
{
    let touched = one_key(alloc, key)?;
    let id = key.id.copy()?;
    Ok(Reply {
        changes: one_change(alloc, key, doc)?,
        touched,
        answer: Value::Text(id),
    })
}

impl Store {
    /// A store of collections of these names, with no documents.
    pub fn new(alloc: Global, names: &Names) -> Result<Store, Mem>
        ensures { IfOk result (λ store. store ≡ record { names = names.now; rows = [] }) }
    {
        Ok(Store {
            alloc,
            names: names.copy()?,
            contents: Contents::new(alloc),
            bytes: 0,
        })
    }

    /// A store of collections of these names, with these documents. It looks once at each.
    pub fn over(alloc: Global, names: &Names, contents: Contents) -> Result<Store, Mem>
        ensures { IfOk result (λ store. store ≡ record { names = names.now; rows = contents }) }
    {
        let bytes = bytes_in(&contents)?;
        Ok(Store {
            alloc,
            names: names.copy()?,
            contents,
            bytes,
        })
    }

    /// The documents.
    pub fn contents(&self) -> &Contents
        ensures { result.now ≡ self.now.rows }
    {
        &self.contents
    }

    /// Whether the selector holds of a document of the collection. Where it names an id, the document
    /// with this id alone is looked at.
    #[tactic(auto, using(crate::proofs::FirstFound::first_found))]
    pub fn has_match(&self, collection: &Text, selector: &Selector) -> Result<bool, Mem>
        ensures { IfOk result (λ b. b ≡ nat_lt 0 (length (matching collection.now selector.now self.now.rows))) }
    {
        let found = matching(self.alloc, &self.contents, collection, selector, false)?;
        Ok(!found.is_empty())
    }

    fn planned_update(
        &self,
        collection: &Text,
        selector: &Selector,
        modifier: &Modifier,
        all: bool,
    ) -> Result<Reply, OpFault>
        ensures gives { Gives plan_of result
            (if_listed self.now.names collection.now (update_plan modifier.now (chosen all (matching collection.now selector.now self.now.rows)))) }
        ensures fit { IfOk result (λ reply. AreFor self.now.rows reply.changes) }
        ensures stays { IfOk result (λ reply. length (after self.now.rows reply.changes) ≡ length self.now.rows) }
    {
        if !is_listed(&self.names, collection) {
            return Err(OpFault::NoCollection);
        }
        self.contents.known();
        let found = matching(self.alloc, &self.contents, collection, selector, all)?;
        let changes = all_updated(self.alloc, modifier, &found)?;
        Ok(reply(self.alloc, changes, &found)?)
    }

    fn planned_removal(&self, collection: &Text, selector: &Selector) -> Result<Reply, OpFault>
        ensures gives { Gives plan_of result (if_listed self.now.names collection.now (Ok (remove_plan (matching collection.now selector.now self.now.rows)))) }
        ensures fit { IfOk result (λ reply. AreFor self.now.rows reply.changes) }
        ensures none { IfOk result (λ reply. new_bytes reply.changes ≡ 0) }
    {
        if !is_listed(&self.names, collection) {
            return Err(OpFault::NoCollection);
        }
        self.contents.known();
        let found = matching(self.alloc, &self.contents, collection, selector, true)?;
        let changes = all_removed(self.alloc, &found)?;
        Ok(reply(self.alloc, changes, &found)?)
    }

    // The bytes of all documents once the changes are made, 2^64 - 1 where there are more.
    fn bytes_after(&self, changes: &Changes) -> u64
        requires { AreFor self.now.rows changes.now }
        ensures value { result ≡ capped (bytes_of (after self.now.rows changes.now)) }
        ensures exact { new_bytes changes.now ≡ 0 → result ≡ bytes_of (after self.now.rows changes.now) }
    {
        self.contents.known();
        let bytes = self.bytes;
        let old = old_bytes(changes);
        (bytes - old).saturating_add(new_bytes(changes))
    }

    // Makes the changes, which leave this many bytes.
    fn make(&mut self, changes: &Changes, bytes: u64) -> Result<(), Mem>
        requires fit { AreFor self.old.rows changes.now }
        requires bytes { bytes ≡ bytes_of (after self.old.rows changes.now) }
        ensures ok { OnOk result (self.new ≡ record { names = self.old.names; rows = after self.old.rows changes.now }) }
        ensures err { OnErr result (self.new ≡ self.old) }
    {
        self.contents.put_all(changes)?;
        self.bytes = bytes;
        Ok(())
    }

    // Makes the changes, which leave as many documents, if there is room.
    fn make_if_room(&mut self, changes: &Changes, room: u64) -> Result<(), OpFault>
        requires fit { AreFor self.old.rows changes.now }
        requires stays { length (after self.old.rows changes.now) ≡ length self.old.rows }
        ensures gives { Gives (λ u. self.new.rows) result
            (if is_full (after self.old.rows changes.now) changes.now room then Err Full else Ok (after self.old.rows changes.now)) }
        ensures names { self.new.names ≡ self.old.names }
        ensures err { OnErr result (self.new ≡ self.old) }
    {
        self.contents.known();
        let documents = self.contents.len();
        let bytes = self.bytes_after(changes);
        if documents > MAX_DOCUMENTS || bytes > MAX_BYTES || new_bytes(changes) > room {
            return Err(OpFault::Full);
        }
        Ok(self.make(changes, bytes)?)
    }

    fn remove(&mut self, collection: &Text, selector: &Selector) -> Result<Reply, OpFault>
        ensures gives { Gives (λ reply. applied_as self.new.rows reply) result
            (if_listed self.old.names collection.now (Ok (done self.old.rows (remove_plan (matching collection.now selector.now self.old.rows))))) }
        ensures names { self.new.names ≡ self.old.names }
        ensures refused { OnErr result (self.new ≡ self.old) }
    {
        let reply = self.planned_removal(collection, selector)?;
        let bytes = self.bytes_after(&reply.changes);
        self.make(&reply.changes, bytes)?;
        Ok(reply)
    }

    // The store has no room for a document more.
    fn is_full_with(&self, doc: &Doc, room: u64) -> bool
        ensures full { IsTrue result → is_full_with self.now.rows doc.now room ≡ true }
        ensures free { IsFalse result → HasRoom self.now.rows doc.now room }
    {
        let documents = self.contents.len().saturating_add(1);
        let size = document_size(doc);
        let bytes = self.bytes.saturating_add(size);
        documents > MAX_DOCUMENTS || bytes > MAX_BYTES || size > room
    }

    // Why a new document is refused whose key no other has.
    fn refusal(&self, doc: &Doc, room: u64) -> Option<OpFault>
        ensures refused { IfSome result (λ fault. (key : Key) → at key_cmp self.now.rows key ≡ None → inserted self.now.rows key doc.now room ≡ Err fault) }
        ensures fits { IfNone result (Fits self.now.rows doc.now room) }
    {
        self.contents.known();
        if is_too_large(doc) {
            Some(OpFault::TooLarge)
        } else if self.is_full_with(doc, room) {
            Some(OpFault::Full)
        } else {
            None
        }
    }

    // Why a new document with this key is refused, that is refused so where no other has the key.
    fn refusal_at(&self, key: &Key, fault: OpFault) -> OpFault
        ensures { result ≡ (if is_some (at key_cmp self.now.rows key.now) then Duplicate else fault) }
    {
        if is_there(&self.contents, key) {
            OpFault::Duplicate
        } else {
            fault
        }
    }

    // Puts a new document, for which there is room, unless one has the key, and says whether it did.
    fn put_new(&mut self, key: Key, doc: &Doc) -> Result<bool, Mem>
        requires { bytes_of self.old.rows + size (document doc.now) < 2 ^ 64 }
        ensures told { IfOk result (λ new. new ≡ is_none (at key_cmp self.old.rows key)) }
        ensures names { self.new.names ≡ self.old.names }
        ensures put { OnOk result
            (self.new.rows ≡ if is_none (at key_cmp self.old.rows key) then set key_cmp self.old.rows key (Some doc.now) else self.old.rows) }
        ensures err { OnErr result (self.new ≡ self.old) }
    {
        self.contents.known();
        let bytes = self.bytes + document_size(doc);
        let new = self.contents.put_new(key, doc.copy()?)?;
        if new {
            self.bytes = bytes;
        }
        Ok(new)
    }

    fn insert(
        &mut self,
        collection: &Text,
        id: &Text,
        doc: &Doc,
        room: u64,
    ) -> Result<Reply, OpFault>
        ensures gives { Gives (λ reply. applied_as self.new.rows reply) result
            (applied self.old.names self.old.rows (Insert collection.now id.now doc.now) room) }
        ensures names { self.new.names ≡ self.old.names }
        ensures refused { OnErr result (self.new ≡ self.old) }
    {
        if !is_listed(&self.names, collection) {
            return Err(OpFault::NoCollection);
        }
        self.contents.known();
        let key = Key::of(collection, id)?;
        if let Some(fault) = self.refusal(doc, room) {
            return Err(self.refusal_at(&key, fault));
        }
        let reply = insertion(self.alloc, &key, doc)?;
        if self.put_new(key, doc)? {
            Ok(reply)
        } else {
            Err(OpFault::Duplicate)
        }
    }

    fn update(
        &mut self,
        collection: &Text,
        selector: &Selector,
        modifier: &Modifier,
        all: bool,
        room: u64,
    ) -> Result<Reply, OpFault>
        ensures gives { Gives (λ reply. applied_as self.new.rows reply) result
            (applied self.old.names self.old.rows (Update collection.now selector.now modifier.now all) room) }
        ensures names { self.new.names ≡ self.old.names }
        ensures refused { OnErr result (self.new ≡ self.old) }
    {
        let reply = self.planned_update(collection, selector, modifier, all)?;
        self.make_if_room(&reply.changes, room)?;
        Ok(reply)
    }

    /// Carries the operation out, if it isn't refused: its new documents may have as many bytes as
    /// `room` says. Where the selector names an id it looks at the document with this id alone, and
    /// else at those of the collection.
    pub fn apply(&mut self, op: &Op, room: u64) -> Result<Reply, OpFault>
        ensures gives { Gives (λ reply. applied_as self.new.rows reply) result (applied self.old.names self.old.rows op.now room) }
        ensures names { self.new.names ≡ self.old.names }
        ensures refused { OnErr result (self.new ≡ self.old) }
    {
        match op {
            Op::Insert {
                collection,
                id,
                doc,
            } => self.insert(collection, id, doc, room),
            Op::Update {
                collection,
                selector,
                modifier,
                all,
            } => self.update(collection, selector, modifier, *all, room),
            Op::Remove {
                collection,
                selector,
            } => self.remove(collection, selector),
        }
    }
}
