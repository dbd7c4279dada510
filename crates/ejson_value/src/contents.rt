//! Contents: documents by collection and id, and changes of them.
ghost use Rattle.std.specs.Prelude.{◌≡◌, ◌==◌, ◌++◌, ◌∷◌, [], length, option_map, is_none, Some, None, IsSome, IfOk, OnOk, OnErr, if◌then◌else◌};
ghost use Rattle.std.specs.Option.{option_copied};
ghost use Rattle.std.specs.Map.{keys_of};
ghost use Rattle.map_model.specs.Maps.{at, set, IsSorted};
ghost use Rattle.ejson_value.specs.Key.{key_cmp};
ghost use Rattle.ejson_value.specs.Fields.{edited, bytes_edited, with_edit};
ghost use Rattle.ejson_value.specs.Rows.{Rows, AreRows, rows_of};

use crate::key::Key;
use crate::measure::document_size;
use crate::memory::Mem;
use crate::text::Text;
use crate::value::Doc;
use std::alloc::Global;
use std::collections::BTreeMap;
use std::collections::btree_map::{Entry, Iter, Range};
use std::default::Emptied;
use std::marker::Model;

/// Documents by collection and id. A contract sees its pairs by rising key.
#[derive(Drop)]
pub struct Contents {
    docs: BTreeMap<Key, Doc>,
}

impl Model for Contents {
    ghost use Rattle.ejson_value.specs.Rows.{Rows, rows_code};

    ghost Value = { Rows };

    ghost coded = { rows_code };

    ghost use Rattle.ejson_value.specs.Rows.{AreRows};

    ghost view = { λ a. a.docs.entries };

    ghost invariant = { λ a. AreRows a.docs.entries };
}

// The least key that a document of the collection can have.
fn first_key(collection: &Text) -> Result<Key, Mem>
    ensures { IfOk result (λ key. key ≡ record { collection = collection.now; id = [] }) }
{
    Ok(Key {
        collection: collection.copy()?,
        id: collection.emptied(),
    })
}

// The least key behind all that documents of the collection can have: no text stands between a text
// and the same with a zero byte at its end.
fn key_behind(collection: &Text) -> Result<Key, Mem>
    ensures { IfOk result (λ key. key ≡ record { collection = collection.now ++ 0 ∷ []; id = [] }) }
{
    let mut next = collection.copy()?;
    next.push('\0')?;
    Ok(Key {
        collection: next,
        id: collection.emptied(),
    })
}

// Changes the document, and answers how many bytes it had and how many it has.
fn change_in(doc: &mut Doc, fields: &Doc, cleared: &[Text]) -> Result<Option<(u64, u64)>, Mem>
    ensures bytes { IfOk result (λ bytes. bytes ≡ Some (bytes_edited fields.now cleared.now doc.old)) }
    ensures ok { OnOk result (doc.new ≡ edited doc.old fields.now cleared.now) }
    ensures err { OnErr result (doc.new ≡ doc.old) }
{
    let before = document_size(doc);
    doc.change(fields, cleared)?;
    Ok(Some((before, document_size(doc))))
}

impl Contents {
    /// No documents.
    pub fn new(alloc: Global) -> Contents
        ensures { result ≡ [] }
    {
        Contents {
            docs: BTreeMap::new(alloc),
        }
    }

    /// How many documents there are.
    pub fn len(&self) -> usize
        ensures { result ≡ length self.now }
    {
        self.docs.len()
    }

    /// Whether there are none.
    pub fn is_empty(&self) -> bool
        ensures { result ≡ (length self.now == 0) }
    {
        self.docs.is_empty()
    }

    /// The document at this key.
    pub fn get(&self, key: &Key) -> Option<&Doc>
        ensures { option_copied result ≡ at key_cmp self.now key.now }
    {
        self.docs.get(key)
    }

    /// Puts the document at this key and hands out the one that was there.
    pub fn insert(&mut self, key: Key, doc: Doc) -> Result<Option<Doc>, Mem>
        ensures there { IfOk result (λ there. there ≡ at key_cmp self.old key) }
        ensures ok { OnOk result (self.new ≡ set key_cmp self.old key (Some doc)) }
        ensures err { OnErr result (self.new ≡ self.old) }
    {
        doc.known();
        Ok(self.docs.insert(key, doc)?)
    }

    /// Puts the document at this key, in place of one that is there.
    pub fn put(&mut self, key: Key, doc: Doc) -> Result<(), Mem>
        ensures ok { OnOk result (self.new ≡ set key_cmp self.old key (Some doc)) }
        ensures err { OnErr result (self.new ≡ self.old) }
    {
        drop(self.insert(key, doc)?);
        Ok(())
    }

    /// Puts the document at this key, unless one is there, and says whether it did.
    pub fn put_new(&mut self, key: Key, doc: Doc) -> Result<bool, Mem>
        ensures told { IfOk result (λ new. new ≡ is_none (at key_cmp self.old key)) }
        ensures put { OnOk result (self.new ≡ if is_none (at key_cmp self.old key) then set key_cmp self.old key (Some doc) else self.old) }
        ensures err { OnErr result (self.new ≡ self.old) }
    {
        doc.known();
        match self.docs.entry(key)? {
            Entry::Vacant(place) => {
                place.insert(doc);
                Ok(true)
            }
            Entry::Occupied(_) => Ok(false),
        }
    }

    /// Puts the document in place of the one at this key, which takes no memory.
    pub(crate) fn replace(&mut self, key: &Key, doc: Doc)
        requires { IsSome (at key_cmp self.old key.now) }
        ensures { self.new ≡ set key_cmp self.old key.now (Some doc) }
    {
        doc.known();
        if let Some(place) = self.docs.get_mut(key) {
            *place = doc;
        }
    }

    /// Takes the named fields out of the document at this key, and then puts copies of the others in. It answers how many
    /// bytes the document had and how many it has, 2^64 - 1 where they are more. Where there is no such document it answers
    /// None. On an error nothing has changed.
    pub fn change(
        &mut self,
        key: &Key,
        fields: &Doc,
        cleared: &[Text],
    ) -> Result<Option<(u64, u64)>, Mem>
        ensures bytes { IfOk result (λ bytes. bytes ≡ option_map (bytes_edited fields.now cleared.now) (at key_cmp self.old key.now)) }
        ensures ok { OnOk result (self.new ≡ with_edit self.old key.now fields.now cleared.now) }
        ensures err { OnErr result (self.new ≡ self.old) }
    {
        match self.docs.get_mut(key) {
            None => Ok(None),
            Some(doc) => {
                let bytes = change_in(doc, fields, cleared);
                doc.known();
                bytes
            }
        }
    }

    /// Takes the document at this key out.
    pub fn remove(&mut self, key: &Key) -> Option<Doc>
        ensures value { result ≡ at key_cmp self.old key.now }
        ensures removed { self.new ≡ set key_cmp self.old key.now None }
    {
        self.docs.remove(key)
    }

    /// The documents by rising key.
    pub fn iter(&self) -> Iter<'_, Key, Doc>
        ensures all { result ≡ self.now }
        ensures ordered { IsSorted key_cmp self.now }
    {
        self.docs.iter()
    }

    /// The documents of this collection, by rising id. It looks at those of no other collection.
    pub fn of_collection(&self, collection: &Text) -> Result<Range<'_, Key, Doc>, Mem>
        ensures all { IfOk result (λ rows. rows ≡ rows_of collection.now self.now) }
        ensures ordered { IfOk result (IsSorted key_cmp) }
    {
        let first = first_key(collection)?;
        let behind = key_behind(collection)?;
        Ok(self.docs.range(first..behind))
    }

    /// Tells a proof what contents keep; it does nothing.
    pub fn known(&self)
        ensures { AreRows self.now }
    {
        let _ = &self.docs;
    }

    // Puts a copy of the document at this key.
    pub(crate) fn put_copy(&mut self, key: &Key, doc: &Doc) -> Result<(), Mem>
        ensures ok { OnOk result (self.new ≡ set key_cmp self.old key.now (Some doc.now)) }
        ensures err { OnErr result (self.new ≡ self.old) }
    {
        let key = key.copy()?;
        self.put(key, doc.copy()?)
    }

    /// Contents equal to these.
    pub fn copy(&self) -> Result<Contents, Mem>
        ensures { IfOk result (λ c. c ≡ self.now) }
    {
        let mut copies = Contents {
            docs: BTreeMap::emptied(&self.docs)?,
        };
        for (key, doc) in self.iter() {
            copies.put_copy(key, doc)?;
        }
        Ok(copies)
    }
}
