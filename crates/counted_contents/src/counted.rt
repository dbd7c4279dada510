//! Contents with the count of their bytes.
ghost use Rattle.std.specs.Prelude.{◌≡◌, [], false, is_some, Some, None, IfOk, OnOk, OnErr};
ghost use Rattle.std.specs.Option.{option_copied};
ghost use Rattle.map_model.specs.Maps.{at, set};
ghost use Rattle.map_model.specs.Changes.{changed};
ghost use Rattle.ejson_value.specs.Key.{key_cmp};
ghost use Rattle.ejson_value.specs.Fields.{with_edit};
ghost use Rattle.ejson_value.specs.Rows.{AreRows};
ghost use Rattle.ejson_value.specs.Changes.{changes_of};
ghost use Rattle.collection_store.specs.Limits.{bytes_of};
ghost use Rattle.collection_store.specs.Answered.{AreFor};

use crate::sums::{bytes_after, bytes_with, freed, has_room, most_more, size_if};
use ejson_value::{Changes, Contents, Doc, Key, Mem, Text, document_size};
use std::alloc::Global;
use std::marker::Model;

/// Documents by collection and id. A contract sees them as those of `Contents`.
#[derive(Drop)]
pub struct CountedContents {
    contents: Contents,
    bytes: u64,
}

impl Model for CountedContents {
    ghost use Rattle.std.specs.Prelude.{◌≡◌};
    ghost use Rattle.ejson_value.specs.Rows.{Rows, rows_code};
    ghost use Rattle.collection_store.specs.Limits.{bytes_of};

    ghost Value = { Rows };

    ghost coded = { rows_code };

    ghost view = { λ a. a.contents };

    ghost invariant = { λ a. a.bytes ≡ bytes_of a.contents };
}

impl CountedContents {
    /// No documents.
    pub fn new(alloc: Global) -> CountedContents
        ensures { result ≡ [] }
    {
        CountedContents {
            contents: Contents::new(alloc),
            bytes: 0,
        }
    }

    /// The documents.
    pub fn contents(&self) -> &Contents
        ensures { result.now ≡ self.now }
    {
        &self.contents
    }

    /// How many bytes the documents have. It looks at none of them.
    pub fn bytes(&self) -> u64
        ensures { result ≡ bytes_of self.now }
    {
        self.bytes
    }

    /// The document at this key.
    pub fn get(&self, key: &Key) -> Option<&Doc>
        ensures { option_copied result ≡ at key_cmp self.now key.now }
    {
        self.contents.get(key)
    }

    /// Tells a proof what contents keep; it does nothing.
    pub fn known(&self)
        ensures { AreRows self.now }
    {
        self.contents.known();
    }

    /// Puts the document at this key, in place of one that is there. On an error nothing has changed.
    pub fn put(&mut self, key: Key, doc: Doc) -> Result<(), Mem>
        ensures ok { OnOk result (self.new ≡ set key_cmp self.old key (Some doc)) }
        ensures err { OnErr result (self.new ≡ self.old) }
    {
        self.contents.known();
        let both = bytes_with(self.bytes, document_size(&doc))?;
        let there = self.contents.insert(key, doc)?;
        self.bytes = both - freed(there);
        Ok(())
    }

    /// Takes the named fields out of the document at this key, and then puts copies of the others in. It answers whether
    /// there is such a document: where there is none nothing has changed, nor on an error. It costs one look-up.
    pub fn change(&mut self, key: &Key, fields: &Doc, cleared: &[Text]) -> Result<bool, Mem>
        ensures there { IfOk result (λ there. there ≡ is_some (at key_cmp self.old key.now)) }
        ensures ok { OnOk result (self.new ≡ with_edit self.old key.now fields.now cleared.now) }
        ensures absent { IfOk result (λ there. there ≡ false → self.new ≡ self.old) }
        ensures err { OnErr result (self.new ≡ self.old) }
    {
        self.contents.known();
        if !has_room(self.bytes, most_more(fields)) {
            return Err(Mem);
        }
        match self.contents.change(key, fields, cleared)? {
            None => Ok(false),
            Some((before, after)) => {
                self.bytes = self.bytes - before + after;
                Ok(true)
            }
        }
    }

    /// Takes the document at this key out.
    pub fn remove(&mut self, key: &Key) -> Option<Doc>
        ensures value { result ≡ at key_cmp self.old key.now }
        ensures removed { self.new ≡ set key_cmp self.old key.now None }
    {
        self.contents.known();
        let there = self.contents.remove(key);
        self.bytes -= size_if(there.as_ref());
        there
    }

    /// Puts each change's `after` at its key, or takes out what is there where it is None. On an error
    /// nothing has changed. It costs a look-up for each change, and a copy of each `after`.
    pub fn put_all(&mut self, changes: &Changes) -> Result<(), Mem>
        requires { AreFor self.old changes.now }
        ensures ok { OnOk result (self.new ≡ changed key_cmp self.old (changes_of changes.now)) }
        ensures err { OnErr result (self.new ≡ self.old) }
    {
        self.contents.known();
        let bytes = bytes_after(self.bytes, changes)?;
        self.contents.put_all(changes)?;
        self.bytes = bytes;
        Ok(())
    }
}
