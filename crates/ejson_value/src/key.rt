//! Keys of documents.
ghost use Rattle.std.specs.Prelude.{◌≡◌, IfOk};
ghost use Rattle.std.specs.Cmp.{Some-then, both_tied};
ghost use Rattle.std.specs.Cmp.Lexicographic.{texts_ties};
ghost use Rattle.ejson_value.specs.Key.{key_cmp, key_of, key_total};
ghost use Rattle.value_model.specs.Order.{text_cmp};

use crate::memory::Mem;
use crate::text::Text;
use std::cmp::Ordering;

/// Where a document stands: its collection's name and its id. Keys go by collection and then by id.
#[derive(PartialEq, Eq, PartialOrd, Drop)]
pub struct Key {
    /// The collection's name.
    pub collection: Text,
    /// The document's `_id`.
    pub id: Text,
}

impl Key {
    /// The key of the document of this collection with this id.
    pub fn of(collection: &Text, id: &Text) -> Result<Key, Mem>
        ensures { IfOk result (λ key. key ≡ key_of collection.now id.now) }
    {
        Ok(Key {
            collection: collection.copy()?,
            id: id.copy()?,
        })
    }

    /// A key equal to this one.
    pub fn copy(&self) -> Result<Key, Mem>
        ensures { IfOk result (λ k. k ≡ self.now) }
    {
        Ok(Key {
            collection: self.collection.copy()?,
            id: self.id.copy()?,
        })
    }
}

impl Ord for Key {
    ghost cmp = { key_cmp };

    ghost total = { key_total };

    ghost matches_partial_cmp = { λ a b. Some-then (text_cmp a.collection b.collection) (text_cmp a.id b.id) };

    ghost matches_eq = { λ a b. both_tied _ _ (text_cmp a.collection b.collection) (text_cmp a.id b.id) (texts_ties a.collection b.collection)
        (texts_ties a.id b.id) };

    #[inline(always)]
    fn cmp(&self, other: &Key) -> Ordering {
        if self.collection == other.collection {
            return self.id.cmp(&other.id);
        }
        self.collection.cmp(&other.collection)
    }
}
