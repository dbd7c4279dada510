//! The documents that a selector holds of.
ghost use Rattle.std.specs.Prelude.{◌≡◌, ◌++◌, ◌∷◌, [], IfOk, OnOk};
ghost use Rattle.map_model.specs.Maps.{at};
ghost use Rattle.ejson_value.specs.Key.{key_cmp, key_of};
ghost use Rattle.selector_match.specs.Holds.{holds};
ghost use Rattle.collection_store.specs.Applied.{matching, chosen};
ghost use Rattle.collection_store.specs.Finding.{rows_in, if_held};

use ejson_value::{Contents, Doc, Key, Mem, Text};
use selector_match::{Selector, holds};
use std::alloc::Global;

/// A document that a selector holds of, where it stands in the contents, and its key.
#[derive(Drop)]
pub(crate) struct Match<'a> {
    pub(crate) key: Key,
    pub(crate) doc: &'a Doc,
}

// Puts the document behind the others that were found.
fn push_match<'a>(found: &mut Vec<Match<'a>>, key: &Key, doc: &'a Doc) -> Result<(), Mem>
    ensures { OnOk result (rows_in found.new.items ≡ rows_in found.old.items ++ (key.now, doc.now) ∷ []) }
{
    let key = key.copy()?;
    found.push(Match { key, doc })?;
    Ok(())
}

// The documents of the collection that the selector holds of, or the first of them.
fn matching_in<'a>(
    alloc: Global,
    contents: &'a Contents,
    collection: &Text,
    selector: &Selector,
    all: bool,
) -> Result<Vec<Match<'a>>, Mem>
    ensures { IfOk result (λ found. rows_in found.items ≡ chosen all (matching collection.now selector.now contents.now)) }
{
    let mut found = Vec::new(alloc);
    for (key, doc) in contents.of_collection(collection)? {
        if holds(selector, &key.id, doc) {
            push_match(&mut found, key, doc)?;
            if !all {
                return Ok(found);
            }
        }
    }
    Ok(found)
}

// The document with this id, if there is one and the selector holds of it.
fn matching_named<'a>(
    alloc: Global,
    contents: &'a Contents,
    collection: &Text,
    id: &Text,
    selector: &Selector,
) -> Result<Vec<Match<'a>>, Mem>
    ensures { IfOk result
        (λ found. rows_in found.items ≡ if_held selector.now (key_of collection.now id.now) (at key_cmp contents.now (key_of collection.now id.now))) }
{
    let key = Key::of(collection, id)?;
    let mut found = Vec::new(alloc);
    if let Some(doc) = contents.get(&key) {
        if holds(selector, id, doc) {
            push_match(&mut found, &key, doc)?;
        }
    }
    Ok(found)
}

/// The documents of the collection that the selector holds of, by id, or the first of them. Where
/// the selector names an id it looks at the document with this id alone, and else at those of the
/// collection.
pub(crate) fn matching<'a>(
    alloc: Global,
    contents: &'a Contents,
    collection: &Text,
    selector: &Selector,
    all: bool,
) -> Result<Vec<Match<'a>>, Mem>
    ensures { IfOk result (λ found. rows_in found.items ≡ chosen all (matching collection.now selector.now contents.now)) }
{
    contents.known();
    match selector.named_id() {
        None => matching_in(alloc, contents, collection, selector, all),
        Some(id) => matching_named(alloc, contents, collection, id, selector),
    }
}
