//! The documents that a selector holds of.
ghost use Rattle.std.specs.Prelude.{◌≡◌, ◌++◌, ◌∷◌, [], Some, IfOk, OnOk};
ghost use Rattle.map_model.specs.Maps.{at};
ghost use Rattle.ejson_value.specs.Key.{key_cmp, key_of};
ghost use Rattle.ejson_value.specs.Changes.{news_of};
ghost use Rattle.collection_store.specs.Applied.{matching};
ghost use Rattle.collection_store.specs.Finding.{if_held};
ghost use Rattle.minimongo.specs.Finding.{published};

use ejson_value::{Contents, Doc, Key, Mem, Publish, Publishes, Text};
use selector_match::{Selector, holds};
use std::alloc::Global;

// Puts a copy of the document behind the others.
fn push_found(found: &mut Publishes, key: &Key, doc: &Doc) -> Result<(), Mem>
    ensures { OnOk result (news_of found.new ≡ news_of found.old ++ (key.now, Some doc.now) ∷ []) }
{
    let key = key.copy()?;
    found.push(Publish {
        key,
        new: Some(doc.copy()?),
    })
}

// The collection's documents that the selector holds of.
fn find_in(
    alloc: Global,
    contents: &Contents,
    collection: &Text,
    selector: &Selector,
) -> Result<Publishes, Mem>
    ensures { IfOk result (λ found. news_of found ≡ published (matching collection.now selector.now contents.now)) }
{
    let mut found = Publishes::new(alloc);
    for (key, doc) in contents.of_collection(collection)? {
        if holds(selector, &key.id, doc) {
            push_found(&mut found, key, doc)?;
        }
    }
    Ok(found)
}

// The document with this id, if there is one and the selector holds of it.
fn find_named(
    alloc: Global,
    contents: &Contents,
    collection: &Text,
    id: &Text,
    selector: &Selector,
) -> Result<Publishes, Mem>
    ensures { IfOk result (λ found. news_of found
        ≡ published (if_held selector.now (key_of collection.now id.now) (at key_cmp contents.now (key_of collection.now id.now)))) }
{
    let key = Key::of(collection, id)?;
    let mut found = Publishes::new(alloc);
    if let Some(doc) = contents.get(&key) {
        if holds(selector, id, doc) {
            push_found(&mut found, &key, doc)?;
        }
    }
    Ok(found)
}

/// The documents of the collection that the selector holds of, by id. Where the selector names an id
/// it looks at the document with this id alone, and else at those of the collection.
pub(crate) fn find(
    alloc: Global,
    contents: &Contents,
    collection: &Text,
    selector: &Selector,
) -> Result<Publishes, Mem>
    ensures { IfOk result (λ found. news_of found ≡ published (matching collection.now selector.now contents.now)) }
{
    contents.known();
    match selector.named_id() {
        None => find_in(alloc, contents, collection, selector),
        Some(id) => find_named(alloc, contents, collection, id, selector),
    }
}
