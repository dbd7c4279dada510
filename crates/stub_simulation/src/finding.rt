//! The documents that a selector holds of, in a draft.
ghost use Rattle.std.specs.Prelude.{◌≡◌, ◌&&◌, [], filter, not, IfOk, OnOk};
ghost use Rattle.map_model.specs.Maps.{at, set};
ghost use Rattle.ejson_value.specs.Key.{key_cmp, key_of};
ghost use Rattle.ejson_value.specs.Rows.{rows_of};
ghost use Rattle.selector_match.specs.Holds.{holds};
ghost use Rattle.collection_store.specs.Applied.{matching};
ghost use Rattle.collection_store.specs.Finding.{if_held};
ghost use Rattle.std.specs.BTreeMap.{insert_entry};
ghost use Rattle.stub_simulation.specs.Drafts.{shown_by, is_changed, all_put, IsWithin};

use crate::draft::Draft;
use ejson_value::{Contents, Doc, Key, Mem, Text};
use selector_match::{Selector, holds};
use std::alloc::Global;

fn put_copy(found: &mut Contents, key: &Key, doc: &Doc) -> Result<(), Mem>
    ensures { OnOk result (found.new ≡ insert_entry key_cmp found.old key.now doc.now) }
{
    let key = key.copy()?;
    found.put(key, doc.copy()?)
}

// Whether the document is as it is in the view, and the selector holds of it.
fn is_found(draft: &Draft, selector: &Selector, key: &Key, doc: &Doc) -> bool
    ensures { result ≡ (not (is_changed draft.now key.now) && holds selector.now key.now.id doc.now) }
{
    draft.is_fresh(key) && holds(selector, &key.id, doc)
}

// Puts those of the view's documents that are as they were and that the selector holds of.
fn put_fresh(
    found: &mut Contents,
    view: &Contents,
    draft: &Draft,
    collection: &Text,
    selector: &Selector,
) -> Result<(), Mem>
    ensures { OnOk result (found.new ≡ all_put found.old
        (filter (λ row. not (is_changed draft.now row.0) && holds selector.now row.0.id row.1) (rows_of collection.now view.now))) }
{
    for (key, doc) in view.of_collection(collection)? {
        if is_found(draft, selector, key, doc) {
            put_copy(found, key, doc)?;
        }
    }
    Ok(())
}

// Puts those of the changed documents that the selector holds of.
fn put_left(
    found: &mut Contents,
    left: &Contents,
    collection: &Text,
    selector: &Selector,
) -> Result<(), Mem>
    ensures { OnOk result (found.new ≡ all_put found.old (matching collection.now selector.now left.now)) }
{
    for (key, doc) in left.of_collection(collection)? {
        if holds(selector, &key.id, doc) {
            put_copy(found, key, doc)?;
        }
    }
    Ok(())
}

// The documents of the collection that the selector holds of.
fn found_in(
    alloc: Global,
    view: &Contents,
    draft: &Draft,
    collection: &Text,
    selector: &Selector,
) -> Result<Contents, Mem>
    requires { IsWithin draft.now }
    ensures { IfOk result (λ found. found ≡ matching collection.now selector.now (shown_by view.now draft.now)) }
{
    view.known();
    draft.left.known();
    let mut found = Contents::new(alloc);
    put_fresh(&mut found, view, draft, collection, selector)?;
    put_left(&mut found, &draft.left, collection, selector)?;
    Ok(found)
}

// The document with this id, if there is one and the selector holds of it.
fn found_named(
    alloc: Global,
    view: &Contents,
    draft: &Draft,
    collection: &Text,
    id: &Text,
    selector: &Selector,
) -> Result<Contents, Mem>
    requires { IsWithin draft.now }
    ensures { IfOk result (λ found. found
        ≡ if_held selector.now (key_of collection.now id.now) (at key_cmp (shown_by view.now draft.now) (key_of collection.now id.now))) }
{
    let key = Key::of(collection, id)?;
    let mut found = Contents::new(alloc);
    if let Some(doc) = draft.doc_at(view, &key) {
        if holds(selector, id, doc) {
            put_copy(&mut found, &key, doc)?;
        }
    }
    Ok(found)
}

/// Copies of the documents of the collection that the selector holds of. Where the selector names an
/// id it looks at the document with this id alone, and else at those of the collection.
pub(crate) fn found(
    alloc: Global,
    view: &Contents,
    draft: &Draft,
    collection: &Text,
    selector: &Selector,
) -> Result<Contents, Mem>
    requires { IsWithin draft.now }
    ensures { IfOk result (λ found. found ≡ matching collection.now selector.now (shown_by view.now draft.now)) }
{
    view.known();
    match selector.named_id() {
        None => found_in(alloc, view, draft, collection, selector),
        Some(id) => found_named(alloc, view, draft, collection, id, selector),
    }
}
