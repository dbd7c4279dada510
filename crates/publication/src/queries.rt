//! The whole query: every document that cursors publish of a store's contents.
ghost use Rattle.std.specs.Prelude.{◌≡◌, [], Some, IfOk, OnOk};
ghost use Rattle.map_model.specs.Maps.{set};
ghost use Rattle.value_model.specs.Val.{fields_of, entries_of};
ghost use Rattle.ejson_value.specs.Key.{key_cmp, key_of};
ghost use Rattle.publication.specs.Projected.{projected};
ghost use Rattle.ejson_value.specs.Rows.{rows_of};
ghost use Rattle.publication.specs.Parts.{paths_in, paths_of, AreSorted};
ghost use Rattle.publication.specs.Ordered.{documents_in, IsInOrder};
ghost use Rattle.publication.specs.Published.{published_of, IsQuery};
ghost use Rattle.publication.specs.Putting.{published_among, put_document, put_own, published_at, put_rows, put_all, listed_behind};

use crate::cursor::{Cursor, Cursors};
use crate::ordered::{Match, choice, is_within};
use crate::paths::sorted_paths;
use crate::projections::project_by;
use app_model::Projection;
use ejson_value::{Contents, Doc, Key, Mem, Part, Publish, Publishes, Text};
use selector_match::holds;
use std::alloc::Global;
use std::collections::BTreeMap;

// Published documents by published name and id.
type Found = BTreeMap<Key, Doc>;

fn projected(
    alloc: Global,
    projection: &Projection,
    paths: &[&[Part]],
    doc: &Doc,
) -> Result<Doc, Mem>
    requires { AreSorted (paths_of projection.now) (paths_in paths.now) }
    ensures { IfOk result (λ es. es ≡ entries_of (projected projection.now (fields_of doc.now))) }
{
    project_by(alloc, projection, paths, doc)
}

// Puts what the cursor publishes of a document.
fn put_document(
    alloc: Global,
    found: &mut Found,
    cursor: &Cursor,
    paths: &[&[Part]],
    id: &Text,
    doc: &Doc,
) -> Result<(), Mem>
    requires { AreSorted (paths_of cursor.now.fields) (paths_in paths.now) }
    ensures { OnOk result (found.new.entries
        ≡ set key_cmp found.old.entries (key_of cursor.now.name id.now) (Some (entries_of (projected cursor.now.fields (fields_of doc.now))))) }
{
    let fields = projected(alloc, &cursor.fields, paths, doc)?;
    let key = Key::of(&cursor.name, id)?;
    drop(found.insert(key, fields)?);
    Ok(())
}

// Puts what the cursor publishes of a document of its collection, if its selector holds and it is
// one of the first among these, which are in order.
fn put_if_shown(
    alloc: Global,
    found: &mut Found,
    cursor: &Cursor,
    paths: &[&[Part]],
    docs: &[Match<'_>],
    id: &Text,
    doc: &Doc,
) -> Result<(), Mem>
    requires paths { AreSorted (paths_of cursor.now.fields) (paths_in paths.now) }
    requires order { IsInOrder cursor.now.sort (documents_in docs.now) }
    ensures { OnOk result (found.new.entries
        ≡ put_document found.old.entries (key_of cursor.now.name id.now) (published_among cursor.now (documents_in docs.now) id.now doc.now)) }
{
    if holds(&cursor.selector, id, doc) && is_within(cursor, docs, id, doc) {
        put_document(alloc, found, cursor, paths, id, doc)
    } else {
        Ok(())
    }
}

// Puts what the cursor publishes of its collection.
fn put_collection(
    alloc: Global,
    found: &mut Found,
    cursor: &Cursor,
    paths: &[&[Part]],
    docs: &[Match<'_>],
    contents: &Contents,
) -> Result<(), Mem>
    requires paths { AreSorted (paths_of cursor.now.fields) (paths_in paths.now) }
    requires order { IsInOrder cursor.now.sort (documents_in docs.now) }
    ensures { OnOk result (found.new.entries
        ≡ put_own (published_among cursor.now (documents_in docs.now)) found.old.entries cursor.now (rows_of cursor.now.collection contents.now)) }
{
    for (key, doc) in contents.of_collection(&cursor.collection)? {
        put_if_shown(alloc, found, cursor, paths, docs, &key.id, doc)?;
    }
    Ok(())
}

// Puts what the cursor publishes of the document of its collection with this id, if there is one.
fn put_named(
    alloc: Global,
    found: &mut Found,
    cursor: &Cursor,
    paths: &[&[Part]],
    docs: &[Match<'_>],
    id: &Text,
    contents: &Contents,
) -> Result<(), Mem>
    requires paths { AreSorted (paths_of cursor.now.fields) (paths_in paths.now) }
    requires order { IsInOrder cursor.now.sort (documents_in docs.now) }
    ensures { OnOk result (found.new.entries ≡ put_document found.old.entries (key_of cursor.now.name id.now)
        (published_at (published_among cursor.now (documents_in docs.now)) cursor.now contents.now id.now)) }
{
    let key = Key::of(&cursor.collection, id)?;
    match contents.get(&key) {
        None => Ok(()),
        Some(doc) => put_if_shown(alloc, found, cursor, paths, docs, id, doc),
    }
}

// Puts what the cursor publishes of the contents: where its selector names an id, it looks at the
// document with this id alone.
fn put_rows(
    alloc: Global,
    found: &mut Found,
    cursor: &Cursor,
    contents: &Contents,
) -> Result<(), Mem>
    ensures { OnOk result (found.new.entries ≡ put_rows (published_of cursor.now contents.now) found.old.entries cursor.now contents.now) }
{
    let paths = sorted_paths(alloc, &cursor.fields)?;
    let docs = choice(alloc, cursor, contents)?;
    contents.known();
    match cursor.selector.named_id() {
        None => put_collection(alloc, found, cursor, &paths, &docs, contents),
        Some(id) => put_named(alloc, found, cursor, &paths, &docs, id, contents),
    }
}

fn put_all(
    alloc: Global,
    found: &mut Found,
    cursors: &Cursors,
    contents: &Contents,
) -> Result<(), Mem>
    ensures { OnOk result (found.new.entries ≡ put_all found.old.entries cursors.now contents.now) }
{
    for cursor in &cursors.cursors {
        put_rows(alloc, found, cursor, contents)?;
    }
    Ok(())
}

fn list(alloc: Global, found: Found) -> Result<Publishes, Mem>
    ensures { IfOk result (λ answer. answer ≡ listed_behind [] found.entries) }
{
    let mut answer = Publishes::new(alloc);
    for (key, doc) in found {
        answer.push(Publish {
            key,
            new: Some(doc),
        })?;
    }
    Ok(answer)
}

/// Every document that the cursors publish of the contents, by published name and id. For each
/// cursor it looks at the documents of its collection alone, and where the selector names an id, at
/// the document with this id alone. Where there is a limit it sorts those that the selector holds
/// of, and copies none but those that it publishes.
pub fn query(alloc: Global, cursors: &Cursors, contents: &Contents) -> Result<Publishes, Mem>
    ensures { IfOk result (λ answer. IsQuery cursors.now contents.now answer) }
{
    let mut found = BTreeMap::new(alloc);
    put_all(alloc, &mut found, cursors, contents)?;
    let answer = list(alloc, found)?;
    contents.known();
    Ok(answer)
}
