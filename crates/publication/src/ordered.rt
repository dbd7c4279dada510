//! The documents that a cursor's limit chooses among, in the cursor's order.
ghost use Rattle.std.specs.Prelude.{◌≡◌, ◌++◌, ◌∷◌, [], IfOk, OnOk};
ghost use Rattle.map_model.specs.Maps.{at};
ghost use Rattle.ejson_value.specs.Key.{key_cmp, key_of};
ghost use Rattle.sort_window.specs.Sorting.{id_doc_cmp};
ghost use Rattle.publication.specs.Published.{matching, rank, is_within};
ghost use Rattle.publication.specs.Ordered.{documents_in, if_held, IsInOrder, IsChoice};

use crate::cursor::Cursor;
use ejson_value::{Contents, Doc, Key, Mem, SortKeys, Text};
use selector_match::holds;
use sort_window::before;
use std::alloc::Global;
use std::cmp::Ordering;

/// A document that a cursor's selector holds of, and its id.
#[derive(Drop)]
pub(crate) struct Match<'a> {
    pub(crate) id: &'a Text,
    pub(crate) doc: &'a Doc,
}

// Puts the document behind the others.
fn push_match<'a>(docs: &mut Vec<Match<'a>>, id: &'a Text, doc: &'a Doc) -> Result<(), Mem>
    ensures { OnOk result (documents_in docs.new.items ≡ documents_in docs.old.items ++ (id.now, doc.now) ∷ []) }
{
    docs.push(Match { id, doc })?;
    Ok(())
}

// The documents of the cursor's collection that its selector holds of.
fn matching_in<'a>(
    alloc: Global,
    cursor: &Cursor,
    contents: &'a Contents,
) -> Result<Vec<Match<'a>>, Mem>
    ensures { IfOk result (λ docs. documents_in docs.items ≡ matching cursor.now contents.now) }
{
    let mut docs = Vec::new(alloc);
    for (key, doc) in contents.of_collection(&cursor.collection)? {
        if holds(&cursor.selector, &key.id, doc) {
            push_match(&mut docs, &key.id, doc)?;
        }
    }
    Ok(docs)
}

// The document with this id, if there is one and the selector holds of it.
fn matching_named<'a>(
    alloc: Global,
    cursor: &Cursor,
    id: &'a Text,
    contents: &'a Contents,
) -> Result<Vec<Match<'a>>, Mem>
    ensures { IfOk result (λ docs. documents_in docs.items ≡ if_held cursor.now id.now (at key_cmp contents.now (key_of cursor.now.collection id.now))) }
{
    let key = Key::of(&cursor.collection, id)?;
    let mut docs = Vec::new(alloc);
    if let Some(doc) = contents.get(&key) {
        if holds(&cursor.selector, id, doc) {
            push_match(&mut docs, id, doc)?;
        }
    }
    Ok(docs)
}

// The documents that the cursor's selector holds of, by id.
fn matching<'a>(
    alloc: Global,
    cursor: &'a Cursor,
    contents: &'a Contents,
) -> Result<Vec<Match<'a>>, Mem>
    ensures { IfOk result (λ docs. documents_in docs.items ≡ matching cursor.now contents.now) }
{
    contents.known();
    match cursor.selector.named_id() {
        None => matching_in(alloc, cursor, contents),
        Some(id) => matching_named(alloc, cursor, id, contents),
    }
}

fn compare(sort: &SortKeys, a: &Match<'_>, b: &Match<'_>) -> Ordering
    ensures { result ≡ id_doc_cmp sort.now a.now.id.now a.now.doc.now b.now.id.now b.now.doc.now }
{
    if before(sort, a.id, a.doc, b.id, b.doc) {
        Ordering::Less
    } else if before(sort, b.id, b.doc, a.id, a.doc) {
        Ordering::Greater
    } else {
        Ordering::Equal
    }
}

fn in_order<'a>(
    alloc: Global,
    cursor: &'a Cursor,
    contents: &'a Contents,
) -> Result<Vec<Match<'a>>, Mem>
    ensures { IfOk result (λ docs. IsChoice cursor.now contents.now (documents_in docs.items)) }
{
    let mut docs = matching(alloc, cursor, contents)?;
    docs.sort_by(|a, b| compare(&cursor.sort, a, b))?;
    Ok(docs)
}

/// The documents that the cursor's selector holds of, in its order; none where there is no limit, for
/// then all are shown.
pub(crate) fn choice<'a>(
    alloc: Global,
    cursor: &'a Cursor,
    contents: &'a Contents,
) -> Result<Vec<Match<'a>>, Mem>
    ensures { IfOk result (λ docs. IsChoice cursor.now contents.now (documents_in docs.items)) }
{
    match cursor.limit {
        None => Ok(Vec::new(alloc)),
        Some(_) => in_order(alloc, cursor, contents),
    }
}

// How many of the documents, which are in order, stand before this one.
fn rank(cursor: &Cursor, docs: &[Match<'_>], id: &Text, doc: &Doc) -> usize
    requires { IsInOrder cursor.now.sort (documents_in docs.now) }
    ensures { result ≡ rank cursor.now (documents_in docs.now) id.now doc.now }
{
    docs.partition_point(|other| before(&cursor.sort, other.id, other.doc, id, doc))
}

/// Whether fewer of the documents, which are in order, stand before this one than the limit.
pub(crate) fn is_within(cursor: &Cursor, docs: &[Match<'_>], id: &Text, doc: &Doc) -> bool
    requires { IsInOrder cursor.now.sort (documents_in docs.now) }
    ensures { result ≡ is_within cursor.now.limit (rank cursor.now (documents_in docs.now) id.now doc.now) }
{
    match cursor.limit {
        None => true,
        Some(limit) => rank(cursor, docs, id, doc) < limit as usize,
    }
}
