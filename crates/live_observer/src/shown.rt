//! What a cursor publishes of one document.
ghost use Rattle.std.specs.Prelude.{◌≡◌, ◌+◌, ◌≤◌, IfOk};
ghost use Rattle.value_model.specs.Val.{fields_of, entries_of};
ghost use Rattle.publication.specs.Projected.{projected};
ghost use Rattle.live_observer.specs.Observing.{row_of};
ghost use Rattle.live_observer.specs.Noting.{plain, row_at, is_same};

use ejson_value::{Doc, Mem, Text, same_documents};
use publication::{Cursor, Projection, project};
use selector_match::{Steps, matches};
use sort_window::Row;
use std::alloc::Global;
use std::sync::ledger::Ledger;

fn projected(alloc: Global, projection: &Projection, doc: &Doc) -> Result<Doc, Mem>
    ensures { IfOk result (λ es. es ≡ entries_of (projected projection.now (fields_of doc.now))) }
{
    project(alloc, projection, doc)
}

/// What a cursor without a limit publishes of the document with this id, if there is one.
pub(crate) fn plain<L: Ledger>(
    alloc: Global,
    cursor: &Cursor,
    id: &Text,
    doc: &Option<Doc>,
    steps: &mut Steps<L>,
) -> Result<Option<Doc>, Mem>
    ensures value { IfOk result (λ shown. shown ≡ plain cursor.now id.now doc.now) }
    ensures grows { steps.old ≤ steps.new }
    ensures ticks { steps.new ≤ steps.old + 1 }
{
    match doc {
        None => Ok(None),
        Some(doc) => {
            if matches(&cursor.selector, id, doc, steps) {
                Ok(Some(projected(alloc, &cursor.fields, doc)?))
            } else {
                Ok(None)
            }
        }
    }
}

/// The document whole and as the cursor publishes it.
pub(crate) fn row(alloc: Global, cursor: &Cursor, doc: &Doc) -> Result<Row, Mem>
    ensures { IfOk result (λ row. row ≡ row_of cursor.now doc.now) }
{
    let whole = doc.copy()?;
    Ok(Row {
        whole,
        projected: projected(alloc, &cursor.fields, doc)?,
    })
}

/// The document with this id, if there is one and it matches.
pub(crate) fn row_if<L: Ledger>(
    alloc: Global,
    cursor: &Cursor,
    id: &Text,
    doc: &Option<Doc>,
    steps: &mut Steps<L>,
) -> Result<Option<Row>, Mem>
    ensures value { IfOk result (λ row. row ≡ row_at cursor.now id.now doc.now) }
    ensures grows { steps.old ≤ steps.new }
    ensures ticks { steps.new ≤ steps.old + 1 }
{
    match doc {
        None => Ok(None),
        Some(doc) => {
            if matches(&cursor.selector, id, doc, steps) {
                Ok(Some(row(alloc, cursor, doc)?))
            } else {
                Ok(None)
            }
        }
    }
}

/// Whether nothing else is published than before.
pub(crate) fn is_same(before: &Option<Doc>, after: &Option<Doc>) -> bool
    ensures { result ≡ is_same before.now after.now }
{
    match (before, after) {
        (None, None) => true,
        (Some(before), Some(after)) => same_documents(before, after),
        _ => false,
    }
}
