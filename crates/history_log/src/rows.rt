//! The documents of a store, one after another, and their lines.
ghost use Rattle.std.specs.Prelude.{◌≡◌, IfOk};
ghost use Rattle.history_log.specs.Rows.{pairs_in, document_lines};

use crate::doc_line;
use ejson_value::{Contents, Doc, Key, Mem, Text};
use std::alloc::Global;

/// A document of a store, with its key.
#[derive(Clone, Copy)]
pub struct Row<'a> {
    pub key: &'a Key,
    pub doc: &'a Doc,
}

/// The documents in their order.
pub fn rows_of<'a>(alloc: Global, contents: &'a Contents) -> Result<Vec<Row<'a>>, Mem>
    ensures { IfOk result (λ rows. pairs_in rows.items ≡ contents.now) }
{
    let mut rows = Vec::with_capacity(alloc, contents.len())?;
    for (key, doc) in contents.iter() {
        rows.push(Row { key, doc })?;
    }
    Ok(rows)
}

/// A line for each of these documents.
pub fn document_lines(alloc: Global, rows: &[Row<'_>]) -> Result<Vec<Text>, Mem>
    ensures { IfOk result (λ lines. lines.items ≡ document_lines (pairs_in rows.now)) }
{
    let mut room = Vec::new(alloc);
    let mut lines = Vec::with_capacity(alloc, rows.len())?;
    for row in rows {
        lines.push(doc_line(alloc, &mut room, row.key, row.doc)?)?;
    }
    Ok(lines)
}
