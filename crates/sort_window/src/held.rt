//! Rows with their ids, held by several lists at once.
ghost use Rattle.std.specs.Prelude.{◌≡◌, IfOk};

use crate::rows::Row;
use ejson_value::{Doc, Mem, Text};
use std::alloc::Global;
use std::marker::Model;
use std::sync::Arc;

#[derive(Drop)]
struct Entry {
    id: Text,
    row: Row,
}

/// A row with its id. Several lists hold the same one. A contract sees the id and the row.
#[derive(Drop)]
pub(crate) struct Held {
    inner: Arc<Entry>,
}

impl Model for Held {
    ghost use Rattle.std.specs.Prelude.{List, ℕ};
    ghost use Rattle.std.specs.Arc.{arc_value};
    ghost use Rattle.sort_window.specs.declared.rows.Row.{Row};
    ghost use Rattle.sort_window.specs.Coding.{held_code};

    ghost Value = { List ℕ × Row };

    ghost coded = { held_code };

    ghost view = { λ a. ((arc_value a.inner).id, (arc_value a.inner).row) };
}

impl Held {
    pub(crate) fn new(alloc: Global, id: Text, row: Row) -> Result<Held, Mem>
        ensures { IfOk result (λ held. held ≡ (id, row)) }
    {
        Ok(Held {
            inner: Arc::new(alloc, Entry { id, row })?,
        })
    }

    pub(crate) fn id(&self) -> &Text
        ensures { result.now ≡ self.now.0 }
    {
        &self.inner.id
    }

    pub(crate) fn whole(&self) -> &Doc
        ensures { result.now ≡ self.now.1.whole }
    {
        &self.inner.row.whole
    }

    pub(crate) fn projected(&self) -> &Doc
        ensures { result.now ≡ self.now.1.projected }
    {
        &self.inner.row.projected
    }

    /// The same row, for one more list.
    pub(crate) fn share(&self) -> Result<Held, Mem>
        ensures { IfOk result (λ held. held ≡ self.now) }
    {
        Ok(Held {
            inner: Arc::try_clone(&self.inner)?,
        })
    }
}
