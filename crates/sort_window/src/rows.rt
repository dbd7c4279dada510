//! Rows of a window, and news of them.
ghost use Rattle.std.specs.Prelude.{◌≡◌, ◌==◌, [], length, Some, IfOk, OnOk, OnErr};
ghost use Rattle.std.specs.Option.{option_copied};
ghost use Rattle.map_model.specs.Maps.{at, set, IsSorted};
ghost use Rattle.value_model.specs.Order.{text_cmp};

use ejson_value::{Copied, Doc, ListOf, Mem, Text};
use std::alloc::Global;
use std::collections::BTreeMap;
use std::collections::btree_map::Iter;
use std::marker::Model;

/// A document that matches: whole, and as its readers see it.
#[derive(Drop)]
pub struct Row {
    pub whole: Doc,
    pub projected: Doc,
}

/// What readers see at an id now: a document, or none.
#[derive(Drop)]
pub struct Shown {
    pub id: Text,
    pub doc: Option<Doc>,
}

/// What there is at some ids now: a document that matches, or none. Contracts see the pairs of an id
/// and what there is, by rising id.
#[derive(Drop)]
pub struct Rows {
    by_id: BTreeMap<Text, Option<Row>>,
}

impl Model for Rows {
    ghost use Rattle.sort_window.specs.Shown.{NewsMap};
    ghost use Rattle.sort_window.specs.Coding.{news_code};

    ghost Value = { NewsMap };

    ghost coded = { news_code };

    ghost view = { λ a. a.by_id.entries };
}

/// What readers see now, by id.
pub type ShownList = ListOf<Shown>;

impl Rows {
    /// News of no id.
    pub fn new(alloc: Global) -> Rows
        ensures { result ≡ [] }
    {
        Rows {
            by_id: BTreeMap::new(alloc),
        }
    }

    /// Puts what there is at this id, in place of what was put there before.
    pub fn push(&mut self, id: Text, row: Option<Row>) -> Result<(), Mem>
        ensures ok { OnOk result (self.new ≡ set text_cmp self.old id (Some row)) }
        ensures err { OnErr result (self.new ≡ self.old) }
    {
        drop(self.by_id.insert(id, row)?);
        Ok(())
    }

    /// Of how many ids there is news.
    pub fn len(&self) -> usize
        ensures { result ≡ length self.now }
    {
        self.by_id.len()
    }

    /// Whether there is none.
    pub fn is_empty(&self) -> bool
        ensures { result ≡ (length self.now == 0) }
    {
        self.by_id.is_empty()
    }

    /// What there is at this id, if there is news of it.
    pub fn get(&self, id: &Text) -> Option<&Option<Row>>
        ensures { option_copied result ≡ at text_cmp self.now id.now }
    {
        self.by_id.get(id)
    }

    /// The news, by rising id.
    pub fn iter(&self) -> Iter<'_, Text, Option<Row>>
        ensures all { result ≡ self.now }
        ensures ordered { IsSorted text_cmp self.now }
    {
        self.by_id.iter()
    }
}

impl Row {
    /// A row equal to this one.
    pub fn copy(&self) -> Result<Row, Mem>
        ensures { IfOk result (λ row. row ≡ self.now) }
    {
        let whole = self.whole.copy()?;
        Ok(Row {
            whole,
            projected: self.projected.copy()?,
        })
    }
}

impl Copied for Row {
    fn copied(&self) -> Result<Row, Mem> {
        self.copy()
    }
}
