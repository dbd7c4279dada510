//! Cursors in memory.
ghost use Rattle.std.specs.Prelude.{◌≡◌, ◌==◌, is_some, length, slice_get, IfOk};
ghost use Rattle.std.specs.List.{list_any};
ghost use Rattle.std.specs.Option.{option_copied};
ghost use Rattle.publication.specs.Cursors.{HaveDistinctNames};

use app_model::Projection;
use ejson_value::{Mem, SortKeys, Text};
use selector_match::Selector;
use std::marker::Model;

/// One cursor: the documents of a collection that a selector holds of.
#[derive(Drop)]
pub struct Cursor {
    pub collection: Text,
    /// The name under which a client gets the documents.
    pub name: Text,
    pub selector: Selector,
    pub fields: Projection,
    /// The keys by which the documents are sorted for the limit; none where there is no `sort`.
    pub sort: SortKeys,
    /// At most so many of them are published: the first ones by the keys and then by id.
    pub limit: Option<u32>,
}

/// Cursors with different published names. A contract sees the list of them.
#[derive(Drop)]
pub struct Cursors {
    pub(crate) cursors: Vec<Cursor>,
}

impl Model for Cursors {
    ghost use Rattle.std.specs.Coded.{codes};
    ghost use Rattle.value_model.specs.Coding.{val_code};
    ghost use Rattle.selector_match.specs.Coding.{query_code};
    ghost use Rattle.publication.specs.Cursors.{ACursors, HaveDistinctNames};

    ghost Value = { ACursors };

    ghost coded = { Prim.hlevel (codes, val_code, query_code) };

    ghost view = { λ a. a.cursors.items };

    ghost invariant = { λ a. HaveDistinctNames a.cursors.items };
}

// Copies of the names of a cursor's collection and of what it publishes.
pub(crate) fn copy_names(collection: &Text, name: &Text) -> Result<(Text, Text), Mem>
    ensures { IfOk result (λ names. names ≡ (collection.now, name.now)) }
{
    Ok((collection.copy()?, name.copy()?))
}

// Copies of a cursor's projection and of its sort keys.
pub(crate) fn copy_shown(
    fields: &Projection,
    sort: &SortKeys,
) -> Result<(Projection, SortKeys), Mem>
    ensures { IfOk result (λ shown. shown ≡ (fields.now, sort.now)) }
{
    Ok((fields.copy()?, sort.copy()?))
}

impl Cursor {
    // The cursor of these parts.
    pub(crate) fn of(
        names: (Text, Text),
        selector: Selector,
        shown: (Projection, SortKeys),
        limit: Option<u32>,
    ) -> Cursor
        ensures { result ≡ record { collection = names.0; name = names.1; selector = selector; fields = shown.0; sort = shown.1; limit = limit } }
    {
        let (collection, name) = names;
        let (fields, sort) = shown;
        Cursor {
            collection,
            name,
            selector,
            fields,
            sort,
            limit,
        }
    }

    /// A cursor equal to this one.
    pub fn copy(&self) -> Result<Cursor, Mem>
        ensures { IfOk result (λ cursor. cursor ≡ self.now) }
    {
        let names = copy_names(&self.collection, &self.name)?;
        let shown = copy_shown(&self.fields, &self.sort)?;
        let selector = self.selector.copy()?;
        Ok(Cursor::of(names, selector, shown, self.limit))
    }
}

impl Cursors {
    /// How many cursors there are.
    pub fn len(&self) -> usize
        ensures { result ≡ length self.now }
    {
        self.cursors.len()
    }

    /// Whether there are none.
    pub fn is_empty(&self) -> bool
        ensures { result ≡ (length self.now == 0) }
    {
        self.cursors.is_empty()
    }

    /// The cursor at this place.
    pub fn get(&self, place: usize) -> Option<&Cursor>
        ensures { option_copied result ≡ slice_get self.now place }
    {
        self.cursors.get(place)
    }

    /// Whether some cursor has a limit.
    pub fn limited(&self) -> bool
        ensures { result ≡ list_any (λ cursor. is_some cursor.limit) self.now }
    {
        self.cursors.iter().any(|cursor| cursor.limit.is_some())
    }

    /// The cursors in order, which have different published names.
    pub fn as_slice(&self) -> &[Cursor]
        ensures same { result.now ≡ self.now }
        ensures names { HaveDistinctNames self.now }
    {
        self.cursors.as_slice()
    }

    /// Cursors equal to these.
    pub fn copy(&self) -> Result<Cursors, Mem>
        ensures { IfOk result (λ cursors. cursors ≡ self.now) }
    {
        let mut cursors = Vec::new(*self.cursors.allocator());
        for cursor in &self.cursors {
            cursors.push(cursor.copy()?)?;
        }
        Ok(Cursors { cursors })
    }
}
