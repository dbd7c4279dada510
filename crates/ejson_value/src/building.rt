//! Documents and lists while they are built: each has memory of its own, which is shared only once it is finished.
ghost use Rattle.std.specs.Prelude.{◌≡◌, ◌∷◌, ◌++◌, [], IfOk, OnOk, OnErr};
ghost use Rattle.value_model.specs.Doc.{put};
ghost use Rattle.ejson_value.specs.View.{view};

use crate::members::Measured;
use crate::memory::Mem;
use crate::text::Text;
use crate::value::{Doc, Items, Value, put_behind};
use std::alloc::Global;
use std::marker::Model;

/// A document that is being built. Its bytes aren't counted. A contract sees its fields by rising name.
#[derive(Drop)]
pub struct DocBuilder {
    alloc: Global,
    fields: Measured,
}

/// A list of values that is being built. A contract sees it as the list of its values.
#[derive(Drop)]
pub struct ItemsBuilder {
    alloc: Global,
    items: Vec<Value>,
}

impl Model for DocBuilder {
    ghost use Rattle.value_model.specs.Val.{Entries};
    ghost use Rattle.value_model.specs.Coding.{entries_code};

    ghost Value = { Entries };

    ghost coded = { entries_code };

    ghost view = { λ a. a.fields };
}

impl Model for ItemsBuilder {
    ghost use Rattle.std.specs.Prelude.{List};
    ghost use Rattle.std.specs.Coded.{coded_list};
    ghost use Rattle.value_model.specs.Val.{Val, vals_of};
    ghost use Rattle.value_model.specs.Coding.{val_code};

    ghost Value = { List Val };

    ghost coded = { coded_list val_code };

    ghost use Rattle.value_model.specs.Valid.{AreValues};
    ghost use Rattle.ejson_value.specs.View.{views};

    ghost view = { λ a. views a.items.items };

    ghost invariant = { λ a. AreValues (vals_of (views a.items.items)) };
}

impl DocBuilder {
    /// No fields.
    pub fn new(alloc: Global) -> DocBuilder
        ensures { result ≡ [] }
    {
        DocBuilder {
            alloc,
            fields: Measured::new(alloc),
        }
    }

    /// Puts the value as the field of this name, in place of one that is there. A name behind all others is not searched
    /// for.
    pub fn put(&mut self, name: Text, value: Value) -> Result<(), Mem>
        ensures ok { OnOk result (self.new ≡ put self.old name (view value)) }
        ensures err { OnErr result (self.new ≡ self.old) }
    {
        self.fields.add(name, value)
    }

    /// The document.
    pub fn finish(self) -> Result<Doc, Mem>
        ensures { IfOk result (λ doc. doc ≡ self) }
    {
        let DocBuilder { alloc, fields } = self;
        if fields.is_empty() {
            return Ok(Doc::new(alloc));
        }
        Doc::of(alloc, fields)
    }
}

impl ItemsBuilder {
    /// No values.
    pub fn new(alloc: Global) -> ItemsBuilder
        ensures { result ≡ [] }
    {
        ItemsBuilder {
            alloc,
            items: Vec::new(alloc),
        }
    }

    /// Puts the value behind the others.
    pub fn push(&mut self, value: Value) -> Result<(), Mem>
        ensures ok { OnOk result (self.new ≡ self.old ++ view value ∷ []) }
        ensures err { OnErr result (self.new ≡ self.old) }
    {
        value.known();
        put_behind(&mut self.items, value)
    }

    /// The list.
    pub fn finish(self) -> Result<Items, Mem>
        ensures { IfOk result (λ items. items ≡ self) }
    {
        let ItemsBuilder { alloc, items } = self;
        Items::of(alloc, items)
    }
}
