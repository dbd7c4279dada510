//! The fields of a document in a map by name: an edit takes the logarithm of their number.
ghost use Rattle.std.specs.Prelude.{◌≡◌, [], length, Some, IsSome, option_map, IfSome, IfNone, IfOk, OnOk, OnErr};
ghost use Rattle.std.specs.List.Sorted.{IsStrictlySortedBy};
ghost use Rattle.std.specs.Map.{keys_of};
ghost use Rattle.value_model.specs.Order.{text_cmp};
ghost use Rattle.value_model.specs.Doc.{get, put, remove};
ghost use Rattle.value_model.specs.Valid.{IsDocument};
ghost use Rattle.ejson_value.specs.View.{view, entries};

use crate::copying::copy;
use crate::memory::Mem;
use crate::row::{Member, Row};
use crate::text::Text;
use crate::value::Value;
use std::collections::BTreeMap;
use std::collections::btree_map::Iter;
use std::default::Emptied;
use std::marker::Model;
use std::mem;

// Fields by name. A contract sees their pairs by rising name.
#[derive(Drop)]
#[cycle(value)]
pub(crate) struct Table {
    fields: BTreeMap<Text, Value>,
}

impl Model for Table {
    ghost use Rattle.std.specs.Prelude.{◌+◌, ◌*◌};
    ghost use Rattle.std.proofs.Common.{arith};
    ghost use Rattle.value_model.specs.Val.{Entries, fields_of};
    ghost use Rattle.value_model.specs.Coding.{entries_code};

    ghost Value = { Entries };

    ghost coded = { entries_code };

    ghost use Rattle.value_model.specs.Depth.{fields_depth};
    ghost use Rattle.value_model.specs.Valid.{IsDocument};
    ghost use Rattle.ejson_value.specs.View.{entries};

    ghost view = { λ a. entries a.fields.entries };

    ghost invariant = { λ a. IsDocument (entries a.fields.entries) };

    ghost size = { λ es. 3 * fields_depth (fields_of es) + 1 };

    ghost use Rattle.ejson_value.specs.Falls.{most_le-table};

    ghost size_decreases = { λ a h. Prim.omega (arith, most_le-table a.fields) };
}

impl Table {
    // A table with the fields of the row, each moved once. Where memory is refused they stay in the row.
    pub(crate) fn of(row: &mut Row) -> Result<Table, Mem>
        ensures ok { IfOk result (λ table. table ≡ row.old) }
        ensures err { OnErr result (row.new ≡ row.old) }
    {
        row.known();
        Ok(Table {
            fields: row.moved()?,
        })
    }

    // An empty table of the same allocator.
    fn emptied(&self) -> Result<Table, Mem>
        ensures { IfOk result (λ table. table ≡ []) }
    {
        Ok(Table {
            fields: BTreeMap::emptied(&self.fields)?,
        })
    }

    // Puts copies of the name and of the value.
    fn put_copy(&mut self, name: &Text, value: &Value) -> Result<(), Mem>
        ensures { OnOk result (self.new ≡ put self.old name.now (view value.now)) }
    {
        let name = name.copy()?;
        drop(self.put(name, copy(value)?)?);
        Ok(())
    }

    // A table equal to this one.
    pub(crate) fn copied(&self) -> Result<Table, Mem>
        ensures { IfOk result (λ table. table ≡ self.now) }
    {
        let mut copies = self.emptied()?;
        for (name, value) in self.iter() {
            copies.put_copy(name, value)?;
        }
        Ok(copies)
    }

    // A table equal to this one but for the field of this name.
    pub(crate) fn without(&self, name: &Text) -> Result<Table, Mem>
        ensures { IfOk result (λ table. table ≡ remove self.now name.now) }
    {
        let mut copies = self.copied()?;
        drop(copies.remove(name));
        Ok(copies)
    }

    // How many fields it has.
    pub(crate) fn len(&self) -> usize
        ensures { result ≡ length self.now }
    {
        self.fields.len()
    }

    // The value of the field of this name.
    pub(crate) fn get(&self, name: &Text) -> Option<&Value>
        ensures { option_map (λ v. view v.now) result ≡ get self.now name.now }
    {
        self.fields.get(name)
    }

    // Puts the value as the field of this name, and hands out the one that was there.
    pub(crate) fn put(&mut self, name: Text, value: Value) -> Result<Option<Value>, Mem>
        ensures value { IfOk result (λ there. option_map view there ≡ get self.old name) }
        ensures ok { OnOk result (self.new ≡ put self.old name (view value)) }
        ensures err { OnErr result (self.new ≡ self.old) }
    {
        value.known();
        Ok(self.fields.insert(name, value)?)
    }

    // Puts the field in place of that of the same name, which is there, and hands out its value.
    pub(crate) fn replace(&mut self, member: Member) -> Value
        requires { IsSome (get self.old member.name) }
        ensures value { Some (view result) ≡ get self.old member.name }
        ensures put { self.new ≡ put self.old member.name (view member.value) }
    {
        let Member { name, value } = member;
        value.known();
        match self.fields.get_mut(&name) {
            Some(place) => mem::replace(place, value),
            None => value,
        }
    }

    // Puts the value in place of that of the field of this name, where there is one, and hands that out.
    pub(crate) fn swap(&mut self, name: &Text, value: Value) -> Option<Value>
        ensures value { IfSome result (λ there. Some (view there) ≡ get self.old name.now) }
        ensures put { IfSome result (λ there. self.new ≡ put self.old name.now (view value)) }
        ensures other { IfNone result (self.new ≡ self.old) }
    {
        value.known();
        let Some(place) = self.fields.get_mut(name) else {
            return None;
        };
        Some(mem::replace(place, value))
    }

    // Takes the field of this name out.
    pub(crate) fn remove(&mut self, name: &Text) -> Option<Value>
        ensures value { option_map view result ≡ get self.old name.now }
        ensures removed { self.new ≡ remove self.old name.now }
    {
        self.fields.remove(name)
    }

    // The fields in order.
    pub(crate) fn iter(&self) -> Iter<'_, Text, Value>
        ensures all { entries result ≡ self.now }
        ensures ordered { IsStrictlySortedBy text_cmp (keys_of result) }
    {
        self.fields.iter()
    }

    // Tells a proof what the table keeps; it does nothing.
    pub(crate) fn known(&self)
        ensures { IsDocument self.now }
    {
        let _ = &self.fields;
    }
}
