//! The fields of a document, in a row or a table, with how many bytes they have.
ghost use Rattle.std.specs.Prelude.{◌≡◌, ◌==◌, ◌+◌, ◌-◌, ◌≤◌, ◌<◌, ◌^◌, [], true, false, length, Some, IsSome, is_some, option_map, IfSome, IfNone};
ghost use Rattle.std.specs.Prelude.{IfOk, OnOk, OnErr};
ghost use Rattle.std.specs.List.{list_all};
ghost use Rattle.std.specs.List.Sorted.{IsStrictlySortedBy};
ghost use Rattle.std.specs.Map.{keys_of};
ghost use Rattle.map_model.specs.Differences.{with_fields};
ghost use Rattle.value_model.specs.Val.{fields_of};
ghost use Rattle.value_model.specs.Valid.{IsDocument};
ghost use Rattle.value_model.specs.Order.{text_cmp};
ghost use Rattle.value_model.specs.Doc.{get, put, remove};
ghost use Rattle.value_model.specs.Size.{text_size, size, fields_size};
ghost use Rattle.ejson_value.specs.View.{view, pairs, entries, held_fields};
ghost use Rattle.ejson_value.specs.Measure.{capped};

use crate::measure::{field_size, members_size, size, with_name};
use crate::memory::Mem;
use crate::row::{Member, Row};
use crate::table::Table;
use crate::text::Text;
use crate::value::Value;
use std::alloc::Global;
use std::collections::btree_map;
use std::iter::Iterator;
use std::marker::Model;
use std::slice;

// The most fields that stand in a row.
const MAX_ROW: usize = 64;

// In place of a number of bytes that isn't known.
const UNKNOWN: u64 = u64::MAX;

// The fields of a document: a row while they are few, for good a table once there were more.
#[derive(Drop)]
#[cycle(value)]
pub(crate) enum Members {
    Few(Row),
    Many(Table),
}

// The fields of a document and how many bytes they have as EJSON, each with its colon and a comma, 2^64 - 1 where that
// isn't known: they were never counted, or have more. A contract sees the fields.
#[derive(Drop)]
#[cycle(value)]
pub(crate) struct Measured {
    members: Members,
    bytes: u64,
}

/// The fields of a document by rising name, one after another. A contract sees those that are left.
#[derive(Drop)]
pub struct Fields<'a> {
    walk: Walk<'a>,
}

#[derive(Drop)]
enum Walk<'a> {
    None,
    Few(slice::Iter<'a, Member>),
    Many(btree_map::Iter<'a, Text, Value>),
}

impl Model for Measured {
    ghost use Rattle.std.specs.Prelude.{◌≡◌, ◌+◌, ◌*◌};
    ghost use Rattle.std.proofs.Common.{arith};
    ghost use Rattle.value_model.specs.Val.{Entries, fields_of};
    ghost use Rattle.value_model.specs.Coding.{entries_code};

    ghost Value = { Entries };

    ghost coded = { entries_code };

    ghost use Rattle.value_model.specs.Depth.{fields_depth};
    ghost use Rattle.value_model.specs.Size.{fields_size};
    ghost use Rattle.ejson_value.specs.Measure.{Counts};
    ghost use Rattle.ejson_value.specs.View.{held_fields};

    ghost view = { λ a. held_fields a.members };

    ghost invariant = { λ a. Counts a.bytes (fields_size (fields_of (held_fields a.members))) };

    ghost size = { λ es. 3 * fields_depth (fields_of es) + 2 };

    ghost use Rattle.ejson_value.specs.Falls.{members_le};

    ghost size_decreases = { λ a h. Prim.omega (arith, members_le a.members) };
}

impl<'a> Model for Fields<'a> {
    ghost use Rattle.ejson_value.specs.Code.{Pairs, pairs_code};

    ghost Value = { Pairs };

    ghost coded = { pairs_code };

    ghost use Rattle.ejson_value.specs.View.{left};

    ghost view = { λ a. left a.walk };
}

impl<'a> Iterator for Fields<'a> {
    type Item = (&'a Text, &'a Value);

    ghost use Rattle.std.specs.Prelude.{length};
    ghost use Rattle.std.specs.Iterator.{at_most};
    ghost use Rattle.std.specs.Map.Iter.{TakesFirst, deref_pair};

    ghost next_gives = { TakesFirst deref_pair };

    ghost remaining = { λ s. at_most (length s) };

    fn next(&mut self) -> Option<(&'a Text, &'a Value)> {
        match &mut self.walk {
            Walk::None => None,
            Walk::Few(members) => {
                let member = members.next()?;
                Some((&member.name, &member.value))
            }
            Walk::Many(fields) => fields.next(),
        }
    }
}

impl<'a> Fields<'a> {
    // No fields.
    pub(crate) fn none() -> Fields<'a>
        ensures { result ≡ [] }
    {
        Fields { walk: Walk::None }
    }
}

impl Members {
    fn len(&self) -> usize
        ensures { result ≡ length (held_fields self.now) }
    {
        match self {
            Members::Few(row) => row.len(),
            Members::Many(table) => table.len(),
        }
    }

    fn get(&self, name: &Text) -> Option<&Value>
        ensures { option_map (λ v. view v.now) result ≡ get (held_fields self.now) name.now }
    {
        match self {
            Members::Few(row) => row.get(name),
            Members::Many(table) => table.get(name),
        }
    }

    fn iter(&self) -> Fields<'_>
        ensures all { entries result ≡ held_fields self.now }
        ensures ordered { IsStrictlySortedBy text_cmp (keys_of result) }
    {
        Fields {
            walk: match self {
                Members::Few(row) => Walk::Few(row.iter()),
                Members::Many(table) => Walk::Many(table.iter()),
            },
        }
    }

    // Whether the fields stand in a row that is full and lacks this one.
    fn has_full_row(&self, name: &Text) -> bool {
        match self {
            Members::Few(row) => row.len() >= MAX_ROW && row.place(name).is_err(),
            Members::Many(_) => false,
        }
    }

    // Moves the fields from a row into a table.
    fn make_table(&mut self) -> Result<(), Mem>
        ensures { held_fields self.new ≡ held_fields self.old }
    {
        if let Members::Few(row) = self {
            let table = Table::of(row)?;
            *self = Members::Many(table);
        }
        Ok(())
    }

    // Puts the value as the field of this name, and hands out the one that was there.
    fn put(&mut self, name: Text, value: Value) -> Result<Option<Value>, Mem>
        ensures value { IfOk result (λ there. option_map view there ≡ get (held_fields self.old) name) }
        ensures ok { OnOk result (held_fields self.new ≡ put (held_fields self.old) name (view value)) }
        ensures err { OnErr result (held_fields self.new ≡ held_fields self.old) }
    {
        if self.has_full_row(&name) {
            self.make_table()?;
        }
        match self {
            Members::Few(row) => row.put(name, value),
            Members::Many(table) => table.put(name, value),
        }
    }

    // Puts the value as the field of this name. Behind all others of a row it is put at once.
    fn add(&mut self, name: Text, value: Value) -> Result<(), Mem>
        ensures ok { OnOk result (held_fields self.new ≡ put (held_fields self.old) name (view value)) }
        ensures err { OnErr result (held_fields self.new ≡ held_fields self.old) }
    {
        if let Members::Few(row) = self {
            if row.is_next(&name, MAX_ROW) {
                return row.push(Member { name, value });
            }
        }
        drop(self.put(name, value)?);
        Ok(())
    }

    // Puts the field in place of that of the same name, which is there, and hands out its value.
    fn replace(&mut self, member: Member) -> Value
        requires { IsSome (get (held_fields self.old) member.name) }
        ensures value { Some (view result) ≡ get (held_fields self.old) member.name }
        ensures put { held_fields self.new ≡ put (held_fields self.old) member.name (view member.value) }
    {
        match self {
            Members::Few(row) => row.replace(member),
            Members::Many(table) => table.replace(member),
        }
    }

    // Puts the value in place of that of the field of this name, where there is one, and hands that out.
    fn swap(&mut self, name: &Text, value: Value) -> Option<Value>
        ensures value { IfSome result (λ there. Some (view there) ≡ get (held_fields self.old) name.now) }
        ensures put { IfSome result (λ there. held_fields self.new ≡ put (held_fields self.old) name.now (view value)) }
        ensures other { IfNone result (held_fields self.new ≡ held_fields self.old) }
    {
        match self {
            Members::Few(row) => row.swap(name, value),
            Members::Many(table) => table.swap(name, value),
        }
    }

    fn remove(&mut self, name: &Text) -> Option<Value>
        ensures value { option_map view result ≡ get (held_fields self.old) name.now }
        ensures removed { held_fields self.new ≡ remove (held_fields self.old) name.now }
    {
        match self {
            Members::Few(row) => row.remove(name),
            Members::Many(table) => table.remove(name),
        }
    }

    fn known(&self)
        ensures { IsDocument (held_fields self.now) }
    {
        match self {
            Members::Few(row) => row.known(),
            Members::Many(table) => table.known(),
        }
    }

    // Copies of the fields, of the same kind. A row has room for so many more.
    fn copies(&self, more: usize) -> Result<Members, Mem>
        ensures { IfOk result (λ copies. held_fields copies ≡ held_fields self.now) }
    {
        match self {
            Members::Few(row) => Ok(Members::Few(row.copied(more)?)),
            Members::Many(table) => Ok(Members::Many(table.copied()?)),
        }
    }

    // Copies of the fields but for that of this name. A row has room for just these.
    fn without(&self, name: &Text) -> Result<Members, Mem>
        ensures { IfOk result (λ copies. held_fields copies ≡ remove (held_fields self.now) name.now) }
    {
        match self {
            Members::Few(row) => Ok(Members::Few(row.without(name)?)),
            Members::Many(table) => Ok(Members::Many(table.without(name)?)),
        }
    }

    // The fields where they stand in a row.
    fn row(&self) -> Option<&[Member]>
        ensures { IfSome result (λ members. entries (pairs members.now) ≡ held_fields self.now) }
    {
        match self {
            Members::Few(row) => Some(row.as_slice()),
            Members::Many(_) => None,
        }
    }

    // Gives back the room that no field takes.
    fn shrink(&mut self)
        ensures { held_fields self.new ≡ held_fields self.old }
    {
        match self {
            Members::Few(row) => row.shrink(),
            Members::Many(_) => {}
        }
    }

    // How many bytes the fields have, counted one by one.
    #[cycle(measuring)]
    fn counted(&self) -> u64
        ensures { result ≡ capped (fields_size (fields_of (held_fields self.now))) }
    {
        match self.row() {
            Some(members) => members_size(members),
            None => self.table_size(),
        }
    }

    // The same of any fields.
    #[cycle(measuring)]
    fn table_size(&self) -> u64
        ensures { result ≡ capped (fields_size (fields_of (held_fields self.now))) }
    {
        let mut total = 0u64;
        for (name, value) in self.iter() {
            total = total.saturating_add(field_size(name, value));
        }
        total
    }
}

// Whether there was a value, which goes.
fn is_there(value: Option<Value>) -> bool
    ensures { result ≡ is_some value }
{
    value.is_some()
}

// How many bytes the value has, which goes.
fn gone(value: Value) -> u64
    ensures { result ≡ capped (size (view value)) }
{
    size(&value)
}

// How many bytes there are, of so many of which some went and others came, 2^64 - 1 where there are more.
fn bytes_after(before: u64, gone: u64, come: u64) -> u64
    requires { gone ≤ before }
    ensures { result ≡ capped (before - gone + come) }
{
    (before - gone).saturating_add(come)
}

// How many bytes are left of so many where this field goes, which has no more, and that isn't known where it wasn't.
fn bytes_without(bytes: u64, name: &Text, value: &Value) -> u64
    requires { bytes < 2 ^ 64 - 1 → 2 + text_size name.now + size (view value.now) ≤ bytes }
    ensures unknown { result < 2 ^ 64 - 1 → bytes < 2 ^ 64 - 1 }
    ensures left { bytes < 2 ^ 64 - 1 → result + (2 + text_size name.now + size (view value.now)) ≡ bytes }
{
    if bytes == UNKNOWN {
        UNKNOWN
    } else {
        bytes - field_size(name, value)
    }
}

impl Measured {
    // No fields. Those that come aren't counted.
    pub(crate) fn new(alloc: Global) -> Measured
        ensures { result ≡ [] }
    {
        Measured {
            members: Members::Few(Row::new(alloc)),
            bytes: UNKNOWN,
        }
    }

    pub(crate) fn len(&self) -> usize
        ensures { result ≡ length self.now }
    {
        self.members.len()
    }

    pub(crate) fn get(&self, name: &Text) -> Option<&Value>
        ensures { option_map (λ v. view v.now) result ≡ get self.now name.now }
    {
        self.members.get(name)
    }

    pub(crate) fn iter(&self) -> Fields<'_>
        ensures all { entries result ≡ self.now }
        ensures ordered { IsStrictlySortedBy text_cmp (keys_of result) }
    {
        self.members.iter()
    }

    // How many bytes the fields have, counted where that isn't known.
    #[cycle(measuring)]
    pub(crate) fn bytes(&self) -> u64
        ensures { result ≡ capped (fields_size (fields_of self.now)) }
    {
        if self.bytes == UNKNOWN {
            self.members.counted()
        } else {
            self.bytes
        }
    }

    // Counts the fields, where that isn't known, and gives back the room that none of them takes.
    pub(crate) fn count(&mut self)
        ensures { self.new ≡ self.old }
    {
        self.bytes = self.bytes();
        self.members.shrink();
    }

    // The fields where they stand in a row.
    pub(crate) fn row(&self) -> Option<&[Member]>
        ensures { IfSome result (λ members. entries (pairs members.now) ≡ self.now) }
    {
        self.members.row()
    }

    // Whether it is known how many bytes the fields have.
    pub(crate) fn is_counted(&self) -> bool {
        self.bytes != UNKNOWN
    }

    pub(crate) fn is_empty(&self) -> bool
        ensures { result ≡ (length self.now == 0) }
    {
        self.members.len() == 0
    }

    // Puts the value as the field of this name. Behind all others of a row it is put at once.
    pub(crate) fn add(&mut self, name: Text, value: Value) -> Result<(), Mem>
        ensures ok { OnOk result (self.new ≡ put self.old name (view value)) }
        ensures err { OnErr result (self.new ≡ self.old) }
    {
        if self.bytes == UNKNOWN {
            self.members.add(name, value)
        } else {
            self.put(name, value)
        }
    }

    pub(crate) fn put(&mut self, name: Text, value: Value) -> Result<(), Mem>
        ensures ok { OnOk result (self.new ≡ put self.old name (view value)) }
        ensures err { OnErr result (self.new ≡ self.old) }
    {
        if self.bytes == UNKNOWN {
            drop(self.members.put(name, value)?);
            return Ok(());
        }
        self.members.known();
        let come = size(&value);
        let added = with_name(&name, come);
        let there = self.members.put(name, value)?;
        match there {
            None => {
                self.bytes = self.bytes.saturating_add(added);
                Ok(())
            }
            Some(there) => {
                self.bytes = bytes_after(self.bytes, gone(there), come);
                Ok(())
            }
        }
    }

    // Puts the field in place of that of the same name, which is there.
    fn replace(&mut self, member: Member)
        requires { IsSome (get self.old member.name) }
        ensures { self.new ≡ put self.old member.name (view member.value) }
    {
        if self.bytes == UNKNOWN {
            drop(self.members.replace(member));
            return;
        }
        self.members.known();
        let come = size(&member.value);
        let there = self.members.replace(member);
        self.bytes = bytes_after(self.bytes, gone(there), come);
    }

    // Puts the value in place of that of the field of this name, where there is one, and says whether there is.
    pub(crate) fn swap(&mut self, name: &Text, value: Value) -> bool
        ensures put { result ≡ true → self.new ≡ put self.old name.now (view value) }
        ensures other { result ≡ false → self.new ≡ self.old }
    {
        if self.bytes == UNKNOWN {
            return is_there(self.members.swap(name, value));
        }
        self.members.known();
        let come = size(&value);
        match self.members.swap(name, value) {
            None => false,
            Some(there) => {
                self.bytes = bytes_after(self.bytes, gone(there), come);
                true
            }
        }
    }

    // Whether there is a field of this name.
    fn has(&self, name: &Text) -> bool
        ensures { result ≡ is_some (get self.now name.now) }
    {
        self.get(name).is_some()
    }

    // Whether there are fields of all these names.
    fn has_all(&self, members: &[Member]) -> bool
        ensures { result ≡ list_all (λ m. is_some (get self.now m.name)) members.now }
    {
        members.iter().all(|member| self.has(&member.name))
    }

    // Puts the fields in place of those of the same names, where there are such ones of all, and says whether it did.
    pub(crate) fn replace_all(&mut self, mut members: Vec<Member>) -> bool
        ensures put { result ≡ true → self.new ≡ with_fields text_cmp self.old (entries (pairs members.items)) }
        ensures other { result ≡ false → self.new ≡ self.old }
    {
        if !self.has_all(members.as_slice()) {
            return false;
        }
        while let Some(member) = members.pop() {
            self.replace(member);
        }
        true
    }

    pub(crate) fn remove(&mut self, name: &Text) -> Option<Value>
        ensures value { option_map view result ≡ get self.old name.now }
        ensures removed { self.new ≡ remove self.old name.now }
    {
        match self.members.remove(name) {
            None => None,
            Some(value) => {
                self.bytes = bytes_without(self.bytes, name, &value);
                Some(value)
            }
        }
    }

    pub(crate) fn known(&self)
        ensures { IsDocument self.now }
    {
        self.members.known()
    }

    // Copies of the fields, which are counted. A row has room for so many more.
    pub(crate) fn copies(&self, more: usize) -> Result<Measured, Mem>
        ensures { IfOk result (λ copies. copies ≡ self.now) }
    {
        Ok(Measured {
            members: self.members.copies(more)?,
            bytes: self.bytes(),
        })
    }

    // Copies of the fields but for this one, which are counted. A row has room for just these.
    pub(crate) fn without(&self, name: &Text, value: &Value) -> Result<Measured, Mem>
        requires { get self.now name.now ≡ Some (view value.now) }
        ensures { IfOk result (λ copies. copies ≡ remove self.now name.now) }
    {
        Ok(Measured {
            members: self.members.without(name)?,
            bytes: bytes_without(self.bytes(), name, value),
        })
    }
}
