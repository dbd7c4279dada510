//! The fields of a document in a row by rising name. An edit moves those behind its place, so a row has few.
ghost use Rattle.std.specs.Prelude.{◌≡◌, ◌+◌, ◌++◌, ◌≤◌, ◌<◌, ◌∷◌, [], length, Some, IsSome, option_map, vec_len, vec_capacity, IfSome, IfNone, IfOk};
ghost use Rattle.std.specs.Prelude.{IfErr, OnOk, OnErr, IsTrue};
ghost use Rattle.std.specs.List.{remove as remove_item};
ghost use Rattle.std.specs.List.Sorted.{IsStrictlySortedBy, IsSearchInRange};
ghost use Rattle.map_model.specs.Orders.{IsAbove};
ghost use Rattle.ejson_value.specs.Places.{name_at, IsGapFor};
ghost use Rattle.std.specs.Map.{keys_of};
ghost use Rattle.std.specs.Slice.Iter.{iter_rest};
ghost use Rattle.value_model.specs.Order.{text_cmp};
ghost use Rattle.value_model.specs.Doc.{get, put, remove};
ghost use Rattle.value_model.specs.Valid.{IsDocument};
ghost use Rattle.ejson_value.specs.View.{view, pairs, entries};

use crate::copying::copy;
use crate::memory::Mem;
use crate::text::Text;
use crate::value::Value;
use std::alloc::Global;
use std::collections::BTreeMap;
use std::marker::Model;
use std::mem;
use std::slice::Iter;

// One field of a document.
#[derive(Drop)]
#[cycle(value)]
pub(crate) struct Member {
    pub(crate) name: Text,
    pub(crate) value: Value,
}

// Fields by rising name. A contract sees their pairs.
#[derive(Drop)]
#[cycle(value)]
pub(crate) struct Row {
    members: Vec<Member>,
}

impl Model for Row {
    ghost use Rattle.std.specs.Prelude.{◌+◌, ◌*◌};
    ghost use Rattle.std.proofs.Common.{arith};
    ghost use Rattle.value_model.specs.Val.{Entries, fields_of};
    ghost use Rattle.value_model.specs.Coding.{entries_code};

    ghost Value = { Entries };

    ghost coded = { entries_code };

    ghost use Rattle.value_model.specs.Depth.{fields_depth};
    ghost use Rattle.value_model.specs.Valid.{IsDocument};
    ghost use Rattle.ejson_value.specs.View.{entries, pairs};

    ghost view = { λ a. entries (pairs a.members.items) };

    ghost invariant = { λ a. IsDocument (entries (pairs a.members.items)) };

    ghost size = { λ es. 3 * fields_depth (fields_of es) + 1 };

    ghost use Rattle.ejson_value.specs.Falls.{most_le-row};

    ghost size_decreases = { λ a h. Prim.omega (arith, most_le-row a.members.items) };
}

impl Row {
    // A row with no fields.
    pub(crate) fn new(alloc: Global) -> Row
        ensures { result ≡ [] }
    {
        Row {
            members: Vec::new(alloc),
        }
    }

    // A row equal to this one, with room for so many fields more.
    pub(crate) fn copied(&self, more: usize) -> Result<Row, Mem>
        ensures { IfOk result (λ row. row ≡ self.now) }
    {
        self.known();
        Ok(Row {
            members: copies(*self.members.allocator(), self.members.as_slice(), more)?,
        })
    }

    // A row equal to this one but for the field of this name, with room for just its fields.
    pub(crate) fn without(&self, name: &Text) -> Result<Row, Mem>
        ensures { IfOk result (λ row. row ≡ remove self.now name.now) }
    {
        match self.place(name) {
            Ok(place) => Ok(Row {
                members: copies_beside(*self.members.allocator(), self.members.as_slice(), place)?,
            }),
            Err(_) => self.copied(0),
        }
    }

    // How many fields it has.
    pub(crate) fn len(&self) -> usize
        ensures { result ≡ length self.now }
    {
        self.members.len()
    }

    // The value of the field of this name.
    pub(crate) fn get(&self, name: &Text) -> Option<&Value>
        ensures { option_map (λ v. view v.now) result ≡ get self.now name.now }
    {
        match self.place(name) {
            Ok(place) => Some(&self.members[place].value),
            Err(_) => None,
        }
    }

    // Whether the name is behind all names of the row.
    fn is_behind(&self, name: &Text) -> bool
        ensures { IsTrue result → IsAbove text_cmp name.now (keys_of self.now) }
    {
        match self.members.last() {
            None => true,
            Some(last) => last.name < *name,
        }
    }

    // Where the field of this name stands, or else where it would.
    pub(crate) fn place(&self, name: &Text) -> Result<usize, usize>
        ensures bound { IsSearchInRange result (length self.now) }
        ensures found { IfOk result (λ place. name_at self.now place ≡ Some name.now) }
        ensures gap { IfErr result (IsGapFor self.now name.now) }
    {
        if self.is_behind(name) {
            return Err(self.members.len());
        }
        self.members
            .binary_search_by(|member| member.name.cmp(name))
    }

    // Makes room for one more field, where there is none for twice as many, and for two at least.
    fn make_room(&mut self) -> Result<(), Mem>
        ensures { self.new ≡ self.old }
    {
        let len = self.members.len();
        if len == self.members.capacity() {
            self.members.reserve_exact(len.max(2))?;
        }
        Ok(())
    }

    // Whether a field of this name goes behind the others, which are fewer than so many.
    pub(crate) fn is_next(&self, name: &Text, most: usize) -> bool
        ensures { IsTrue result → IsAbove text_cmp name.now (keys_of self.now) }
    {
        self.members.len() < most && self.is_behind(name)
    }

    // Puts the field behind the others.
    pub(crate) fn push(&mut self, member: Member) -> Result<(), Mem>
        requires { IsAbove text_cmp member.name (keys_of self.old) }
        ensures ok { OnOk result (self.new ≡ put self.old member.name (view member.value)) }
        ensures err { OnErr result (self.new ≡ self.old) }
    {
        member.value.known();
        self.make_room()?;
        self.members.push(member)?;
        Ok(())
    }

    // Gives back the room that no field takes.
    pub(crate) fn shrink(&mut self)
        ensures { self.new ≡ self.old }
    {
        self.members.shrink_to_fit();
    }

    // Puts the value as the field of this name, and hands out the one that was there.
    pub(crate) fn put(&mut self, name: Text, value: Value) -> Result<Option<Value>, Mem>
        ensures value { IfOk result (λ there. option_map view there ≡ get self.old name) }
        ensures ok { OnOk result (self.new ≡ put self.old name (view value)) }
        ensures err { OnErr result (self.new ≡ self.old) }
    {
        let place = self.place(&name);
        self.put_at(place, Member { name, value })
    }

    // Puts the field where its name stands, or at the gap for it.
    fn put_at(&mut self, place: Result<usize, usize>, member: Member) -> Result<Option<Value>, Mem>
        requires found { IfOk place (λ place. name_at self.old place ≡ Some member.name) }
        requires gap { IfErr place (IsGapFor self.old member.name) }
        ensures value { IfOk result (λ there. option_map view there ≡ get self.old member.name) }
        ensures ok { OnOk result (self.new ≡ put self.old member.name (view member.value)) }
        ensures err { OnErr result (self.new ≡ self.old) }
    {
        match place {
            Ok(place) => Ok(Some(self.write_at(place, member))),
            Err(place) => {
                self.insert_at(place, member)?;
                Ok(None)
            }
        }
    }

    // Puts the field in place of that of the same name, which stands at this place, and hands out its value.
    fn write_at(&mut self, place: usize, member: Member) -> Value
        requires { name_at self.old place ≡ Some member.name }
        ensures value { Some (view result) ≡ get self.old member.name }
        ensures put { self.new ≡ put self.old member.name (view member.value) }
    {
        member.value.known();
        let Member { name, value } = mem::replace(&mut self.members[place], member);
        drop(name);
        value
    }

    // Puts the value in place of that of the field of this name, where there is one, and hands that out.
    pub(crate) fn swap(&mut self, name: &Text, value: Value) -> Option<Value>
        ensures value { IfSome result (λ there. Some (view there) ≡ get self.old name.now) }
        ensures put { IfSome result (λ there. self.new ≡ put self.old name.now (view value)) }
        ensures other { IfNone result (self.new ≡ self.old) }
    {
        value.known();
        match self.place(name) {
            Ok(place) => {
                let member = &mut self.members[place];
                Some(mem::replace(&mut member.value, value))
            }
            Err(_) => {
                drop(value);
                None
            }
        }
    }

    // Puts the field in place of that of the same name, which is there, and hands out its value.
    pub(crate) fn replace(&mut self, member: Member) -> Value
        requires { IsSome (get self.old member.name) }
        ensures value { Some (view result) ≡ get self.old member.name }
        ensures put { self.new ≡ put self.old member.name (view member.value) }
    {
        match self.place(&member.name) {
            Ok(place) => self.write_at(place, member),
            Err(_) => {
                let Member { name, value } = member;
                drop(name);
                value
            }
        }
    }

    // Puts a new field at the gap for it.
    fn insert_at(&mut self, place: usize, member: Member) -> Result<(), Mem>
        requires { IsGapFor self.old member.name place }
        ensures ok { OnOk result (self.new ≡ put self.old member.name (view member.value)) }
        ensures err { OnErr result (self.new ≡ self.old) }
    {
        member.value.known();
        self.make_room()?;
        self.members.insert(place, member)?;
        Ok(())
    }

    // Takes the field of this name out.
    pub(crate) fn remove(&mut self, name: &Text) -> Option<Value>
        ensures value { option_map view result ≡ get self.old name.now }
        ensures removed { self.new ≡ remove self.old name.now }
    {
        match self.place(name) {
            Ok(place) => {
                let Member { name, value } = self.members.remove(place);
                drop(name);
                Some(value)
            }
            Err(_) => None,
        }
    }

    // The fields in order.
    pub(crate) fn iter(&self) -> Iter<'_, Member>
        ensures all { entries (pairs (iter_rest result)) ≡ self.now }
        ensures ordered { IsStrictlySortedBy text_cmp (keys_of (pairs (iter_rest result))) }
    {
        self.members.iter()
    }

    // The fields in order, as a slice.
    pub(crate) fn as_slice(&self) -> &[Member]
        ensures { entries (pairs result.now) ≡ self.now }
    {
        self.members.as_slice()
    }

    // Tells a proof what the row keeps; it does nothing.
    pub(crate) fn known(&self)
        ensures { IsDocument self.now }
    {
        let _ = &self.members;
    }

    // Moves the fields into a map, each once. Where memory is refused they are in the row again.
    pub(crate) fn moved(&mut self) -> Result<BTreeMap<Text, Value>, Mem>
        ensures ok { IfOk result (λ map. entries map.entries ≡ self.old) }
        ensures err { OnErr result (self.new ≡ self.old) }
    {
        let mut map = BTreeMap::new(*self.members.allocator());
        match fill(&mut self.members, &mut map) {
            Ok(()) => Ok(map),
            Err(fault) => {
                give_back(&mut self.members, map);
                Err(fault)
            }
        }
    }
}

// A copy of the field.
pub(crate) fn copy_of(name: &Text, value: &Value) -> Result<Member, Mem>
    ensures name { IfOk result (λ copy. copy.name ≡ name.now) }
    ensures value { IfOk result (λ copy. view copy.value ≡ view value.now) }
{
    let name = name.copy()?;
    Ok(Member {
        name,
        value: copy(value)?,
    })
}

// Puts copies of the members behind the others.
fn put_copies(copies: &mut Vec<Member>, members: &[Member]) -> Result<(), Mem>
    ensures { OnOk result (entries (pairs copies.new.items) ≡ entries (pairs copies.old.items) ++ entries (pairs members.now)) }
{
    for member in members {
        copies.push(copy_of(&member.name, &member.value)?)?;
    }
    Ok(())
}

// Copies of the members, with room for so many more.
fn copies(alloc: Global, members: &[Member], more: usize) -> Result<Vec<Member>, Mem>
    ensures { IfOk result (λ copies. entries (pairs copies.items) ≡ entries (pairs members.now)) }
{
    let mut copies = Vec::with_capacity(alloc, members.len().saturating_add(more))?;
    put_copies(&mut copies, members)?;
    Ok(copies)
}

// Copies of the members but for the one at this place.
fn copies_beside(alloc: Global, members: &[Member], place: usize) -> Result<Vec<Member>, Mem>
    requires { place < length members.now }
    ensures { IfOk result (λ copies. entries (pairs copies.items) ≡ entries (pairs (remove_item members.now place))) }
{
    let mut copies = Vec::with_capacity(alloc, members.len() - 1)?;
    put_copies(&mut copies, &members[..place])?;
    put_copies(&mut copies, &members[place + 1..])?;
    Ok(copies)
}

// Puts the member behind the others, where there is room for it.
fn put_back(members: &mut Vec<Member>, name: Text, value: Value)
    requires { vec_len members.old < vec_capacity members.old }
    ensures pairs { pairs members.new.items ≡ pairs members.old.items ++ (name, value) ∷ [] }
    ensures len { vec_len members.new ≡ vec_len members.old + 1 }
    ensures capacity { vec_capacity members.old ≤ vec_capacity members.new }
{
    drop(members.push(Member { name, value }));
}

// Moves the members into the map, before its entries and the last one first.
fn fill(members: &mut Vec<Member>, map: &mut BTreeMap<Text, Value>) -> Result<(), Mem>
    requires { IsStrictlySortedBy text_cmp (keys_of (pairs members.old.items ++ map.old.entries)) }
    ensures all { pairs members.new.items ++ map.new.entries ≡ pairs members.old.items ++ map.old.entries }
    ensures ok { OnOk result (members.new.items ≡ []) }
    ensures capacity { vec_capacity members.old ≤ vec_capacity members.new }
{
    while let Some(Member { name, value }) = members.pop() {
        match map.insert(name, value) {
            Ok(old) => drop(old),
            Err(refused) => {
                let (name, value) = refused.value;
                put_back(members, name, value);
                return Err(Mem);
            }
        }
    }
    Ok(())
}

// Moves the map's entries behind the members, where there is room for them.
fn give_back(members: &mut Vec<Member>, mut map: BTreeMap<Text, Value>)
    requires { vec_len members.old + length map.entries ≤ vec_capacity members.old }
    ensures { pairs members.new.items ≡ pairs members.old.items ++ map.entries }
{
    while let Some((name, value)) = map.pop_first() {
        put_back(members, name, value);
    }
}
