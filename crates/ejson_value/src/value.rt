//! Values, lists of values and documents.
ghost use Rattle.std.specs.Prelude.{◌≡◌, ◌∷◌, ◌++◌, ◌==◌, ◌<◌, ◌↔◌, [], true, false, length, map, Some, IsSome, IfSome, option_map, slice_get};
ghost use Rattle.std.specs.Prelude.{slice_set, IfOk, OnOk, OnErr};
ghost use Rattle.std.specs.List.{remove as remove_item};
ghost use Rattle.std.specs.List.Sorted.{IsStrictlySortedBy};
ghost use Rattle.std.specs.Map.{keys_of};
ghost use Rattle.map_model.specs.Differences.{with_fields};
ghost use Rattle.value_model.specs.Val.{vals_of, fields_of};
ghost use Rattle.value_model.specs.Valid.{IsValue, AreValues, IsDocument};
ghost use Rattle.value_model.specs.Order.{text_cmp};
ghost use Rattle.value_model.specs.Doc.{get, put, remove};
ghost use Rattle.value_model.specs.Size.{fields_size};
ghost use Rattle.ejson_value.specs.View.{view, views, pairs, entries};
ghost use Rattle.ejson_value.specs.Measure.{capped};

use crate::bytes::Bytes;
use crate::copying::copy;
use crate::members::{Fields, Measured};
use crate::memory::Mem;
use crate::row::{Member, copy_of};
use crate::text::Text;
use crate::user::BoxedName;
use crate::whole::Whole;
use std::alloc::Global;
use std::marker::Model;
use std::mem;
use std::sync::Arc;

/// A value of EJSON (the appendix on EJSON of Meteor's DDP.md). A contract sees it by `view`.
#[derive(Drop)]
#[cycle(value)]
pub enum Value {
    Null,
    Bool(bool),
    Int(Whole),
    Text(Text),
    /// Milliseconds since 1970, in UTC.
    Date(Whole),
    Bytes(Bytes),
    List(Items),
    Object(Doc),
    /// A value of a user type: the type's name, and the value that stands for it.
    User { name: BoxedName, value: Boxed },
}

/// One value on the heap. A contract sees it as that value.
#[cycle(value)]
pub struct Boxed {
    inner: Box<Value>,
}

/// A list of values. Lists that are copies of one another have the same memory, until one of them is
/// changed. A contract sees it as the list of its values.
#[cycle(value)]
pub struct Items {
    alloc: Global,
    // None where there was never one.
    items: Option<Arc<Vec<Value>>>,
}

/// A document: a finite map from names to values. Documents that are copies of one another have the
/// same memory, until one of them is changed. A contract sees its pairs by rising name.
#[cycle(value)]
pub struct Doc {
    alloc: Global,
    // None where there was never one.
    fields: Option<Arc<Measured>>,
}

impl Model for Boxed {
    ghost use Rattle.std.specs.Prelude.{◌+◌, ◌*◌};
    ghost use Rattle.std.proofs.Common.{arith};
    ghost use Rattle.value_model.specs.Val.{Val};
    ghost use Rattle.value_model.specs.Coding.{val_code};

    ghost Value = { Val };

    ghost coded = { val_code };

    ghost use Rattle.value_model.specs.Depth.{depth};
    ghost use Rattle.value_model.specs.Valid.{IsValue};
    ghost use Rattle.ejson_value.specs.View.{view as seen_as};

    ghost view = { λ a. seen_as a.inner.value };

    ghost invariant = { λ a. IsValue (seen_as a.inner.value) };

    ghost size = { λ v. 3 * depth v + 1 };

    ghost use Rattle.ejson_value.specs.Falls.{deep_le};

    ghost size_decreases = { λ a h. Prim.omega (arith, deep_le a.inner.value) };
}

impl Model for Items {
    ghost use Rattle.std.specs.Prelude.{◌+◌, ◌*◌, List};
    ghost use Rattle.std.specs.Coded.{coded_list};
    ghost use Rattle.std.proofs.Common.{arith};
    ghost use Rattle.value_model.specs.Val.{Val, vals_of};
    ghost use Rattle.value_model.specs.Coding.{val_code};

    ghost Value = { List Val };

    ghost coded = { coded_list val_code };

    ghost use Rattle.value_model.specs.Depth.{vals_depth};
    ghost use Rattle.value_model.specs.Valid.{AreValues};
    ghost use Rattle.ejson_value.specs.View.{views, held_items};

    ghost view = { λ a. views (held_items a.items) };

    ghost invariant = { λ a. AreValues (vals_of (views (held_items a.items))) };

    ghost size = { λ vs. 3 * vals_depth (vals_of vs) + 1 };

    ghost use Rattle.ejson_value.specs.Falls.{items_le};

    ghost size_decreases = { λ a h. items_le a };
}

impl Model for Doc {
    ghost use Rattle.std.specs.Prelude.{◌+◌, ◌*◌};
    ghost use Rattle.std.proofs.Common.{arith};
    ghost use Rattle.value_model.specs.Val.{Entries, fields_of};
    ghost use Rattle.value_model.specs.Coding.{entries_code};

    ghost Value = { Entries };

    ghost coded = { entries_code };

    ghost use Rattle.value_model.specs.Depth.{fields_depth};
    ghost use Rattle.value_model.specs.Valid.{IsDocument};
    ghost use Rattle.ejson_value.specs.View.{doc_fields};

    ghost view = { λ a. doc_fields a.fields };

    ghost invariant = { λ a. IsDocument (doc_fields a.fields) };

    ghost size = { λ es. 3 * fields_depth (fields_of es) + 3 };

    ghost use Rattle.ejson_value.specs.Falls.{doc_le};

    ghost size_decreases = { λ a h. doc_le a };
}

// These are dropped by a call, so that no walk of the borrow checker splits where a value is dropped.

impl Drop for Boxed {
    #[cycle(value)]
    fn drop(self) {
        let Boxed { inner } = self;
        drop(inner);
    }
}

impl Drop for Items {
    #[cycle(value)]
    fn drop(self) {
        let Items { alloc, items } = self;
        drop(items);
    }
}

impl Drop for Doc {
    #[cycle(value)]
    fn drop(self) {
        let Doc { alloc, fields } = self;
        drop(fields);
    }
}

// Makes room for one more value, where there is none for twice as many, and for two at least.
fn make_room(items: &mut Vec<Value>) -> Result<(), Mem>
    ensures { items.new.items ≡ items.old.items }
{
    let len = items.len();
    if len == items.capacity() {
        items.reserve_exact(len.max(2))?;
    }
    Ok(())
}

// Puts the value behind the others, with room for twice as many where there is none.
pub(crate) fn put_behind(items: &mut Vec<Value>, value: Value) -> Result<(), Mem>
    ensures ok { OnOk result (views items.new.items ≡ views items.old.items ++ view value ∷ []) }
    ensures err { OnErr result (views items.new.items ≡ views items.old.items) }
{
    make_room(items)?;
    items.push(value)?;
    Ok(())
}

// Takes the value at this place out.
fn take_at(items: &mut Vec<Value>, place: usize) -> Value
    requires { place < length (views items.old.items) }
    ensures value { Some (view result) ≡ slice_get (views items.old.items) place }
    ensures removed { views items.new.items ≡ remove_item (views items.old.items) place }
{
    items.remove(place)
}

// Puts the value at this place and hands out the one that was there.
fn swap_at(items: &mut Vec<Value>, place: usize, value: Value) -> Value
    requires { place < length (views items.old.items) }
    ensures value { Some (view result) ≡ slice_get (views items.old.items) place }
    ensures replaced { views items.new.items ≡ slice_set (views items.old.items) place (view value) }
{
    mem::replace(&mut items[place], value)
}

// Copies of the values, with room for so many more.
fn copies(alloc: Global, items: &[Value], more: usize) -> Result<Vec<Value>, Mem>
    ensures { IfOk result (λ copies. views copies.items ≡ views items.now) }
{
    let mut copies = Vec::with_capacity(alloc, items.len().saturating_add(more))?;
    for item in items {
        copies.push(copy(item)?)?;
    }
    Ok(copies)
}

// The field of a row that has no other one.
fn only_of(members: &[Member]) -> Option<(&Text, &Value)>
    ensures one { IsSome result ↔ (length members.now ≡ 1) }
    ensures value { IfSome result (λ field. entries (pairs members.now) ≡ (field.0.now, view field.1.now) ∷ []) }
{
    if members.len() == 1 {
        Some((&members[0].name, &members[0].value))
    } else {
        None
    }
}

impl Items {
    /// An empty list.
    pub fn new(alloc: Global) -> Items
        ensures { result ≡ [] }
    {
        Items { alloc, items: None }
    }

    // A list of these values.
    pub(crate) fn of(alloc: Global, items: Vec<Value>) -> Result<Items, Mem>
        requires { AreValues (vals_of (views items.items)) }
        ensures { IfOk result (λ list. list ≡ views items.items) }
    {
        if items.is_empty() {
            return Ok(Items::new(alloc));
        }
        Ok(Items {
            alloc,
            items: Some(Arc::new(alloc, items)?),
        })
    }

    /// How many values it has.
    pub fn len(&self) -> usize
        ensures { result ≡ length self.now }
    {
        self.as_slice().len()
    }

    /// Whether it has none.
    pub fn is_empty(&self) -> bool
        ensures { result ≡ (length self.now == 0) }
    {
        self.as_slice().is_empty()
    }

    /// The value at this place.
    pub fn get(&self, place: usize) -> Option<&Value>
        ensures { option_map (λ v. view v.now) result ≡ slice_get self.now place }
    {
        self.as_slice().get(place)
    }

    /// The values in order.
    pub fn as_slice(&self) -> &[Value]
        ensures { views result.now ≡ self.now }
    {
        match &self.items {
            None => &[],
            Some(items) => items.as_slice(),
        }
    }

    // Copies of its values, with room for so many more.
    fn copies(&self, more: usize) -> Result<Vec<Value>, Mem>
        ensures same { IfOk result (λ copies. views copies.items ≡ self.now) }
        ensures known { AreValues (vals_of self.now) }
    {
        self.known();
        copies(self.alloc, self.as_slice(), more)
    }

    // Puts these in place of its values.
    fn hold(&mut self, items: Vec<Value>) -> Result<(), Mem>
        requires { AreValues (vals_of (views items.items)) }
        ensures ok { OnOk result (self.new ≡ views items.items) }
        ensures err { OnErr result (self.new ≡ self.old) }
    {
        self.items = Some(Arc::new(self.alloc, items)?);
        Ok(())
    }

    /// Puts the value behind the others.
    pub fn push(&mut self, value: Value) -> Result<(), Mem>
        ensures ok { OnOk result (self.new ≡ self.old ++ view value ∷ []) }
        ensures err { OnErr result (self.new ≡ self.old) }
    {
        value.known();
        if let Some(items) = &mut self.items {
            if let Some(own) = Arc::get_mut(items) {
                return put_behind(own, value);
            }
        }
        let mut items = self.copies(if self.is_empty() { 2 } else { 1 })?;
        put_behind(&mut items, value)?;
        self.hold(items)
    }

    /// Takes the value at this place out; those behind it move down.
    pub fn remove(&mut self, place: usize) -> Result<Value, Mem>
        requires { place < length self.old }
        ensures value { IfOk result (λ value. Some (view value) ≡ slice_get self.old place) }
        ensures removed { OnOk result (self.new ≡ remove_item self.old place) }
        ensures err { OnErr result (self.new ≡ self.old) }
    {
        if let Some(items) = &mut self.items {
            if let Some(own) = Arc::get_mut(items) {
                return Ok(take_at(own, place));
            }
        }
        let mut items = self.copies(0)?;
        let value = take_at(&mut items, place);
        self.hold(items)?;
        Ok(value)
    }

    /// Puts the value at this place and hands out the one that was there.
    pub fn replace(&mut self, place: usize, value: Value) -> Result<Value, Mem>
        requires { place < length self.old }
        ensures value { IfOk result (λ there. Some (view there) ≡ slice_get self.old place) }
        ensures replaced { OnOk result (self.new ≡ slice_set self.old place (view value)) }
        ensures err { OnErr result (self.new ≡ self.old) }
    {
        value.known();
        if let Some(items) = &mut self.items {
            if let Some(own) = Arc::get_mut(items) {
                return Ok(swap_at(own, place, value));
            }
        }
        let mut items = self.copies(0)?;
        let there = swap_at(&mut items, place, value);
        self.hold(items)?;
        Ok(there)
    }

    /// A list equal to this one. It copies no value.
    pub fn copy(&self) -> Result<Items, Mem>
        ensures { IfOk result (λ vs. vs ≡ self.now) }
    {
        Ok(Items {
            alloc: self.alloc,
            items: match &self.items {
                None => None,
                Some(items) => Some(Arc::try_clone(items)?),
            },
        })
    }

    /// Tells a proof what its values keep; it does nothing.
    pub fn known(&self)
        ensures { AreValues (vals_of self.now) }
    {
        let _ = &self.items;
    }
}

impl Boxed {
    /// The value, put on the heap.
    pub fn of(alloc: Global, value: Value) -> Result<Boxed, Mem>
        ensures { IfOk result (λ boxed. boxed ≡ view value) }
    {
        value.known();
        Ok(Boxed {
            inner: Box::new(alloc, value)?,
        })
    }

    /// The value.
    pub fn get(&self) -> &Value
        ensures value { view result.now ≡ self.now }
        ensures known { IsValue (view result.now) }
    {
        self.inner.as_ref()
    }

    // A value on the heap beside this one, of the same allocator.
    pub(crate) fn beside(&self, value: Value) -> Result<Boxed, Mem>
        ensures { IfOk result (λ boxed. boxed ≡ view value) }
    {
        Boxed::of(*Box::allocator(&self.inner), value)
    }
}

impl Value {
    /// Tells a proof what the value keeps; it does nothing.
    pub fn known(&self)
        ensures { IsValue (view self.now) }
    {
        match self {
            Value::Null | Value::Bool(_) | Value::Text(_) => {}
            Value::Int(whole) | Value::Date(whole) => {
                let _number = whole.get();
            }
            Value::Bytes(bytes) => {
                let _bytes = bytes.as_slice();
            }
            Value::List(items) => items.known(),
            Value::Object(doc) => doc.known(),
            Value::User { name, value } => {
                let _name = name.get().get();
                let _value = value.get();
            }
        }
    }
}

impl Doc {
    /// A document with no fields.
    pub fn new(alloc: Global) -> Doc
        ensures { result ≡ [] }
    {
        Doc {
            alloc,
            fields: None,
        }
    }

    // A document of these fields.
    pub(crate) fn of(alloc: Global, fields: Measured) -> Result<Doc, Mem>
        ensures { IfOk result (λ doc. doc ≡ fields) }
    {
        fields.known();
        Ok(Doc {
            alloc,
            fields: Some(Arc::new(alloc, fields)?),
        })
    }

    /// How many fields it has.
    pub fn len(&self) -> usize
        ensures { result ≡ length self.now }
    {
        match &self.fields {
            None => 0,
            Some(fields) => fields.len(),
        }
    }

    /// Whether it has none.
    pub fn is_empty(&self) -> bool
        ensures { result ≡ (length self.now == 0) }
    {
        self.len() == 0
    }

    /// The value of the field of this name.
    pub fn get(&self, name: &Text) -> Option<&Value>
        ensures { option_map (λ v. view v.now) result ≡ get self.now name.now }
    {
        match &self.fields {
            None => None,
            Some(fields) => fields.get(name),
        }
    }

    // How many bytes its fields have as EJSON, each with its colon and a comma, 2^64 - 1 where they have more.
    #[cycle(measuring)]
    pub(crate) fn bytes(&self) -> u64
        ensures { result ≡ capped (fields_size (fields_of self.now)) }
    {
        match &self.fields {
            None => 0,
            Some(fields) => fields.bytes(),
        }
    }

    // Its fields where they stand in a row.
    pub(crate) fn row(&self) -> Option<&[Member]>
        ensures { IfSome result (λ members. entries (pairs members.now) ≡ self.now) }
    {
        match &self.fields {
            None => Some(&[]),
            Some(fields) => fields.row(),
        }
    }

    // Copies of its fields, with room for so many more.
    fn copies(&self, more: usize) -> Result<Measured, Mem>
        ensures { IfOk result (λ copies. copies ≡ self.now) }
    {
        match &self.fields {
            None => Ok(Measured::new(self.alloc)),
            Some(fields) => fields.copies(more),
        }
    }

    // Puts these in place of its fields.
    fn hold(&mut self, fields: Measured) -> Result<(), Mem>
        ensures ok { OnOk result (self.new ≡ fields) }
        ensures err { OnErr result (self.new ≡ self.old) }
    {
        fields.known();
        self.fields = Some(Arc::new(self.alloc, fields)?);
        Ok(())
    }

    /// Puts the value as the field of this name, in place of one that is there.
    pub fn put(&mut self, name: Text, value: Value) -> Result<(), Mem>
        ensures ok { OnOk result (self.new ≡ put self.old name (view value)) }
        ensures err { OnErr result (self.new ≡ self.old) }
    {
        if let Some(fields) = &mut self.fields {
            if let Some(own) = Arc::get_mut(fields) {
                let put = own.put(name, value);
                own.known();
                return put;
            }
        }
        let more = if self.get(&name).is_some() { 0 } else { 1 };
        let mut fields = self.copies(more)?;
        fields.add(name, value)?;
        self.hold(fields)
    }

    // Puts a copy of the value in place of that of the field of this name, where there is such a field in memory of its own,
    // and says whether it did.
    pub(crate) fn set_copy(&mut self, name: &Text, value: &Value) -> Result<bool, Mem>
        ensures put { IfOk result (λ set. set ≡ true → self.new ≡ put self.old name.now (view value.now)) }
        ensures other { IfOk result (λ set. set ≡ false → self.new ≡ self.old) }
        ensures err { OnErr result (self.new ≡ self.old) }
    {
        if let Some(fields) = &mut self.fields {
            if let Some(own) = Arc::get_mut(fields) {
                let set = own.swap(name, copy(value)?);
                own.known();
                return Ok(set);
            }
        }
        Ok(false)
    }

    // Puts the fields in place of those of the same names, where it has such ones of all in memory of its own, and says
    // whether it did. It takes no memory.
    pub(crate) fn replace_all(&mut self, members: Vec<Member>) -> bool
        ensures put { result ≡ true → self.new ≡ with_fields text_cmp self.old (entries (pairs members.items)) }
        ensures other { result ≡ false → self.new ≡ self.old }
    {
        if let Some(fields) = &mut self.fields {
            if let Some(own) = Arc::get_mut(fields) {
                let put = own.replace_all(members);
                own.known();
                return put;
            }
        }
        false
    }

    // Copies of its fields, by rising name.
    pub(crate) fn members(&self) -> Result<Vec<Member>, Mem>
        ensures { IfOk result (λ members. entries (pairs members.items) ≡ self.now) }
    {
        let mut members = Vec::with_capacity(self.alloc, self.len())?;
        for (name, value) in self.iter() {
            members.push(copy_of(name, value)?)?;
        }
        Ok(members)
    }

    /// Takes the field of this name out.
    pub fn remove(&mut self, name: &Text) -> Result<Option<Value>, Mem>
        ensures value { IfOk result (λ value. option_map view value ≡ get self.old name.now) }
        ensures removed { OnOk result (self.new ≡ remove self.old name.now) }
        ensures err { OnErr result (self.new ≡ self.old) }
    {
        if let Some(fields) = &mut self.fields {
            if let Some(own) = Arc::get_mut(fields) {
                let there = own.remove(name);
                own.known();
                return Ok(there);
            }
        }
        let mut fields = self.copies(0)?;
        let there = fields.remove(name);
        self.hold(fields)?;
        Ok(there)
    }

    /// A document equal to this one, whose bytes are counted for those who ask. It copies the fields only where they
    /// aren't.
    pub fn counted(&self) -> Result<Doc, Mem>
        ensures { IfOk result (λ doc. doc ≡ self.now) }
    {
        match &self.fields {
            None => Ok(Doc::new(self.alloc)),
            Some(fields) if fields.is_counted() => self.copy(),
            Some(fields) => Doc::of(self.alloc, fields.copies(0)?),
        }
    }

    /// Counts its bytes for those who ask, where its memory is its own.
    pub fn count(&mut self)
        ensures { self.new ≡ self.old }
    {
        if let Some(fields) = &mut self.fields {
            if let Some(own) = Arc::get_mut(fields) {
                own.count();
                own.known();
            }
        }
    }

    /// A copy of this document without the field of this name, in just the room that it needs. Its bytes are counted.
    pub fn without(&self, name: &Text) -> Result<Doc, Mem>
        ensures { IfOk result (λ doc. doc ≡ remove self.now name.now) }
    {
        match &self.fields {
            None => Ok(Doc::new(self.alloc)),
            Some(fields) => match fields.get(name) {
                None => self.counted(),
                Some(value) => Doc::of(self.alloc, fields.without(name, value)?),
            },
        }
    }

    /// A document equal to this one. It copies no field.
    pub fn copy(&self) -> Result<Doc, Mem>
        ensures { IfOk result (λ doc. doc ≡ self.now) }
    {
        Ok(Doc {
            alloc: self.alloc,
            fields: match &self.fields {
                None => None,
                Some(fields) => Some(Arc::try_clone(fields)?),
            },
        })
    }

    /// The fields by rising name.
    pub fn iter(&self) -> Fields<'_>
        ensures all { entries result ≡ self.now }
        ensures ordered { IsStrictlySortedBy text_cmp (keys_of result) }
    {
        match &self.fields {
            None => Fields::none(),
            Some(fields) => fields.iter(),
        }
    }

    /// The field of a document that has no other one.
    pub fn only_field(&self) -> Option<(&Text, &Value)>
        ensures one { IsSome result ↔ (length self.now ≡ 1) }
        ensures value { IfSome result (λ field. self.now ≡ (field.0.now, view field.1.now) ∷ []) }
    {
        match self.row() {
            Some(members) => only_of(members),
            None => self.only_listed(),
        }
    }

    // The same of any document.
    fn only_listed(&self) -> Option<(&Text, &Value)>
        ensures one { IsSome result ↔ (length self.now ≡ 1) }
        ensures value { IfSome result (λ field. self.now ≡ (field.0.now, view field.1.now) ∷ []) }
    {
        let mut all = self.iter();
        let field = all.next()?;
        match all.next() {
            None => Some(field),
            Some(_) => None,
        }
    }

    /// Tells a proof what the document keeps; it does nothing.
    pub fn known(&self)
        ensures { IsDocument self.now }
    {
        let _ = &self.fields;
    }
}
