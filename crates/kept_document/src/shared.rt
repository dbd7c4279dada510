//! What is kept of a document that several subscriptions publish.
ghost use Rattle.std.specs.Prelude.{◌≡◌, ◌==◌, false, true, Some, is_some, option_map, option_copied, IfOk, OnOk};
ghost use Rattle.std.specs.Map.{keys_of};
ghost use Rattle.map_model.specs.Maps.{at, filter_map_entries};
ghost use Rattle.merge_model.specs.Kept.{claimed, has, merged_fields, first_value};
ghost use Rattle.value_model.specs.Order.{text_cmp};
ghost use Rattle.ejson_value.specs.View.{view};
ghost use Rattle.kept_document.specs.declared.held.Change.TheVariants.{Part};
ghost use Rattle.kept_document.specs.Held.{is_shared, alone, publishers_with, new_of, lost_of, IsHeld, IsShared, IsKeptAfter, SameDoc, IsDocGrown};
ghost use Rattle.kept_document.specs.Changes.{with_change, IsChange, HasPlaces};

use crate::differences::{push_lost, put_new};
use crate::fields::{FieldMap, changed_fields, fields_of_two, make_places, put_copy, take_fields};
use ejson_value::{Doc, Mem, Names, Text, Value};
use std::alloc::Global;
use std::marker::Model;

/// The subscriptions that publish a document, two or more, and the claims on each of its fields; of
/// a change, those that publish it afterwards, and the claims on each field that changes. A contract
/// sees it as `Kept`. Each subscription with a claim publishes the document, and has one claim on a
/// field.
#[derive(Drop)]
pub struct Shared {
    publishers: Vec<u64>,
    fields: FieldMap,
}

impl Model for Shared {
    ghost use Rattle.std.specs.Prelude.{ℕ, List};
    ghost use Rattle.value_model.specs.Val.{Val};
    ghost use Rattle.merge_model.specs.Kept.{Kept};
    ghost use Rattle.kept_document.specs.Held.{kept_code, IsShared};

    ghost Value = { Kept (List ℕ) Val };

    ghost coded = { kept_code };

    ghost view = { λ a. record { publishers = a.publishers.items; fields = a.fields.entries } };

    ghost invariant = { λ a. IsShared (record { publishers = a.publishers.items; fields = a.fields.entries }) };
}

impl Shared {
    /// Tells a proof what is kept whole; it does nothing.
    pub(crate) fn known(&self)
        ensures { IsShared self.now }
    {
        let _ = &self.fields;
    }

    /// What is kept of a document that `first` publishes, and then `second` too.
    pub(crate) fn of_two(
        alloc: Global,
        first: u64,
        doc: &Doc,
        second: u64,
        added: &Doc,
    ) -> Result<Shared, Mem>
        requires { (second == first) ≡ false }
        ensures { IfOk result (λ shared. IsKeptAfter second (Some added.now) (alone first doc.now) shared) }
    {
        doc.known();
        let publishers = vec![in alloc; first, second]?;
        let fields = fields_of_two(alloc, first, doc, second, added)?;
        let _len = fields.len();
        Ok(Shared { publishers, fields })
    }

    /// Whether the subscription publishes the document.
    pub(crate) fn publishes(&self, sub: u64) -> bool
        ensures { result ≡ has sub self.now.publishers }
    {
        self.publishers.as_slice().contains(&sub)
    }

    /// The publishers, where `sub` is one of them now or no longer.
    pub(crate) fn publishers_after(
        &self,
        alloc: Global,
        sub: u64,
        is_published: bool,
    ) -> Result<Vec<u64>, Mem>
        ensures { IfOk result (λ ps. ps.items ≡ publishers_with sub is_published self.now.publishers) }
    {
        let mut made = Vec::new(alloc);
        for publisher in self.publishers.as_slice() {
            if *publisher != sub {
                made.push(*publisher)?;
            }
        }
        if is_published {
            made.push(sub)?;
        }
        Ok(made)
    }

    /// What changes once `sub` publishes this document, or none, where two or more subscriptions are
    /// left: it copies only the claims on fields that change.
    pub(crate) fn part(
        &self,
        alloc: Global,
        publishers: Vec<u64>,
        sub: u64,
        doc: Option<&Doc>,
    ) -> Result<Shared, Mem>
        requires after { publishers.items ≡ publishers_with sub (is_some (option_copied doc)) self.now.publishers }
        requires shared { is_shared publishers.items ≡ true }
        ensures { IfOk result (λ part. IsChange sub (option_copied doc.entry) self.now (Part part)) }
    {
        let _was = self.fields.len();
        let fields = changed_fields(alloc, &self.fields, sub, doc)?;
        let _len = fields.len();
        Ok(Shared { publishers, fields })
    }

    /// The fields that the subscription publishes.
    pub(crate) fn fields_by(&self, alloc: Global, sub: u64) -> Result<Doc, Mem>
        ensures { IfOk result (λ doc. doc ≡ filter_map_entries (λ f claims. claimed sub claims) self.now.fields) }
    {
        let mut doc = Doc::new(alloc);
        for (name, claims) in self.fields.iter() {
            match claims.claim_of(sub) {
                None => {}
                Some(value) => put_copy(&mut doc, name, value)?,
            }
        }
        Ok(doc)
    }

    /// Makes a place for each field of the change.
    pub(crate) fn make_places(&mut self, alloc: Global, part: &Shared) -> Result<(), Mem>
        ensures grown { IsDocGrown self.old self.new }
        ensures room { OnOk result (HasPlaces self.new (Part part.now)) }
    {
        let made = make_places(&mut self.fields, alloc, &part.fields);
        let _len = self.fields.len();
        made
    }

    /// Takes over the change. It takes no memory.
    pub(crate) fn take(&mut self, part: Shared)
        requires places { HasPlaces self.old (Part part) }
        requires held { IsHeld (with_change self.old (Part part)) }
        ensures { SameDoc (with_change self.old (Part part)) self.new }
    {
        let Shared { publishers, fields } = part;
        self.publishers = publishers;
        take_fields(&mut self.fields, fields);
        let _len = self.fields.len();
    }

    /// The document as the client sees it.
    pub(crate) fn merged(&self, alloc: Global) -> Result<Doc, Mem>
        ensures { IfOk result (λ doc. doc ≡ merged_fields self.now.fields) }
    {
        let mut doc = Doc::new(alloc);
        for (name, claims) in self.fields.iter() {
            match claims.first() {
                None => {}
                Some(value) => put_copy(&mut doc, name, value)?,
            }
        }
        Ok(doc)
    }

    // The value that the client sees as that field.
    fn shown(&self, name: &Text) -> Option<&Value>
        ensures { option_map (λ v. view v.now) result ≡ at text_cmp (merged_fields self.now.fields) name.now }
    {
        match self.fields.get(name) {
            None => None,
            Some(claims) => claims.first(),
        }
    }

    /// The fields of this change that the client did not see before, or saw otherwise.
    pub(crate) fn new_fields(&self, alloc: Global, before: &Shared) -> Result<Doc, Mem>
        ensures { IfOk result (λ doc. doc ≡ filter_map_entries
            (λ f claims. new_of (at text_cmp (merged_fields before.now.fields) f) (first_value claims)) self.now.fields) }
    {
        let mut doc = Doc::new(alloc);
        for (name, claims) in self.fields.iter() {
            put_new(&mut doc, name, before.shown(name), claims.first())?;
        }
        Ok(doc)
    }

    /// The names of the fields of this change that the client saw before, and sees no more.
    pub(crate) fn cleared(&self, alloc: Global, before: &Shared) -> Result<Names, Mem>
        ensures { IfOk result (λ names. names ≡ keys_of (filter_map_entries
            (λ f claims. lost_of (at text_cmp (merged_fields before.now.fields) f) (first_value claims)) self.now.fields)) }
    {
        let mut names = Names::new(alloc);
        for (name, claims) in self.fields.iter() {
            push_lost(&mut names, name, before.shown(name), claims.first())?;
        }
        Ok(names)
    }
}
