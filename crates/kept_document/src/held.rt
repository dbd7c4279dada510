//! What is kept of one document, and what changes of it.
ghost use Rattle.std.specs.Prelude.{◌≡◌, ◌==◌, true, false, not, OnOk, IfOk, IfSome, option_copied, None, Some, if◌then◌else◌};
ghost use Rattle.std.specs.List.{list_any};
ghost use Rattle.merge_model.specs.Kept.{has, is_empty, nothing_kept, merged_fields};
ghost use Rattle.kept_document.specs.declared.held.Change.TheVariants.{Whole};
ghost use Rattle.kept_document.specs.Held.{is_shared, has_other, IsAlone, sole, alone, alone_if, left_to, IsHeld, SameDoc, IsDocGrown};
ghost use Rattle.kept_document.specs.Changes.{held_in, with_change, IsChange, HasPlaces, IsFor};

use crate::shared::Shared;
use ejson_value::{Doc, Mem};
use std::alloc::Global;
use std::marker::Model;

// Who publishes a document: nobody; one subscription, with the document that it publishes; or several.
#[derive(Drop)]
enum Form {
    Nobody,
    One { sub: u64, doc: Doc },
    Several(Shared),
}

/// What is kept of a document. That of one publisher alone is kept plain, as one whole document; the
/// claims on each field are kept while there are two or more. A contract sees the claims either way,
/// as `Kept`.
pub struct Held {
    form: Form,
}

/// What changes of a document: all that is kept of it, or, while two or more subscriptions publish
/// it before and afterwards, the claims on some of its fields.
#[derive(Drop)]
pub enum Change {
    Whole(Held),
    Part(Shared),
}

impl Model for Held {
    ghost use Rattle.std.specs.Prelude.{ℕ, List};
    ghost use Rattle.value_model.specs.Val.{Val};
    ghost use Rattle.merge_model.specs.Kept.{Kept};
    ghost use Rattle.kept_document.specs.Held.{kept_code, IsHeld};
    ghost use Rattle.kept_document.specs.Forms.{kept_of};

    ghost Value = { Kept (List ℕ) Val };

    ghost coded = { kept_code };

    ghost view = { λ a. kept_of a.form };

    ghost invariant = { λ a. IsHeld (kept_of a.form) };
}

// By a call, so that no walk of the borrow checker splits where it is dropped.
impl Drop for Held {
    fn drop(self) {
        let Held { form } = self;
    }
}

// Whether another subscription than the first is among these.
fn has_other(others: &[u64], first: u64) -> bool
    ensures { result ≡ list_any (λ r. not (r == first)) others.now }
{
    for other in others {
        if *other != first {
            return true;
        }
    }
    false
}

// The publisher, if there is one alone.
fn sole(publishers: &[u64]) -> Option<u64>
    ensures { result ≡ sole publishers.now }
{
    match publishers {
        [] => None,
        [first, others @ ..] => {
            if has_other(others, *first) {
                None
            } else {
                Some(*first)
            }
        }
    }
}

// What is kept of a document that the subscription alone is left to publish.
fn left_to(alloc: Global, shared: &Shared, publisher: u64) -> Result<Held, Mem>
    ensures { IfOk result (λ held. held ≡ left_to publisher shared.now) }
{
    let doc = shared.fields_by(alloc, publisher)?;
    Ok(Held::one(publisher, doc))
}

// What changes of a document that several subscriptions publish, once `sub` publishes this, or none.
fn change_of_shared(
    alloc: Global,
    shared: &Shared,
    sub: u64,
    doc: Option<&Doc>,
) -> Result<Change, Mem>
    ensures { IfOk result (λ change. IsChange sub (option_copied doc.entry) shared.now change) }
{
    shared.known();
    let publishers = shared.publishers_after(alloc, sub, doc.is_some())?;
    match sole(publishers.as_slice()) {
        None => Ok(Change::Part(shared.part(alloc, publishers, sub, doc)?)),
        Some(publisher) => Ok(Change::Whole(left_to(alloc, shared, publisher)?)),
    }
}

// What is kept of a document that `first` alone publishes, once another publishes this, or none.
fn beside(alloc: Global, first: u64, doc: &Doc, sub: u64, added: Option<&Doc>) -> Result<Held, Mem>
    requires { (sub == first) ≡ false }
    ensures { IfOk result (λ held. IsChange sub (option_copied added.entry) (alone first doc.now) (Whole held)) }
{
    doc.known();
    match added {
        None => Ok(Held::one(first, doc.copy()?)),
        Some(added) => {
            let shared = Shared::of_two(alloc, first, doc, sub, added)?;
            shared.known();
            Ok(Held::several(shared))
        }
    }
}

impl Held {
    pub fn new() -> Held
        ensures { result ≡ nothing_kept }
    {
        Held { form: Form::Nobody }
    }

    // A document that the subscription alone publishes.
    fn one(sub: u64, doc: Doc) -> Held
        ensures { result ≡ alone sub doc }
    {
        doc.known();
        Held {
            form: Form::One { sub, doc },
        }
    }

    // A document that several subscriptions publish.
    fn several(shared: Shared) -> Held
        ensures { result ≡ shared }
    {
        shared.known();
        Held {
            form: Form::Several(shared),
        }
    }

    // What the subscription alone publishes, which may be no document.
    fn of(sub: u64, doc: Option<&Doc>) -> Result<Held, Mem>
        ensures { IfOk result (λ held. held ≡ alone_if sub (option_copied doc.entry)) }
    {
        match doc {
            None => Ok(Held::new()),
            Some(doc) => Ok(Held::one(sub, doc.copy()?)),
        }
    }

    /// Tells a proof what is kept whole; it does nothing.
    pub fn known(&self)
        ensures { IsHeld self.now }
    {
        let _ = &self.form;
    }

    /// Whether the subscription publishes the document.
    pub fn publishes(&self, sub: u64) -> bool
        ensures { result ≡ has sub self.now.publishers }
    {
        match &self.form {
            Form::Nobody => false,
            Form::One { sub: publisher, .. } => sub == *publisher,
            Form::Several(shared) => shared.publishes(sub),
        }
    }

    /// Whether no other subscription publishes the document.
    pub fn is_only_by(&self, sub: u64) -> bool
        ensures { result ≡ not (has_other sub self.now.publishers) }
    {
        match &self.form {
            Form::Nobody => true,
            Form::One { sub: publisher, .. } => *publisher == sub,
            Form::Several(shared) => {
                shared.known();
                false
            }
        }
    }

    pub fn is_published(&self) -> bool
        ensures { result ≡ not (is_empty self.now.publishers) }
    {
        match &self.form {
            Form::Nobody => false,
            Form::One { .. } => true,
            Form::Several(shared) => {
                shared.known();
                true
            }
        }
    }

    /// What several subscriptions publish.
    pub(crate) fn shared(&self) -> Option<&Shared>
        ensures { option_copied result ≡ (if is_shared self.now.publishers then Some self.now else None) }
    {
        match &self.form {
            Form::Nobody | Form::One { .. } => None,
            Form::Several(shared) => {
                shared.known();
                Some(shared)
            }
        }
    }

    /// Whether two or more subscriptions publish the document.
    pub fn is_shared(&self) -> bool
        ensures { result ≡ is_shared self.now.publishers }
    {
        self.shared().is_some()
    }

    /// What one subscription alone publishes.
    pub(crate) fn plain(&self) -> Option<&Doc>
        ensures { IfSome result (λ doc. doc.now ≡ merged_fields self.now.fields) }
    {
        match &self.form {
            Form::Nobody | Form::Several(_) => None,
            Form::One { doc, .. } => Some(doc),
        }
    }

    /// What changes once `sub` publishes this document, or none.
    pub fn change(&self, alloc: Global, sub: u64, doc: Option<&Doc>) -> Result<Change, Mem>
        ensures is { IfOk result (λ change. IsChange sub (option_copied doc.entry) self.now change) }
        ensures alone { IsAlone sub self.now.publishers →
            IfOk result (λ change. change ≡ Whole (alone_if sub (option_copied doc.entry))) }
    {
        match &self.form {
            Form::Nobody => {
                let held = Held::of(sub, doc)?;
                held.known();
                Ok(Change::Whole(held))
            }
            Form::One {
                sub: first,
                doc: old,
            } => {
                if sub == *first {
                    let held = Held::of(sub, doc)?;
                    held.known();
                    Ok(Change::Whole(held))
                } else {
                    Ok(Change::Whole(beside(alloc, *first, old, sub, doc)?))
                }
            }
            Form::Several(shared) => {
                shared.known();
                change_of_shared(alloc, shared, sub, doc)
            }
        }
    }

    /// Makes a place for each field of the change.
    pub fn make_places(&mut self, alloc: Global, change: &Change) -> Result<(), Mem>
        requires { IsFor self.old change.now }
        ensures grown { IsDocGrown self.old self.new }
        ensures room { OnOk result (HasPlaces self.new change.now) }
    {
        match (&mut self.form, change) {
            (Form::Several(shared), Change::Part(part)) => shared.make_places(alloc, part),
            _ => Ok(()),
        }
    }

    /// Takes over the change. It takes no memory.
    pub fn take(&mut self, change: Change)
        requires places { HasPlaces self.old change }
        requires held { IsHeld (with_change self.old change) }
        ensures same { SameDoc (with_change self.old change) self.new }
        ensures held { IsHeld self.new }
    {
        match change {
            Change::Whole(held) => *self = held,
            Change::Part(part) => {
                if let Form::Several(shared) = &mut self.form {
                    shared.take(part);
                    shared.known();
                }
            }
        }
    }

    /// The document as the client sees it.
    pub fn merged(&self, alloc: Global) -> Result<Doc, Mem>
        ensures { IfOk result (λ doc. doc ≡ merged_fields self.now.fields) }
    {
        match &self.form {
            Form::Nobody => Ok(Doc::new(alloc)),
            Form::One { doc, .. } => doc.copy(),
            Form::Several(shared) => shared.merged(alloc),
        }
    }
}

impl Change {
    /// Whether the subscription publishes the document afterwards.
    pub fn publishes(&self, sub: u64) -> bool
        ensures { result ≡ has sub (held_in self.now).publishers }
    {
        match self {
            Change::Whole(held) => held.publishes(sub),
            Change::Part(part) => part.publishes(sub),
        }
    }

    /// Whether somebody publishes the document afterwards.
    pub fn is_published(&self) -> bool
        ensures { result ≡ not (is_empty (held_in self.now).publishers) }
    {
        match self {
            Change::Whole(held) => held.is_published(),
            Change::Part(part) => {
                part.known();
                true
            }
        }
    }

    /// Whether two or more subscriptions publish the document afterwards.
    pub fn is_shared(&self) -> bool
        ensures { result ≡ is_shared (held_in self.now).publishers }
    {
        match self {
            Change::Whole(held) => held.is_shared(),
            Change::Part(part) => {
                part.known();
                true
            }
        }
    }
}
