//! A client's view of its documents.
ghost use Rattle.std.specs.Prelude.{◌≡◌, ◌↔◌, true, false, [], All, IsTrue, IfOk, OnOk, OnErr};
ghost use Rattle.std.specs.List.{list_any};
ghost use Rattle.std.specs.Ordering.{eq_by_cmp};
ghost use Rattle.map_model.specs.Maps.{at};
ghost use Rattle.map_model.specs.Changes.{changed};
ghost use Rattle.map_model.specs.Differences.{taken};
ghost use Rattle.value_model.specs.Order.{text_cmp};
ghost use Rattle.view_model.specs.Pending.{is_among, holders};
ghost use Rattle.view_model.specs.Views.{told, simulated, released, no_documents, IsView};
ghost use Rattle.ejson_value.specs.declared.key.Key.{Key};
ghost use Rattle.ejson_value.specs.Key.{key_cmp};
ghost use Rattle.ejson_value.specs.Messages.{said};
ghost use Rattle.ejson_value.specs.Changes.{changes_of, news_of};
ghost use Rattle.ejson_value.specs.ChangeLaws.{HaveDistinctKeys};
ghost use Rattle.collection_store.specs.Limits.{bytes_of};
ghost use Rattle.minimongo.specs.Faults.{IsFitting};
ghost use Rattle.collection_store.specs.Applied.{matching};
ghost use Rattle.minimongo.specs.Finding.{published};

use crate::fault::ViewFault;
use crate::finding::find;
use crate::restoring::{restoring, saves_at, take};
use crate::{Originals, Served};
use counted_contents::CountedContents;
use ejson_value::{Changes, Contents, DataMsg, Keys, Mem, Publishes, Text};
use selector_match::Selector;
use std::alloc::Global;
use std::marker::Model;

/// A client's documents. Contracts see the server's copy, what is shown, and which simulations hold
/// which documents. Of a document that no open simulation holds there is one copy.
#[derive(Drop)]
pub struct View {
    alloc: Global,
    contents: CountedContents,
    originals: Originals,
}

impl Model for View {
    ghost use Rattle.minimongo.specs.State.{Documents, documents_code, documents_of};

    ghost Value = { Documents };

    ghost coded = { documents_code };

    ghost view = { λ a. documents_of a.contents a.originals };
}

impl View {
    /// No documents.
    pub fn new(alloc: Global) -> View
        ensures { result ≡ no_documents }
    {
        View {
            alloc,
            contents: CountedContents::new(alloc),
            originals: Originals::new(alloc),
        }
    }

    /// Tells a proof what a view keeps: it shows the server's document, or its absence, at each key
    /// that no open simulation holds. It does nothing.
    pub fn known(&self)
        ensures { IsView key_cmp self.now }
    {
        self.contents.known();
        self.originals.known();
    }

    /// Whether the simulation of this number holds no document.
    pub fn is_free(&self, method: u32) -> bool
        ensures { IsTrue result ↔ ((k : Key) → is_among (holders key_cmp self.now.pending k) method ≡ false) }
    {
        self.originals.is_free(method)
    }

    /// What is shown.
    pub fn contents(&self) -> &Contents
        ensures { result.now ≡ self.now.view }
    {
        self.contents.contents()
    }

    /// How many bytes the shown documents have. It looks at none of them.
    pub fn bytes(&self) -> u64
        ensures { result ≡ bytes_of self.now.view }
    {
        self.contents.bytes()
    }

    /// The documents of the collection that the selector holds of, by id. Where the selector names an
    /// id it looks at the document with this id alone, and else at those of the collection.
    pub fn find(&self, collection: &Text, selector: &Selector) -> Result<Publishes, Mem>
        ensures { IfOk result (λ found. news_of found ≡ published (matching collection.now selector.now self.now.view)) }
    {
        find(self.alloc, self.contents.contents(), collection, selector)
    }

    /// Takes a message of the server about a document (Meteor's DDP.md, "Managing Data"). It is shown
    /// at once where no open simulation holds the document. `Wrong` comes exactly where the message
    /// doesn't fit the server's copy.
    pub fn apply(&mut self, message: &DataMsg) -> Result<(), ViewFault>
        ensures fits { IsFitting (at key_cmp self.old.server (said message.now).0) (said message.now).1 result }
        ensures ok { OnOk result (self.new ≡ told key_cmp (said message.now).0
            (taken text_cmp (at key_cmp self.old.server (said message.now).0) (said message.now).1) self.old) }
        ensures err { OnErr result (self.new ≡ self.old) }
    {
        self.originals.known();
        self.contents.known();
        let served = self.originals.serve(message)?;
        self.originals.known();
        match served {
            Served::Saved => Ok(()),
            Served::NotSaved => take(&mut self.contents, message),
        }
    }

    /// Shows what the simulation of this number makes of the view. It holds the documents that it
    /// touched until it is released. On an error nothing has changed.
    pub fn simulate(&mut self, method: u32, changes: &Changes, touched: &Keys) -> Result<(), Mem>
        requires free { (k : Key) → is_among (holders key_cmp self.old.pending k) method ≡ false }
        requires fit { All (λ change. at key_cmp self.old.view change.key ≡ change.before) changes.now }
        requires apart { HaveDistinctKeys changes.now }
        requires among { All (λ change. list_any (eq_by_cmp key_cmp change.key) touched.now ≡ true) changes.now }
        ensures ok { OnOk result (self.new ≡ simulated key_cmp method (changed key_cmp self.old.view (changes_of changes.now)) touched.now self.old) }
        ensures err { OnErr result (self.new ≡ self.old) }
    {
        self.originals.known();
        self.contents.known();
        let saves = saves_at(self.alloc, self.contents.contents(), touched)?;
        self.originals.save(method, &saves)?;
        self.originals.known();
        match self.contents.put_all(changes) {
            Ok(()) => Ok(()),
            Err(mem) => {
                self.originals.forget(&[method]);
                self.originals.known();
                Err(mem)
            }
        }
    }

    /// The simulations of these numbers are over: each document that they held and no other one does
    /// is the server's again. On an error nothing has changed.
    pub fn release(&mut self, methods: &[u32]) -> Result<(), Mem>
        ensures ok { OnOk result (self.new ≡ released key_cmp methods.now self.old) }
        ensures err { OnErr result (self.new ≡ self.old) }
    {
        self.originals.known();
        self.contents.known();
        let saves = self.originals.due(methods)?;
        let changes = restoring(self.alloc, self.contents.contents(), &saves)?;
        self.contents.put_all(&changes)?;
        self.originals.forget(methods);
        self.originals.known();
        Ok(())
    }
}
