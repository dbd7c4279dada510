//! The original of one document.
ghost use Rattle.std.specs.Prelude.{◌≡◌, ◌∷◌, [], not, is_some, IfOk, OnOk, OnErr};
ghost use Rattle.std.specs.List.{list_all};
ghost use Rattle.std.specs.Ordering.{nat_cmp};
ghost use Rattle.std.specs.BTreeSet.{contains};
ghost use Rattle.map_model.specs.Differences.{taken};
ghost use Rattle.value_model.specs.Order.{text_cmp};
ghost use Rattle.view_model.specs.Pending.{is_among, with_number, without_numbers, unless_none};
ghost use Rattle.ejson_value.specs.Messages.{said};
ghost use Rattle.minimongo.specs.Originals.{with_holders};
ghost use Rattle.minimongo.specs.Taking.{IsFitting};

use crate::serve_fault::ServeFault;
use crate::taking::taken;
use ejson_value::{DataMsg, Doc, Mem, copy_option};
use std::alloc::Global;
use std::collections::BTreeSet;
use std::marker::Model;

/// A document as the server has it, and the numbers of the simulations that hold it. Contracts see
/// it as an `Original`.
#[derive(Drop)]
pub(crate) struct Kept {
    doc: Option<Doc>,
    holders: BTreeSet<u32>,
}

impl Model for Kept {
    ghost use Rattle.std.specs.Ordering.{nat_cmp};
    ghost use Rattle.std.specs.List.Sorted.{IsStrictlySortedBy};
    ghost use Rattle.minimongo.specs.Originals.{Original, original_code};

    ghost Value = { Original };

    ghost coded = { original_code };

    ghost view = { λ a. record { doc = a.doc; holders = a.holders.keys } };

    ghost invariant = { λ a. IsStrictlySortedBy nat_cmp a.holders.keys };
}

// A set of one number.
fn one(alloc: Global, number: u32) -> Result<BTreeSet<u32>, Mem>
    ensures { IfOk result (λ numbers. numbers.keys ≡ number ∷ []) }
{
    let mut numbers = BTreeSet::new(alloc);
    let _new = numbers.insert(number)?;
    Ok(numbers)
}

impl Kept {
    /// The original of a document that one simulation holds.
    pub(crate) fn first(alloc: Global, doc: &Option<Doc>, holder: u32) -> Result<Kept, Mem>
        ensures { IfOk result (λ original. original ≡ record { doc = doc.now; holders = holder ∷ [] }) }
    {
        let holders = one(alloc, holder)?;
        let _len = holders.len();
        Ok(Kept {
            doc: copy_option(doc)?,
            holders,
        })
    }

    /// One more simulation holds the document.
    pub(crate) fn hold(&mut self, holder: u32) -> Result<(), Mem>
        ensures ok { OnOk result (self.new ≡ with_holders (with_number self.old.holders holder) self.old) }
        ensures err { OnErr result (self.new ≡ self.old) }
    {
        let _new = self.holders.insert(holder)?;
        Ok(())
    }

    /// The simulation holds the document no more. It answers whether nobody does then.
    pub(crate) fn let_go(&mut self, holder: u32) -> bool
        ensures gone { self.new ≡ with_holders (without_numbers (holder ∷ []) self.old.holders) self.old }
        ensures last { result ≡ not (is_some (unless_none (without_numbers (holder ∷ []) self.old.holders))) }
    {
        let _was = self.holders.remove(&holder);
        self.holders.is_empty()
    }

    /// Whether only these simulations hold the document.
    pub(crate) fn is_held_among(&self, numbers: &BTreeSet<u32>) -> bool
        ensures { result ≡ list_all (λ h. contains nat_cmp numbers.now h) self.now.holders }
    {
        self.holders.iter().all(|holder| numbers.contains(holder))
    }

    /// Whether the simulation holds the document.
    pub(crate) fn is_held_by(&self, number: u32) -> bool
        ensures { result ≡ is_among self.now.holders number }
    {
        self.holders.contains(&number)
    }

    /// A copy of the document.
    pub(crate) fn doc(&self) -> Result<Option<Doc>, Mem>
        ensures { IfOk result (λ doc. doc ≡ self.now.doc) }
    {
        copy_option(&self.doc)
    }

    /// Takes a message of the server.
    pub(crate) fn serve(&mut self, message: &DataMsg) -> Result<(), ServeFault>
        ensures fits { IsFitting self.old.doc (said message.now).1 result }
        ensures ok { OnOk result (self.new ≡ record { doc = taken text_cmp self.old.doc (said message.now).1; holders = self.old.holders }) }
        ensures err { OnErr result (self.new ≡ self.old) }
    {
        if let (
            Some(doc),
            DataMsg::Changed {
                fields,
                cleared,
                ..
            },
        ) = (&mut self.doc, message)
        {
            return Ok(doc.change(fields, cleared.as_slice())?);
        }
        self.doc = taken(self.doc.as_ref(), message)?;
        Ok(())
    }
}
