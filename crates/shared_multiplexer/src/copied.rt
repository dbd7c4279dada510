//! Entries that were copied out of a store.
ghost use Rattle.std.specs.Prelude.{◌≡◌, ◌+◌, ◌<◌, ◌≤◌, ◌++◌, [], List, length, IfOk, OnOk, OnErr};
ghost use Rattle.app_model.specs.App.{App};
ghost use Rattle.history_model.specs.declared.entry.Entry.{Entry};
ghost use Rattle.store_machine.specs.State.{MachineState};
ghost use Rattle.shared_store.specs.Store.{over};
ghost use Rattle.shared_multiplexer.specs.Copied.{all_of, changes_in, next_of, with_one, AreCopiedOf, IsNext, IsBatchOf};

use ejson_value::{Change, Changes, Mem};
use history_log::Batch;
use std::alloc::Global;
use std::marker::Model;
use world_news_laws::multiplexer::Entries;

/// What some entries of a store's history changed, one behind another. A contract sees how many entries stand before
/// them, and the changes of each.
#[derive(Drop)]
pub struct CopiedEntries {
    first: u64,
    changes: Vec<Changes>,
}

impl Model for CopiedEntries {
    ghost use Rattle.std.specs.Prelude.{◌+◌, ◌<◌, length};
    ghost use Rattle.std.specs.Coded.{codes};
    ghost use Rattle.value_model.specs.Coding.{val_code};
    ghost use Rattle.shared_multiplexer.specs.Copied.{ACopy};

    ghost Value = { ACopy };

    ghost coded = { Prim.hlevel (codes, val_code) };

    ghost view = { λ c. record { first = c.first; changes = c.changes.items } };

    ghost invariant = { λ c. c.first + length c.changes.items < 18446744073709551616 };
}

fn copy_all(changes: &mut Changes, more: &[Change]) -> Result<(), Mem>
    ensures { OnOk result (changes.new ≡ changes.old ++ more.now) }
{
    for change in more {
        changes.push(change.copy()?)?;
    }
    Ok(())
}

// The changes of these entries, one after another.
fn joined(alloc: Global, all: &[Changes]) -> Result<Changes, Mem>
    ensures { IfOk result (λ changes. changes ≡ all_of all.now) }
{
    let mut changes = Changes::new(alloc);
    for one in all {
        copy_all(&mut changes, one.as_slice())?;
    }
    Ok(changes)
}

impl CopiedEntries {
    /// None yet; the first is to stand behind so many.
    pub fn new(alloc: Global, first: u64) -> CopiedEntries
        ensures none { result ≡ record { first = first; changes = [] } }
        ensures are { (m : MachineState) → first ≤ length m.history → AreCopiedOf result m }
    {
        CopiedEntries {
            first,
            changes: Vec::new(alloc),
        }
    }

    /// How many entries of the history stand before these.
    pub fn first(&self) -> u64
        ensures { result ≡ self.now.first }
    {
        self.first
    }

    /// How many entries of the history stand before the next one behind these.
    pub fn next(&self) -> u64
        ensures next { result ≡ next_of self.now }
        ensures numbered { next_of self.now < 18446744073709551616 }
    {
        self.first + self.changes.len() as u64
    }

    /// The next entry is the batch's. No history is so long that it could not be counted; then there is no memory.
    pub fn push(&mut self, batch: Batch) -> Result<(), Mem>
        ensures ok { OnOk result (self.new ≡ with_one self.old batch.changes) }
        ensures err { OnErr result (self.new ≡ self.old) }
        ensures are { (m : MachineState) → AreCopiedOf self.old m → IsNext self.old m batch.changes → OnOk result (AreCopiedOf self.new m) }
    {
        if self.next() == u64::MAX {
            return Err(Mem);
        }
        self.changes.push(batch.changes)?;
        Ok(())
    }

    /// The changes of so many of them, behind the first `from` of the history.
    pub fn batch(&self, from: u64, count: u64) -> Result<Batch, Mem>
        requires first { self.now.first ≤ from }
        requires next { from + count ≤ next_of self.now }
        ensures { (app : App) (list : List Entry) → AreCopiedOf self.now (over app list) → IfOk result (IsBatchOf app list from count) }
    {
        self.batch_behind(from, count)
    }

    // The changes of the one at this place of the history.
    fn changes_behind(&self, place: u64) -> &[Change]
        requires first { self.now.first ≤ place }
        requires next { place < next_of self.now }
        ensures { result.now ≡ changes_in self.now place 1 }
    {
        self.changes[(place - self.first) as usize].as_slice()
    }

    // The changes of so many of them, from a place of the history on.
    fn batch_behind(&self, from: u64, count: u64) -> Result<Batch, Mem>
        requires first { self.now.first ≤ from }
        requires next { from + count ≤ next_of self.now }
        ensures { IfOk result (λ batch. batch ≡ record { from = from; count = count; changes = changes_in self.now from count }) }
    {
        let start = (from - self.first) as usize;
        let some = &self.changes[start..start + count as usize];
        Ok(Batch {
            from,
            count,
            changes: joined(*self.changes.allocator(), some)?,
        })
    }
}

impl Entries for CopiedEntries {
    ghost use Rattle.shared_multiplexer.specs.Copied.{AreCopiedOf, next_of};

    ghost are_of = { AreCopiedOf };

    ghost first = { λ c. c.first };

    ghost next = { next_of };

    fn begins(&self) -> u64 {
        self.first
    }

    fn changes_at(&self, place: u64) -> &[Change] {
        self.changes_behind(place)
    }

    fn batch_at(&self, from: u64, count: u64) -> Result<Batch, Mem> {
        self.batch_behind(from, count)
    }
}
