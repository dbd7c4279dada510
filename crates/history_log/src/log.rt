//! The log.
ghost use Rattle.std.specs.Prelude.{◌≡◌, ◌+◌, ◌≤◌, ◌<◌, ◌++◌, ◌∷◌, [], length, IfOk, OnOk, OnErr};
ghost use Rattle.history_model.specs.declared.entry.Entry.TheVariants.{Admin};
ghost use Rattle.history_log.specs.Entries.{told_operation};
ghost use Rattle.history_log.specs.Log.{entries_in, changes_behind, rows_after, without_last, settled};
ghost use Rattle.history_model.specs.Lines.{store_lines, history_lines};

use crate::batch::Batch;
use crate::changes::{joined, made};
use crate::kept_entry::KeptEntry;
use crate::lines::{first_line, push_docs, push_entries};
use ejson_codec::Lines;
use ejson_value::{Change, Changes, Contents, Mem, Text};
use history_model::entry::Entry;
use std::alloc::Global;
use std::marker::Model;

/// An entry, with the changes that it made.
#[derive(Drop)]
pub struct Logged {
    pub entry: KeptEntry,
    pub changes: Changes,
}

/// The entries of a history, oldest first, each with the changes that it made. A contract sees it as
/// their list.
#[derive(Drop)]
pub struct Log {
    logged: Vec<Logged>,
    // Where the lines of entries are written before they are kept.
    room: Vec<u8>,
}

impl Model for Log {
    ghost use Rattle.std.specs.Prelude.{List};
    ghost use Rattle.std.specs.Coded.{codes};
    ghost use Rattle.value_model.specs.Coding.{val_code};
    ghost use Rattle.history_log.specs.declared.log.Logged.{Logged};

    ghost Value = { List Logged };

    ghost coded = { Prim.hlevel (codes, val_code) };

    ghost view = { λ l. l.logged.items };
}

impl Log {
    /// The log of a history without entries.
    pub fn new(alloc: Global) -> Log
        ensures { result ≡ [] }
    {
        Log {
            logged: Vec::new(alloc),
            room: Vec::new(alloc),
        }
    }

    fn allocator(&self) -> Global {
        *self.logged.allocator()
    }

    /// How many entries there are.
    pub fn length(&self) -> u64
        ensures { result ≡ length self.now }
    {
        self.logged.len() as u64
    }

    /// Puts an entry behind the others. It has made no changes yet: with `settle` they are set
    /// without memory, and with `pop` the entry is taken back.
    pub fn push(&mut self, entry: Entry) -> Result<(), Mem>
        ensures ok { OnOk result (self.new ≡ self.old ++ record { entry = entry; changes = [] } ∷ []) }
        ensures err { OnErr result (self.new ≡ self.old) }
    {
        let alloc = self.allocator();
        let entry = KeptEntry::of(alloc, &mut self.room, entry)?;
        let changes = Changes::new(alloc);
        self.logged.push(Logged { entry, changes })?;
        Ok(())
    }

    /// Puts the operation that the text tells of behind the other entries, as `push` does. The text is
    /// kept as it stands: the line that is printed of the entry is made of it when it is asked for.
    pub fn push_told(&mut self, text: &Text) -> Result<(), Mem>
        ensures ok { OnOk result (self.new ≡ self.old ++ record { entry = Admin (told_operation text.now); changes = [] } ∷ []) }
        ensures err { OnErr result (self.new ≡ self.old) }
    {
        let alloc = self.allocator();
        let entry = KeptEntry::told(text)?;
        let changes = Changes::new(alloc);
        self.logged.push(Logged { entry, changes })?;
        Ok(())
    }

    /// Takes the last entry back.
    pub fn pop(&mut self)
        ensures { self.new ≡ without_last self.old }
    {
        drop(self.logged.pop());
    }

    /// The last entry made these changes.
    pub fn settle(&mut self, changes: Changes)
        ensures { self.new ≡ settled self.old changes }
    {
        if let Some(last) = self.logged.last_mut() {
            last.changes = changes;
        }
    }

    /// The changes of the entry behind the first `entry`.
    pub fn changes_of(&self, entry: u64) -> &[Change]
        requires { entry < length self.now }
        ensures { result.now ≡ changes_behind self.now entry 1 }
    {
        self.logged[entry as usize].changes.as_slice()
    }

    /// The changes of `count` entries behind the first `from`.
    pub fn batch(&self, from: u64, count: u64) -> Result<Batch, Mem>
        requires { from + count ≤ length self.now }
        ensures { IfOk result (λ batch. batch ≡ record { from = from; count = count; changes = changes_behind self.now from count }) }
    {
        let some = &self.logged[from as usize..(from + count) as usize];
        Ok(Batch {
            from,
            count,
            changes: joined(self.allocator(), some)?,
        })
    }

    /// The documents after the first `at` entries, made anew by their changes, one after another.
    pub fn contents_at(&self, at: u64) -> Result<Contents, Mem>
        requires { at ≤ length self.now }
        ensures { IfOk result (λ contents. contents ≡ rows_after self.now at) }
    {
        made(self.allocator(), &self.logged[..at as usize])
    }

    /// The lines of a store with these documents: how many entries there are, and the documents by
    /// collection and id.
    pub fn store_lines(&self, contents: &Contents) -> Result<Lines, Mem>
        ensures { IfOk result (λ lines. lines ≡ store_lines (length self.now) contents.now) }
    {
        let mut lines = first_line(self.allocator(), "store", self.length())?;
        push_docs(self.allocator(), &mut lines, contents)?;
        Ok(lines)
    }

    /// The lines of the history: how many entries there are, and the entries.
    pub fn history_lines(&self) -> Result<Lines, Mem>
        ensures { IfOk result (λ lines. lines ≡ history_lines (entries_in self.now)) }
    {
        let mut lines = first_line(self.allocator(), "history", self.length())?;
        push_entries(self.allocator(), &mut lines, &self.logged)?;
        Ok(lines)
    }
}
