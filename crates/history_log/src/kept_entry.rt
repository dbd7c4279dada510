//! An entry as a log keeps it.
ghost use Rattle.std.specs.Prelude.{◌≡◌, ℕ, List, IfOk, IfSome, IsTrue};
ghost use Rattle.std.specs.List.{list_all};
ghost use Rattle.ejson_value.specs.View.{view, views};
ghost use Rattle.history_model.specs.declared.entry.Entry.TheVariants.{Begin, Admin};
ghost use Rattle.history_log.specs.Entries.{items_in, operation_among, told_operation, is_shallow, IsReadBack, Says, Keeps};
ghost use Rattle.history_model.specs.Lines.{entry_value, line_of};

use crate::lines::{entry_line, step_line};
use ejson_codec::{ParseFault, parse};
use ejson_value::{Items, Mem, Text, Value, depth};
use history_model::entry::Entry;
use std::alloc::Global;
use std::marker::Model;

/// How many lists, objects and values of user types may stand in one another in a text that is read.
const MAX_LEVELS: u64 = 32;

/// The greatest of EJSON's numbers.
const MAX_NUMBER: u64 = 9_007_199_254_740_991;

/// An entry of a history. It is kept as the line that is printed of it, where it can be read back from
/// the line, or as a text that tells of it. A contract sees it as the entry.
#[derive(Drop)]
pub struct KeptEntry {
    form: Form,
}

#[derive(Drop)]
enum Form {
    Step { session: u32, k: u64 },
    Begin { session: u32, line: Text },
    Admin { line: Text },
    // An operation, as the text that tells of it.
    Told { text: Text },
    // What can't be read back from its line.
    Whole(Box<Entry>),
}

impl Model for KeptEntry {
    ghost use Rattle.std.specs.Coded.{codes};
    ghost use Rattle.value_model.specs.Coding.{val_code};
    ghost use Rattle.history_model.specs.declared.entry.Entry.{Entry};

    ghost Value = { Entry };

    ghost coded = { Prim.hlevel (codes, val_code) };

    ghost use Rattle.history_log.specs.Entries.{entry_of, HasLine};

    ghost view = { λ e. entry_of e.form };

    ghost invariant = { λ e. HasLine e.form };
}

fn is_shallow(value: &Value) -> bool
    ensures { result ≡ is_shallow (view value.now) }
{
    depth(value) <= MAX_LEVELS - 2
}

// Whether the list of the values may stand in a line that is read back.
fn are_shallow(values: &[Value]) -> bool
    ensures { result ≡ list_all (λ v. is_shallow v) (views values.now) }
{
    for value in values {
        if !is_shallow(value) {
            return false;
        }
    }
    true
}

fn may_tell_call(k: u64, params: &Items, seed: &Value) -> bool
    ensures { IsTrue result → (session : ℕ) (method : List ℕ) → IsReadBack (entry_value (Begin session k method params.now seed.now)) }
{
    params.known();
    seed.known();
    if k > MAX_NUMBER {
        return false;
    }
    are_shallow(params.as_slice()) && is_shallow(seed)
}

fn may_tell_operation(op: &Items) -> bool
    ensures { IsTrue result → IsReadBack (entry_value (Admin op.now)) }
{
    op.known();
    are_shallow(op.as_slice())
}

// Whether the entry may be kept as its line. A step is smaller than its line.
fn may_have_line(entry: &Entry) -> bool
    ensures { IsTrue result → IsReadBack (entry_value entry.now) }
{
    match entry {
        Entry::Begin {
            k,
            params,
            seed,
            ..
        } => may_tell_call(*k, params, seed),
        Entry::Step { .. } => false,
        Entry::Admin { op } => may_tell_operation(op),
    }
}

// The entry's line, None where the entry isn't kept as its line.
fn line_told(alloc: Global, room: &mut Vec<u8>, entry: &Entry) -> Result<Option<Text>, Mem>
    ensures { IfOk result (λ told. IfSome told (λ line. Says line (entry_value entry.now))) }
{
    if may_have_line(entry) {
        Ok(Some(entry_line(alloc, room, entry)?))
    } else {
        Ok(None)
    }
}

fn with_line(entry: Entry, line: Text) -> Form
    requires { Says line (entry_value entry) }
    ensures { Keeps result entry }
{
    match entry {
        Entry::Begin { session, .. } => Form::Begin { session, line },
        Entry::Step { session, k } => Form::Step { session, k },
        Entry::Admin { .. } => Form::Admin { line },
    }
}

fn without_line(alloc: Global, entry: Entry) -> Result<Form, Mem>
    ensures { IfOk result (λ form. Keeps form entry) }
{
    match entry {
        Entry::Step { session, k } => Ok(Form::Step { session, k }),
        entry => Ok(Form::Whole(Box::new(alloc, entry)?)),
    }
}

fn form_of(alloc: Global, room: &mut Vec<u8>, entry: Entry) -> Result<Form, Mem>
    ensures { IfOk result (λ form. Keeps form entry) }
{
    match line_told(alloc, room, &entry)? {
        Some(line) => Ok(with_line(entry, line)),
        None => without_line(alloc, entry),
    }
}

// The list that the value is, an empty one where it is none.
fn list_of_value(alloc: Global, value: &Value) -> Result<Items, Mem>
    ensures { IfOk result (λ items. items ≡ items_in (view value.now)) }
{
    match value {
        Value::List(items) => items.copy(),
        Value::Null
        | Value::Bool(_)
        | Value::Int(_)
        | Value::Text(_)
        | Value::Date(_)
        | Value::Bytes(_)
        | Value::Object(_)
        | Value::User { .. } => Ok(Items::new(alloc)),
    }
}

// The operation that stands behind the first word.
fn operation_among(alloc: Global, words: &[Value]) -> Result<Items, Mem>
    ensures { IfOk result (λ op. op ≡ operation_among (views words.now)) }
{
    match words {
        [_, op, ..] => list_of_value(alloc, op),
        _ => Ok(Items::new(alloc)),
    }
}

// The operation that the text tells of.
fn told_operation(alloc: Global, text: &Text) -> Result<Items, Mem>
    ensures { IfOk result (λ op. op ≡ told_operation text.now) }
{
    match parse(alloc, text) {
        Ok(value) => {
            let words = list_of_value(alloc, &value)?;
            operation_among(alloc, words.as_slice())
        }
        Err(ParseFault::NotJson) => Ok(Items::new(alloc)),
        Err(ParseFault::Ejson(_)) => Ok(Items::new(alloc)),
        Err(ParseFault::Memory) => Err(Mem),
    }
}

// The line that is printed of the operation that the text tells of.
fn told_line(alloc: Global, room: &mut Vec<u8>, text: &Text) -> Result<Text, Mem>
    ensures { IfOk result (λ line. line ≡ line_of (entry_value (Admin (told_operation text.now)))) }
{
    let op = told_operation(alloc, text)?;
    let entry = Entry::Admin { op };
    entry_line(alloc, room, &entry)
}

impl KeptEntry {
    /// Keeps the entry, whose line is written in the room.
    pub(crate) fn of(alloc: Global, room: &mut Vec<u8>, entry: Entry) -> Result<KeptEntry, Mem>
        ensures { IfOk result (λ kept. kept ≡ entry) }
    {
        Ok(KeptEntry {
            form: form_of(alloc, room, entry)?,
        })
    }

    /// Keeps the operation that the text tells of, as the text.
    pub(crate) fn told(text: &Text) -> Result<KeptEntry, Mem>
        ensures { IfOk result (λ kept. kept ≡ Admin (told_operation text.now)) }
    {
        let text = text.copy()?;
        Ok(KeptEntry {
            form: Form::Told { text },
        })
    }

    /// The line that is printed of the entry. What isn't kept as its line is written in the room.
    pub(crate) fn line(&self, alloc: Global, room: &mut Vec<u8>) -> Result<Text, Mem>
        ensures { IfOk result (λ line. line ≡ line_of (entry_value self.now)) }
    {
        match &self.form {
            Form::Step { session, k } => step_line(alloc, room, *session, *k),
            Form::Begin { line, .. } => line.copy(),
            Form::Admin { line } => line.copy(),
            Form::Told { text } => told_line(alloc, room, text),
            Form::Whole(entry) => entry_line(alloc, room, entry.as_ref()),
        }
    }
}
