//! The lines that are printed of a store, written token by token.
ghost use Rattle.std.specs.Prelude.{◌≡◌, ◌++◌, ◌∷◌, [], map, codes, IfOk, OnOk};
ghost use Rattle.json.specs.Token.{begin_array, string};
ghost use Rattle.ejson_codec.specs.Tokens.{tree_tokens};
ghost use Rattle.ejson_codec.specs.Written.{written};
ghost use Rattle.ejson_value.specs.View.{view};
ghost use Rattle.history_model.specs.declared.entry.Entry.TheVariants.{Begin, Step, Admin};
ghost use Rattle.history_log.specs.Log.{entries_in};
ghost use Rattle.history_model.specs.Lines.{worded, number, session_text, doc_value, entry_value, line_of};

use crate::log::Logged;
use ejson_codec::{Lines, TextWriter, put_document, put_items, put_value};
use ejson_value::{Contents, Doc, Items, Key, Mem, Text, Value};
use history_model::entry::Entry;
use std::alloc::Global;
use std::mem;

// A line without tokens, written in the room, which is empty meanwhile.
fn line_in(alloc: Global, room: &mut Vec<u8>) -> TextWriter
    ensures { result ≡ [] }
{
    TextWriter::over(mem::replace(room, Vec::new(alloc)))
}

// Begins a line with its word.
fn begin_line(out: &mut TextWriter, word: &str) -> Result<(), Mem>
    ensures { OnOk result (out.new ≡ out.old ++ begin_array ∷ string word.now ∷ []) }
{
    out.begin_array()?;
    out.string(word)
}

// A number past 2^63 - 1 finds want of memory.
fn put_number(out: &mut TextWriter, count: u64) -> Result<(), Mem>
    ensures { OnOk result (out.new ≡ out.old ++ tree_tokens (written (number count))) }
{
    match i64::try_from(count) {
        Ok(count) => out.whole(count),
        Err(_) => Err(Mem),
    }
}

fn put_count(out: &mut TextWriter, word: &str, count: u64) -> Result<(), Mem>
    ensures { OnOk result (out.new ≡ out.old ++ tree_tokens (written (worded word.now (number count ∷ [])))) }
{
    begin_line(out, word)?;
    put_number(out, count)?;
    out.end_array()
}

fn count_line(alloc: Global, word: &str, count: u64) -> Result<Text, Mem>
    ensures { IfOk result (λ line. line ≡ line_of (worded word.now (number count ∷ []))) }
{
    let mut out = TextWriter::new(alloc)?;
    put_count(&mut out, word, count)?;
    out.finish()
}

/// The first line: a word, and how many entries there are.
pub(crate) fn first_line(alloc: Global, word: &str, entries: u64) -> Result<Lines, Mem>
    ensures { IfOk result (λ lines. lines ≡ line_of (worded word.now (number entries ∷ [])) ∷ []) }
{
    let line = count_line(alloc, word, entries)?;
    let mut lines = Lines::new(alloc);
    lines.push(line)?;
    Ok(lines)
}

/// The first line of a store whose history has so many entries.
pub fn store_line(alloc: Global, entries: u64) -> Result<Text, Mem>
    ensures { IfOk result (λ line. line ≡ line_of (worded (codes "store") (number entries ∷ []))) }
{
    count_line(alloc, "store", entries)
}

fn put_doc(alloc: Global, out: &mut TextWriter, key: &Key, doc: &Doc) -> Result<(), Mem>
    ensures { OnOk result (out.new ≡ out.old ++ tree_tokens (written (doc_value (key.now, doc.now)))) }
{
    begin_line(out, "doc")?;
    out.string(key.collection.as_str())?;
    out.string(key.id.as_str())?;
    put_document(alloc, out, doc)?;
    out.end_array()
}

/// The line of a document of a store, written in the room.
pub fn doc_line(alloc: Global, room: &mut Vec<u8>, key: &Key, doc: &Doc) -> Result<Text, Mem>
    ensures { IfOk result (λ line. line ≡ line_of (doc_value (key.now, doc.now))) }
{
    let mut out = line_in(alloc, room);
    put_doc(alloc, &mut out, key, doc)?;
    out.finish_with(alloc, room)
}

/// A line for each document.
pub(crate) fn push_docs(alloc: Global, lines: &mut Lines, rows: &Contents) -> Result<(), Mem>
    ensures { OnOk result (lines.new ≡ lines.old ++ map line_of (map doc_value rows.now)) }
{
    let mut room = Vec::new(alloc);
    for (key, doc) in rows.iter() {
        lines.push(doc_line(alloc, &mut room, key, doc)?)?;
    }
    Ok(())
}

fn put_session(alloc: Global, out: &mut TextWriter, session: u32) -> Result<(), Mem>
    ensures { OnOk result (out.new ≡ out.old ++ string (session_text session) ∷ []) }
{
    let name = format!(in alloc; "S{session}")?;
    out.string(name.as_str())
}

// Begins a line with a word, and which call it is.
fn begin_call(
    alloc: Global,
    out: &mut TextWriter,
    word: &str,
    session: u32,
    k: u64,
) -> Result<(), Mem>
    ensures { OnOk result (out.new ≡ out.old ++ begin_array ∷ string word.now ∷ string (session_text session) ∷ tree_tokens (written (number k))) }
{
    begin_line(out, word)?;
    put_session(alloc, out, session)?;
    put_number(out, k)
}

fn put_begin(
    alloc: Global,
    out: &mut TextWriter,
    session: u32,
    k: u64,
    method: &Text,
    params: &Items,
    seed: &Value,
) -> Result<(), Mem>
    ensures { OnOk result (out.new ≡ out.old ++ tree_tokens (written (entry_value (Begin session k method.now params.now seed.now)))) }
{
    begin_call(alloc, out, "begin", session, k)?;
    out.string(method.as_str())?;
    put_items(alloc, out, params)?;
    put_value(alloc, out, seed)?;
    out.end_array()
}

fn put_step(alloc: Global, out: &mut TextWriter, session: u32, k: u64) -> Result<(), Mem>
    ensures { OnOk result (out.new ≡ out.old ++ tree_tokens (written (entry_value (Step session k)))) }
{
    begin_call(alloc, out, "step", session, k)?;
    out.end_array()
}

fn put_admin(alloc: Global, out: &mut TextWriter, op: &Items) -> Result<(), Mem>
    ensures { OnOk result (out.new ≡ out.old ++ tree_tokens (written (entry_value (Admin op.now)))) }
{
    begin_line(out, "admin")?;
    put_items(alloc, out, op)?;
    out.end_array()
}

fn put_entry(alloc: Global, out: &mut TextWriter, entry: &Entry) -> Result<(), Mem>
    ensures { OnOk result (out.new ≡ out.old ++ tree_tokens (written (entry_value entry.now))) }
{
    match entry {
        Entry::Begin {
            session,
            k,
            method,
            params,
            seed,
        } => put_begin(alloc, out, *session, *k, method, params, seed),
        Entry::Step { session, k } => put_step(alloc, out, *session, *k),
        Entry::Admin { op } => put_admin(alloc, out, op),
    }
}

/// The line of an entry, written in the room.
pub(crate) fn entry_line(alloc: Global, room: &mut Vec<u8>, entry: &Entry) -> Result<Text, Mem>
    ensures { IfOk result (λ line. line ≡ line_of (entry_value entry.now)) }
{
    let mut out = line_in(alloc, room);
    put_entry(alloc, &mut out, entry)?;
    out.finish_with(alloc, room)
}

/// The line of a step, written in the room.
pub(crate) fn step_line(
    alloc: Global,
    room: &mut Vec<u8>,
    session: u32,
    k: u64,
) -> Result<Text, Mem>
    ensures { IfOk result (λ line. line ≡ line_of (entry_value (Step session k))) }
{
    let mut out = line_in(alloc, room);
    put_step(alloc, &mut out, session, k)?;
    out.finish_with(alloc, room)
}

/// A line for each entry.
pub(crate) fn push_entries(alloc: Global, lines: &mut Lines, logged: &[Logged]) -> Result<(), Mem>
    ensures { OnOk result (lines.new ≡ lines.old ++ map line_of (map entry_value (entries_in logged.now))) }
{
    let mut room = Vec::new(alloc);
    for one in logged {
        lines.push(one.entry.line(alloc, &mut room)?)?;
    }
    Ok(())
}
