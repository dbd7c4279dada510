//! The lines of a journal.
ghost use Rattle.std.specs.Prelude.{◌≡◌, ◌+◌, ◌<◌, ◌++◌, ◌∷◌, [], length, replicate, nat_lt, IfOk, OnOk};
ghost use Rattle.connection.specs.Printed.{texts_in, record_at, Prints, all_printed, head_text, session_lines};

use crate::items::{item_line, list_text, worded};
use crate::texts::push_texts;
use ejson_codec::Lines;
use ejson_value::{Mem, Text, Value};
use session_core::session_texts::session_name;
use session_core::{Line, Session};
use std::alloc::Global;

// How many items and how many texts are printed.
#[derive(Drop)]
pub(crate) struct Place {
    pub(crate) items: usize,
    pub(crate) texts: usize,
}

// An item, and its texts.
fn push_item(
    alloc: Global,
    session: &Session,
    sent: &[Text],
    place: &mut Place,
    lines: &mut Lines,
    line: &Line,
) -> Result<(), Mem>
    requires { length (texts_in sent.now session.now) < 18446744073709551616 }
    ensures { OnOk result (Prints session.now sent.now (line.now ∷ []) place.old place.new lines.old lines.new) }
{
    let Some(count) = session.counts().get(place.items) else {
        return Ok(());
    };
    lines.push(item_line(alloc, line)?)?;
    push_texts(alloc, session, sent, &mut place.texts, lines, *count)?;
    place.items += 1;
    Ok(())
}

// So many such items, each with its texts.
fn push_record(
    alloc: Global,
    session: &Session,
    sent: &[Text],
    place: &mut Place,
    lines: &mut Lines,
    line: &Line,
    times: u64,
) -> Result<(), Mem>
    requires { length (texts_in sent.now session.now) < 18446744073709551616 }
    ensures { OnOk result (Prints session.now sent.now (replicate times line.now) place.old place.new lines.old lines.new) }
{
    for turn in 0..times {
        push_item(alloc, session, sent, place, lines, line)?;
    }
    Ok(())
}

// The record at this place of the journal, where there is one.
fn push_at(
    alloc: Global,
    session: &Session,
    sent: &[Text],
    place: &mut Place,
    lines: &mut Lines,
    at: usize,
) -> Result<(), Mem>
    requires { length (texts_in sent.now session.now) < 18446744073709551616 }
    ensures { OnOk result (Prints session.now sent.now (record_at session.now at) place.old place.new lines.old lines.new) }
{
    match session.record(at) {
        None => Ok(()),
        Some((line, times)) => push_record(alloc, session, sent, place, lines, line, times),
    }
}

// All items, each with its texts.
fn push_all(alloc: Global, session: &Session, sent: &[Text], lines: &mut Lines) -> Result<(), Mem>
    requires { length (texts_in sent.now session.now) < 18446744073709551616 }
    ensures { OnOk result (lines.new ≡ lines.old ++ all_printed session.now sent.now) }
{
    let mut place = Place { items: 0, texts: 0 };
    for at in 0..session.records() as usize {
        push_at(alloc, session, sent, &mut place, lines, at)?;
    }
    Ok(())
}

fn head_line(alloc: Global, number: u32) -> Result<Text, Mem>
    ensures { IfOk result (λ words. words ≡ head_text number) }
{
    let mut items = worded(alloc, "journal")?;
    items.push(Value::Text(session_name(alloc, number)?))?;
    list_text(alloc, items)
}

// Whether the texts can be counted.
fn are_few(session: &Session, sent: &[Text]) -> bool
    ensures { result ≡ nat_lt (length (texts_in sent.now session.now)) 18446744073709551616 }
{
    sent.len().checked_add(session.outbox().len()).is_some()
}

/// A line for each item of the session of this number, and behind it one for each of its texts: those
/// that were sent, and those that are to be.
pub fn journal_lines(
    alloc: Global,
    number: u32,
    session: &Session,
    sent: &[Text],
) -> Result<Lines, Mem>
    requires { session.now.carried.number ≡ number }
    ensures { IfOk result (λ lines. lines ≡ session_lines session.now sent.now) }
{
    if !are_few(session, sent) {
        return Err(Mem);
    }
    let mut lines = Lines::new(alloc);
    lines.push(head_line(alloc, number)?)?;
    push_all(alloc, session, sent, &mut lines)?;
    Ok(lines)
}
