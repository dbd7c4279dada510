//! The line of an item.
ghost use Rattle.std.specs.Prelude.{◌≡◌, ◌++◌, ◌∷◌, [], IfOk, OnOk};
ghost use Rattle.value_model.specs.Val.{text as text_val, list, vals_of};
ghost use Rattle.session_core.specs.history_model.Lines.{number, line_of};
ghost use Rattle.connection_laws.specs.Printing.{id_words, kept_value};

use ejson_codec::text;
use ejson_value::{Items, Mem, Text, Value, Whole};
use session_core::{Line, Stored};
use std::alloc::Global;

// The word that says what a line is.
pub(crate) fn worded(alloc: Global, word: &str) -> Result<Items, Mem>
    ensures { IfOk result (λ items. items ≡ text_val word.now ∷ []) }
{
    let mut items = Items::new(alloc);
    items.push(Value::Text(Text::from_str(alloc, word)?))?;
    Ok(items)
}

// A number past 2^53 - 1, which is none of EJSON's, finds want of memory.
fn push_number(items: &mut Items, count: u64) -> Result<(), Mem>
    ensures { OnOk result (items.new ≡ items.old ++ number count ∷ []) }
{
    let Ok(number) = i64::try_from(count) else {
        return Err(Mem);
    };
    let Some(number) = Whole::of(number) else {
        return Err(Mem);
    };
    items.push(Value::Int(number))
}

fn push_id(items: &mut Items, id: &Option<Text>) -> Result<(), Mem>
    ensures { OnOk result (items.new ≡ items.old ++ id_words id.now) }
{
    match id {
        None => Ok(()),
        Some(id) => items.push(Value::Text(id.copy()?)),
    }
}

fn numbered(alloc: Global, word: &str, count: u64) -> Result<Items, Mem>
    ensures { IfOk result (λ items. items ≡ text_val word.now ∷ number count ∷ []) }
{
    let mut items = worded(alloc, word)?;
    push_number(&mut items, count)?;
    Ok(items)
}

fn placed(alloc: Global, word: &str, count: u64, place: u64) -> Result<Items, Mem>
    ensures { IfOk result (λ items. items ≡ text_val word.now ∷ number count ∷ number place ∷ []) }
{
    let mut items = numbered(alloc, word, count)?;
    push_number(&mut items, place)?;
    Ok(items)
}

// A word and an id.
fn named(alloc: Global, word: &str, id: &Option<Text>) -> Result<Items, Mem>
    ensures { IfOk result (λ items. items ≡ text_val word.now ∷ id_words id.now) }
{
    let mut items = worded(alloc, word)?;
    push_id(&mut items, id)?;
    Ok(items)
}

// A word, a number and an id.
fn opened(alloc: Global, word: &str, count: u64, id: &Option<Text>) -> Result<Items, Mem>
    ensures { IfOk result (λ items. items ≡ text_val word.now ∷ number count ∷ id_words id.now) }
{
    let mut items = numbered(alloc, word, count)?;
    push_id(&mut items, id)?;
    Ok(items)
}

fn words(alloc: Global, line: &Line) -> Result<Items, Mem>
    ensures { IfOk result (λ items. list (vals_of items) ≡ kept_value line.now.item line.now.id) }
{
    match line.item {
        Stored::Connect => worded(alloc, "connect"),
        Stored::Fail => worded(alloc, "fail"),
        Stored::Ping { .. } => worded(alloc, "ping"),
        Stored::Pong => worded(alloc, "pong"),
        Stored::Bad { .. } => worded(alloc, "bad"),
        Stored::Open { sub, .. } => opened(alloc, "open", sub, &line.id),
        Stored::Same { .. } => named(alloc, "same", &line.id),
        Stored::Nosub { .. } => named(alloc, "nosub", &line.id),
        Stored::Close { sub, .. } => numbered(alloc, "close", sub),
        Stored::Call { k, .. } => opened(alloc, "call", k, &line.id),
        Stored::Unknown { .. } => named(alloc, "unknown", &line.id),
        Stored::Load { sub, at } => placed(alloc, "load", sub, at),
        Stored::Advance { sub, count } => placed(alloc, "advance", sub, count),
        Stored::Refused { k, at } => placed(alloc, "refused", k, at),
        Stored::Unblocked { k } => numbered(alloc, "unblocked", k),
        Stored::Finished { k, at } => placed(alloc, "finished", k, at),
    }
}

/// The text of the list of these values. It takes them, so that no caller has to drop them.
pub(crate) fn list_text(alloc: Global, items: Items) -> Result<Text, Mem>
    ensures { IfOk result (λ words. words ≡ line_of (list (vals_of items))) }
{
    let value = Value::List(items);
    let words = text(alloc, &value);
    drop(value);
    words
}

/// The line of an item, with the id that it shows.
pub(crate) fn item_line(alloc: Global, line: &Line) -> Result<Text, Mem>
    ensures { IfOk result (λ words. words ≡ line_of (kept_value line.now.item line.now.id)) }
{
    let items = words(alloc, line)?;
    list_text(alloc, items)
}
