//! Lines of a word and perhaps a number.
ghost use Rattle.std.specs.Prelude.{◌≡◌, ◌++◌, ◌∷◌, [], IfOk, OnOk, Some};
ghost use Rattle.value_model.specs.Val.{text, list, vals_of};
ghost use Rattle.world_core.specs.history_model.Lines.{number, line_of, worded};
ghost use Rattle.world_model.specs.Lines.{answer_values, broken_values, refusal_values, texts_of};

use ejson_codec::{Lines, text};
use ejson_value::{Items, Mem, Text, Value, Whole};
use std::alloc::Global;
use world_model::Answer;

// The text of the list of these values. It takes them, so that no caller has to drop them.
fn list_text(alloc: Global, items: Items) -> Result<Text, Mem>
    ensures { IfOk result (λ line. line ≡ line_of (list (vals_of items))) }
{
    let value = Value::List(items);
    let line = text(alloc, &value);
    drop(value);
    line
}

// One line of these values.
fn one_line(alloc: Global, items: Items) -> Result<Lines, Mem>
    ensures { IfOk result (λ lines. lines ≡ line_of (list (vals_of items)) ∷ []) }
{
    let mut lines = Lines::new(alloc);
    lines.push(list_text(alloc, items)?)?;
    Ok(lines)
}

fn word_alone(alloc: Global, word: &str) -> Result<Items, Mem>
    ensures { IfOk result (λ items. items ≡ text word.now ∷ []) }
{
    let mut items = Items::new(alloc);
    items.push(Value::Text(Text::from_str(alloc, word)?))?;
    Ok(items)
}

// A number past 2^53 - 1, which is none of EJSON's, finds want of memory.
fn push_number(items: &mut Items, count: u64) -> Result<(), Mem>
    ensures { OnOk result (items.new ≡ items.old ++ number count ∷ []) }
{
    let Ok(number) = i64::try_from(count) else {
        return Err(Mem);
    };
    let Some(number) = Whole::of(number) else {
        return Err(Mem);
    };
    items.push(Value::Int(number))
}

// The line of a word alone.
fn word_line(alloc: Global, word: &str) -> Result<Lines, Mem>
    ensures { IfOk result (λ lines. lines ≡ line_of (worded word.now []) ∷ []) }
{
    one_line(alloc, word_alone(alloc, word)?)
}

// The line of a word and a number.
fn numbered_line(alloc: Global, word: &str, count: u64) -> Result<Lines, Mem>
    ensures { IfOk result (λ lines. lines ≡ line_of (worded word.now (number count ∷ [])) ∷ []) }
{
    let mut items = word_alone(alloc, word)?;
    push_number(&mut items, count)?;
    one_line(alloc, items)
}

/// What is answered to an act.
pub(crate) fn answer_lines(alloc: Global, answer: Answer) -> Result<Lines, Mem>
    ensures { IfOk result (λ lines. lines ≡ texts_of (answer_values answer)) }
{
    match answer {
        Answer::Done => Ok(Lines::new(alloc)),
        Answer::Idle => word_line(alloc, "idle"),
        Answer::JournalFull => word_line(alloc, "journal full"),
        Answer::QueueFull => word_line(alloc, "queue full"),
    }
}

/// A client refuses a text for this reason.
pub(crate) fn broken_lines(alloc: Global, reason: u8) -> Result<Lines, Mem>
    ensures { IfOk result (λ lines. lines ≡ texts_of (broken_values (Some reason))) }
{
    numbered_line(alloc, "server sent", u64::from(reason))
}

/// An operation is refused with this code.
pub(crate) fn refused_lines(alloc: Global, code: u16) -> Result<Lines, Mem>
    ensures { IfOk result (λ lines. lines ≡ texts_of (refusal_values (Some code))) }
{
    numbered_line(alloc, "refused", u64::from(code))
}
