//! What a client has, as lines.
ghost use Rattle.std.specs.Prelude.{◌≡◌, ◌≤◌, ◌++◌, ◌∷◌, [], length, map, option_map, IfOk, OnOk, Some};
ghost use Rattle.std.specs.Option.{option_copied};
ghost use Rattle.value_model.specs.Val.{text, list, vals_of};
ghost use Rattle.ejson_value.specs.View.{view};
ghost use Rattle.program_steps.specs.Runs.{outcome_view};
ghost use Rattle.client_model.specs.Asking.{call_limit};
ghost use Rattle.ejson_codec.specs.Lines.{line_text};
ghost use Rattle.ejson_codec.specs.Lines.{doc_line};
ghost use Rattle.client_model.specs.Lines.{line_texts, state_words, sub_line, outcome_words, method_line, method_lines, head_line, shown};

use crate::calls::Call;
use crate::numbers::id_of;
use crate::subs::{Sub, Subs};
use client_model::subs::SubState;
use ejson_codec::{Lines, text};
use ejson_value::{Contents, Doc, Items, Key, Mem, Text, Value, copy};
use program_steps::Outcome;
use std::alloc::Global;

// The word that says what a line is.
fn worded(alloc: Global, word: &str) -> Result<Items, Mem>
    ensures { IfOk result (λ items. items ≡ text word.now ∷ []) }
{
    let mut items = Items::new(alloc);
    push_word(alloc, &mut items, word)?;
    Ok(items)
}

fn push_word(alloc: Global, items: &mut Items, word: &str) -> Result<(), Mem>
    ensures { OnOk result (items.new ≡ items.old ++ text word.now ∷ []) }
{
    items.push(Value::Text(Text::from_str(alloc, word)?))
}

fn push_text(items: &mut Items, words: &Text) -> Result<(), Mem>
    ensures { OnOk result (items.new ≡ items.old ++ text words.now ∷ []) }
{
    items.push(Value::Text(words.copy()?))
}

// The text of the list of these values. It takes them, so that no caller has to drop them.
fn list_text(alloc: Global, items: Items) -> Result<Text, Mem>
    ensures { IfOk result (λ words. words ≡ line_text (list (vals_of items))) }
{
    let value = Value::List(items);
    let words = text(alloc, &value);
    drop(value);
    words
}

fn push_line(alloc: Global, lines: &mut Lines, items: Items) -> Result<(), Mem>
    ensures { OnOk result (lines.new ≡ lines.old ++ line_text (list (vals_of items)) ∷ []) }
{
    lines.push(list_text(alloc, items)?)
}

fn push_doc(alloc: Global, lines: &mut Lines, key: &Key, doc: &Doc) -> Result<(), Mem>
    ensures { OnOk result (lines.new ≡ lines.old ++ line_text (doc_line (key.now, doc.now)) ∷ []) }
{
    let mut items = worded(alloc, "doc")?;
    push_text(&mut items, &key.collection)?;
    push_text(&mut items, &key.id)?;
    items.push(Value::Object(doc.copy()?))?;
    push_line(alloc, lines, items)
}

fn push_docs(alloc: Global, lines: &mut Lines, contents: &Contents) -> Result<(), Mem>
    ensures { OnOk result (lines.new ≡ lines.old ++ line_texts (map doc_line contents.now)) }
{
    for (key, doc) in contents.iter() {
        push_doc(alloc, lines, key, doc)?;
    }
    Ok(())
}

// The words for what became of a subscription.
fn push_state(alloc: Global, items: &mut Items, state: &SubState) -> Result<(), Mem>
    ensures { OnOk result (items.new ≡ items.old ++ state_words state.now) }
{
    match state {
        SubState::Waiting => push_word(alloc, items, "waiting"),
        SubState::Ready => push_word(alloc, items, "ready"),
        SubState::Ended => push_word(alloc, items, "ended"),
        SubState::Refused { code } => {
            push_word(alloc, items, "refused")?;
            push_text(items, code)
        }
    }
}

fn push_sub(alloc: Global, lines: &mut Lines, id: &Text, sub: &Sub) -> Result<(), Mem>
    ensures { OnOk result (lines.new ≡ lines.old ++ line_text (sub_line (id.now, sub.now)) ∷ []) }
{
    let mut items = worded(alloc, "sub")?;
    push_text(&mut items, id)?;
    push_state(alloc, &mut items, &sub.state)?;
    push_line(alloc, lines, items)
}

fn push_subs(alloc: Global, lines: &mut Lines, subs: &Subs) -> Result<(), Mem>
    ensures { OnOk result (lines.new ≡ lines.old ++ line_texts (map sub_line subs.now)) }
{
    for (id, sub) in subs.iter() {
        push_sub(alloc, lines, id, sub)?;
    }
    Ok(())
}

// The words for what a call came to.
fn push_outcome(alloc: Global, items: &mut Items, outcome: Option<&Outcome>) -> Result<(), Mem>
    ensures { OnOk result (items.new ≡ items.old ++ outcome_words (option_map outcome_view (option_copied outcome.entry))) }
{
    match outcome {
        None => push_word(alloc, items, "waiting"),
        Some(Outcome::Done(None)) => push_word(alloc, items, "done"),
        Some(Outcome::Done(Some(value))) => {
            push_word(alloc, items, "done")?;
            items.push(copy(value)?)
        }
        Some(Outcome::Failed(fault)) => {
            push_word(alloc, items, "failed")?;
            push_text(items, &fault.code)?;
            push_text(items, &fault.reason)
        }
    }
}

fn push_call(alloc: Global, lines: &mut Lines, number: u32, call: &Call) -> Result<(), Mem>
    ensures { OnOk result (lines.new ≡ lines.old ++ line_text (method_line number call.now) ∷ []) }
{
    let mut items = worded(alloc, "method")?;
    items.push(Value::Text(id_of(alloc, number)?))?;
    push_outcome(alloc, &mut items, call.settled())?;
    push_line(alloc, lines, items)
}

fn push_calls(alloc: Global, lines: &mut Lines, calls: &[Call]) -> Result<(), Mem>
    requires { length calls.now ≤ call_limit }
    ensures { OnOk result (lines.new ≡ lines.old ++ line_texts (method_lines 1 calls.now)) }
{
    let mut number = 0;
    for call in calls {
        number += 1;
        push_call(alloc, lines, number, call)?;
    }
    Ok(())
}

fn push_head(alloc: Global, lines: &mut Lines, name: &Text) -> Result<(), Mem>
    ensures { OnOk result (lines.new ≡ lines.old ++ line_text (head_line name.now) ∷ []) }
{
    let mut items = worded(alloc, "show")?;
    push_text(&mut items, name)?;
    push_line(alloc, lines, items)
}

/// What a client of this name has: its documents by collection and id, its subscriptions by id, and
/// its calls by number.
pub fn show(
    alloc: Global,
    name: &Text,
    contents: &Contents,
    subs: &Subs,
    calls: &[Call],
) -> Result<Lines, Mem>
    requires { length calls.now ≤ call_limit }
    ensures { IfOk result (λ lines. lines ≡ line_texts (shown name.now contents.now subs.now calls.now)) }
{
    let mut lines = Lines::new(alloc);
    push_head(alloc, &mut lines, name)?;
    push_docs(alloc, &mut lines, contents)?;
    push_subs(alloc, &mut lines, subs)?;
    push_calls(alloc, &mut lines, calls)?;
    Ok(lines)
}
