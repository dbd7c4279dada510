//! A run of the command.
ghost use Rattle.std.specs.Prelude.{◌≡◌, ◌≤◌, ◌++◌, ◌∷◌, [], ℕ, List, length, pos, None, Some, codes, option_map, IfOk, OnOk};
ghost use Rattle.value_model.specs.Val.{Val};
ghost use Rattle.heartbeat.specs.Beats.{IsTime, Event};
ghost use Rattle.checking.specs.Input.{input_limit, lines_in};
ghost use Rattle.checking.specs.Output.{line, bytes_of, value_bytes};
ghost use Rattle.beating.specs.Lines.{event_view};
ghost use Rattle.beating.specs.Run.{events_of, bad_line, word_of, said_from, beat_bad, beat_text};
ghost use Rattle.beating.specs.Kept.{said, after, begun, said_by};

use crate::lines::{Line, event_of};
use checking::{Outcome, add_bad_line, add_line, first_line, is_blank};
use ejson_codec::text;
use ejson_value::{Items, Mem, Text, Value};
use heartbeat::{Beat, Heart};
use std::alloc::Global;

// The word for what is to be done.
fn word_of(beat: Beat) -> &'static str
    ensures { result.now ≡ word_of beat }
{
    match beat {
        Beat::Nothing => "none",
        Beat::Ping => "ping",
        Beat::Close { .. } => "close",
    }
}

// Adds the line of this word.
fn add_word(alloc: Global, output: &mut Vec<u8>, word: &str) -> Result<(), Mem>
    ensures { OnOk result (output.new.items ≡ output.old.items ++ bytes_of (line word.now [] ∷ [])) }
{
    let mut items = Items::new(alloc);
    items.push(Value::Text(Text::from_str(alloc, word)?))?;
    let value = Value::List(items);
    let line = text(alloc, &value);
    drop(value);
    add_line(output, &line?)
}

// Hands the heart an event, and adds what that writes.
fn act(alloc: Global, heart: &mut Heart, event: Line, output: &mut Vec<u8>) -> Result<(), Mem>
    ensures said { OnOk result (output.new.items ≡ output.old.items ++ bytes_of (said heart.old (event_view event))) }
    ensures heart { OnOk result (heart.new ≡ after heart.old (event_view event)) }
{
    match event {
        Line::Heard(t) => {
            if heart.heard(t) {
                Ok(())
            } else {
                add_word(alloc, output, "idle")
            }
        }
        Line::Tick(t) => match heart.tick(t) {
            Some(beat) => add_word(alloc, output, word_of(beat)),
            None => add_word(alloc, output, "idle"),
        },
    }
}

// The heart that is there, or one that begins with this event.
fn begun(heart: Option<Heart>, interval: u32, timeout: u32, event: Line) -> Heart
    requires interval { IsTime interval }
    requires timeout { IsTime timeout }
    ensures { result ≡ begun interval timeout heart (event_view event) }
{
    match heart {
        Some(heart) => heart,
        None => Heart::new(interval, timeout, event.handed()),
    }
}

// Runs lines up to the first bad one, and answers the number of that.
fn run_lines(
    alloc: Global,
    interval: u32,
    timeout: u32,
    input: &[u8],
    output: &mut Vec<u8>,
) -> Result<Option<u32>, Mem>
    requires interval { IsTime interval }
    requires timeout { IsTime timeout }
    requires short { length input.now ≤ input_limit }
    ensures said { OnOk result (output.new.items ≡ output.old.items ++ bytes_of (said_from interval timeout (events_of (lines_in input.now)))) }
    ensures bad { IfOk result (λ bad. bad ≡ bad_line 1 (lines_in input.now)) }
{
    let mut heart: Option<Heart> = None;
    let mut rest = input;
    let mut number = 1;
    while !rest.is_empty() {
        let (line, more) = first_line(rest);
        if !is_blank(line) {
            let Some(event) = event_of(alloc, line)? else {
                return Ok(Some(number));
            };
            let mut going = begun(heart, interval, timeout, event);
            act(alloc, &mut going, event, output)?;
            heart = Some(going);
        }
        rest = more;
        number += 1;
    }
    Ok(None)
}

/// Hands a heart the moments of an input's lines, `["heard",t]` and `["tick",t]`, and answers the whole output: for each tick
/// `["none"]`, `["ping"]` or `["close"]`, and once it is over `["idle"]` for each line; then the number of the first line that
/// isn't of the grammar.
pub fn beat(alloc: Global, interval: u32, timeout: u32, input: &[u8]) -> Result<Outcome, Mem>
    requires interval { IsTime interval }
    requires timeout { IsTime timeout }
    requires short { length input.now ≤ input_limit }
    ensures text { IfOk result (λ o. o.text.items ≡ beat_text interval timeout input.now) }
    ensures bad { IfOk result (λ o. o.bad_line ≡ beat_bad input.now) }
{
    let mut text = Vec::new(alloc);
    let bad_line = run_lines(alloc, interval, timeout, input, &mut text)?;
    add_bad_line(alloc, &mut text, bad_line)?;
    Ok(Outcome { text, bad_line })
}
