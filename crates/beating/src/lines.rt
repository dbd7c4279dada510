//! The lines of the command.
ghost use Rattle.std.specs.Prelude.{◌≡◌, option_map, option_and_then, IfOk};
ghost use Rattle.value_model.specs.Val.{vals_of};
ghost use Rattle.ejson_value.specs.View.{view, views};
ghost use Rattle.heartbeat.specs.Beats.{handed};
ghost use Rattle.beating.specs.Lines.{event_view, from_zero, moment_of, moment_in, event_named, event_behind, event_in, event_of};

use checking::value_in;
use ejson_value::{Mem, Text, Value, Whole};
use std::alloc::Global;

// What a line describes.
#[derive(Clone, Copy, Debug, PartialEq, Eq)]
pub(crate) enum Line {
    // A text came at this moment.
    Heard(u64),
    // It is asked at this moment what to do.
    Tick(u64),
}

impl Line {
    // The moment that is handed in.
    pub(crate) fn handed(&self) -> u64
        ensures { result ≡ handed (event_view self.now) }
    {
        match self {
            Line::Heard(t) | Line::Tick(t) => *t,
        }
    }
}

// The number, if it isn't below 0.
fn from_zero(number: Whole) -> Option<u64>
    ensures { result ≡ from_zero number }
{
    let number = number.get();
    if number < 0 {
        None
    } else {
        Some(number as u64)
    }
}

// The moment that a value is.
fn moment_of(value: &Value) -> Option<u64>
    ensures { result ≡ moment_of (view value.now) }
{
    match value {
        Value::Int(number) => from_zero(*number),
        _ => None,
    }
}

// The moment that stands alone.
fn moment_in(values: &[Value]) -> Option<u64>
    ensures { result ≡ moment_in (vals_of (views values.now)) }
{
    let Some((value, rest)) = values.split_first() else {
        return None;
    };
    match rest.split_first() {
        None => moment_of(value),
        Some(_) => None,
    }
}

fn event_named(word: &Text, t: u64) -> Option<Line>
    ensures { option_map event_view result ≡ event_named word.now t }
{
    match word.as_str() {
        "heard" => Some(Line::Heard(t)),
        "tick" => Some(Line::Tick(t)),
        _ => None,
    }
}

// What a word and the moment behind it describe.
fn event_behind(first: &Value, rest: &[Value]) -> Option<Line>
    ensures { option_map event_view result ≡ event_behind (view first.now) (vals_of (views rest.now)) }
{
    let Value::Text(word) = first else {
        return None;
    };
    match moment_in(rest) {
        Some(t) => event_named(word, t),
        None => None,
    }
}

fn event_in(value: &Value) -> Option<Line>
    ensures { option_map event_view result ≡ event_in (view value.now) }
{
    let Value::List(items) = value else {
        return None;
    };
    let Some((first, rest)) = items.as_slice().split_first() else {
        return None;
    };
    event_behind(first, rest)
}

// What the line describes, if it is of the grammar.
pub(crate) fn event_of(alloc: Global, line: &[u8]) -> Result<Option<Line>, Mem>
    ensures { IfOk result (λ e. option_map event_view e ≡ event_of line.now) }
{
    let Some(value) = value_in(alloc, line)? else {
        return Ok(None);
    };
    let event = event_in(&value);
    drop(value);
    Ok(event)
}
