//! What the lines of a script look like.
ghost use Rattle.std.specs.Prelude.{◌≡◌, IfOk, Some, None, option_map};
ghost use Rattle.value_model.specs.Val.{vals_of};
ghost use Rattle.ejson_value.specs.View.{view, views};
ghost use Rattle.client_script.specs.declared.line.Ask.TheVariants as ask;
ghost use Rattle.client_script.specs.declared.line.Line.TheVariants as line;
ghost use Rattle.line_parts.specs.Parts.{is_nil, params_in, text_alone, text_first};
ghost use Rattle.client_script.specs.Lines.{sub_with, sub_in, call_in, asked_in, row_in, line_in};

use crate::line::{Ask, Line};
use ejson_value::{Mem, Text, Value};
use line_parts::{is_nil, params_in, text_alone, text_first};
use std::alloc::Global;

// The subscription of these parts.
fn sub_with(alloc: Global, id: &Text, name: &Text, params: &[Value]) -> Result<Option<Ask>, Mem>
    ensures { IfOk result (λ a. a ≡ sub_with id.now name.now (vals_of (views params.now))) }
{
    let Some(params) = params_in(alloc, params)? else {
        return Ok(None);
    };
    Ok(Some(Ask::Sub {
        id: id.copy()?,
        name: name.copy()?,
        params,
    }))
}

fn read_sub(alloc: Global, values: &[Value]) -> Result<Option<Ask>, Mem>
    ensures { IfOk result (λ a. a ≡ sub_in (vals_of (views values.now))) }
{
    let Some((id, rest)) = text_first(values) else {
        return Ok(None);
    };
    match text_first(rest) {
        Some((name, params)) => sub_with(alloc, id, name, params),
        None => Ok(None),
    }
}

fn read_unsub(values: &[Value]) -> Result<Option<Ask>, Mem>
    ensures { IfOk result (λ a. a ≡ option_map ask.Unsub (text_alone (vals_of (views values.now)))) }
{
    match text_alone(values) {
        Some(id) => Ok(Some(Ask::Unsub { id: id.copy()? })),
        None => Ok(None),
    }
}

fn read_call(alloc: Global, values: &[Value]) -> Result<Option<Ask>, Mem>
    ensures { IfOk result (λ a. a ≡ call_in (vals_of (views values.now))) }
{
    let Some((method, params)) = text_first(values) else {
        return Ok(None);
    };
    let Some(params) = params_in(alloc, params)? else {
        return Ok(None);
    };
    Ok(Some(Ask::Call {
        method: method.copy()?,
        params,
    }))
}

// What this word asks for with what follows it.
fn read_ask(alloc: Global, word: &Text, values: &[Value]) -> Result<Option<Ask>, Mem>
    ensures { IfOk result (λ a. a ≡ asked_in word.now (vals_of (views values.now))) }
{
    match word.as_str() {
        "sub" => read_sub(alloc, values),
        "unsub" => read_unsub(values),
        "call" => read_call(alloc, values),
        _ => Ok(None),
    }
}

// The line of this word and what follows it.
fn read_row(alloc: Global, word: &Text, values: &[Value]) -> Result<Option<Line>, Mem>
    ensures { IfOk result (λ l. l ≡ row_in word.now (vals_of (views values.now))) }
{
    match word.as_str() {
        "wait" if is_nil(values) => Ok(Some(Line::Wait)),
        "show" if is_nil(values) => Ok(Some(Line::Show)),
        _ => match read_ask(alloc, word, values)? {
            Some(ask) => Ok(Some(Line::Ask(ask))),
            None => Ok(None),
        },
    }
}

/// The line that the value describes, if it describes one.
pub fn line_in(alloc: Global, value: &Value) -> Result<Option<Line>, Mem>
    ensures { IfOk result (λ l. l ≡ line_in (view value.now)) }
{
    let Value::List(items) = value else {
        return Ok(None);
    };
    match text_first(items.as_slice()) {
        Some((word, rest)) => read_row(alloc, word, rest),
        None => Ok(None),
    }
}
