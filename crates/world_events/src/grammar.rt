//! What the lines of events look like.
ghost use Rattle.std.specs.Prelude.{◌≡◌, IfOk, IfSome, option_map};
ghost use Rattle.value_model.specs.Val.{vals_of};
ghost use Rattle.ejson_value.specs.View.{view, views};
ghost use Rattle.line_parts.specs.Parts.{text_alone};
ghost use Rattle.world_model.specs.declared.events.Event.TheVariants as event;
ghost use Rattle.world_model.specs.Events.{IsEvent};
ghost use Rattle.world_events.specs.Events.{number_first, admin_in, sub_with, sub_in, call_with, call_in, unsub_in, raw_in, number_in, placed_in};
ghost use Rattle.world_events.specs.Events.{load_at, advance_by, called_in, run_step_in, learn_in, act_of, step_in, asked_in, placed_row, row_in};
ghost use Rattle.world_events.specs.Events.{event_in};

use ejson_value::{Mem, Text, Value, Whole};
use line_parts::{is_nil, params_in, text_alone, text_first, texts_alone};
use std::alloc::Global;
use world_model::{Act, Event};

// The subscription of these parts.
fn sub_with(
    alloc: Global,
    client: &Text,
    id: &Text,
    name: &Text,
    params: &[Value],
) -> Result<Option<Event>, Mem>
    ensures found { IfOk result (λ e. e ≡ sub_with client.now id.now name.now (vals_of (views params.now))) }
    ensures events { IfOk result (λ e. IfSome e IsEvent) }
{
    let Some(params) = params_in(alloc, params)? else {
        return Ok(None);
    };
    params.known();
    Ok(Some(Event::Sub {
        client: client.copy()?,
        id: id.copy()?,
        name: name.copy()?,
        params,
    }))
}

fn read_sub(alloc: Global, values: &[Value]) -> Result<Option<Event>, Mem>
    ensures found { IfOk result (λ e. e ≡ sub_in (vals_of (views values.now))) }
    ensures events { IfOk result (λ e. IfSome e IsEvent) }
{
    let Some((client, rest)) = text_first(values) else {
        return Ok(None);
    };
    let Some((id, rest)) = text_first(rest) else {
        return Ok(None);
    };
    let Some((name, params)) = text_first(rest) else {
        return Ok(None);
    };
    sub_with(alloc, client, id, name, params)
}

// The number that stands alone, or nothing.
fn number_in(values: &[Value]) -> Option<Option<Whole>>
    ensures { result ≡ number_in (vals_of (views values.now)) }
{
    let Some((first, rest)) = values.split_first() else {
        return Some(None);
    };
    let Value::Int(number) = first else {
        return None;
    };
    if is_nil(rest) {
        Some(Some(*number))
    } else {
        None
    }
}

// A client, an id and perhaps a number.
fn placed_in(values: &[Value]) -> Option<(&Text, &Text, Option<Whole>)>
    ensures { option_map (λ p. (p.0.now, p.1.now, p.2)) result ≡ placed_in (vals_of (views values.now)) }
{
    let Some((client, rest)) = text_first(values) else {
        return None;
    };
    let Some((id, rest)) = text_first(rest) else {
        return None;
    };
    match number_in(rest) {
        Some(number) => Some((client, id, number)),
        None => None,
    }
}

fn read_load(values: &[Value]) -> Result<Option<Event>, Mem>
    ensures found { IfOk result (λ e. e ≡ option_map load_at (placed_in (vals_of (views values.now)))) }
    ensures events { IfOk result (λ e. IfSome e IsEvent) }
{
    let Some((client, id, at)) = placed_in(values) else {
        return Ok(None);
    };
    Ok(Some(Event::Load {
        client: client.copy()?,
        id: id.copy()?,
        at,
    }))
}

fn read_advance(values: &[Value]) -> Result<Option<Event>, Mem>
    ensures found { IfOk result (λ e. e ≡ option_map advance_by (placed_in (vals_of (views values.now)))) }
    ensures events { IfOk result (λ e. IfSome e IsEvent) }
{
    let Some((client, id, count)) = placed_in(values) else {
        return Ok(None);
    };
    Ok(Some(Event::Advance {
        client: client.copy()?,
        id: id.copy()?,
        count,
    }))
}

fn read_raw(values: &[Value]) -> Result<Option<Event>, Mem>
    ensures found { IfOk result (λ e. e ≡ raw_in (vals_of (views values.now))) }
    ensures events { IfOk result (λ e. IfSome e IsEvent) }
{
    let Some((client, text)) = texts_alone(values) else {
        return Ok(None);
    };
    Ok(Some(Event::Raw {
        client: client.copy()?,
        text: text.copy()?,
    }))
}

// The end of a subscription: a client and an id.
fn read_unsub(values: &[Value]) -> Result<Option<Event>, Mem>
    ensures found { IfOk result (λ e. e ≡ unsub_in (vals_of (views values.now))) }
    ensures events { IfOk result (λ e. IfSome e IsEvent) }
{
    let Some((client, id)) = texts_alone(values) else {
        return Ok(None);
    };
    Ok(Some(Event::Unsub {
        client: client.copy()?,
        id: id.copy()?,
    }))
}

// The call of these parts.
fn call_with(
    alloc: Global,
    client: &Text,
    method: &Text,
    params: &[Value],
) -> Result<Option<Event>, Mem>
    ensures found { IfOk result (λ e. e ≡ call_with client.now method.now (vals_of (views params.now))) }
    ensures events { IfOk result (λ e. IfSome e IsEvent) }
{
    let Some(params) = params_in(alloc, params)? else {
        return Ok(None);
    };
    params.known();
    Ok(Some(Event::Call {
        client: client.copy()?,
        method: method.copy()?,
        params,
    }))
}

fn read_call(alloc: Global, values: &[Value]) -> Result<Option<Event>, Mem>
    ensures found { IfOk result (λ e. e ≡ call_in (vals_of (views values.now))) }
    ensures events { IfOk result (λ e. IfSome e IsEvent) }
{
    let Some((client, rest)) = text_first(values) else {
        return Ok(None);
    };
    match text_first(rest) {
        Some((method, params)) => call_with(alloc, client, method, params),
        None => Ok(None),
    }
}

// The number that stands first, and what follows it.
fn number_first(values: &[Value]) -> Option<(Whole, &[Value])>
    ensures { option_map (λ p. (p.0, vals_of (views p.1.now))) result ≡ number_first (vals_of (views values.now)) }
{
    let Some((first, rest)) = values.split_first() else {
        return None;
    };
    match first {
        Value::Int(number) => Some((*number, rest)),
        _ => None,
    }
}

// A client, a call and what follows them.
fn called_in(values: &[Value]) -> Option<(&Text, Whole, &[Value])>
    ensures { option_map (λ p. (p.0.now, p.1, vals_of (views p.2.now))) result ≡ called_in (vals_of (views values.now)) }
{
    let Some((client, rest)) = text_first(values) else {
        return None;
    };
    let Some((k, rest)) = number_first(rest) else {
        return None;
    };
    Some((client, k, rest))
}

fn read_run_step(values: &[Value]) -> Result<Option<Event>, Mem>
    ensures found { IfOk result (λ e. e ≡ run_step_in (vals_of (views values.now))) }
    ensures events { IfOk result (λ e. IfSome e IsEvent) }
{
    match called_in(values) {
        Some((client, k, rest)) if is_nil(rest) => Ok(Some(Event::Step {
            client: client.copy()?,
            k,
        })),
        _ => Ok(None),
    }
}

fn read_learn(values: &[Value]) -> Result<Option<Event>, Mem>
    ensures found { IfOk result (λ e. e ≡ learn_in (vals_of (views values.now))) }
    ensures events { IfOk result (λ e. IfSome e IsEvent) }
{
    let Some((client, k, rest)) = called_in(values) else {
        return Ok(None);
    };
    match number_in(rest) {
        Some(at) => Ok(Some(Event::Learn {
            client: client.copy()?,
            k,
            at,
        })),
        None => Ok(None),
    }
}

fn read_drop(values: &[Value]) -> Result<Option<Event>, Mem>
    ensures found { IfOk result (λ e. e ≡ option_map event.Drop (text_alone (vals_of (views values.now)))) }
    ensures events { IfOk result (λ e. IfSome e IsEvent) }
{
    match text_alone(values) {
        Some(client) => Ok(Some(Event::Drop {
            client: client.copy()?,
        })),
        None => Ok(None),
    }
}

// The operation of an administrator: any list.
fn read_admin(alloc: Global, values: &[Value]) -> Result<Option<Event>, Mem>
    ensures found { IfOk result (λ e. e ≡ admin_in (vals_of (views values.now))) }
    ensures events { IfOk result (λ e. IfSome e IsEvent) }
{
    if is_nil(values) {
        return Ok(None);
    }
    let Some(op) = params_in(alloc, values)? else {
        return Ok(None);
    };
    op.known();
    Ok(Some(Event::Admin { op }))
}

fn read_client(values: &[Value]) -> Result<Option<Event>, Mem>
    ensures found { IfOk result (λ e. e ≡ option_map event.Client (text_alone (vals_of (views values.now)))) }
    ensures events { IfOk result (λ e. IfSome e IsEvent) }
{
    match text_alone(values) {
        Some(name) => Ok(Some(Event::Client { name: name.copy()? })),
        None => Ok(None),
    }
}

fn read_show(values: &[Value]) -> Result<Option<Event>, Mem>
    ensures found { IfOk result (λ e. e ≡ option_map event.Show (text_alone (vals_of (views values.now)))) }
    ensures events { IfOk result (λ e. IfSome e IsEvent) }
{
    match text_alone(values) {
        Some(client) => Ok(Some(Event::Show {
            client: client.copy()?,
        })),
        None => Ok(None),
    }
}

fn read_journal(values: &[Value]) -> Result<Option<Event>, Mem>
    ensures found { IfOk result (λ e. e ≡ option_map event.Journal (text_alone (vals_of (views values.now)))) }
    ensures events { IfOk result (λ e. IfSome e IsEvent) }
{
    match text_alone(values) {
        Some(client) => Ok(Some(Event::Journal {
            client: client.copy()?,
        })),
        None => Ok(None),
    }
}

// The step that the word names.
fn act_of(word: &Text) -> Option<Act>
    ensures { result ≡ act_of word.now }
{
    match word.as_str() {
        "up" => Some(Act::Up),
        "recv" => Some(Act::Recv),
        "handle" => Some(Act::Handle),
        "begin" => Some(Act::Begin),
        "send" => Some(Act::Send),
        "take" => Some(Act::Take),
        _ => None,
    }
}

fn read_step(word: &Text, values: &[Value]) -> Result<Option<Event>, Mem>
    ensures found { IfOk result (λ e. e ≡ step_in word.now (vals_of (views values.now))) }
    ensures events { IfOk result (λ e. IfSome e IsEvent) }
{
    let Some(act) = act_of(word) else {
        return Ok(None);
    };
    match text_alone(values) {
        Some(client) => Ok(Some(Event::Do {
            client: client.copy()?,
            act,
        })),
        None => Ok(None),
    }
}

// An event of a client that may have parameters.
fn read_asked(alloc: Global, word: &Text, values: &[Value]) -> Result<Option<Event>, Mem>
    ensures found { IfOk result (λ e. e ≡ asked_in word.now (vals_of (views values.now))) }
    ensures events { IfOk result (λ e. IfSome e IsEvent) }
{
    match word.as_str() {
        "client" => read_client(values),
        "sub" => read_sub(alloc, values),
        "unsub" => read_unsub(values),
        "call" => read_call(alloc, values),
        "raw" => read_raw(values),
        "drop" => read_drop(values),
        _ => read_step(word, values),
    }
}

// An event that names a run or a place of the history.
fn read_placed(alloc: Global, word: &Text, values: &[Value]) -> Result<Option<Event>, Mem>
    ensures found { IfOk result (λ e. e ≡ placed_row word.now (vals_of (views values.now))) }
    ensures events { IfOk result (λ e. IfSome e IsEvent) }
{
    match word.as_str() {
        "step" => read_run_step(values),
        "learn" => read_learn(values),
        "load" => read_load(values),
        "advance" => read_advance(values),
        _ => read_asked(alloc, word, values),
    }
}

// The event of this word and what follows it.
fn read_row(alloc: Global, word: &Text, values: &[Value]) -> Result<Option<Event>, Mem>
    ensures found { IfOk result (λ e. e ≡ row_in word.now (vals_of (views values.now))) }
    ensures events { IfOk result (λ e. IfSome e IsEvent) }
{
    match word.as_str() {
        "admin" => read_admin(alloc, values),
        "settle" if is_nil(values) => Ok(Some(Event::Settle)),
        "show" => read_show(values),
        "journal" => read_journal(values),
        "store" if is_nil(values) => Ok(Some(Event::Store)),
        "history" if is_nil(values) => Ok(Some(Event::History)),
        _ => read_placed(alloc, word, values),
    }
}

/// The event that the line describes, if it describes one.
pub(crate) fn event_in(alloc: Global, line: &Value) -> Result<Option<Event>, Mem>
    ensures found { IfOk result (λ e. e ≡ event_in (view line.now)) }
    ensures events { IfOk result (λ e. IfSome e IsEvent) }
{
    let Value::List(items) = line else {
        return Ok(None);
    };
    match text_first(items.as_slice()) {
        Some((word, rest)) => read_row(alloc, word, rest),
        None => Ok(None),
    }
}
