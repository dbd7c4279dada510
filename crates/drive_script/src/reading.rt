//! What the lines of a drive look like.
ghost use Rattle.std.specs.Prelude.{◌≡◌, ◌++◌, IfOk, OnOk};
ghost use Rattle.value_model.specs.Val.{list, vals_of};
ghost use Rattle.ejson_value.specs.View.{view, views};
ghost use Rattle.drive_script.specs.Lines.{unless_show, act_line, admin_in, act_in, row_in, line_in};

use crate::line::DriveLine;
use client_script::{Line, line_in as script_line_in};
use ejson_value::{Items, Mem, Text, Value, copy};
use line_parts::{is_nil, params_in, text_first};
use std::alloc::Global;

// Puts copies of the values behind the others.
fn put_all(items: &mut Items, values: &[Value]) -> Result<(), Mem>
    ensures { OnOk result (items.new ≡ items.old ++ views values.now) }
{
    for value in values {
        items.push(copy(value)?)?;
    }
    Ok(())
}

// The list of these values.
fn list_of(alloc: Global, values: &[Value]) -> Result<Value, Mem>
    ensures { IfOk result (λ v. view v ≡ list (vals_of (views values.now))) }
{
    let mut items = Items::new(alloc);
    put_all(&mut items, values)?;
    Ok(Value::List(items))
}

// The line, unless it prints.
fn unless_show(line: Option<Line>) -> Option<Line>
    ensures { result ≡ unless_show line }
{
    match line {
        Some(Line::Ask(ask)) => Some(Line::Ask(ask)),
        Some(Line::Wait) => Some(Line::Wait),
        Some(Line::Show) | None => None,
    }
}

// The line of a client's script that these values describe, which stand behind the client's name.
fn act_line(alloc: Global, values: &[Value]) -> Result<Option<Line>, Mem>
    ensures { IfOk result (λ l. l ≡ act_line (vals_of (views values.now))) }
{
    let value = list_of(alloc, values)?;
    let read = script_line_in(alloc, &value);
    drop(value);
    Ok(unless_show(read?))
}

fn read_admin(alloc: Global, values: &[Value]) -> Result<Option<DriveLine>, Mem>
    ensures { IfOk result (λ l. l ≡ admin_in (vals_of (views values.now))) }
{
    if is_nil(values) {
        return Ok(None);
    }
    match params_in(alloc, values)? {
        Some(op) => Ok(Some(DriveLine::Admin { op })),
        None => Ok(None),
    }
}

fn read_act(alloc: Global, client: &Text, values: &[Value]) -> Result<Option<DriveLine>, Mem>
    ensures { IfOk result (λ l. l ≡ act_in client.now (vals_of (views values.now))) }
{
    match act_line(alloc, values)? {
        Some(line) => Ok(Some(DriveLine::Act {
            client: client.copy()?,
            line,
        })),
        None => Ok(None),
    }
}

// The line of this name and what follows it.
fn read_row(alloc: Global, name: &Text, values: &[Value]) -> Result<Option<DriveLine>, Mem>
    ensures { IfOk result (λ l. l ≡ row_in name.now (vals_of (views values.now))) }
{
    match name.as_str() {
        "admin" => read_admin(alloc, values),
        _ => read_act(alloc, name, values),
    }
}

/// The line that the value describes, if it describes one.
pub(crate) fn line_in(alloc: Global, value: &Value) -> Result<Option<DriveLine>, Mem>
    ensures { IfOk result (λ l. l ≡ line_in (view value.now)) }
{
    let Value::List(items) = value else {
        return Ok(None);
    };
    match text_first(items.as_slice()) {
        Some((name, rest)) => read_row(alloc, name, rest),
        None => Ok(None),
    }
}
