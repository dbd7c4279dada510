//! What a line makes of the client, and what it writes.
ghost use Rattle.std.specs.Prelude.{◌≡◌, ◌++◌, ◌∷◌, [], OnOk};
ghost use Rattle.value_model.specs.Val.{list, vals_of};
ghost use Rattle.checking.specs.Output.{bytes_of};
ghost use Rattle.reviving.specs.declared.lines.Line.TheVariants as line;
ghost use Rattle.reviving.specs.Run.{idle, refused, up, written, after, line_bytes};

use crate::lines::Line;
use checking::add_line;
use client_script::{Ask, Speaker};
use ejson_codec::text;
use ejson_value::{Items, Mem, Text, Value, Whole};
use revived_client::{ClientFault, Lines, RevivedClient, TakeFault};
use std::alloc::Global;

// Adds the line of these values. It takes them, so that no caller has to drop them.
fn add_list(alloc: Global, output: &mut Vec<u8>, items: Items) -> Result<(), Mem>
    ensures { OnOk result (output.new.items ≡ output.old.items ++ bytes_of (list (vals_of items) ∷ [])) }
{
    let value = Value::List(items);
    let line = text(alloc, &value);
    drop(value);
    add_line(output, &line?)
}

// Adds the line `["idle"]`.
fn add_idle(alloc: Global, output: &mut Vec<u8>) -> Result<(), Mem>
    ensures { OnOk result (output.new.items ≡ output.old.items ++ bytes_of (idle ∷ [])) }
{
    let mut items = Items::new(alloc);
    items.push(Value::Text(Text::from_str(alloc, "idle")?))?;
    add_list(alloc, output, items)
}

// Adds the line `["server sent",number]`.
fn add_refused(alloc: Global, output: &mut Vec<u8>, number: u8) -> Result<(), Mem>
    ensures { OnOk result (output.new.items ≡ output.old.items ++ bytes_of (refused number ∷ [])) }
{
    let Some(number) = Whole::of(i64::from(number)) else {
        unreachable!()
    };
    let mut items = Items::new(alloc);
    items.push(Value::Text(Text::from_str(alloc, "server sent")?))?;
    items.push(Value::Int(number))?;
    add_list(alloc, output, items)
}

// Adds the line `["up",text]`.
fn add_up(alloc: Global, output: &mut Vec<u8>, said: Text) -> Result<(), Mem>
    ensures { OnOk result (output.new.items ≡ output.old.items ++ bytes_of (up said ∷ [])) }
{
    let mut items = Items::new(alloc);
    items.push(Value::Text(Text::from_str(alloc, "up")?))?;
    items.push(Value::Text(said))?;
    add_list(alloc, output, items)
}

// The client is asked for something.
fn ask(
    alloc: Global,
    client: &mut RevivedClient,
    ask: &Ask,
    output: &mut Vec<u8>,
) -> Result<(), Mem>
    ensures written { OnOk result (output.new.items ≡ output.old.items ++ bytes_of (written client.old (line.Ask ask.now))) }
    ensures client { OnOk result (client.new ≡ after client.old (line.Ask ask.now)) }
{
    if client.ask(ask)? {
        return Ok(());
    }
    add_idle(alloc, output)
}

// The server sent a text.
fn hear(
    alloc: Global,
    client: &mut RevivedClient,
    text: &Text,
    output: &mut Vec<u8>,
) -> Result<(), Mem>
    ensures written { OnOk result (output.new.items ≡ output.old.items ++ bytes_of (written client.old (line.Server text.now))) }
    ensures client { OnOk result (client.new ≡ after client.old (line.Server text.now)) }
{
    match client.heard(text) {
        Ok(()) => Ok(()),
        Err(TakeFault::Idle) => add_idle(alloc, output),
        Err(TakeFault::ServerSent(number)) => add_refused(alloc, output, number),
        Err(TakeFault::Memory) => Err(Mem),
    }
}

// The link was lost.
fn lose(alloc: Global, client: &mut RevivedClient, output: &mut Vec<u8>) -> Result<(), Mem>
    ensures written { OnOk result (output.new.items ≡ output.old.items ++ bytes_of (written client.old line.Lost)) }
    ensures client { OnOk result (client.new ≡ after client.old line.Lost) }
{
    match client.lost() {
        Ok(()) => Ok(()),
        Err(ClientFault::Idle) => add_idle(alloc, output),
        Err(ClientFault::Memory) => Err(Mem),
    }
}

// The next text is said.
fn say(alloc: Global, client: &mut RevivedClient, output: &mut Vec<u8>) -> Result<(), Mem>
    ensures written { OnOk result (output.new.items ≡ output.old.items ++ bytes_of (written client.old line.Said)) }
    ensures client { OnOk result (client.new ≡ after client.old line.Said) }
{
    match client.said() {
        Some(text) => add_up(alloc, output, text),
        None => add_idle(alloc, output),
    }
}

// Adds the lines.
fn add_lines(lines: &Lines, output: &mut Vec<u8>) -> Result<(), Mem>
    ensures { OnOk result (output.new.items ≡ output.old.items ++ line_bytes lines.now) }
{
    for line in lines.as_slice() {
        add_line(output, line)?;
    }
    Ok(())
}

// What the client has is printed.
fn show(client: &RevivedClient, output: &mut Vec<u8>) -> Result<(), Mem>
    ensures { OnOk result (output.new.items ≡ output.old.items ++ bytes_of (written client.now line.Show)) }
{
    let lines = client.show_lines()?;
    let shown = add_lines(&lines, output);
    drop(lines);
    shown
}

// Does what the line says.
fn act_by(
    alloc: Global,
    client: &mut RevivedClient,
    line: &Line,
    output: &mut Vec<u8>,
) -> Result<(), Mem>
    ensures written { OnOk result (output.new.items ≡ output.old.items ++ bytes_of (written client.old line.now)) }
    ensures client { OnOk result (client.new ≡ after client.old line.now) }
{
    match line {
        Line::Ask(asked) => ask(alloc, client, asked, output),
        Line::Server(text) => hear(alloc, client, text, output),
        Line::Lost => lose(alloc, client, output),
        Line::Said => say(alloc, client, output),
        Line::Show => show(client, output),
    }
}

// Does what the line says. It takes the line, so that no caller has to drop it.
pub(crate) fn act(
    alloc: Global,
    client: &mut RevivedClient,
    line: Line,
    output: &mut Vec<u8>,
) -> Result<(), Mem>
    ensures written { OnOk result (output.new.items ≡ output.old.items ++ bytes_of (written client.old line)) }
    ensures client { OnOk result (client.new ≡ after client.old line) }
{
    let done = act_by(alloc, client, &line, output);
    drop(line);
    done
}
