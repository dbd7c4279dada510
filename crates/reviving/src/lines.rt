//! The lines of the command.
ghost use Rattle.std.specs.Prelude.{◌≡◌, option_map, IfOk};
ghost use Rattle.value_model.specs.Val.{vals_of};
ghost use Rattle.ejson_value.specs.View.{view, views};
ghost use Rattle.line_parts.specs.Parts.{text_alone};
ghost use Rattle.client_script.specs.Lines.{line_in as script_line_in};
ghost use Rattle.reviving.specs.declared.lines.Line.TheVariants as line;
ghost use Rattle.reviving.specs.Lines.{alone, of_script, row_in, line_in, line_of};

use checking::value_in;
use client_script::{Ask, Line as ScriptLine, line_in as script_line_in};
use ejson_value::{Mem, Text, Value};
use line_parts::{is_nil, text_alone, text_first};
use std::alloc::Global;

// What a line describes.
#[derive(Drop)]
pub(crate) enum Line {
    // The client is asked for something.
    Ask(Ask),
    // The server sent this text.
    Server(Text),
    // The link was lost.
    Lost,
    // The next text is said.
    Said,
    // What the client has is printed.
    Show,
}

// The line of a text of the server.
fn read_server(values: &[Value]) -> Result<Option<Line>, Mem>
    ensures { IfOk result (λ l. l ≡ option_map line.Server (text_alone (vals_of (views values.now)))) }
{
    match text_alone(values) {
        Some(text) => Ok(Some(Line::Server(text.copy()?))),
        None => Ok(None),
    }
}

// The line of a word alone.
fn alone(line: Line, values: &[Value]) -> Option<Line>
    ensures { result ≡ alone line (vals_of (views values.now)) }
{
    if is_nil(values) {
        Some(line)
    } else {
        drop(line);
        None
    }
}

// The line of a script, but for one that waits: nothing comes of itself here.
fn of_script(line: Option<ScriptLine>) -> Option<Line>
    ensures { result ≡ of_script line }
{
    match line {
        Some(ScriptLine::Ask(ask)) => Some(Line::Ask(ask)),
        Some(ScriptLine::Show) => Some(Line::Show),
        Some(ScriptLine::Wait) | None => None,
    }
}

fn read_script(alloc: Global, value: &Value) -> Result<Option<Line>, Mem>
    ensures { IfOk result (λ l. l ≡ of_script (script_line_in (view value.now))) }
{
    Ok(of_script(script_line_in(alloc, value)?))
}

// The line of this value, which begins with this word.
fn read_row(
    alloc: Global,
    value: &Value,
    word: &Text,
    values: &[Value],
) -> Result<Option<Line>, Mem>
    ensures { IfOk result (λ l. l ≡ row_in (view value.now) word.now (vals_of (views values.now))) }
{
    match word.as_str() {
        "server" => read_server(values),
        "lost" => Ok(alone(Line::Lost, values)),
        "said" => Ok(alone(Line::Said, values)),
        _ => read_script(alloc, value),
    }
}

fn line_in(alloc: Global, value: &Value) -> Result<Option<Line>, Mem>
    ensures { IfOk result (λ l. l ≡ line_in (view value.now)) }
{
    let Value::List(items) = value else {
        return Ok(None);
    };
    match text_first(items.as_slice()) {
        Some((word, rest)) => read_row(alloc, value, word, rest),
        None => Ok(None),
    }
}

// What the line describes, if it is of the grammar.
pub(crate) fn line_of(alloc: Global, line: &[u8]) -> Result<Option<Line>, Mem>
    ensures { IfOk result (λ l. l ≡ line_of line.now) }
{
    let Some(value) = value_in(alloc, line)? else {
        return Ok(None);
    };
    let read = line_in(alloc, &value);
    drop(value);
    read
}
