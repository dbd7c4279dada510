//! A run of the command.
ghost use Rattle.std.specs.Prelude.{◌≡◌, ◌≤◌, ◌++◌, length, IfOk, OnOk};
ghost use Rattle.checking.specs.Input.{input_limit, lines_in};
ghost use Rattle.checking.specs.Output.{bytes_of};
ghost use Rattle.revived_client.specs.State.{new_state};
ghost use Rattle.reviving.specs.Run.{app_of, lines_of, bad_line, revive_bad, all_written, written_by, revive_text};

use crate::acting::act;
use crate::lines::line_of;
use app_model::{App, AppFault};
use checking::{Outcome, add_bad_line, first_line, is_blank, value_in};
use ejson_value::Mem;
use revived_client::RevivedClient;
use std::alloc::Global;

// The application of the line, if it describes one.
fn read_app(alloc: Global, line: &[u8]) -> Result<Option<App>, Mem>
    ensures { IfOk result (λ app. app ≡ app_of line.now) }
{
    let Some(value) = value_in(alloc, line)? else {
        return Ok(None);
    };
    let read = App::read(alloc, &value);
    drop(value);
    match read {
        Ok(app) => Ok(Some(app)),
        Err(AppFault::Bad { .. }) => Ok(None),
        Err(AppFault::Memory) => Err(Mem),
    }
}

// Runs lines up to the first bad one, and answers the number of that.
fn run_lines(
    alloc: Global,
    client: &mut RevivedClient,
    lines: &[u8],
    output: &mut Vec<u8>,
) -> Result<Option<u32>, Mem>
    requires short { length lines.now ≤ input_limit }
    ensures written { OnOk result (output.new.items ≡ output.old.items ++ bytes_of (all_written client.old (lines_of (lines_in lines.now)))) }
    ensures bad { IfOk result (λ bad. bad ≡ bad_line 2 (lines_in lines.now)) }
{
    let mut rest = lines;
    let mut number = 2;
    while !rest.is_empty() {
        let (line, more) = first_line(rest);
        if !is_blank(line) {
            let Some(read) = line_of(alloc, line)? else {
                return Ok(Some(number));
            };
            act(alloc, client, read, output)?;
        }
        rest = more;
        number += 1;
    }
    Ok(None)
}

// Runs the lines of an application.
fn run_app(alloc: Global, app: &App, lines: &[u8], output: &mut Vec<u8>) -> Result<Option<u32>, Mem>
    requires { length lines.now ≤ input_limit }
    ensures written { OnOk result (output.new.items ≡ output.old.items ++ bytes_of (all_written (new_state app.now) (lines_of (lines_in lines.now)))) }
    ensures bad { IfOk result (λ bad. bad ≡ bad_line 2 (lines_in lines.now)) }
{
    let mut client = RevivedClient::new(alloc, app)?;
    run_lines(alloc, &mut client, lines, output)
}

// Runs an input up to its first bad line, and answers the number of that.
fn run_input(alloc: Global, input: &[u8], output: &mut Vec<u8>) -> Result<Option<u32>, Mem>
    requires { length input.now ≤ input_limit }
    ensures written { OnOk result (output.new.items ≡ output.old.items ++ bytes_of (written_by (lines_in input.now))) }
    ensures bad { IfOk result (λ bad. bad ≡ revive_bad input.now) }
{
    if input.is_empty() {
        return Ok(Some(1));
    }
    let (line, rest) = first_line(input);
    match read_app(alloc, line)? {
        None => Ok(Some(1)),
        Some(app) => run_app(alloc, &app, rest, output),
    }
}

/// Runs the lines of an input with a client that lives through several links, and answers the whole output. The first line is the
/// application whose stubs the client runs. Further lines are `["sub",id,name]` and `["call",method]`, both also with a list of
/// parameters, and `["unsub",id]`, by which the client is asked for something; `["server",text]`, which the client hears, and
/// where it refuses it `["server sent",number]` is written; `["lost"]`; `["said"]`, which writes `["up",text]`; and `["show"]`,
/// which writes what the client has. What can't be done writes `["idle"]`. The first line that isn't of the grammar is named.
pub fn revive(alloc: Global, input: &[u8]) -> Result<Outcome, Mem>
    requires { length input.now ≤ input_limit }
    ensures text { IfOk result (λ o. o.text.items ≡ revive_text input.now) }
    ensures bad { IfOk result (λ o. o.bad_line ≡ revive_bad input.now) }
{
    let mut text = Vec::new(alloc);
    let bad_line = run_input(alloc, input, &mut text)?;
    add_bad_line(alloc, &mut text, bad_line)?;
    Ok(Outcome { text, bad_line })
}
