//! Running the lines of a script.
ghost use Rattle.std.specs.Prelude.{◌≡◌, ◌≤◌, ◌++◌, length, IfOk, OnOk};
ghost use Rattle.duct.specs.Told.{CountsFaults};
ghost use Rattle.client_script.specs.Course.{written, written_line};
ghost use Rattle.client_script.specs.Moving.{Prints, RunsOne, RunsAll, write_failed};

use crate::end::ConsoleEnd;
use crate::line::Line;
use crate::script::Script;
use crate::speaker::Speaker;
use ejson_codec::Lines;
use ejson_value::{Mem, Text};
use io_edge::{Sink, write_all};
use std::alloc::Global;

// Adds a line with this text.
fn add_line(bytes: &mut Vec<u8>, line: &Text) -> Result<(), Mem>
    ensures { OnOk result (bytes.new.items ≡ bytes.old.items ++ written_line line.now) }
{
    bytes.extend_from_slice(line.as_bytes())?;
    bytes.push(b'\n')?;
    Ok(())
}

// The lines as they are written.
fn joined(alloc: Global, lines: &Lines) -> Result<Vec<u8>, Mem>
    ensures { IfOk result (λ bytes. bytes.items ≡ written lines.now) }
{
    let mut bytes = Vec::new(alloc);
    for line in lines.as_slice() {
        add_line(&mut bytes, line)?;
    }
    Ok(bytes)
}

// What the speaker's client has, as it is written.
fn shown<S: Speaker>(alloc: Global, speaker: &S) -> Result<Vec<u8>, Mem>
    ensures { IfOk result (λ bytes. bytes.items ≡ written (S.look speaker.now).lines) }
{
    let lines = speaker.show_lines()?;
    joined(alloc, &lines)
}

// Writes what the speaker's client has.
fn show<S: Speaker, O: Sink>(alloc: Global, speaker: &S, output: &mut O) -> Result<(), ConsoleEnd>
    ensures prints { Prints S.look S.does speaker.now (O.written output.old) (O.written output.new) result }
    ensures faults { CountsFaults (write_failed result) (O.faults output.old) (O.faults output.new) }
{
    let Ok(bytes) = shown(alloc, speaker) else {
        return Err(ConsoleEnd::Memory);
    };
    match write_all(output, bytes.as_slice()) {
        Ok(_) => Ok(()),
        Err(_) => Err(ConsoleEnd::WriteFault),
    }
}

// Runs a line, where it can be run now.
fn run_line<S: Speaker, O: Sink>(
    alloc: Global,
    speaker: &mut S,
    line: &Line,
    output: &mut O,
) -> Result<bool, ConsoleEnd>
    ensures runs { RunsOne S.look S.does speaker.old line.now (O.written output.old) speaker.new (O.written output.new) result }
    ensures faults { CountsFaults (write_failed result) (O.faults output.old) (O.faults output.new) }
{
    if !speaker.connected() {
        return Ok(false);
    }
    match line {
        Line::Ask(ask) => match speaker.ask(ask) {
            Ok(_) => Ok(true),
            Err(Mem) => Err(ConsoleEnd::Memory),
        },
        Line::Wait => Ok(speaker.settled()),
        Line::Show => match show(alloc, speaker, output) {
            Ok(()) => Ok(true),
            Err(end) => Err(end),
        },
    }
}

/// Runs the lines that can be run now. It answers whether no line is left.
pub(crate) fn run_lines<S: Speaker, O: Sink>(
    alloc: Global,
    speaker: &mut S,
    script: &Script,
    line: &mut u64,
    output: &mut O,
) -> Result<bool, ConsoleEnd>
    requires { line.old ≤ length script.now }
    ensures runs { RunsAll S.look S.does script.now line.old speaker.old (O.written output.old) line.new speaker.new (O.written output.new) result }
    ensures faults { CountsFaults (write_failed result) (O.faults output.old) (O.faults output.new) }
{
    let count = script.len() as u64;
    'lines: while *line < count {
        let Some(next) = script.get(*line as usize) else {
            return Ok(true);
        };
        match run_line(alloc, speaker, next, output) {
            Ok(true) => *line += 1,
            Ok(false) => return Ok(false),
            Err(end) => return Err(end),
        }
    }
    Ok(true)
}
