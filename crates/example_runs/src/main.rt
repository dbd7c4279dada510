//! Runs the examples, and tells of each script whether its application is one and its run writes what stands beside it (a
//! script in the folder `revive` is one of that command, any other is one of `replay`), of each file of rows whether `check`
//! answers to their applications what stands behind them, of each file of runs whether the words and lines of each lead to the
//! status and the lines behind them, and of each file of inputs whether the words and the bytes of each lead to the status, the
//! output and the reason behind them, also where a read or a write fails.
#![tactic(auto)]

use commands::{Status, run_plain};
use ejson_value::{Bytes, Mem, Text};
use io_edge::{Calls, MemorySink, MemorySource};
use std::alloc::Global;
use std::{env, fs, io, str};

// How many bytes an output may have.
const ROOM: u64 = 65536;

// The application that a row of inputs writes as `@`.
const APPLICATION: &str =
    r#"{"collections":["tasks"],"methods":{},"publications":{"all":[{"collection":"tasks"}]}}"#;

fn source_of(alloc: Global, input: &str) -> Result<MemorySource, Mem> {
    let bytes = Vec::from_slice(alloc, input.as_bytes())?;
    Ok(MemorySource::new(Bytes::from_vec(bytes), Calls::new(alloc)))
}

fn run(alloc: Global, words: &[Text], source: &mut MemorySource, sink: &mut MemorySink) -> Status {
    let mut reason = Text::new(alloc);
    run_plain(alloc, words, source, sink, &mut reason, &mut None)
}

fn run_into(alloc: Global, word: Text, input: &str, sink: &mut MemorySink) -> Result<Status, Mem> {
    let mut source = source_of(alloc, input)?;
    Ok(run(alloc, &[word], &mut source, sink))
}

// Whether the command of this word ends so with the input, and writes this output.
fn writes(
    alloc: Global,
    word: &str,
    input: &str,
    wanted: Status,
    output: &str,
) -> Result<bool, Mem> {
    let word = Text::from_str(alloc, word)?;
    let mut sink = MemorySink::new(alloc, ROOM, Calls::new(alloc))?;
    let status = run_into(alloc, word, input, &mut sink)?;
    Ok(status == wanted && sink.written() == output.as_bytes())
}

// What `check` answers to an application.
const TAKEN: &str = "[\"ok\"]";

fn is_taken(alloc: Global, application: &str) -> Result<bool, Mem> {
    let output = format!(in alloc; "{TAKEN}\n")?;
    writes(alloc, "check", application, Status::Ok, output.as_str())
}

fn is_refused(alloc: Global, application: &str, fault: &str) -> Result<bool, Mem> {
    let output = format!(in alloc; "{fault}\n[\"bad\",1]\n")?;
    writes(
        alloc,
        "check",
        application,
        Status::BadInput,
        output.as_str(),
    )
}

// Whether `check` answers to the text of a row as the row says: that it is an application, or with its fault.
fn is_answered(alloc: Global, row: &str) -> Result<bool, Mem> {
    let (application, answer) = row.split_once(" => ").unwrap_or((row, ""));
    if answer == TAKEN {
        is_taken(alloc, application)
    } else {
        is_refused(alloc, application, answer)
    }
}

fn are_answered(alloc: Global, rows: &str) -> Result<bool, Mem> {
    for row in rows.lines() {
        if !is_answered(alloc, row)? {
            return Ok(false);
        }
    }
    Ok(true)
}

fn is_right(alloc: Global, command: &str, script: &str, output: &str) -> Result<bool, Mem> {
    let application = script.lines().next().unwrap_or("");
    Ok(is_taken(alloc, application)? && writes(alloc, command, script, Status::Ok, output)?)
}

// The command that runs the script of this name.
fn command_of(name: &str) -> &'static str {
    if name.starts_with("revive/") {
        "revive"
    } else {
        "replay"
    }
}

// The words of a row, which spaces part.
fn words_of(alloc: Global, row: &str) -> Result<Vec<Text>, Mem> {
    let mut words = Vec::new(alloc);
    for word in row.split_whitespace() {
        words.push(Text::from_str(alloc, word)?)?;
    }
    Ok(words)
}

// The lines of a row, none of which holds a space.
fn lines_of(alloc: Global, row: &str) -> Result<String, Mem> {
    let mut lines = String::new(alloc);
    for line in row.split_whitespace() {
        lines.push_str(line)?;
        lines.push('\n')?;
    }
    Ok(lines)
}

// Whether these words and lines lead to this status, and to these lines.
fn leads_to(alloc: Global, words: &str, lines: &str, wanted: &str) -> Result<bool, Mem> {
    let words = words_of(alloc, words)?;
    let input = lines_of(alloc, lines)?;
    let (code, written) = wanted.split_once(' ').unwrap_or((wanted, ""));
    let output = lines_of(alloc, written)?;
    let mut source = source_of(alloc, input.as_str())?;
    let mut sink = MemorySink::new(alloc, ROOM, Calls::new(alloc))?;
    let status = run(alloc, words.as_slice(), &mut source, &mut sink);
    Ok(code.parse() == Ok(status.code()) && sink.written() == output.as_bytes())
}

// Whether a row of runs is so: its words, `: `, its lines, `=> `, its status and the lines that it writes.
fn is_run(alloc: Global, row: &str) -> Result<bool, Mem> {
    let (words, rest) = row.split_once(": ").unwrap_or((row, ""));
    let (lines, wanted) = rest.split_once("=> ").unwrap_or((rest, ""));
    leads_to(alloc, words, lines, wanted)
}

fn are_runs(alloc: Global, rows: &str) -> Result<bool, Mem> {
    for row in rows.lines() {
        if !is_run(alloc, row)? {
            return Ok(false);
        }
    }
    Ok(true)
}

// Puts the byte that a row writes so: `|` is the end of a line, `@` the application and `~` a byte that is no UTF-8.
fn put(bytes: &mut Vec<u8>, byte: u8) -> Result<(), Mem> {
    match byte {
        b'@' => bytes.extend_from_slice(APPLICATION.as_bytes())?,
        b'|' => bytes.push(b'\n')?,
        b'~' => bytes.push(255)?,
        _ => bytes.push(byte)?,
    }
    Ok(())
}

// `N bytes`: spaces up to so many bytes; `N lines`: so many line ends more.
fn grow(bytes: &mut Vec<u8>, how: &str) -> Result<(), Mem> {
    let (number, unit) = how.split_once(' ').unwrap_or((how, ""));
    let number = number.parse::<u64>().unwrap_or(0) as usize;
    match unit {
        "bytes" => bytes.resize(number, b' ')?,
        "lines" => {
            let length = bytes.len().saturating_add(number);
            bytes.resize(length, b'\n')?
        }
        _ => {}
    }
    Ok(())
}

fn bytes_of(alloc: Global, input: &str, how: &str) -> Result<Vec<u8>, Mem> {
    let mut bytes = Vec::new(alloc);
    for byte in input.as_bytes() {
        put(&mut bytes, *byte)?;
    }
    grow(&mut bytes, how)?;
    Ok(bytes)
}

// `read N` or `write N`: the call that fails.
fn failing(alloc: Global, call: &str, how: &str) -> Result<Calls, Mem> {
    let mut calls = Calls::new(alloc);
    let number = how.strip_prefix(call).unwrap_or("");
    if let Ok(number) = number.parse::<u64>() {
        calls.push(number)?;
    }
    Ok(calls)
}

fn source(alloc: Global, input: &str, how: &str) -> Result<MemorySource, Mem> {
    let bytes = bytes_of(alloc, input, how)?;
    let calls = failing(alloc, "read ", how)?;
    Ok(MemorySource::new(Bytes::from_vec(bytes), calls))
}

fn sink(alloc: Global, how: &str) -> Result<MemorySink, Mem> {
    let calls = failing(alloc, "write ", how)?;
    MemorySink::new(alloc, ROOM, calls)
}

// The words of a row of inputs; one space parts two of them.
fn parted(alloc: Global, row: &str) -> Result<Vec<Text>, Mem> {
    let mut words = Vec::new(alloc);
    if !row.is_empty() {
        for word in row.split(' ') {
            words.push(Text::from_str(alloc, word)?)?;
        }
    }
    Ok(words)
}

// What a run came to, as the rows show it.
fn shown(alloc: Global, status: Status, output: &[u8], reason: &Text) -> Result<String, Mem> {
    let output = str::from_utf8(output)
        .unwrap_or("no UTF-8")
        .replace(alloc, "\n", "|")?;
    let (status, output, reason) = (status.code(), output.as_str(), reason.as_str());
    Ok(format!(in alloc; "{status}; {output}; {reason}")?)
}

fn ran(
    alloc: Global,
    words: &[Text],
    source: &mut MemorySource,
    sink: &mut MemorySink,
) -> Result<String, Mem> {
    let mut reason = Text::new(alloc);
    let status = run_plain(alloc, words, source, sink, &mut reason, &mut None);
    shown(alloc, status, sink.written(), &reason)
}

fn comes_of(alloc: Global, words: &str, how: &str, input: &str) -> Result<String, Mem> {
    let words = parted(alloc, words)?;
    let mut source = source(alloc, input, how)?;
    let mut sink = sink(alloc, how)?;
    ran(alloc, words.as_slice(), &mut source, &mut sink)
}

// Whether a row of inputs is so: its words, perhaps `, ` and which call fails or how long the input is, `: `, the input,
// ` => `, and the status, the output and the reason.
fn is_input(alloc: Global, row: &str) -> Result<bool, Mem> {
    let (given, rest) = row.split_once(": ").unwrap_or((row, ""));
    let (words, how) = given.split_once(", ").unwrap_or((given, ""));
    let (input, wanted) = rest.split_once(" => ").unwrap_or((rest, ""));
    Ok(comes_of(alloc, words, how, input)?.as_str() == wanted)
}

fn are_inputs(alloc: Global, rows: &str) -> Result<bool, Mem> {
    for row in rows.lines() {
        if !is_input(alloc, row)? {
            return Ok(false);
        }
    }
    Ok(true)
}

fn word(right: Result<bool, Mem>) -> &'static str {
    match right {
        Ok(true) => "right",
        Ok(false) => "wrong",
        Err(Mem) => "out of memory",
    }
}

fn told_of_rows(rt: &HostRuntime, name: &str) -> io::Result<&'static str> {
    let rows = fs::read_to_string(rt, name)?;
    Ok(word(are_answered(rt.alloc(), rows.as_str())))
}

fn told_of_script(rt: &HostRuntime, name: &str) -> io::Result<&'static str> {
    let script = fs::read_to_string(rt, format!(in rt.alloc(); "{name}.jsonl")?)?;
    let output = fs::read_to_string(rt, format!(in rt.alloc(); "{name}.out")?)?;
    Ok(word(is_right(
        rt.alloc(),
        command_of(name),
        script.as_str(),
        output.as_str(),
    )))
}

fn told_of_runs(rt: &HostRuntime, name: &str) -> io::Result<&'static str> {
    let rows = fs::read_to_string(rt, name)?;
    Ok(word(are_runs(rt.alloc(), rows.as_str())))
}

fn told_of_inputs(rt: &HostRuntime, name: &str) -> io::Result<&'static str> {
    let rows = fs::read_to_string(rt, name)?;
    Ok(word(are_inputs(rt.alloc(), rows.as_str())))
}

// What becomes of the rows, the runs, the inputs or the script of this name.
fn told(rt: &HostRuntime, name: &str) -> io::Result<&'static str> {
    if name.ends_with(".rows") {
        told_of_rows(rt, name)
    } else if name.ends_with(".runs") {
        told_of_runs(rt, name)
    } else if name.ends_with(".inputs") {
        told_of_inputs(rt, name)
    } else {
        told_of_script(rt, name)
    }
}

fn main(rt: HostRuntime) -> io::Result<()> {
    for name in env::args(&rt)?.skip(1) {
        println!(rt; "{name}: {}", told(&rt, name.as_str())?)?;
    }
    Ok(())
}
