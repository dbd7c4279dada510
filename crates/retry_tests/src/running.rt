//! Running a script over the links of a network in memory.
use app_model::App;
use console_retry::{ConsoleEnd, RevivedClient, Script, console_retry, leg};
use duct::{Links, MemoryLink, MemoryNetwork, Texts};
use ejson_codec::parse;
use ejson_value::{Items, Mem, Text, Value};
use io_edge::{Calls, MemorySink};
use std::alloc::Global;
use std::str;
use std::sync::Wait;
use std::test::Fail;

const APP: &str =
    r#"{"collections":["tasks"],"methods":{"bump":{"steps":[["updateAll","tasks",{},{"$inc":{"n":1}}]],"stub":true}},"publications":{"all":[{"collection":"tasks"}]}}"#;

fn value(alloc: Global, text: &str) -> Result<Value, Fail> {
    Ok(parse(alloc, &Text::from_str(alloc, text)?)?)
}

fn items(alloc: Global, text: &str) -> Result<Items, Fail> {
    match value(alloc, text)? {
        Value::List(items) => Ok(items),
        _ => Err("no list".into()),
    }
}

fn app(alloc: Global) -> Result<App, Fail> {
    Ok(App::read(alloc, &value(alloc, APP)?)?)
}

fn script(alloc: Global, lines: &str) -> Result<Script, Fail> {
    let lines = items(alloc, lines)?;
    Ok(Script::read(alloc, &lines)?)
}

// The texts that a link gives: a part of a run's lines, behind its first.
fn texts(alloc: Global, part: &str) -> Result<Texts, Mem> {
    let mut texts = Texts::new(alloc);
    for line in part.lines() {
        if line.starts_with("{") {
            texts.push(Text::from_str(alloc, line)?)?;
        }
    }
    Ok(texts)
}

// The call of this number, where it isn't 0.
fn call(alloc: Global, number: u64) -> Result<Calls, Mem> {
    let mut calls = Calls::new(alloc);
    if number > 0 {
        calls.push(number)?;
    }
    Ok(calls)
}

// A link whose peer stays, has closed behind its texts, or whose first poll fails.
fn link(alloc: Global, part: &str) -> Result<MemoryLink, Mem> {
    let polls = call(alloc, u64::from(part.starts_with("fails")))?;
    let texts = texts(alloc, part)?;
    let closed = part.starts_with("closed");
    Ok(MemoryLink::new(alloc, texts, closed, 100, polls, Calls::new(alloc)))
}

// The links of a run, each behind a mark.
fn network(alloc: Global, run: &str) -> Result<MemoryNetwork, Mem> {
    let mut links = Links::new(alloc);
    for part in run.split("@ ").skip(1) {
        links.push(link(alloc, part)?)?;
    }
    Ok(MemoryNetwork::new(
        links,
        Calls::new(alloc),
        Calls::new(alloc),
        Calls::new(alloc),
    ))
}

// How a script ends over these links.
fn end_of<R: Wait>(
    rt: &R,
    alloc: Global,
    lines: &str,
    tries: u32,
    net: &mut MemoryNetwork,
    sink: &mut MemorySink,
) -> Result<ConsoleEnd, Fail> {
    let app = app(alloc)?;
    let script = script(alloc, lines)?;
    Ok(console_retry(rt, alloc, &app, &script, 1, tries, net, sink))
}

fn shown(alloc: Global, end: ConsoleEnd, sink: &MemorySink) -> Result<String, Fail> {
    let written = str::from_utf8(sink.written())?;
    Ok(format!(in alloc; "{end:?}\n{written}")?)
}

// How a script ends over one link, and how many of its lines were run.
fn leg_of<R: Wait>(
    rt: &R,
    alloc: Global,
    lines: &str,
    link: &mut MemoryLink,
    sink: &mut MemorySink,
) -> Result<(ConsoleEnd, u64), Fail> {
    let script = script(alloc, lines)?;
    let mut client = RevivedClient::new(alloc, &app(alloc)?)?;
    let mut line = 0;
    let end = leg(rt, alloc, &mut client, &script, &mut line, link, sink);
    Ok((end, line))
}

fn leg_shown(alloc: Global, end: ConsoleEnd, line: u64, sink: &MemorySink) -> Result<String, Fail> {
    let written = str::from_utf8(sink.written())?;
    Ok(format!(in alloc; "{end:?} {line}\n{written}")?)
}

/// The end of a script over the one link of a run, where this write fails, how many lines were run, and what was written.
pub(crate) fn leg_ran<R: Wait>(
    rt: &R,
    alloc: Global,
    lines: &str,
    write: u32,
    run: &str,
) -> Result<String, Fail> {
    let part = run.split("@ ").nth(1).unwrap_or("");
    let mut link = link(alloc, part)?;
    let mut sink = MemorySink::new(alloc, 10_000, call(alloc, u64::from(write))?)?;
    let (end, line) = leg_of(rt, alloc, lines, &mut link, &mut sink)?;
    leg_shown(alloc, end, line, &sink)
}

/// The end of a script over the links of a run, with so many further tries, and what was written.
pub(crate) fn ran<R: Wait>(
    rt: &R,
    alloc: Global,
    lines: &str,
    tries: u32,
    run: &str,
) -> Result<String, Fail> {
    let mut net = network(alloc, run)?;
    let mut sink = MemorySink::new(alloc, 10_000, Calls::new(alloc))?;
    let end = end_of(rt, alloc, lines, tries, &mut net, &mut sink)?;
    shown(alloc, end, &sink)
}
