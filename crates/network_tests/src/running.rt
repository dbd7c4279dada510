//! Running the rows.
use crate::rows::APPLICATION;
use commands::Status;
use duct::{Links, MemoryLink, MemoryNetwork, Texts};
use ejson_value::{Bytes, Mem, Text};
use heartbeat::StepClocks;
use io_edge::{Calls, MemorySink, MemorySource};
use network_commands::{run, run_timed};
use std::alloc::Global;
use std::marker::Sync;
use std::str;
use std::sync::Wait;
use std::test::Fail;
use std::thread::Threads;

// How many milliseconds the clocks go on at each question.
const STEP: u64 = 10;

// The call of this number, where it isn't 0.
fn call(alloc: Global, number: u64) -> Result<Calls, Mem> {
    let mut calls = Calls::new(alloc);
    if number > 0 {
        calls.push(number)?;
    }
    Ok(calls)
}

fn words_of(alloc: Global, words: &str) -> Result<Vec<Text>, Mem> {
    let mut found = Vec::new(alloc);
    if !words.is_empty() {
        for word in words.split(' ') {
            found.push(Text::from_str(alloc, word)?)?;
        }
    }
    Ok(found)
}

fn add(bytes: &mut Vec<u8>, byte: u8) -> Result<(), Mem> {
    match byte {
        b'@' => bytes.extend_from_slice(APPLICATION.as_bytes())?,
        b'|' => bytes.push(b'\n')?,
        _ => bytes.push(byte)?,
    }
    Ok(())
}

// A source of the bytes that a row stands for.
fn source(alloc: Global, input: &str) -> Result<MemorySource, Mem> {
    let mut bytes = Vec::new(alloc);
    for byte in input.as_bytes() {
        add(&mut bytes, *byte)?;
    }
    Ok(MemorySource::new(Bytes::from_vec(bytes), Calls::new(alloc)))
}

// The texts that wait at a link.
fn texts(alloc: Global, link: &str) -> Result<Texts, Mem> {
    let mut texts = Texts::new(alloc);
    for text in link.split('|') {
        if text.starts_with('{') {
            texts.push(Text::from_str(alloc, text)?)?;
        }
    }
    Ok(texts)
}

// The link that a row stands for: its texts, then `.` where the peer closes, or `x` where the first poll fails.
fn link(alloc: Global, row: &str) -> Result<MemoryLink, Mem> {
    let texts = texts(alloc, row)?;
    let polls = call(alloc, u64::from(row.ends_with('x')))?;
    Ok(MemoryLink::new(
        alloc,
        texts,
        row.ends_with('.'),
        100,
        polls,
        Calls::new(alloc),
    ))
}

// The links of a row, each behind a mark.
fn links(alloc: Global, row: &str) -> Result<Links, Mem> {
    let mut links = Links::new(alloc);
    for part in row.split('#').skip(1) {
        links.push(link(alloc, part)?)?;
    }
    Ok(links)
}

// The network of a row. One that begins with a stroke doesn't listen.
fn network(alloc: Global, row: &str) -> Result<MemoryNetwork, Mem> {
    let links = links(alloc, row)?;
    let listens = call(alloc, u64::from(row.starts_with('-')))?;
    Ok(MemoryNetwork::new(links, listens, Calls::new(alloc), Calls::new(alloc)))
}

// What a run came to, as the rows show it.
fn shown(alloc: Global, status: Status, output: &[u8], reason: &Text) -> Result<String, Fail> {
    let output = str::from_utf8(output)?.replace(alloc, "\n", "|")?;
    let (status, output, reason) = (status.code(), output.as_str(), reason.as_str());
    Ok(format!(in alloc; "{status}; {output}; {reason}")?)
}

fn ran<R: Threads + Wait + Copy + Send + Sync + 'static>(
    rt: &R,
    alloc: Global,
    words: &[Text],
    source: &mut MemorySource,
    sink: &mut MemorySink,
    network: &mut MemoryNetwork,
) -> Result<String, Fail> {
    let mut clocks = StepClocks::new(STEP);
    let mut reason = Text::new(alloc);
    let mut left = None;
    let status = run_timed(
        rt,
        alloc,
        words,
        source,
        sink,
        network,
        &mut clocks,
        &mut reason,
        &mut left,
    );
    shown(alloc, status, sink.written(), &reason)
}

// The same without clocks.
fn ran_without<R: Threads + Wait + Copy + Send + Sync + 'static>(
    rt: &R,
    alloc: Global,
    words: &[Text],
    source: &mut MemorySource,
    sink: &mut MemorySink,
    network: &mut MemoryNetwork,
) -> Result<String, Fail> {
    let mut reason = Text::new(alloc);
    let mut left = None;
    let status = run(
        rt,
        alloc,
        words,
        source,
        sink,
        network,
        &mut reason,
        &mut left,
    );
    shown(alloc, status, sink.written(), &reason)
}

// What these words come to on the input and the network of a row, where this write fails.
fn outcome<R: Threads + Wait + Copy + Send + Sync + 'static>(
    rt: &R,
    alloc: Global,
    words: &str,
    input: &str,
    links: &str,
    write: u64,
) -> Result<String, Fail> {
    let words = words_of(alloc, words)?;
    let mut source = source(alloc, input)?;
    let mut sink = MemorySink::new(alloc, 4096, call(alloc, write)?)?;
    let mut network = network(alloc, links)?;
    ran(
        rt,
        alloc,
        words.as_slice(),
        &mut source,
        &mut sink,
        &mut network,
    )
}

/// Whether what the row says comes of it, where this write fails.
pub(crate) fn comes_right<R: Threads + Wait + Copy + Send + Sync + 'static>(
    rt: &R,
    alloc: Global,
    row: &str,
    write: u64,
) -> Result<bool, Fail> {
    let (run, wanted) = row.split_once(" => ").unwrap_or((row, ""));
    let (words, rest) = run.split_once(" < ").unwrap_or((run, ""));
    let (input, links) = rest.split_once(" < ").unwrap_or((rest, ""));
    Ok(outcome(rt, alloc, words, input, links, write)?.as_str() == wanted)
}

/// Whether the words name no command: nothing is read, written or asked for then.
pub(crate) fn is_usage<R: Threads + Wait + Copy + Send + Sync + 'static>(
    rt: &R,
    alloc: Global,
    words: &str,
) -> Result<bool, Fail> {
    Ok(outcome(rt, alloc, words, "@", "#.", 1)?.as_str() == "2; ; ")
}

/// Whether the words name no command where there are no clocks.
pub(crate) fn wants_clocks<R: Threads + Wait + Copy + Send + Sync + 'static>(
    rt: &R,
    alloc: Global,
    words: &str,
) -> Result<bool, Fail> {
    let words = words_of(alloc, words)?;
    let mut source = source(alloc, "@")?;
    let mut sink = MemorySink::new(alloc, 4096, call(alloc, 1)?)?;
    let mut network = network(alloc, "#.")?;
    let came = ran_without(
        rt,
        alloc,
        words.as_slice(),
        &mut source,
        &mut sink,
        &mut network,
    )?;
    Ok(came.as_str() == "2; ; ")
}
