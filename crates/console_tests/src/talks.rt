//! Consoles over links in memory: what each sends and writes, and how it ends.
use crate::calling::{run_console, run_rest};
use crate::parting::Parting;
use crate::reading::{app, script};
use console_run::ConsoleEnd;
use duct::{MemoryLink, Texts};
use ejson_value::{Mem, Text};
use io_edge::{Calls, MemorySink};
use std::alloc::Global;
use std::str;
use std::sync::Wait;
use std::test::Fail;

// Talks, each behind a line with what the peer does (it has closed from the start, parts behind its last text, or stays), how
// many texts it takes, the numbers of the poll, the send and the write that fail, if any, and how the console ends. Its script
// is the line with `$`. Lines with `<` are the texts of the server, those with `>` what the console sends, in this order, and
// the others what it writes.
const TALKS: &str = r#"== stays 100 0 0 0 Done
$ []
> {"msg":"connect","support":["1"],"version":"1"}
< {"msg":"connected","session":"S1"}
== stays 100 0 0 0 Version
$ [["wait"]]
> {"msg":"connect","support":["1"],"version":"1"}
< {"msg":"failed","version":"1"}
== stays 100 0 0 0 ServerSent(3)
$ [["wait"]]
> {"msg":"connect","support":["1"],"version":"1"}
< {"msg":"ready","subs":["1"]}
== stays 100 0 0 0 ServerSent(1)
$ [["wait"]]
> {"msg":"connect","support":["1"],"version":"1"}
< hello
== stays 100 0 0 0 ServerSent(5)
$ [["sub","1","all",[]],["show"],["wait"],["show"]]
> {"msg":"connect","support":["1"],"version":"1"}
< {"msg":"connected","session":"S1"}
> {"id":"1","msg":"sub","name":"all","params":[]}
["show","console"]
["sub","1","waiting"]
< {"msg":"added","collection":"tasks","id":"t1","fields":{"n":0}}
< {"msg":"added","collection":"tasks","id":"t1","fields":{"n":1}}
< {"msg":"ready","subs":["1"]}
== closed 100 0 0 0 Closed
$ [["wait"]]
== parts 100 0 0 0 Closed
$ [["wait"]]
> {"msg":"connect","support":["1"],"version":"1"}
== parts 100 0 0 0 Closed
$ [["call","make",[5]]]
> {"msg":"connect","support":["1"],"version":"1"}
< {"msg":"connected","session":"S1"}
> {"id":"1","method":"make","msg":"method","params":[5],"randomSeed":"S1-1"}
< {"msg":"result","id":"1"}
== parts 1 0 0 0 Closed
$ [["sub","1","all",[]]]
> {"msg":"connect","support":["1"],"version":"1"}
< {"msg":"connected","session":"S1"}
== stays 100 1 0 0 LinkFault
$ [["wait"]]
> {"msg":"connect","support":["1"],"version":"1"}
< {"msg":"connected","session":"S1"}
== stays 100 0 1 0 LinkFault
$ [["wait"]]
< {"msg":"connected","session":"S1"}
== stays 100 0 0 2 WriteFault
$ [["show"],["sub","1","all",[]],["show"],["call","make",[5]]]
> {"msg":"connect","support":["1"],"version":"1"}
< {"msg":"connected","session":"S1"}
["show","console"]
== stays 100 0 0 0 Done
$ [["sub","1","all",[]],["wait"],["call","make",[5]],["show"],["wait"],["show"],["unsub","1"],["wait"],["show"]]
> {"msg":"connect","support":["1"],"version":"1"}
< {"msg":"connected","session":"S1"}
> {"id":"1","msg":"sub","name":"all","params":[]}
< {"msg":"added","collection":"tasks","id":"t1","fields":{"n":0}}
< {"msg":"ready","subs":["1"]}
> {"id":"1","method":"make","msg":"method","params":[5],"randomSeed":"S1-1"}
["show","console"]
["doc","tasks","t1",{"n":0}]
["doc","tasks","t2",{"n":5}]
["sub","1","ready"]
["method","1","waiting"]
< {"id":"x","msg":"ping"}
> {"id":"x","msg":"pong"}
< {"msg":"result","id":"1","result":[7]}
< {"msg":"updated","methods":["1"]}
["show","console"]
["doc","tasks","t1",{"n":0}]
["sub","1","ready"]
["method","1","done",[7]]
> {"id":"1","msg":"unsub"}
["show","console"]
["doc","tasks","t1",{"n":0}]
["sub","1","ready"]
["method","1","done",[7]]
== stays 100 0 0 0 Done
$ [["unsub","9"],["sub","1","nope"],["sub","1","all"],["call","nope"],["wait"],["show"]]
> {"msg":"connect","support":["1"],"version":"1"}
< {"msg":"connected","session":"S1"}
> {"id":"1","msg":"sub","name":"nope","params":[]}
> {"id":"1","method":"nope","msg":"method","params":[],"randomSeed":"S1-1"}
< {"msg":"nosub","id":"1","error":{"error":"404","errorType":"Meteor.Error","reason":"Subscription not found"}}
< {"msg":"updated","methods":["1"]}
< {"msg":"result","id":"1","error":{"error":"404","errorType":"Meteor.Error","reason":"Method not found"}}
["show","console"]
["sub","1","refused","404"]
["method","1","failed","404","Method not found"]
"#;

// The word with this number, from 0, of the first line.
fn word(talk: &str, number: usize) -> &str {
    let head = talk.lines().next().unwrap_or("");
    head.split(' ').nth(number).unwrap_or("")
}

// The number that is this word.
fn number(talk: &str, place: usize) -> u32 {
    word(talk, place).parse::<u32>().unwrap_or(0)
}

// The call that is this word, if any is to fail.
fn failing(alloc: Global, talk: &str, place: usize) -> Result<Calls, Mem> {
    let mut calls = Calls::new(alloc);
    let call = number(talk, place);
    if call > 0 {
        calls.push(call as u64)?;
    }
    Ok(calls)
}

// The texts of the server.
fn texts(alloc: Global, talk: &str) -> Result<Texts, Mem> {
    let mut texts = Texts::new(alloc);
    for line in talk.lines() {
        if let Some(text) = line.strip_prefix("< ") {
            texts.push(Text::from_str(alloc, text)?)?;
        }
    }
    Ok(texts)
}

fn link(alloc: Global, talk: &str) -> Result<Parting, Mem> {
    let polls = failing(alloc, talk, 2)?;
    let sends = failing(alloc, talk, 3)?;
    let texts = texts(alloc, talk)?;
    let closed = word(talk, 0) == "closed";
    let link = MemoryLink::new(alloc, texts, closed, number(talk, 1), polls, sends);
    Ok(Parting::new(link, word(talk, 0) == "parts"))
}

fn sink(alloc: Global, talk: &str) -> Result<MemorySink, Mem> {
    let writes = failing(alloc, talk, 4)?;
    MemorySink::new(alloc, 10_000, writes)
}

// The script's lines.
fn lines(talk: &str) -> &str {
    for line in talk.lines() {
        if let Some(lines) = line.strip_prefix("$ ") {
            return lines;
        }
    }
    ""
}

// How the console ends.
fn end_of<R: Wait>(
    rt: &R,
    alloc: Global,
    talk: &str,
    link: &mut Parting,
    sink: &mut MemorySink,
) -> Result<ConsoleEnd, Fail> {
    let app = app(alloc)?;
    let script = script(alloc, lines(talk))?;
    Ok(run_console(rt, alloc, &app, &script, link, sink))
}

// What was sent on a link, a line each.
fn add_sent(all: &mut Text, link: &MemoryLink) -> Result<(), Mem> {
    for text in link.sent().as_slice() {
        all.push_str("> ")?;
        all.push_str(text.as_str())?;
        all.push('\n')?;
    }
    Ok(())
}

fn add_written(all: &mut Text, sink: &MemorySink) -> Result<(), Mem> {
    match str::from_utf8(sink.written()) {
        Ok(text) => all.push_str(text),
        Err(_) => all.push_str("no UTF-8"),
    }
}

fn add_end(alloc: Global, all: &mut Text, end: ConsoleEnd) -> Result<(), Fail> {
    let line = format!(in alloc; "{end:?}\n")?;
    Ok(all.push_str(line.as_str())?)
}

// The end, what was sent, and what was written.
fn all_of(
    alloc: Global,
    end: ConsoleEnd,
    link: &MemoryLink,
    sink: &MemorySink,
) -> Result<Text, Fail> {
    let mut all = Text::new(alloc);
    add_end(alloc, &mut all, end)?;
    add_sent(&mut all, link)?;
    add_written(&mut all, sink)?;
    Ok(all)
}

// How a talk went.
fn went<R: Wait>(rt: &R, alloc: Global, talk: &str) -> Result<Text, Fail> {
    let mut link = link(alloc, talk)?;
    let mut sink = sink(alloc, talk)?;
    let end = end_of(rt, alloc, talk, &mut link, &mut sink)?;
    all_of(alloc, end, link.link(), &sink)
}

// Adds the lines that begin so.
fn add_lines(all: &mut Text, talk: &str, mark: &str) -> Result<(), Mem> {
    for line in talk.lines() {
        if line.starts_with(mark) {
            all.push_str(line)?;
            all.push('\n')?;
        }
    }
    Ok(())
}

// How a talk is to go.
fn wanted(alloc: Global, talk: &str) -> Result<Text, Mem> {
    let mut all = Text::new(alloc);
    all.push_str(word(talk, 5))?;
    all.push('\n')?;
    add_lines(&mut all, talk, "> ")?;
    add_lines(&mut all, talk, "[")?;
    Ok(all)
}

#[test]
fn consoles_run_their_scripts(rt: HostRuntime) -> Result<(), Fail> {
    for talk in TALKS.split("== ").skip(1) {
        let went = went(&rt, rt.alloc(), talk)?;
        let wanted = wanted(rt.alloc(), talk)?;
        assert_eq!(rt; went.as_str(), wanted.as_str());
    }
    Ok(())
}

// A script that is begun at its second line, and whose wait is never over.
const REST: &str = r#"parts 100 0 0 0 Closed
$ [["sub","1","all",[]],["show"],["call","make",[5]],["wait"],["show"]]
> {"msg":"connect","support":["1"],"version":"1"}
< {"msg":"connected","session":"S1"}
["show","console"]
> {"id":"1","method":"make","msg":"method","params":[5],"randomSeed":"S1-1"}
"#;

// The line, from 0, that is not passed.
const WAITS: u64 = 3;

// How the script ends from its second line on, and the first line that wasn't passed.
fn rest_of<R: Wait>(
    rt: &R,
    alloc: Global,
    link: &mut Parting,
    sink: &mut MemorySink,
) -> Result<(ConsoleEnd, u64), Fail> {
    let app = app(alloc)?;
    let script = script(alloc, lines(REST))?;
    Ok(run_rest(rt, alloc, &app, &script, link, sink)?)
}

// How that went, and the first line that wasn't passed.
fn rest<R: Wait>(rt: &R, alloc: Global) -> Result<(Text, u64), Fail> {
    let mut link = link(alloc, REST)?;
    let mut sink = sink(alloc, REST)?;
    let (end, line) = rest_of(rt, alloc, &mut link, &mut sink)?;
    Ok((all_of(alloc, end, link.link(), &sink)?, line))
}

#[test]
fn a_script_goes_on_from_a_line(rt: HostRuntime) -> Result<(), Fail> {
    let (went, line) = rest(&rt, rt.alloc())?;
    let wanted = wanted(rt.alloc(), REST)?;
    assert_eq!(rt; went.as_str(), wanted.as_str());
    assert_eq!(rt; line, WAITS);
    Ok(())
}
