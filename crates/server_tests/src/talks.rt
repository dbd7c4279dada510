//! Connections over links in memory: the texts of each client, those that it is sent, and how it ends.
use crate::alone::alone;
use crate::apps::{NAMED, app};
use crate::parting::Parting;
use duct::{MemoryLink, Texts};
use ejson_value::{Mem, Text};
use io_edge::Calls;
use std::alloc::Global;
use std::sync::Wait;
use std::test::Fail;

// Talks. The line at the head of each tells what the peer does (it has closed from the start, parts behind its last text, or
// stays), how many texts it takes, and the numbers of the poll and of the send that fail, 0 for none. The client sends the
// lines with `>`, and is sent those with `<`, in this order. The last line is how the talk ends, and how long the history then
// is.
const TALKS: &str = r#"== closed 100 0 0
> {"msg":"connect","version":"1","support":["1"]}
= PeerClosed 0
== parts 100 0 0
= PeerClosed 0
== parts 100 0 0
> {"msg":"ping"}
< {"msg":"error","offendingMessage":{"msg":"ping"},"reason":"Must connect first"}
> {"msg":"connect","version":"1","support":["1"]}
< {"msg":"connected","session":"S1"}
> {"id":"a","msg":"ping"}
< {"id":"a","msg":"pong"}
> hello
< {"msg":"error","reason":"Parse error"}
= PeerClosed 0
== parts 100 0 0
> {"msg":"connect","version":"1","support":["1"]}
< {"msg":"connected","session":"S1"}
> {"msg":"sub","id":"s1","name":"all","params":[]}
< {"msg":"ready","subs":["s1"]}
> {"msg":"method","id":"m1","method":"add","params":["t1",7]}
< {"collection":"tasks","fields":{"n":7},"id":"t1","msg":"added"}
< {"id":"m1","msg":"result","result":"t1"}
< {"methods":["m1"],"msg":"updated"}
> {"msg":"method","id":"m2","method":"fail","params":[]}
< {"error":{"error":"403","errorType":"Meteor.Error","message":"Denied [403]","reason":"Denied"},"id":"m2","msg":"result"}
< {"methods":["m2"],"msg":"updated"}
> {"msg":"method","id":"m3","method":"nope","params":[]}
< {"error":{"error":"404","errorType":"Meteor.Error","message":"Method not found [404]","reason":"Method not found"},"id":"m3","msg":"result"}
< {"methods":["m3"],"msg":"updated"}
> {"msg":"sub","id":"s2","name":"nope"}
< {"error":{"error":"404","errorType":"Meteor.Error","message":"Subscription not found [404]","reason":"Subscription not found"},"id":"s2","msg":"nosub"}
> {"msg":"unsub","id":"s1"}
< {"collection":"tasks","id":"t1","msg":"removed"}
< {"id":"s1","msg":"nosub"}
= PeerClosed 5
== stays 100 0 0
> {"msg":"connect","version":"2","support":["2"]}
< {"msg":"failed","version":"1"}
> {"msg":"ping"}
= VersionRefused 0
== stays 100 3 0
> {"msg":"connect","version":"1","support":["1"]}
< {"msg":"connected","session":"S1"}
> {"msg":"sub","id":"s1","name":"all","params":[]}
< {"msg":"ready","subs":["s1"]}
> {"msg":"ping"}
= LinkFault 0
== stays 100 0 2
> {"msg":"connect","version":"1","support":["1"]}
< {"msg":"connected","session":"S1"}
> {"msg":"method","id":"m1","method":"add","params":["t1",7]}
= LinkFault 3
== parts 1 0 0
> {"msg":"connect","version":"1","support":["1"]}
< {"msg":"connected","session":"S1"}
> {"msg":"method","id":"m1","method":"add","params":["t1",7]}
= PeerClosed 3
"#;

// The word with this number, from 0, of the first line.
fn word(talk: &str, number: usize) -> &str {
    let head = talk.lines().next().unwrap_or("");
    head.split(' ').nth(number).unwrap_or("")
}

// The number that this word is.
fn number(talk: &str, place: usize) -> u32 {
    word(talk, place).parse::<u32>().unwrap_or(0)
}

// The call that this word names, if any is to fail.
fn failing(alloc: Global, talk: &str, place: usize) -> Result<Calls, Mem> {
    let mut calls = Calls::new(alloc);
    let call = number(talk, place);
    if call > 0 {
        calls.push(call as u64)?;
    }
    Ok(calls)
}

// The texts of the client.
fn texts(alloc: Global, talk: &str) -> Result<Texts, Mem> {
    let mut texts = Texts::new(alloc);
    for line in talk.lines() {
        if let Some(text) = line.strip_prefix("> ") {
            texts.push(Text::from_str(alloc, text)?)?;
        }
    }
    Ok(texts)
}

fn link(alloc: Global, talk: &str) -> Result<Parting, Mem> {
    let polls = failing(alloc, talk, 2)?;
    let sends = failing(alloc, talk, 3)?;
    let texts = texts(alloc, talk)?;
    let closed = word(talk, 0) == "closed";
    let link = MemoryLink::new(alloc, texts, closed, number(talk, 1), polls, sends);
    Ok(Parting::new(link, word(talk, 0) == "parts"))
}

// What was sent on a link, a line each.
fn sent(alloc: Global, link: &MemoryLink) -> Result<String, Mem> {
    let mut all = String::new(alloc);
    for text in link.sent().as_slice() {
        all.push_str("< ")?;
        all.push_str(text.as_str())?;
        all.push('\n')?;
    }
    Ok(all)
}

// How a talk went: what the client was sent, its end, and the length of the history.
fn went<R: Wait>(rt: &R, alloc: Global, talk: &str) -> Result<String, Fail> {
    let app = app(alloc, NAMED)?;
    let mut link = link(alloc, talk)?;
    let (end, length) = alone(rt, alloc, &app, &mut link)?;
    let mut all = sent(alloc, link.link())?;
    let last = format!(in alloc; "= {end:?} {length}\n")?;
    all.push_str(last.as_str())?;
    Ok(all)
}

// How a talk is to go: its lines but for the head and those of the client.
fn wanted(alloc: Global, talk: &str) -> Result<String, Mem> {
    let mut all = String::new(alloc);
    for line in talk.lines().skip(1) {
        if !line.starts_with("> ") {
            all.push_str(line)?;
            all.push('\n')?;
        }
    }
    Ok(all)
}

#[test]
fn clients_are_served(rt: HostRuntime) -> Result<(), Fail> {
    for talk in TALKS.split("== ").skip(1) {
        let went = went(&rt, rt.alloc(), talk)?;
        let wanted = wanted(rt.alloc(), talk)?;
        assert_eq!(rt; went.as_str(), wanted.as_str());
    }
    Ok(())
}
