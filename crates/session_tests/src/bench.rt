//! Scripts of events, and what they print.
ghost use Rattle.std.specs.Prelude.{◌≡◌};

use crate::looks::{limits_told, work_told};
use crate::moments::{app, batch, halves, long_text, news, number};
use ejson_value::{Contents, Text};
use known_texts::KnownTexts;
use program_steps::{End, Outcome, Status};
use selector_match::Steps;
use session_core::{Batch, EventFault, Session};
use std::alloc::Global;
use std::marker::Brand;
use std::sync::ledger::{Blank, Ledger};
use std::test::Fail;

/// A session of this number.
pub(crate) fn made(alloc: Global, application: &str, number: u32) -> Result<Session, Fail> {
    let app = app(alloc, application)?;
    Ok(Session::new(alloc, &app, number)?)
}

// The line of an event that changed nothing.
fn word(answer: Result<(), EventFault>) -> Result<&'static str, Fail> {
    match answer {
        Ok(()) => Ok(""),
        Err(EventFault::Idle) => Ok("idle\n"),
        Err(EventFault::QueueFull) => Ok("queue full\n"),
        Err(EventFault::JournalFull) => Ok("journal full\n"),
        Err(EventFault::Memory) => Err("out of memory".into()),
    }
}

fn take(session: &mut Session, text: &Text) -> Result<&'static str, Fail> {
    word(session.take(text))
}

// The text is taken so many times, or until it is refused.
fn take_all(session: &mut Session, text: &Text, count: u64) -> Result<&'static str, Fail> {
    for _ in 0..count {
        let said = take(session, text)?;
        if !said.is_empty() {
            return Ok(said);
        }
    }
    Ok("")
}

fn times(alloc: Global, session: &mut Session, rest: &str) -> Result<&'static str, Fail> {
    let (count, text) = halves(rest, " ")?;
    let count = number(count)?;
    take_all(session, &Text::from_str(alloc, text)?, count)
}

fn long(alloc: Global, session: &mut Session, rest: &str) -> Result<&'static str, Fail> {
    let (count, text) = halves(rest, " ")?;
    let text = long_text(alloc, number(count)?, text)?;
    take(session, &text)
}

fn handle(session: &mut Session) -> Result<&'static str, Fail> {
    word(session.handle())
}

// A `sub` of this id is taken and handled.
fn sub(alloc: Global, session: &mut Session, id: u64) -> Result<&'static str, Fail> {
    let text = format!(in alloc; "{{\"id\":\"{id}\",\"msg\":\"sub\",\"name\":\"all\"}}")?;
    let said = take(session, &Text::from_string(text)?)?;
    if !said.is_empty() {
        return Ok(said);
    }
    handle(session)
}

fn subs(alloc: Global, session: &mut Session, count: u64) -> Result<&'static str, Fail> {
    for id in 0..count {
        let said = sub(alloc, session, id)?;
        if !said.is_empty() {
            return Ok(said);
        }
    }
    Ok("")
}

// The subscription is loaded while the store is empty.
fn load(alloc: Global, session: &mut Session, sub: u64) -> Result<&'static str, Fail> {
    let contents = Contents::new(alloc);
    word(session.load(sub, 0, &contents))
}

fn advance_by<L: Ledger>(
    session: &mut Session,
    sub: u64,
    batch: &Batch,
    blank: Blank,
) -> Result<(), EventFault>
    requires name { blank.name ≡ L.name }
    requires parts { blank.parts ≡ L.parts }
    requires whole { blank.parts ≡ 1 }
{
    let mut steps = Steps::<L>::new(blank);
    session.advance(sub, batch, &mut steps)
}

// The subscription goes on over the batch.
fn advance(session: &mut Session, sub: u64, batch: &Batch) -> Result<&'static str, Fail> {
    word(advance_by::<Brand>(session, sub, batch, Blank::new(1)))
}

fn advances(alloc: Global, session: &mut Session, rest: &str) -> Result<&'static str, Fail> {
    let (sub, rest) = halves(rest, " ")?;
    let batch = batch(alloc, rest)?;
    advance(session, number(sub)?, &batch)
}

fn feed(alloc: Global, session: &mut Session, rest: &str) -> Result<&'static str, Fail> {
    let (sub, rest) = halves(rest, " ")?;
    let (count, rest) = halves(rest, " ")?;
    let (sub, count) = (number(sub)?, number(count)?);
    word(session.feed(sub, count, &news(alloc, rest)?, &mut KnownTexts::new(alloc)))
}

fn learn(session: &mut Session, k: u64, status: &Status) -> Result<&'static str, Fail> {
    word(session.learn(k, status))
}

// The run of the call has ended without a result.
fn ends(session: &mut Session, rest: &str) -> Result<&'static str, Fail> {
    let (k, at) = halves(rest, " ")?;
    let (k, at) = (number(k)?, number(at)?);
    let status = Status {
        unblocked: false,
        ended: Some(End {
            outcome: Outcome::Done(None),
            at,
        }),
    };
    learn(session, k, &status)
}

// The run of the call lets the next message be handled.
fn unblocks(session: &mut Session, k: u64) -> Result<&'static str, Fail> {
    let status = Status {
        unblocked: true,
        ended: None,
    };
    learn(session, k, &status)
}

fn refuse(session: &mut Session, rest: &str) -> Result<&'static str, Fail> {
    let (k, at) = halves(rest, " ")?;
    word(session.refuse(number(k)?, number(at)?))
}

fn event(
    alloc: Global,
    session: &mut Session,
    name: &str,
    rest: &str,
) -> Result<&'static str, Fail> {
    match name {
        "take" => take(session, &Text::from_str(alloc, rest)?),
        "times" => times(alloc, session, rest),
        "long" => long(alloc, session, rest),
        "subs" => subs(alloc, session, number(rest)?),
        "load" => load(alloc, session, number(rest)?),
        "advance" => advances(alloc, session, rest),
        "feed" => feed(alloc, session, rest),
        "ends" => ends(session, rest),
        "unblocks" => unblocks(session, number(rest)?),
        "refuse" => refuse(session, rest),
        _ => Err("an unknown event".into()),
    }
}

// The next text that is sent.
fn sent(alloc: Global, session: &mut Session) -> Result<Text, Fail> {
    match session.send() {
        Some(text) => Ok(text),
        None => Ok(Text::from_str(alloc, "none")?),
    }
}

// How many bytes it has.
fn measured(alloc: Global, session: &mut Session) -> Result<Text, Fail> {
    let sent = sent(alloc, session)?;
    Ok(Text::from_string(format!(in alloc; "{}", sent.len())?)?)
}

fn work(alloc: Global, session: &Session) -> Result<Text, Fail> {
    let work = session.work()?;
    work_told(alloc, &work)
}

// The number of the live subscription of this id.
fn named(alloc: Global, session: &Session, id: &str) -> Result<Text, Fail> {
    match session.sub_of(&Text::from_str(alloc, id)?) {
        None => Ok(Text::from_str(alloc, "none")?),
        Some(sub) => Ok(Text::from_string(format!(in alloc; "{sub}")?)?),
    }
}

// What is seen of the session.
fn seen(alloc: Global, session: &mut Session, name: &str) -> Result<Text, Fail> {
    match name {
        "send" => sent(alloc, session),
        "measure" => measured(alloc, session),
        "work" => work(alloc, session),
        "limits" => limits_told(alloc, session),
        _ => Err("an unknown line".into()),
    }
}

fn push_line(printed: &mut String, line: &str) -> Result<(), Fail> {
    printed.push_str(line)?;
    Ok(printed.push_str("\n")?)
}

// A line of one word.
fn alone(
    alloc: Global,
    session: &mut Session,
    name: &str,
    printed: &mut String,
) -> Result<(), Fail> {
    match name {
        "handle" => Ok(printed.push_str(handle(session)?)?),
        "close" => {
            session.close();
            Ok(())
        }
        _ => push_line(printed, seen(alloc, session, name)?.as_str()),
    }
}

// Does what a line says, and prints what it gives.
fn line(
    alloc: Global,
    session: &mut Session,
    line: &str,
    printed: &mut String,
) -> Result<(), Fail> {
    match line.split_once(" ") {
        None => alone(alloc, session, line, printed),
        Some(("named", id)) => push_line(printed, named(alloc, session, id)?.as_str()),
        Some((name, rest)) => Ok(printed.push_str(event(alloc, session, name, rest)?)?),
    }
}

// Does what the lines say.
fn run(
    alloc: Global,
    session: &mut Session,
    script: &str,
    printed: &mut String,
) -> Result<(), Fail> {
    for written in script.lines() {
        line(alloc, session, written, printed)?;
    }
    Ok(())
}

/// What the session prints by the script in front of the line `--`, where that isn't what stands behind it.
pub(crate) fn wrong_of(alloc: Global, session: &mut Session, case: &str) -> Result<String, Fail> {
    let (script, wanted) = halves(case, "--\n")?;
    let mut printed = String::new(alloc);
    run(alloc, session, script, &mut printed)?;
    if printed.as_str() == wanted {
        printed.clear();
    }
    Ok(printed)
}

/// The same of a new session, whose number is 1.
pub(crate) fn wrong_in(alloc: Global, application: &str, case: &str) -> Result<String, Fail> {
    let mut session = made(alloc, application, 1)?;
    wrong_of(alloc, &mut session, case)
}
