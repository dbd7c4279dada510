//! What is to be done for a session, and which limits it met.
use ejson_codec::text;
use ejson_value::{Items, Text, Value};
use session_core::{Call, Feed, Place, Session, Work};
use std::alloc::Global;
use std::test::Fail;

fn push_number(alloc: Global, told: &mut Text, number: u64) -> Result<(), Fail> {
    let number = format!(in alloc; " {number}")?;
    Ok(told.push_str(number.as_str())?)
}

fn push_numbers(alloc: Global, told: &mut Text, numbers: &[u64]) -> Result<(), Fail> {
    for number in numbers {
        push_number(alloc, told, *number)?;
    }
    Ok(())
}

fn push_value(alloc: Global, told: &mut Text, value: &Value) -> Result<(), Fail> {
    let written = text(alloc, value)?;
    told.push_str(" ")?;
    Ok(told.push_str(written.as_str())?)
}

fn push_items(alloc: Global, told: &mut Text, items: &Items) -> Result<(), Fail> {
    let value = Value::List(items.copy()?);
    push_value(alloc, told, &value)
}

fn push_call(alloc: Global, told: &mut Text, call: &Call) -> Result<(), Fail> {
    push_number(alloc, told, call.k)?;
    told.push_str(" ")?;
    told.push_str(call.method.as_str())?;
    push_items(alloc, told, &call.params)?;
    push_value(alloc, told, &call.seed)
}

fn push_places(alloc: Global, told: &mut Text, places: &[Place]) -> Result<(), Fail> {
    for place in places {
        let place = format!(in alloc; " {}@{}", place.sub, place.at)?;
        told.push_str(place.as_str())?;
    }
    Ok(())
}

fn push_feed(alloc: Global, told: &mut Text, feed: &Option<Feed>) -> Result<(), Fail> {
    match feed {
        None => Ok(told.push_str(" -")?),
        Some(feed) => {
            told.push_str(" ")?;
            told.push_str(feed.name.as_str())?;
            push_items(alloc, told, &feed.params)
        }
    }
}

fn push_feeds(alloc: Global, told: &mut Text, feeds: &[Option<Feed>]) -> Result<(), Fail> {
    for feed in feeds {
        push_feed(alloc, told, feed)?;
    }
    Ok(())
}

fn push_called(alloc: Global, told: &mut Text, call: Option<&Call>) -> Result<(), Fail> {
    match call {
        None => Ok(()),
        Some(call) => push_call(alloc, told, call),
    }
}

fn push_subs(alloc: Global, told: &mut Text, work: &Work) -> Result<(), Fail> {
    told.push_str("; unloaded")?;
    push_numbers(alloc, told, work.unloaded.as_slice())?;
    told.push_str("; cursors")?;
    push_places(alloc, told, work.cursors.as_slice())?;
    told.push_str("; feeds")?;
    push_feeds(alloc, told, work.feeds.as_slice())
}

/// What is to be done.
pub(crate) fn work_told(alloc: Global, work: &Work) -> Result<Text, Fail> {
    let mut told = Text::from_str(alloc, "call")?;
    push_called(alloc, &mut told, work.call.as_ref())?;
    push_subs(alloc, &mut told, work)?;
    told.push_str("; running")?;
    push_numbers(alloc, &mut told, work.running.as_slice())?;
    Ok(told)
}

/// How many items the journal has in how many records, and what was met.
pub(crate) fn limits_told(alloc: Global, session: &Session) -> Result<Text, Fail> {
    let (items, records) = (session.counts().len(), session.records());
    let failed = if session.failed() { " failed" } else { "" };
    let limited = if session.limited() { " limited" } else { "" };
    let told = format!(in alloc; "{items} in {records}{failed}{limited}")?;
    Ok(Text::from_string(told)?)
}
