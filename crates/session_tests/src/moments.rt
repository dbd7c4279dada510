//! What a session is handed: texts, documents, changes and publishes, as they stand in scripts.
use app_model::App;
use ejson_codec::parse;
use ejson_value::{Change, Changes, Doc, Key, Publish, Publishes, Text, Value};
use session_core::Batch;
use std::alloc::Global;
use std::test::Fail;

fn value(alloc: Global, text: &str) -> Result<Value, Fail> {
    Ok(parse(alloc, &Text::from_str(alloc, text)?)?)
}

pub(crate) fn number(text: &str) -> Result<u64, Fail> {
    Ok(text.parse::<u64>()?)
}

/// The text with so many letters in place of its star.
pub(crate) fn long_text(alloc: Global, count: u64, text: &str) -> Result<Text, Fail> {
    let (before, after) = halves(text, "*")?;
    let mut long = Text::from_str(alloc, before)?;
    for _ in 0..count {
        long.push('x')?;
    }
    long.push_str(after)?;
    Ok(long)
}

pub(crate) fn app(alloc: Global, text: &str) -> Result<App, Fail> {
    Ok(App::read(alloc, &value(alloc, text)?)?)
}

pub(crate) fn halves<'a>(row: &'a str, mark: &str) -> Result<(&'a str, &'a str), Fail> {
    Ok(row.split_once(mark).ok_or("a row without its mark")?)
}

fn document(alloc: Global, text: &str) -> Result<Option<Doc>, Fail> {
    if text == "-" {
        return Ok(None);
    }
    match value(alloc, text)? {
        Value::Object(doc) => Ok(Some(doc)),
        _ => Ok(None),
    }
}

fn key_of(alloc: Global, text: &str) -> Result<Key, Fail> {
    let (collection, id) = halves(text, "/")?;
    Ok(Key {
        collection: Text::from_str(alloc, collection)?,
        id: Text::from_str(alloc, id)?,
    })
}

fn publish(alloc: Global, text: &str) -> Result<Publish, Fail> {
    let (key, new) = halves(text, "=")?;
    let key = key_of(alloc, key)?;
    Ok(Publish {
        key,
        new: document(alloc, new)?,
    })
}

/// What is published at one key.
pub(crate) fn news(alloc: Global, text: &str) -> Result<Publishes, Fail> {
    let mut news = Publishes::new(alloc);
    news.push(publish(alloc, text)?)?;
    Ok(news)
}

// A change: `KEY=BEFORE>AFTER`.
fn change(alloc: Global, text: &str) -> Result<Change, Fail> {
    let (key, documents) = halves(text, "=")?;
    let (before, after) = halves(documents, ">")?;
    let key = key_of(alloc, key)?;
    let before = document(alloc, before)?;
    Ok(Change {
        key,
        before,
        after: document(alloc, after)?,
    })
}

// One change, or none.
fn changes(alloc: Global, text: &str) -> Result<Changes, Fail> {
    let mut changes = Changes::new(alloc);
    if text != "none" {
        changes.push(change(alloc, text)?)?;
    }
    Ok(changes)
}

/// Entries of a history: `FROM COUNT` and what they change.
pub(crate) fn batch(alloc: Global, text: &str) -> Result<Batch, Fail> {
    let (from, rest) = halves(text, " ")?;
    let (count, rest) = halves(rest, " ")?;
    Ok(Batch {
        from: number(from)?,
        count: number(count)?,
        changes: changes(alloc, rest)?,
    })
}
