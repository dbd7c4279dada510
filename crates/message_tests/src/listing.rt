//! How many documents a merge box lists: those that two or more subscriptions publish.
use ejson_codec::parse;
use ejson_value::{Doc, Key, Mem, Publish, Publishes, Text, Value, same_documents};
use known_texts::KnownTexts;
use merge_box::{DataMsg, MergeBox, Word, Words};
use std::alloc::Global;
use std::test::Fail;

fn doc(alloc: Global, text: &str) -> Result<Doc, Fail> {
    match parse(alloc, &Text::from_str(alloc, text)?)? {
        Value::Object(doc) => Ok(doc),
        _ => Ok(Doc::new(alloc)),
    }
}

fn key(alloc: Global) -> Result<Key, Fail> {
    Ok(Key {
        collection: Text::from_str(alloc, "tasks")?,
        id: Text::from_str(alloc, "t1")?,
    })
}

fn news(alloc: Global, fields: &str) -> Result<Publishes, Fail> {
    let key = key(alloc)?;
    let new = Some(doc(alloc, fields)?);
    let mut news = Publishes::new(alloc);
    news.push(Publish { key, new })?;
    Ok(news)
}

fn apply(alloc: Global, merge: &mut MergeBox, sub: u64, news: &Publishes) -> Result<Words, Mem> {
    let words = merge.plan(sub, news, &KnownTexts::new(alloc))?;
    merge.commit();
    Ok(words)
}

fn drop_sub(merge: &mut MergeBox, sub: u64) -> Result<Words, Mem> {
    let words = merge.plan_drop(sub)?;
    merge.commit();
    Ok(words)
}

// How many documents it lists once the subscription publishes this.
fn listed(alloc: Global, merge: &mut MergeBox, sub: u64, fields: &str) -> Result<u64, Fail> {
    let news = news(alloc, fields)?;
    drop(apply(alloc, merge, sub, &news)?);
    Ok(merge.listed())
}

fn is_change(message: &DataMsg, wanted: &Doc) -> bool {
    match message {
        DataMsg::Changed {
            fields,
            cleared,
            ..
        } => cleared.as_slice().is_empty() && same_documents(fields, wanted),
        _ => false,
    }
}

fn changes(word: &Word, wanted: &Doc) -> bool {
    match word {
        Word::Known(_) => false,
        Word::New { message, .. } => is_change(message, wanted),
    }
}

// Whether it is told that a document changed so, and nothing else.
fn are_changed(words: &Words, wanted: &Doc) -> bool {
    let mut told = false;
    for word in words {
        if told || !changes(word, wanted) {
            return false;
        }
        told = true;
    }
    told
}

fn ends_first(alloc: Global, merge: &mut MergeBox) -> Result<bool, Fail> {
    let fields = doc(alloc, r#"{"a":2}"#)?;
    let words = drop_sub(merge, 0)?;
    Ok(are_changed(&words, &fields))
}

fn shows(alloc: Global, merge: &MergeBox, fields: &str) -> Result<bool, Fail> {
    let wanted = doc(alloc, fields)?;
    match merge.merged(&key(alloc)?)? {
        Some(found) => Ok(same_documents(&found, &wanted)),
        None => Ok(false),
    }
}

// One subscription publishes a document, then a second one does, and the first ends.
fn lists_shared(alloc: Global, merge: &mut MergeBox) -> Result<bool, Fail> {
    let alone = listed(alloc, merge, 0, r#"{"a":1}"#)? == 0;
    let shared = listed(alloc, merge, 1, r#"{"a":2,"b":3}"#)? == 1;
    let ended = ends_first(alloc, merge)? && merge.listed() == 0;
    Ok(alone && shared && ended && shows(alloc, merge, r#"{"a":2,"b":3}"#)?)
}

/// Whether it lists a document while two subscriptions publish it, and answers what it does at the end of the first.
pub(crate) fn is_right(alloc: Global) -> Result<bool, Fail> {
    let mut merge = MergeBox::new(alloc);
    lists_shared(alloc, &mut merge)
}
