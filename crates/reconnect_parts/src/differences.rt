//! What leads from the documents that a client was given to those that a session sent.
ghost use Rattle.std.specs.Prelude.{◌≡◌, ◌++◌, [], None, Some, is_none, map, option_map, IfOk, OnOk};
ghost use Rattle.std.specs.Option.{option_copied};
ghost use Rattle.std.specs.Map.{values_of};
ghost use Rattle.map_model.specs.Maps.{at};
ghost use Rattle.map_model.specs.Differences.{between};
ghost use Rattle.value_model.specs.Order.{text_cmp};
ghost use Rattle.ejson_value.specs.Key.{key_cmp};
ghost use Rattle.ejson_value.specs.Messages.{said};
ghost use Rattle.kept_document.specs.declared.held.Change.TheVariants.{Whole};
ghost use Rattle.kept_document.specs.Held.{same_value, put_some, alone_if};
ghost use Rattle.reconnect_model.specs.Giving.{differences};
ghost use Rattle.reconnect_parts.specs.Differences.{text_between, change_at, new_at, put_all};

use crate::texts::Texts;
use ddp_messages::data_text;
use ejson_value::{Contents, DataMsg, Doc, Key, Mem, Text};
use kept_document::{Change, Held, told};
use std::alloc::Global;
use std::collections::BTreeMap;

// Texts by the key of the document that each is about.
type Found = BTreeMap<Key, Text>;

// A document, or none, as a publication's.
fn published(alloc: Global, doc: Option<&Doc>) -> Result<Change, Mem>
    ensures { IfOk result (λ change. change ≡ Whole (alone_if 0 (option_copied doc.entry))) }
{
    let nothing = Held::new();
    let change = nothing.change(alloc, 0, doc);
    drop(nothing);
    change
}

// The message that leads from the one document to the other.
fn message_between(
    alloc: Global,
    key: &Key,
    before: Option<&Doc>,
    after: Option<&Doc>,
) -> Result<Option<DataMsg>, Mem>
    ensures { IfOk result (λ message. option_map said message ≡ option_map (λ step. (key.now, step))
        (between text_cmp same_value (option_copied before.entry) (option_copied after.entry))) }
{
    let after = published(alloc, after)?;
    match published(alloc, before)? {
        Change::Whole(before) => told(alloc, key, &before, &after),
        Change::Part(_) => Ok(None),
    }
}

// Its text.
#[tactic(auto, using(crate::proofs::Found::text_said, crate::proofs::Found::nothing_said))]
fn text_between(
    alloc: Global,
    key: &Key,
    before: Option<&Doc>,
    after: Option<&Doc>,
) -> Result<Option<Text>, Mem>
    ensures { IfOk result (λ text. text ≡ text_between key.now (option_copied before.entry) (option_copied after.entry)) }
{
    match message_between(alloc, key, before, after)? {
        None => Ok(None),
        Some(message) => {
            let text = data_text(alloc, &message)?;
            drop(message);
            Ok(Some(text))
        }
    }
}

// Puts the text at the key, if there is one.
fn put(found: &mut Found, key: &Key, text: Option<Text>) -> Result<(), Mem>
    ensures { OnOk result (found.new.entries ≡ put_some key_cmp found.old.entries key.now text) }
{
    if let Some(text) = text {
        let key = key.copy()?;
        drop(found.insert(key, text)?);
    }
    Ok(())
}

// Puts what is said of a document that is no more, or is another.
fn put_change(
    alloc: Global,
    found: &mut Found,
    key: &Key,
    before: &Doc,
    copy: &Contents,
) -> Result<(), Mem>
    ensures { OnOk result (found.new.entries ≡ put_some key_cmp found.old.entries key.now (change_at copy.now key.now before.now)) }
{
    let text = text_between(alloc, key, Some(before), copy.get(key))?;
    put(found, key, text)
}

// Puts what is said of a document that is new.
fn put_new(
    alloc: Global,
    found: &mut Found,
    key: &Key,
    after: &Doc,
    given: &Contents,
) -> Result<(), Mem>
    ensures { OnOk result (found.new.entries ≡ put_some key_cmp found.old.entries key.now (new_at given.now key.now after.now)) }
{
    if given.get(key).is_some() {
        return Ok(());
    }
    let text = text_between(alloc, key, None, Some(after))?;
    put(found, key, text)
}

fn put_changes(
    alloc: Global,
    found: &mut Found,
    given: &Contents,
    copy: &Contents,
) -> Result<(), Mem>
    ensures { OnOk result (found.new.entries ≡ put_all key_cmp (change_at copy.now) found.old.entries given.now) }
{
    for (key, doc) in given.iter() {
        put_change(alloc, found, key, doc, copy)?;
    }
    Ok(())
}

fn put_all_new(
    alloc: Global,
    found: &mut Found,
    given: &Contents,
    copy: &Contents,
) -> Result<(), Mem>
    ensures { OnOk result (found.new.entries ≡ put_all key_cmp (new_at given.now) found.old.entries copy.now) }
{
    for (key, doc) in copy.iter() {
        put_new(alloc, found, key, doc, given)?;
    }
    Ok(())
}

// Puts the texts behind the others, by rising key.
fn push_found(texts: &mut Texts, found: Found) -> Result<(), Mem>
    ensures { OnOk result (texts.new ≡ texts.old ++ values_of found.entries) }
{
    for (_, text) in found {
        texts.push(text)?;
    }
    Ok(())
}

/// Puts the texts behind the others that lead from the documents that were given to the session's, by rising key.
pub fn push_differences(
    alloc: Global,
    texts: &mut Texts,
    given: &Contents,
    copy: &Contents,
) -> Result<(), Mem>
    ensures { OnOk result (texts.new ≡ texts.old ++ differences given.now copy.now) }
{
    given.known();
    copy.known();
    let mut found = Found::new(alloc);
    put_changes(alloc, &mut found, given, copy)?;
    put_all_new(alloc, &mut found, given, copy)?;
    push_found(texts, found)
}
