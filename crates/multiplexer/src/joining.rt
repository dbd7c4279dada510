//! What is told of several entries, put together.
ghost use Rattle.std.specs.Prelude.{◌≡◌, ℕ, ◌+◌, [], map, length, Option, None, Some, IfOk, IfErr, OnOk, option_copied};
ghost use Rattle.std.specs.Arc.{arc_value};
ghost use Rattle.std.specs.List.{AllByRecursion};
ghost use Rattle.map_model.specs.Maps.{at, set, IsSorted};
ghost use Rattle.value_model.specs.Val.{Entries};
ghost use Rattle.ejson_value.specs.declared.key.Key.{Key as AKey};
ghost use Rattle.ejson_value.specs.Key.{key_cmp};
ghost use Rattle.ejson_value.specs.Rows.{Rows};
ghost use Rattle.ejson_value.specs.Changes.{news_of};
ghost use Rattle.publication.specs.Cursors.{ACursors};
ghost use Rattle.publication.specs.Published.{published};
ghost use Rattle.multiplexer.specs.Inside.{seen_entry};
ghost use Rattle.multiplexer.specs.Known.{IsKnown, AreKnown};
ghost use Rattle.multiplexer.specs.Leading.{IsLead, IsJoined, AreDifferences};
ghost use Rattle.multiplexer.specs.Sources.{entry_of};
ghost use Rattle.multiplexer.specs.Telling.{news_in, AreKnownFrom};
ghost use Rattle.multiplexer.specs.Joining.{key_at, IsGapFor, put_news, put_all};
ghost use Rattle.multiplexer.specs.Parts.{news_of_parts, AreKnownParts, IsNewKnown, AreNewKnown};

use crate::entry::Told;
use crate::keeping::keep_text;
use ejson_value::{Key, Mem, Publish, Publishes, Text, copy_option};
use known_texts::KnownTexts;
use std::alloc::Global;
use std::marker::Model;
use std::mem;
use std::sync::Arc;

// A publish, and the text that is known of it.
#[derive(Drop)]
struct Part {
    one: Publish,
    text: Option<Text>,
}

// Publishes by rising key, and the texts that are known of them. A contract sees them one by one.
#[derive(Drop)]
struct Parts {
    parts: Vec<Part>,
}

impl Model for Parts {
    ghost use Rattle.std.specs.Prelude.{List};
    ghost use Rattle.map_model.specs.Maps.{IsSorted};
    ghost use Rattle.ejson_value.specs.Key.{key_cmp};
    ghost use Rattle.multiplexer.specs.declared.joining.Part.{Part};
    ghost use Rattle.multiplexer.specs.Parts.{news_of_parts};
    ghost use Rattle.std.specs.Coded.{codes};
    ghost use Rattle.value_model.specs.Coding.{val_code};

    ghost Value = { List Part };

    ghost coded = { Prim.hlevel (codes, val_code) };

    ghost view = { λ a. a.parts.items };

    ghost invariant = { λ a. IsSorted key_cmp (news_of_parts a.parts.items) };
}

fn copied(one: &Publish) -> Result<Publish, Mem>
    ensures { IfOk result (λ copy. copy ≡ one.now) }
{
    Ok(Publish {
        key: one.key.copy()?,
        new: copy_option(&one.new)?,
    })
}

fn copied_text(text: Option<&Text>) -> Result<Option<Text>, Mem>
    ensures { IfOk result (λ copy. copy ≡ option_copied text.entry) }
{
    match text {
        Some(text) => Ok(Some(text.copy()?)),
        None => Ok(None),
    }
}

impl Parts {
    fn new(alloc: Global) -> Parts
        ensures { result ≡ [] }
    {
        Parts {
            parts: Vec::new(alloc),
        }
    }

    // Where the key stands, or else where it would.
    fn place(&self, key: &Key) -> Result<usize, usize>
        ensures found { IfOk result (λ place. key_at (news_of_parts self.now) place ≡ Some key.now) }
        ensures gap { IfErr result (IsGapFor (news_of_parts self.now) key.now) }
    {
        self.parts.binary_search_by(|part| part.one.key.cmp(key))
    }

    // The publish stands in the place of the one of its key. No text of it is known.
    fn write_at(&mut self, place: usize, one: Publish)
        requires { key_at (news_of_parts self.old) place ≡ Some one.key }
        ensures news { news_of_parts self.new ≡ set key_cmp (news_of_parts self.old) one.key (Some one.new) }
        ensures known { (before : AKey → Option Entries) → AreKnownParts before self.old → AreKnownParts before self.new }
    {
        let part = Part { one, text: None };
        drop(mem::replace(&mut self.parts[place], part));
    }

    // The publish stands in the gap for its key.
    fn insert_at(&mut self, place: usize, part: Part) -> Result<(), Mem>
        requires { IsGapFor (news_of_parts self.old) part.one.key place }
        ensures news { OnOk result (news_of_parts self.new ≡ set key_cmp (news_of_parts self.old) part.one.key (Some part.one.new)) }
        ensures known { (before : AKey → Option Entries) → AreKnownParts before self.old → IsKnown before (part.one.key, part.one.new) part.text →
            OnOk result (AreKnownParts before self.new) }
    {
        self.parts.insert(place, part)?;
        Ok(())
    }

    // A key that was not named before: the text is known of its publish.
    fn add_at(&mut self, place: usize, one: Publish, text: Option<&Text>) -> Result<(), Mem>
        requires { IsGapFor (news_of_parts self.old) one.key place }
        ensures news { OnOk result (news_of_parts self.new ≡ set key_cmp (news_of_parts self.old) one.key (Some one.new)) }
        ensures known { (before : AKey → Option Entries) → AreKnownParts before self.old →
            IsKnown before (one.key, one.new) (option_copied text.entry) → OnOk result (AreKnownParts before self.new) }
    {
        let text = copied_text(text)?;
        self.insert_at(place, Part { one, text })
    }

    // The publish is the one of its key. The text is known of it, where the key was not named before.
    fn put(&mut self, one: &Publish, text: Option<&Text>) -> Result<(), Mem>
        ensures news { OnOk result (news_of_parts self.new ≡ set key_cmp (news_of_parts self.old) one.now.key (Some one.now.new)) }
        ensures known { (before : AKey → Option Entries) → AreKnownParts before self.old →
            (at key_cmp (news_of_parts self.old) one.now.key ≡ None → IsKnown before (one.now.key, one.now.new) (option_copied text.entry)) →
            OnOk result (AreKnownParts before self.new) }
    {
        let one = copied(one)?;
        match self.place(&one.key) {
            Ok(place) => {
                self.write_at(place, one);
                Ok(())
            }
            Err(place) => self.add_at(place, one, text),
        }
    }

    // What is told of an entry is put.
    fn put_entry(&mut self, told: &Told) -> Result<(), Mem>
        ensures news { OnOk result (news_of_parts self.new ≡ put_news (news_of_parts self.old) (news_in (seen_entry told.now))) }
        ensures known { (before : AKey → Option Entries) → AreKnownParts before self.old →
            IsNewKnown before (news_of_parts self.old) (news_in (seen_entry told.now)) told.now.texts → OnOk result (AreKnownParts before self.new) }
    {
        let news = told.news.as_slice();
        for place in 0..news.len() {
            self.put(&news[place], told.texts.get(place))?;
        }
        Ok(())
    }

    fn put_all(&mut self, all: &[Told]) -> Result<(), Mem>
        ensures news { OnOk result (news_of_parts self.new ≡ put_all (news_of_parts self.old) (map news_in (map seen_entry all.now))) }
        ensures known { (before : AKey → Option Entries) → AreKnownParts before self.old →
            AreNewKnown before (news_of_parts self.old) (map seen_entry all.now) → OnOk result (AreKnownParts before self.new) }
    {
        for entry in 0..all.len() {
            self.put_entry(&all[entry])?;
        }
        Ok(())
    }

    // The texts that are known.
    fn texts(&self, alloc: Global) -> Result<KnownTexts, Mem>
        ensures { (before : AKey → Option Entries) → AreKnownParts before self.now → IfOk result (AreKnown before (news_of_parts self.now)) }
    {
        let mut texts = KnownTexts::places(alloc, self.parts.len())?;
        for place in 0..self.parts.len() {
            keep_text(&mut texts, place, self.parts[place].text.as_ref());
        }
        Ok(texts)
    }

    fn listed(self, alloc: Global) -> Result<Publishes, Mem>
        ensures { IfOk result (λ list. news_of list ≡ news_of_parts self) }
    {
        let mut list = Publishes::new(alloc);
        for part in self.parts {
            list.push(part.one)?;
        }
        Ok(list)
    }
}

fn put_together(alloc: Global, all: &[Told]) -> Result<Told, Mem>
    ensures leads { (cursors : ACursors) (C : ℕ → Rows) (from : ℕ) → AreDifferences cursors C from (map news_in (map seen_entry all.now)) →
        IfOk result (λ told. IsLead (published cursors (C from)) (published cursors (C (from + length all.now))) (news_in (seen_entry told))) }
    ensures known { (cursors : ACursors) (C : ℕ → Rows) (from : ℕ) → AreDifferences cursors C from (map news_in (map seen_entry all.now)) →
        AreKnownFrom cursors C from (map seen_entry all.now) →
        IfOk result (λ told. AreKnown (published cursors (C from)) (news_in (seen_entry told)) told.texts) }
{
    let mut parts = Parts::new(alloc);
    parts.put_all(all)?;
    let texts = parts.texts(alloc)?;
    let news = parts.listed(alloc)?;
    let news = Arc::new(alloc, news)?;
    Ok(Told { news, texts })
}

// Answers, of which no text is known.
fn untold(alloc: Global, parts: &[Arc<Publishes>]) -> Result<Vec<Told>, Mem>
    ensures { IfOk result (λ all. map seen_entry all.items ≡ map (λ part. entry_of (arc_value part)) parts.now) }
{
    let mut all = Vec::new(alloc);
    for part in parts {
        all.push(Told::new(alloc, Arc::try_clone(part)?)?)?;
    }
    Ok(all)
}

/// What several answers tell, one behind another: by key, the last document that they name for each key
/// that one of them names, or none.
pub fn lead(alloc: Global, parts: &[Arc<Publishes>]) -> Result<Publishes, Mem>
    ensures { let all = map (λ part. news_of (arc_value part)) parts.now in AllByRecursion (IsSorted key_cmp) all →
        IfOk result (λ told. IsJoined all (news_of told)) }
{
    let all = untold(alloc, parts)?;
    let mut told = Parts::new(alloc);
    told.put_all(all.as_slice())?;
    told.listed(alloc)
}

// The texts that are known, once more.
fn copied_texts(alloc: Global, one: &Told) -> Result<KnownTexts, Mem>
    ensures { (before : AKey → Option Entries) → AreKnown before (news_in (seen_entry one.now)) one.now.texts →
        IfOk result (AreKnown before (news_in (seen_entry one.now))) }
{
    let mut texts = KnownTexts::places(alloc, one.news.len())?;
    for place in 0..one.news.len() {
        keep_text(&mut texts, place, one.texts.get(place));
    }
    Ok(texts)
}

// What is told of one entry alone is not copied.
fn alone(alloc: Global, one: &Told) -> Result<Told, Mem>
    ensures news { IfOk result (λ told. news_in (seen_entry told) ≡ news_in (seen_entry one.now)) }
    ensures known { (before : AKey → Option Entries) → AreKnown before (news_in (seen_entry one.now)) one.now.texts →
        IfOk result (λ told. AreKnown before (news_in (seen_entry told)) told.texts) }
{
    let texts = copied_texts(alloc, one)?;
    let news = Arc::try_clone(&one.news)?;
    Ok(Told { news, texts })
}

/// What is told of entries, one after another, leads to: by key, the last document that they name for
/// each key that one of them names, or none. What is told of one entry alone is not copied. Of a key that
/// one entry alone names, the text is known that is known of that entry.
pub(crate) fn joined(alloc: Global, all: &[Told]) -> Result<Told, Mem>
    ensures leads { (cursors : ACursors) (C : ℕ → Rows) (from : ℕ) → AreDifferences cursors C from (map news_in (map seen_entry all.now)) →
        IfOk result (λ told. IsLead (published cursors (C from)) (published cursors (C (from + length all.now))) (news_in (seen_entry told))) }
    ensures known { (cursors : ACursors) (C : ℕ → Rows) (from : ℕ) → AreDifferences cursors C from (map news_in (map seen_entry all.now)) →
        AreKnownFrom cursors C from (map seen_entry all.now) →
        IfOk result (λ told. AreKnown (published cursors (C from)) (news_in (seen_entry told)) told.texts) }
{
    match all {
        [one] => alone(alloc, one),
        _ => put_together(alloc, all),
    }
}
