//! What the cursors tell, and the answer that is made of it.
ghost use Rattle.std.specs.Prelude.{◌≡◌, ◌∷◌, [], map, Some, None, IsTrue, IfOk, IfSome, OnOk};
ghost use Rattle.std.specs.Map.{keys_of};
ghost use Rattle.std.specs.List.Sorted.{IsStrictlySortedBy};
ghost use Rattle.map_model.specs.Maps.{set, IsSorted};
ghost use Rattle.value_model.specs.Order.{text_cmp};
ghost use Rattle.ejson_value.specs.Key.{key_cmp, key_of};
ghost use Rattle.live_observer.specs.Answering.{as_told, put_told, put_all, publish_of, publish_at};

use ejson_value::{Doc, Key, Mem, Publish, Publishes, Text, copy_option};
use sort_window::{Moves, Shown, ShownList};
use std::alloc::Global;
use std::collections::BTreeMap;
use std::marker::Model;

/// What one cursor tells by id, under its name, and what becomes of its window.
#[derive(Drop)]
pub(crate) struct ToldBy {
    name: Text,
    // Where the window moves, it tells in place of this.
    shown: ShownList,
    moves: Option<Moves>,
}

impl Model for ToldBy {
    ghost use Rattle.live_observer.specs.Answering.{ToldOf, told_in};
    ghost use Rattle.live_observer.specs.Coding.{told_of_code};

    ghost Value = { ToldOf };

    ghost coded = { told_of_code };

    ghost view = { λ a. record { name = a.name; told = told_in a.shown a.moves; moves = a.moves } };
}

// By published name and id.
type Answer = BTreeMap<Key, Option<Doc>>;

impl ToldBy {
    pub(crate) fn plain(name: Text, shown: ShownList) -> ToldBy
        ensures { result ≡ record { name = name; told = map (λ one. (one.id, one.doc)) shown; moves = None } }
    {
        ToldBy {
            name,
            shown,
            moves: None,
        }
    }

    pub(crate) fn window(alloc: Global, name: Text, moves: Moves) -> ToldBy
        ensures { result ≡ record { name = name; told = moves.told; moves = Some moves } }
    {
        ToldBy {
            name,
            shown: ShownList::new(alloc),
            moves: Some(moves),
        }
    }

    fn shown(&self) -> &ShownList
        ensures { map (λ one. (one.id, one.doc)) result.now ≡ self.now.told }
    {
        match &self.moves {
            None => &self.shown,
            Some(moves) => moves.shown(),
        }
    }

    pub(crate) fn into_moves(self) -> Option<Moves>
        ensures { result ≡ self.moves }
    {
        let ToldBy { name, shown, moves } = self;
        drop(name);
        drop(shown);
        moves
    }
}

fn put_one(answer: &mut Answer, name: &Text, one: &Shown) -> Result<(), Mem>
    ensures { OnOk result (answer.new.entries ≡ set key_cmp answer.old.entries (key_of name.now one.now.id) (Some one.now.doc)) }
{
    let key = Key::of(name, &one.id)?;
    let doc = copy_option(&one.doc)?;
    drop(answer.insert(key, doc)?);
    Ok(())
}

fn put_shown(answer: &mut Answer, name: &Text, shown: &[Shown]) -> Result<(), Mem>
    ensures { OnOk result (answer.new.entries ≡ put_told name.now answer.old.entries (map (λ one. (one.id, one.doc)) shown.now)) }
{
    for one in shown {
        put_one(answer, name, one)?;
    }
    Ok(())
}

fn put_by(answer: &mut Answer, one: &ToldBy) -> Result<(), Mem>
    ensures { OnOk result (answer.new.entries ≡ put_told one.now.name answer.old.entries one.now.told) }
{
    put_shown(answer, &one.name, one.shown().as_slice())
}

fn put_all(answer: &mut Answer, told: &[ToldBy]) -> Result<(), Mem>
    ensures { OnOk result (answer.new.entries ≡ put_all answer.old.entries told.now) }
{
    for one in told {
        put_by(answer, one)?;
    }
    Ok(())
}

fn listed(alloc: Global, answer: Answer) -> Result<Publishes, Mem>
    ensures { IfOk result (λ list. list ≡ map publish_of answer.entries) }
{
    let mut list = Publishes::new(alloc);
    for (key, new) in answer {
        list.push(Publish { key, new })?;
    }
    Ok(list)
}

// Whether the ids rise from this one on.
fn rise_from(id: &Text, shown: &[Shown]) -> bool
    ensures { IsTrue result → IsStrictlySortedBy text_cmp (id.now ∷ keys_of (as_told shown.now)) }
{
    let mut last = id;
    let mut rest = shown;
    while let Some((next, others)) = rest.split_first() {
        if last.cmp(&next.id).is_ge() {
            return false;
        }
        last = &next.id;
        rest = others;
    }
    true
}

// Whether the ids rise.
fn is_by_id(shown: &[Shown]) -> bool
    ensures { IsTrue result → IsSorted text_cmp (as_told shown.now) }
{
    match shown.split_first() {
        None => true,
        Some((first, others)) => rise_from(&first.id, others),
    }
}

// What is told under its published name, where one cursor alone tells, by rising id.
fn in_order(told: &[ToldBy]) -> Option<(&Text, &[Shown])>
    ensures { IfSome result (λ one. map publish_of (put_all [] told.now) ≡ map (publish_at one.0.now) one.1.now) }
{
    let [one] = told else { return None };
    let shown = one.shown().as_slice();
    if is_by_id(shown) {
        Some((&one.name, shown))
    } else {
        None
    }
}

fn publish_at(name: &Text, one: &Shown) -> Result<Publish, Mem>
    ensures { IfOk result (λ publish. publish ≡ publish_at name.now one.now) }
{
    let key = Key::of(name, &one.id)?;
    Ok(Publish {
        key,
        new: copy_option(&one.doc)?,
    })
}

// The answer that tells the same under the name.
fn answer_under(alloc: Global, name: &Text, shown: &[Shown]) -> Result<Publishes, Mem>
    ensures { IfOk result (λ list. list ≡ map (publish_at name.now) shown.now) }
{
    let mut list = Publishes::new(alloc);
    for one in shown {
        list.push(publish_at(name, one)?)?;
    }
    Ok(list)
}

// The answer, by published name and id, whatever is told.
fn answer_by_key(alloc: Global, told: &[ToldBy]) -> Result<Publishes, Mem>
    ensures { IfOk result (λ list. list ≡ map publish_of (put_all [] told.now)) }
{
    let mut answer = BTreeMap::new(alloc);
    put_all(&mut answer, told)?;
    listed(alloc, answer)
}

/// The answer, by published name and id.
pub(crate) fn answer(alloc: Global, told: &[ToldBy]) -> Result<Publishes, Mem>
    ensures { IfOk result (λ list. list ≡ map publish_of (put_all [] told.now)) }
{
    match in_order(told) {
        None => answer_by_key(alloc, told),
        Some((name, shown)) => answer_under(alloc, name, shown),
    }
}
