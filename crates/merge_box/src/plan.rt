//! What becomes of each document that a call changes.
ghost use Rattle.std.specs.Prelude.{◌≡◌, ◌==◌, ◌∷◌, ◌++◌, ◌+◌, ◌<◌, ◌≤◌, ◌^◌, ℕ, true, false, [], map, Some, None, IsSome, IfSome, IsTrue, IfOk};
ghost use Rattle.std.specs.Prelude.{OnOk, if◌then◌else◌};
ghost use Rattle.std.specs.Ordering.{eq_by_cmp};
ghost use Rattle.map_model.specs.Maps.{at, IsSorted};
ghost use Rattle.merge_model.specs.Publishing.{last_news};
ghost use Rattle.merge_model.specs.Kept.{has, kept_at, publishers_at};
ghost use Rattle.ejson_value.specs.declared.key.Key.{Key};
ghost use Rattle.ejson_value.specs.Key.{key_cmp};
ghost use Rattle.kept_document.specs.Held.{is_shared, IsAlone, IsHeld, SameDoc, IsDocGrown};
ghost use Rattle.kept_document.specs.Changes.{held_in, with_change, IsChange, HasPlaces, IsFor};
ghost use Rattle.merge_box.specs.Index.{lists_of, is_listed};
ghost use Rattle.merge_box.specs.State.{shared_count};
ghost use Rattle.known_texts.specs.Places.{text_at, is_open};
ghost use Rattle.merge_box.specs.Words.{seen_in, said_all, new_words, AreWords, IsOpenAt, HasSaid, HasTold};
ghost use Rattle.ejson_value.specs.Changes.{news_of};
ghost use Rattle.merge_box.specs.Slots.{named, key_in, IsNamed};
ghost use Rattle.merge_box.specs.Inside.{changes_of, step_of, told_of, after_at, AreNamed, HasGrown, IsReady, IsInside, IsPlannedAt, IsNext, IsTaken};
ghost use Rattle.merge_box.specs.Inside.{IsPublished};

use crate::index::{Index, list, unlist};
use crate::kept::KeptMap;
use ejson_value::{DataList, DataMsg, Key, Mem, Publish, Publishes};
use kept_document::{Change, Held, told};
use known_texts::KnownTexts;
use std::alloc::Global;
use std::collections::BTreeSet;

/// What changes of the document in a slot.
#[derive(Drop)]
pub(crate) struct Planned {
    pub(crate) slot: usize,
    pub(crate) change: Change,
}

/// What changes of documents, by rising key.
pub(crate) type ChangeList = Vec<Planned>;

// Lists the key under the subscription, where it publishes the document from now on.
fn list_published(
    index: &mut Index,
    alloc: Global,
    sub: u64,
    publish: &Publish,
    held: &Held,
) -> Result<(), Mem>
    requires { has sub held.now.publishers ≡ true → is_listed (lists_of index.old.entries) sub publish.now.key ≡ true }
    ensures kept { (s : ℕ) (k : Key) → is_listed (lists_of index.old.entries) s k ≡ true →
        is_listed (lists_of index.new.entries) s k ≡ true }
    ensures listed { OnOk result (IsSome publish.now.new → is_listed (lists_of index.new.entries) sub publish.now.key ≡ true) }
{
    if publish.new.is_some() && !held.publishes(sub) {
        list(index, alloc, sub, &publish.key)
    } else {
        Ok(())
    }
}

/// What a client is told of a publish.
#[derive(Drop)]
pub enum Word {
    /// What the text says that is known of the publish at this place.
    Known(usize),
    /// A message. Its text is to be kept for the publish at the place, where there is one.
    New { message: DataMsg, at: Option<usize> },
}

/// What a client is told, by collection and id.
pub type Words = Vec<Word>;

// The place, where a text of the publish there is to be kept.
fn open_place(texts: &KnownTexts, place: usize) -> Option<usize>
    ensures { IfSome result (λ at. (at ≡ place) × (is_open texts.now place ≡ true)) }
{
    if texts.is_open(place) {
        Some(place)
    } else {
        None
    }
}

// Where a text about the document is to be kept: nowhere, where another subscription publishes it.
fn place_for(held: &Held, sub: u64, texts: &KnownTexts, place: usize) -> Option<usize>
    ensures { IfSome result (IsOpenAt sub texts.now place held.now.publishers) }
{
    if held.is_only_by(sub) {
        open_place(texts, place)
    } else {
        None
    }
}

// Whether what a client is told of the document is known already.
fn is_known(held: &Held, sub: u64, texts: &KnownTexts, place: usize) -> bool
    ensures { IsTrue result → IsAlone sub held.now.publishers × IsSome (text_at texts.now place) }
{
    texts.get(place).is_some() && held.is_only_by(sub)
}

// Adds the message, if there is one.
fn push_message(words: &mut Words, message: Option<DataMsg>, at: Option<usize>) -> Result<(), Mem>
    ensures { OnOk result (words.new.items ≡ words.old.items ++ new_words message at) }
{
    match message {
        None => Ok(()),
        Some(message) => {
            words.push(Word::New { message, at })?;
            Ok(())
        }
    }
}

// Adds the message about a document after a change, if the client sees it otherwise then.
fn say(
    words: &mut Words,
    alloc: Global,
    key: &Key,
    held: &Held,
    change: &Change,
    at: Option<usize>,
) -> Result<(), Mem>
    requires { IsFor held.now change.now }
    ensures { OnOk result (HasSaid at key.now (step_of held.now change.now) words.old.items words.new.items) }
{
    let message = told(alloc, key, held, change)?;
    push_message(words, message, at)
}

// Adds what is told of a document after a change: what is known already is not said anew.
fn tell(
    words: &mut Words,
    alloc: Global,
    key: &Key,
    held: &Held,
    change: &Change,
    sub: u64,
    texts: &KnownTexts,
    place: usize,
) -> Result<(), Mem>
    requires { IsFor held.now change.now }
    ensures { OnOk result (HasTold sub texts.now place key.now held.now.publishers (step_of held.now change.now)
        words.old.items words.new.items) }
{
    if is_known(held, sub, texts, place) {
        words.push(Word::Known(place))?;
        return Ok(());
    }
    let at = place_for(held, sub, texts, place);
    say(words, alloc, key, held, change, at)
}

// Plans what becomes of one document.
fn plan_held(
    held: &mut Held,
    words: &mut Words,
    index: &mut Index,
    alloc: Global,
    sub: u64,
    publish: &Publish,
    texts: &KnownTexts,
    place: usize,
) -> Result<Change, Mem>
    requires { has sub held.old.publishers ≡ true → is_listed (lists_of index.old.entries) sub publish.now.key ≡ true }
    ensures grown { IsDocGrown held.old held.new }
    ensures listed { (s : ℕ) (k : Key) → is_listed (lists_of index.old.entries) s k ≡ true →
        is_listed (lists_of index.new.entries) s k ≡ true }
    ensures planned { IfOk result (λ change. IsNext sub texts.now place publish.now.key publish.now.new held.new
        (lists_of index.new.entries) words.old.items words.new.items change) }
{
    list_published(index, alloc, sub, publish, held)?;
    let change = held.change(alloc, sub, publish.new.as_ref())?;
    held.make_places(alloc, &change)?;
    tell(words, alloc, &publish.key, held, &change, sub, texts, place)?;
    Ok(change)
}

// The same of the document in a slot.
fn plan_at(
    kept: &mut KeptMap,
    slot: usize,
    words: &mut Words,
    index: &mut Index,
    alloc: Global,
    sub: u64,
    publish: &Publish,
    texts: &KnownTexts,
    place: usize,
) -> Result<Change, Mem>
    requires slot { named kept.old.keys slot ≡ Some publish.now.key }
    requires listed { has sub (publishers_at key_cmp kept.old.docs publish.now.key) ≡ true →
        is_listed (lists_of index.old.entries) sub publish.now.key ≡ true }
    ensures grown { HasGrown kept.old kept.new }
    ensures others { (k : Key) → eq_by_cmp key_cmp k publish.now.key ≡ false →
        at key_cmp kept.new.docs k ≡ at key_cmp kept.old.docs k }
    ensures listed { (s : ℕ) (k : Key) → is_listed (lists_of index.old.entries) s k ≡ true →
        is_listed (lists_of index.new.entries) s k ≡ true }
    ensures planned { IfOk result (λ change.
        IsNext sub texts.now place publish.now.key publish.now.new (kept_at key_cmp kept.new.docs publish.now.key)
        (lists_of index.new.entries) words.old.items words.new.items change) }
{
    let slot = &mut kept.slots[slot];
    plan_held(
        &mut slot.held,
        words,
        index,
        alloc,
        sub,
        publish,
        texts,
        place,
    )
}

// Plans what becomes of one document. Its key is looked up here, and nowhere else.
fn plan_publish(
    kept: &mut KeptMap,
    words: &mut Words,
    index: &mut Index,
    alloc: Global,
    sub: u64,
    publish: &Publish,
    texts: &KnownTexts,
    place: usize,
) -> Result<Planned, Mem>
    requires { has sub (publishers_at key_cmp kept.old.docs publish.now.key) ≡ true →
        is_listed (lists_of index.old.entries) sub publish.now.key ≡ true }
    ensures grown { HasGrown kept.old kept.new }
    ensures others { (k : Key) → eq_by_cmp key_cmp k publish.now.key ≡ false →
        at key_cmp kept.new.docs k ≡ at key_cmp kept.old.docs k }
    ensures listed { (s : ℕ) (k : Key) → is_listed (lists_of index.old.entries) s k ≡ true →
        is_listed (lists_of index.new.entries) s k ≡ true }
    ensures named { IfOk result (λ planned. named kept.new.keys planned.slot ≡ Some publish.now.key) }
    ensures room { OnOk result (IsSome (at key_cmp kept.new.docs publish.now.key)) }
    ensures planned { IfOk result (λ planned.
        IsNext sub texts.now place publish.now.key publish.now.new (kept_at key_cmp kept.new.docs publish.now.key)
        (lists_of index.new.entries) words.old.items words.new.items planned.change) }
{
    let slot = kept.slot_for(&publish.key)?;
    let change = plan_at(kept, slot, words, index, alloc, sub, publish, texts, place)?;
    Ok(Planned { slot, change })
}

/// Plans what becomes of each document of the news, which stand by rising key, with what the client is
/// told of them, and makes places for what is new.
pub(crate) fn plan_news(
    kept: &mut KeptMap,
    words: &mut Words,
    index: &mut Index,
    alloc: Global,
    sub: u64,
    news: &[Publish],
    texts: &KnownTexts,
) -> Result<ChangeList, Mem>
    requires by_key { IsSorted key_cmp (news_of news.now) }
    requires held { (k : Key) → IsHeld (kept_at key_cmp kept.old.docs k) }
    requires listed { (k : Key) → has sub (publishers_at key_cmp kept.old.docs k) ≡ true →
        is_listed (lists_of index.old.entries) sub k ≡ true }
    requires none { words.old.items ≡ [] }
    ensures grown { HasGrown kept.old kept.new }
    ensures listed { (s : ℕ) (k : Key) → is_listed (lists_of index.old.entries) s k ≡ true →
        is_listed (lists_of index.new.entries) s k ≡ true }
    ensures named { IfOk result (λ plan. AreNamed kept.new.keys plan.items) }
    ensures by_key { IfOk result (λ plan. IsSorted key_cmp (changes_of kept.new.keys plan.items)) }
    ensures planned { IfOk result (λ plan. (k : Key) →
        IsPlannedAt sub (last_news key_cmp (news_of news.now) k) (kept_at key_cmp kept.new.docs k)
        (at key_cmp (changes_of kept.new.keys plan.items) k)) }
    ensures room { IfOk result (λ plan. (k : Key) → IsSome (at key_cmp (changes_of kept.new.keys plan.items) k) →
        IsSome (at key_cmp kept.new.docs k)) }
    ensures listed_here { IfOk result (λ plan. (k : Key) → IsPublished (last_news key_cmp (news_of news.now) k) →
        is_listed (lists_of index.new.entries) sub k ≡ true) }
    ensures words { OnOk result (AreWords sub kept.old.docs (news_of news.now) texts.now words.new.items) }
    ensures told { IfOk result (λ plan. said_all (seen_in kept.old.docs) (news_of news.now) words.new.items ≡
        told_of kept.new.docs (changes_of kept.new.keys plan.items)) }
{
    let mut plan = Vec::with_capacity(alloc, news.len())?;
    for publish in news {
        let place = plan.len();
        let planned = plan_publish(kept, words, index, alloc, sub, publish, texts, place)?;
        plan.push(planned)?;
    }
    Ok(plan)
}

// Lists the key under the subscription no more, where it does not publish the document.
fn unlist_unpublished(index: &mut Index, sub: u64, key: &Key, change: &Change)
    ensures { (k : Key) (s : ℕ) → (eq_by_cmp key_cmp k key.now ≡ true → has s (held_in change.now).publishers ≡ true) →
        is_listed (lists_of index.old.entries) s k ≡ true → is_listed (lists_of index.new.entries) s k ≡ true }
{
    if !change.publishes(sub) {
        unlist(index, sub, key);
    }
}

// Carries out the change of one document that stays published, and answers whether two or more
// subscriptions published it before.
fn take(held: &mut Held, change: Change) -> bool
    requires places { HasPlaces held.old change }
    requires held { IsHeld (with_change held.old change) }
    ensures was { result ≡ is_shared held.old.publishers }
    ensures same { SameDoc (with_change held.old change) held.new }
    ensures held { IsHeld held.new }
{
    let was = held.is_shared();
    held.take(change);
    was
}

// The same of the document in a slot.
fn take_at(kept: &mut KeptMap, slot: usize, change: Change) -> bool
    requires slot { IsNamed kept.old.keys slot }
    requires ready { IsReady kept.old.docs (key_in kept.old.keys slot) change }
    ensures was { result ≡ is_shared (publishers_at key_cmp kept.old.docs (key_in kept.old.keys slot)) }
    ensures taken { IsTaken kept.old kept.new (key_in kept.old.keys slot) change }
{
    let slot = &mut kept.slots[slot];
    take(&mut slot.held, change)
}

// Carries out the change of the document in the slot, which is taken away where nobody publishes the
// document any more, and answers whether two or more subscriptions published it before.
fn take_or_trim(kept: &mut KeptMap, slot: usize, change: Change) -> bool
    requires slot { IsNamed kept.old.keys slot }
    requires ready { IsReady kept.old.docs (key_in kept.old.keys slot) change }
    ensures was { result ≡ is_shared (publishers_at key_cmp kept.old.docs (key_in kept.old.keys slot)) }
    ensures taken { IsTaken kept.old kept.new (key_in kept.old.keys slot) change }
{
    if change.is_published() {
        take_at(kept, slot, change)
    } else {
        kept.trim(slot)
    }
}

// How many there are, where one was among them before or not, and is now or not.
fn counted(count: u64, was: bool, is: bool) -> u64
    requires had { (if was then 1 else 0) ≤ count }
    requires fits { was ≡ false → is ≡ true → count + 1 < 2 ^ 64 }
    ensures { result + (if was then 1 else 0) ≡ count + (if is then 1 else 0) }
{
    match (was, is) {
        (true, false) => count - 1,
        (false, true) => count + 1,
        _ => count,
    }
}

// Carries out the change of the document in the slot, where so many were published by two or more
// subscriptions, and answers how many are.
fn take_counted(kept: &mut KeptMap, count: u64, slot: usize, change: Change) -> u64
    requires slot { IsNamed kept.old.keys slot }
    requires ready { IsReady kept.old.docs (key_in kept.old.keys slot) change }
    requires count { count ≡ shared_count kept.old.docs }
    ensures taken { IsTaken kept.old kept.new (key_in kept.old.keys slot) change }
    ensures count { result ≡ shared_count kept.new.docs }
{
    let _before = kept.len();
    let is = change.is_shared();
    let was = take_or_trim(kept, slot, change);
    let _after = kept.len();
    counted(count, was, is)
}

/// Carries the changes out, where so many documents were published by two or more subscriptions,
/// and answers how many are. It takes no memory.
pub(crate) fn take_all(
    kept: &mut KeptMap,
    index: &mut Index,
    sub: u64,
    changes: ChangeList,
    count: u64,
) -> u64
    requires inside { IsInside kept.old.docs (changes_of kept.old.keys changes.items) (lists_of index.old.entries) }
    requires named { AreNamed kept.old.keys changes.items }
    requires count { count ≡ shared_count kept.old.docs }
    ensures same { (k : Key) →
        SameDoc (after_at (changes_of kept.old.keys changes.items) kept.old.docs k) (kept_at key_cmp kept.new.docs k) }
    ensures held { (k : Key) → IsHeld (kept_at key_cmp kept.new.docs k) }
    ensures listed { (k : Key) (s : ℕ) → has s (publishers_at key_cmp kept.new.docs k) ≡ true →
        is_listed (lists_of index.new.entries) s k ≡ true }
    ensures count { result ≡ shared_count kept.new.docs }
{
    let mut changes = changes;
    let mut count = count;
    while let Some(Planned { slot, change }) = changes.pop() {
        unlist_unpublished(index, sub, kept.key(slot), &change);
        count = take_counted(kept, count, slot, change);
    }
    count
}

// For each key that nothing is published there any more.
fn removals_of(keys: &BTreeSet<Key>, alloc: Global) -> Result<Publishes, Mem>
    ensures keys { IfOk result (λ news. news_of news ≡ map (λ k. (k, None)) keys.now.keys) }
    ensures by_key { IfOk result (λ news. IsSorted key_cmp (news_of news)) }
{
    let mut news = Publishes::new(alloc);
    for key in keys.iter() {
        let key = key.copy()?;
        news.push(Publish { key, new: None })?;
    }
    Ok(news)
}

/// For each key that is listed under the subscription that it publishes nothing there any more.
pub(crate) fn removals(index: &Index, alloc: Global, sub: u64) -> Result<Publishes, Mem>
    ensures by_key { IfOk result (λ news. IsSorted key_cmp (news_of news)) }
    ensures last { IfOk result (λ news. (k : Key) → last_news key_cmp (news_of news) k ≡
        (if is_listed (lists_of index.now.entries) sub k then Some None else None)) }
{
    match index.get(&sub) {
        None => Ok(Publishes::new(alloc)),
        Some(keys) => {
            let news = removals_of(keys, alloc)?;
            Ok(news)
        }
    }
}
