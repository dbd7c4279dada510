//! One more item: its texts, and what it makes of the parts of a session.
ghost use Rattle.std.specs.Prelude.{◌≡◌, ◌++◌, ℕ, map, option_map, option_to_list, IfOk, OnOk, OnErr, None};
ghost use Rattle.merge_box.specs.State.{KeptDocs, IsPlan};
ghost use Rattle.session_journal_laws.specs.Fired.{unfired};
ghost use Rattle.session_texts.specs.Said.{data_text};
ghost use Rattle.session_state.specs.declared.own.Step.TheVariants as step;
ghost use Rattle.known_texts.specs.Places.{Texts};
ghost use Rattle.merge_box.specs.Words.{NewsList, seen_in, said_by, said_all, IsWord, AreWords};
ghost use Rattle.session_core.specs.Additions.{call_by, armed_by, CanArm, updated_text};
ghost use Rattle.session_core.specs.Known.{text_about, AreRight, AreLearnt, sub_by, news_by, known_by, kept_text};

use ejson_value::{DataMsg, Mem, Names, Publishes, Text};
use known_texts::KnownTexts;
use merge_box::{MergeBox, Word, Words};
use session_journal_laws::Stored;
use session_state::{Progress, Step};
use session_texts::{Texts, data_text, updated_text};
use std::alloc::Global;
use write_fence::Fences;

/// What a subscription publishes from now on.
#[derive(Drop)]
pub enum News<'a> {
    /// No subscription publishes anything else.
    Nothing,
    /// The documents of these keys, or none any more.
    Of { sub: u64, news: &'a Publishes },
    /// Nothing any more.
    Gone { sub: u64 },
}

/// One more item: the id that a print of it shows, what it does to subscriptions and calls, and the
/// texts of what it says itself.
#[derive(Drop)]
pub struct Addition {
    pub item: Stored,
    pub id: Option<Text>,
    pub step: Step,
    pub words: Texts,
}

impl Addition {
    /// An item that leaves subscriptions and calls.
    pub fn still(item: Stored, id: Option<Text>, words: Texts) -> Addition
        ensures item { result.item ≡ item }
        ensures id { result.id ≡ id }
        ensures step { result.step ≡ step.Stay }
        ensures words { result.words.items ≡ words.items }
    {
        Addition {
            item,
            id,
            step: Step::Stay,
            words,
        }
    }
}

/// What the merge box is to do.
pub(crate) fn plan_of(
    shown: &mut MergeBox,
    alloc: Global,
    news: &News<'_>,
    known: &KnownTexts,
) -> Result<Words, Mem>
    ensures same { shown.new.kept ≡ shown.old.kept }
    ensures planned { IfOk result (λ plan. IsPlan (call_by news.now) shown.new
        (said_all (seen_in shown.old.kept) (news_by news.now) plan.items)) }
    ensures words { IfOk result (λ plan. AreWords (sub_by news.now) shown.old.kept (news_by news.now) (known_by news.now known.now) plan.items) }
    ensures err { OnErr result (shown.new ≡ shown.old) }
{
    match news {
        News::Nothing => shown.plan(0, &Publishes::new(alloc), &KnownTexts::new(alloc)),
        News::Of { sub, news } => shown.plan(*sub, news, known),
        News::Gone { sub } => shown.plan_drop(*sub),
    }
}

// Puts an `updated` of each method behind the texts.
fn push_updateds(alloc: Global, texts: &mut Texts, ids: &Names) -> Result<(), Mem>
    ensures { OnOk result (texts.new.items ≡ texts.old.items ++ map updated_text ids.now) }
{
    for id in ids.as_slice() {
        texts.push_back(updated_text(alloc, id)?)?;
    }
    Ok(())
}

// The text of a message, which is kept where there is a place for it.
fn new_text(
    alloc: Global,
    known: &mut KnownTexts,
    message: &DataMsg,
    at: Option<usize>,
) -> Result<Text, Mem>
    ensures text { IfOk result (λ text. text ≡ data_text message.now) }
    ensures kept { OnOk result (known.new ≡ kept_text at (data_text message.now) known.old) }
    ensures err { OnErr result (known.new ≡ known.old) }
{
    let text = data_text(alloc, message)?;
    if let Some(place) = at {
        known.put(place, text.copy()?);
    }
    Ok(text)
}

// The text of a word, if it has one.
fn word_text(alloc: Global, known: &mut KnownTexts, word: &Word) -> Result<Option<Text>, Mem>
    ensures text { (sub : ℕ) (box : KeptDocs) (news : NewsList) (before : Texts) → AreRight sub box news before →
        AreLearnt sub box news before known.old → IsWord sub box news before word.now →
        IfOk result (λ text. text ≡ option_map text_about (said_by (seen_in box) news word.now)) }
    ensures learnt { (sub : ℕ) (box : KeptDocs) (news : NewsList) (before : Texts) → AreLearnt sub box news before known.old →
        IsWord sub box news before word.now → AreLearnt sub box news before known.new }
{
    match word {
        Word::Known(place) => match known.get(*place) {
            Some(text) => Ok(Some(text.copy()?)),
            None => Ok(None),
        },
        Word::New { message, at } => Ok(Some(new_text(alloc, known, message, *at)?)),
    }
}

// Puts the text behind the others, if there is one.
fn push_text(texts: &mut Texts, text: Option<Text>) -> Result<(), Mem>
    ensures { OnOk result (texts.new.items ≡ texts.old.items ++ option_to_list text) }
{
    if let Some(text) = text {
        texts.push_back(text)?;
    }
    Ok(())
}

// The texts of what a client is told of documents.
fn word_texts(alloc: Global, known: &mut KnownTexts, plan: &[Word]) -> Result<Texts, Mem>
    ensures texts { (sub : ℕ) (box : KeptDocs) (news : NewsList) → AreRight sub box news known.old →
        AreWords sub box news known.old plan.now →
        IfOk result (λ texts. texts.items ≡ map text_about (said_all (seen_in box) news plan.now)) }
    ensures learnt { (sub : ℕ) (box : KeptDocs) (news : NewsList) → AreRight sub box news known.old →
        AreWords sub box news known.old plan.now → AreLearnt sub box news known.old known.new }
{
    let mut texts = Texts::new(alloc);
    texts.reserve(plan.len())?;
    for word in plan {
        let text = word_text(alloc, known, word)?;
        push_text(&mut texts, text)?;
    }
    Ok(texts)
}

/// The texts of an item: those about documents, what it says itself, and an `updated` for each call
/// whose fence is open then.
pub(crate) fn texts_of(
    alloc: Global,
    known: &mut KnownTexts,
    plan: &[Word],
    words: &mut Texts,
    updated: &Names,
) -> Result<Texts, Mem>
    ensures texts { (sub : ℕ) (box : KeptDocs) (news : NewsList) → AreRight sub box news known.old →
        AreWords sub box news known.old plan.now →
        IfOk result (λ texts. texts.items ≡ map text_about (said_all (seen_in box) news plan.now) ++ (words.old.items ++ map updated_text updated.now)) }
    ensures learnt { (sub : ℕ) (box : KeptDocs) (news : NewsList) → AreRight sub box news known.old →
        AreWords sub box news known.old plan.now → AreLearnt sub box news known.old known.new }
{
    let mut texts = word_texts(alloc, known, plan)?;
    texts.append(words)?;
    push_updateds(alloc, &mut texts, updated)?;
    Ok(texts)
}

/// Arms the fence of a call that has ended.
pub(crate) fn arm(fences: &mut Fences, step: &Step) -> Result<(), Mem>
    requires { CanArm step.now fences.old }
    ensures ok { OnOk result (fences.new ≡ armed_by step.now fences.old) }
    ensures err { OnErr result (fences.new ≡ fences.old) }
{
    match step.ended() {
        Some((k, at)) => fences.arm(k, at),
        None => Ok(()),
    }
}

/// Takes out every fence that fires.
pub(crate) fn fire_all(fences: &mut Fences, progress: &Progress)
    ensures { fences.new ≡ unfired progress.now.opening progress.now.least fences.old }
{
    fences.known();
    while let Some(_k) = fences.fired(progress.least, progress.opening) {}
}
