//! The parts of a session that an item changes.
ghost use Rattle.std.specs.Prelude.{◌≡◌, ◌<◌, ◌≤◌, ◌+◌, length, IfOk, OnOk, OnErr, IsTrue};
ghost use Rattle.std.specs.VecDeque.{deque_len, deque_capacity};
ghost use Rattle.session_state.specs.Journal.{max_items};
ghost use Rattle.session_state.specs.Own.{as_state, stepped, CanStep, HasRoom, SameOwn};
ghost use Rattle.session_state.specs.Progress.{progress_of};
ghost use Rattle.merge_box.specs.State.{IsBoxAfter};
ghost use Rattle.session_core.specs.Additions.{call_by, CanArm};
ghost use Rattle.session_core.specs.Known.{AreRightBy, AreLearntBy};
ghost use Rattle.session_core.specs.Parts.{IsNew, HasGained, AreSame, gained_texts};

use crate::adding::{Addition, News, arm, fire_all, plan_of, texts_of};
use ejson_value::Mem;
use known_texts::KnownTexts;
use merge_box::MergeBox;
use session_state::{Journal, Line, Own, Progress, Step};
use session_texts::Texts;
use std::alloc::Global;
use write_fence::Fences;

/// Subscriptions and calls, what the client is shown, the fences that are armed, the journal, and
/// the texts that are to be sent.
#[derive(Drop)]
pub struct Parts {
    pub own: Own,
    pub shown: MergeBox,
    pub fences: Fences,
    pub journal: Journal,
    pub outbox: Texts,
}

// Plans what the client is shown otherwise, and makes the texts of an item.
fn planned_texts(
    alloc: Global,
    own: &Own,
    shown: &mut MergeBox,
    news: &News<'_>,
    known: &mut KnownTexts,
    words: &mut Texts,
    step: &Step,
    progress: &Progress,
) -> Result<Texts, Mem>
    requires can { CanStep step.now (as_state own.now) }
    requires progress { progress.now ≡ progress_of (stepped step.now (as_state own.now)).subs }
    requires right { AreRightBy news.now shown.old.kept known.old }
    ensures same { shown.new.kept ≡ shown.old.kept }
    ensures after { OnOk result (IsBoxAfter (call_by news.now) shown.old.kept shown.new.planned) }
    ensures texts { IfOk result (λ texts. texts.items ≡ gained_texts (stepped step.now (as_state own.now)) words.old.items shown.old.kept shown.new.planned) }
    ensures learnt { AreLearntBy news.now shown.old.kept known.old known.new }
{
    let updated = own.told(alloc, step, progress)?;
    let plan = plan_of(shown, alloc, news, known)?;
    shown.known();
    let texts = texts_of(alloc, known, plan.as_slice(), words, &updated)?;
    Ok(texts)
}

fn count_of(texts: &Texts) -> usize
    ensures { result ≡ length texts.now.items }
{
    texts.len()
}

// Makes room for one more item, of so many texts.
fn reserve(
    own: &mut Own,
    outbox: &mut Texts,
    journal: &mut Journal,
    count: usize,
) -> Result<(), Mem>
    ensures own { SameOwn own.old own.new }
    ensures outbox { outbox.new.items ≡ outbox.old.items }
    ensures lines { journal.new.lines ≡ journal.old.lines }
    ensures counts { journal.new.counts ≡ journal.old.counts }
    ensures own_room { OnOk result (HasRoom own.new) }
    ensures outbox_room { OnOk result (deque_len outbox.new + count ≤ deque_capacity outbox.new) }
    ensures journal_room { OnOk result (IsTrue journal.new.has_room) }
{
    own.reserve()?;
    outbox.reserve(count)?;
    journal.reserve()
}

impl Parts {
    /// Those of a session that has taken nothing.
    pub fn new(alloc: Global) -> Parts
        ensures { IsNew result }
    {
        Parts {
            own: Own::new(alloc),
            shown: MergeBox::new(alloc),
            fences: Fences::new(alloc),
            journal: Journal::new(alloc),
            outbox: Texts::new(alloc),
        }
    }

    /// Adds an item: the texts of what is shown otherwise, the item's words, and an `updated` for
    /// each call whose fence is open then are to be sent.
    pub fn add(
        &mut self,
        alloc: Global,
        addition: Addition,
        news: &News<'_>,
        known: &mut KnownTexts,
    ) -> Result<(), Mem>
        requires few { length self.old.journal.lines < max_items }
        requires opened { self.old.own.opened < max_items }
        requires steps { CanStep addition.step (as_state self.old.own) }
        requires arms { CanArm addition.step self.old.fences }
        requires right { AreRightBy news.now self.old.shown.kept known.old }
        ensures gained { OnOk result (HasGained addition (call_by news.now) (stepped addition.step (as_state self.old.own)) self.old self.new) }
        ensures same { OnErr result (AreSame self.old self.new) }
        ensures learnt { AreLearntBy news.now self.old.shown.kept known.old known.new }
    {
        let Addition {
            item,
            id,
            step,
            mut words,
        } = addition;
        self.shown.known();
        self.fences.known();
        let progress = self.own.progress_after(&step);
        let mut texts = planned_texts(
            alloc,
            &self.own,
            &mut self.shown,
            news,
            known,
            &mut words,
            &step,
            &progress,
        )?;
        let count = count_of(&texts);
        reserve(&mut self.own, &mut self.outbox, &mut self.journal, count)?;
        arm(&mut self.fences, &step)?;
        self.shown.commit();
        self.shown.known();
        self.outbox.append(&mut texts).unwrap();
        self.journal.push(Line { item, id }, count);
        self.own.take(step, &progress);
        fire_all(&mut self.fences, &progress);
        Ok(())
    }
}
