//! Subscriptions that are loaded, go on and are fed.
ghost use Rattle.std.specs.Prelude.{◌≡◌, ◌≤◌, ◌+◌, ◌*◌, ◌∷◌, [], length, Some, IfOk, IfSome, OnOk, OnErr};
ghost use Rattle.session_core.specs.publication.Published.{IsQuery};
ghost use Rattle.session_core.specs.live_observer.Observing.{cursors_of, StandsAt, IsPlanOf};
ghost use Rattle.session_core.specs.session_model.Out.{ready};
ghost use Rattle.ddp_messages.specs.Texts.{server_text};
ghost use Rattle.session_core.specs.session_state.Own.{as_state};
ghost use Rattle.session_core.specs.session_model.Observers.{observer_at};
ghost use Rattle.session_core.specs.session_state.Subs.{observers_of};
ghost use Rattle.session_core.specs.session_laws.Session.{can_load, can_advance, place_on, place_after, HadRoom};
ghost use Rattle.session_core.specs.session_laws.Events.{HasLoaded, HasAdvanced, HasFed, Loads, Advances, Feeds, observer_of};
ghost use Rattle.session_core.specs.session_laws.Showing.{StandsAnywhere};
ghost use Rattle.ejson_value.specs.Changes.{news_of};
ghost use Rattle.session_core.specs.Known.{AreRight, AreLearnt};
ghost use Rattle.session_core.specs.Kept.{seen, IsKept};
ghost use Rattle.session_core.specs.Limits.{watched_count};
ghost use Rattle.session_core.specs.Observed.{IsObserved, committed};

use crate::inner::{Inner, add, add_known, is_at_work, test};
use crate::live_observer::{Observer, Plan};
use crate::publication::query;
use crate::session_journal_laws::Stored;
use crate::session_laws::EventFault;
use crate::session_state::{Own, Step, Sub, cursor_of, may_load, sub_of};
use crate::session_texts::{Texts, ready_text};
use crate::{Addition, News, Session};
use ejson_value::{Contents, Mem, Publishes};
use history_log::Batch;
use known_texts::KnownTexts;
use selector_match::Steps;
use std::alloc::Global;
use std::sync::ledger::Ledger;

// An observer of the subscription's cursors, what they publish, and the `ready`.
fn loading(
    alloc: Global,
    sub: &Sub,
    contents: &Contents,
) -> Result<(Observer, Publishes, Texts), Mem>
    ensures query { IfOk result (λ made. IsQuery sub.now.cursors contents.now made.1) }
    ensures cursors { IfOk result (λ made. cursors_of made.0 ≡ sub.now.cursors) }
    ensures stands { IfOk result (λ made. StandsAt made.0 contents.now) }
    ensures words { IfOk result (λ made. made.2.items ≡ server_text (ready sub.now.id) ∷ []) }
{
    let news = query(alloc, &sub.cursors, contents)?;
    let text = ready_text(alloc, &sub.id)?;
    let mut words = Texts::new(alloc);
    words.push_back(text)?;
    let observer = Observer::start(alloc, sub.cursors.copy()?, contents)?;
    Ok((observer, news, words))
}

// Loads the subscription.
fn load_at(inner: &mut Inner, sub: u64, at: u64, contents: &Contents) -> Result<(), Mem>
    requires kept { IsKept inner.old }
    requires can { HadRoom (can_load sub at (seen inner.old)) (seen inner.old) }
    ensures loaded { OnOk result (HasLoaded sub at contents.now (seen inner.old) (seen inner.new)) }
    ensures same { OnErr result (seen inner.new ≡ seen inner.old) }
    ensures kept { IsKept inner.new }
{
    let Some(live) = sub_of(inner.parts.own.subs.as_slice(), sub) else {
        return Ok(());
    };
    let (observer, news, words) = loading(inner.alloc, live, contents)?;
    let addition = Addition {
        item: Stored::Load { sub, at },
        id: None,
        step: Step::Show { sub, at },
        words,
    };
    add(inner, addition, &News::Of { sub, news: &news })?;
    inner.parts.own.watch(sub, observer);
    Ok(())
}

// Whether the subscription may be loaded at this place.
fn can_load(inner: &Inner, sub: u64, at: u64) -> bool
    ensures { result ≡ can_load sub at (seen inner.now) }
{
    is_at_work(inner) && may_load(inner.parts.own.subs.as_slice(), sub, at)
}

// The place so many entries on, where such a history can be.
fn place_on(from: Option<u64>, count: u64) -> Option<u64>
    ensures { result ≡ place_on from count }
{
    if count == 0 {
        return None;
    }
    from?.checked_add(count)
}

// The place that the subscription comes to, where it may go so many entries on.
fn place_after(inner: &Inner, sub: u64, count: u64) -> Option<u64>
    ensures { result ≡ place_after sub count (seen inner.now) }
{
    if is_at_work(inner) {
        place_on(cursor_of(inner.parts.own.subs.as_slice(), sub), count)
    } else {
        None
    }
}

// Adds the item of a subscription that goes on to a place, by the texts that are known of the news.
fn go_on_known(
    inner: &mut Inner,
    sub: u64,
    count: u64,
    at: u64,
    news: &Publishes,
    known: &mut KnownTexts,
) -> Result<(), Mem>
    requires kept { IsKept inner.old }
    requires can { HadRoom (can_advance sub count (seen inner.old)) (seen inner.old) }
    requires place { place_after sub count (seen inner.old) ≡ Some at }
    requires right { AreRight sub (seen inner.old).carried.box (news_of news.now) known.old }
    ensures gone { OnOk result (HasFed sub count news.now (seen inner.old) (seen inner.new)) }
    ensures learnt { AreLearnt sub (seen inner.old).carried.box (news_of news.now) known.old known.new }
    ensures same { OnErr result (seen inner.new ≡ seen inner.old) }
    ensures kept { IsKept inner.new }
{
    let addition = Addition {
        item: Stored::Advance { sub, count },
        id: None,
        step: Step::Show { sub, at },
        words: Texts::new(inner.alloc),
    };
    add_known(inner, addition, &News::Of { sub, news }, known)
}

// The same, where no text is known.
fn go_on(inner: &mut Inner, sub: u64, count: u64, at: u64, news: &Publishes) -> Result<(), Mem>
    requires kept { IsKept inner.old }
    requires can { HadRoom (can_advance sub count (seen inner.old)) (seen inner.old) }
    requires place { place_after sub count (seen inner.old) ≡ Some at }
    ensures gone { OnOk result (HasFed sub count news.now (seen inner.old) (seen inner.new)) }
    ensures same { OnErr result (seen inner.new ≡ seen inner.old) }
    ensures kept { IsKept inner.new }
{
    let mut known = KnownTexts::new(inner.alloc);
    go_on_known(inner, sub, count, at, news, &mut known)
}

// What the subscription's observer tells of the changes.
fn observed<L: Ledger>(
    inner: &Inner,
    sub: u64,
    batch: &Batch,
    steps: &mut Steps<L>,
) -> Result<(Publishes, Option<Plan>), Mem>
    ensures observed { IfOk result (λ both. IsObserved (observer_of sub (seen inner.now)) batch.now.changes both.0 both.1) }
    ensures grows { steps.old ≤ steps.new }
    ensures ticks { steps.new ≤ steps.old + watched_count (observer_of sub (seen inner.now)) * (2 * length batch.now.changes) }
{
    match inner.parts.own.observer_of(sub) {
        Some(observer) => {
            let (news, plan) = observer.step(batch.changes.as_slice(), steps)?;
            Ok((news, Some(plan)))
        }
        None => Ok((Publishes::new(inner.alloc), None)),
    }
}

// Carries out what the subscription's observer has planned.
fn commit(own: &mut Own, sub: u64, plan: Option<Plan>)
    requires { IfSome plan (λ p. IfSome (observer_at sub (as_state own.old).subs (observers_of own.old.subs.items)) (λ o. IsPlanOf o p)) }
    ensures same { as_state own.new ≡ as_state own.old }
    ensures observers { observers_of own.new.subs.items ≡ committed sub plan (as_state own.old).subs (observers_of own.old.subs.items) }
{
    if let Some(plan) = plan {
        own.commit(sub, plan);
    }
}

// Leads the subscription on over the changes.
fn advance_to<L: Ledger>(
    inner: &mut Inner,
    sub: u64,
    at: u64,
    batch: &Batch,
    steps: &mut Steps<L>,
) -> Result<(), Mem>
    requires kept { IsKept inner.old }
    requires can { HadRoom (can_advance sub batch.now.count (seen inner.old)) (seen inner.old) }
    requires place { place_after sub batch.now.count (seen inner.old) ≡ Some at }
    ensures advanced { OnOk result (HasAdvanced sub batch.now.count batch.now.changes (seen inner.old) (seen inner.new)) }
    ensures same { OnErr result (seen inner.new ≡ seen inner.old) }
    ensures kept { IsKept inner.new }
    ensures grows { steps.old ≤ steps.new }
    ensures ticks { steps.new ≤ steps.old + watched_count (observer_of sub (seen inner.old)) * (2 * length batch.now.changes) }
{
    let (news, plan) = observed(inner, sub, batch, steps)?;
    go_on(inner, sub, batch.count, at, &news)?;
    commit(&mut inner.parts.own, sub, plan);
    Ok(())
}

// Tells a proof that an observer without limits stands at any documents.
fn know_observer(inner: &Inner, sub: u64)
    ensures { IfSome (observer_of sub (seen inner.now)) StandsAnywhere }
{
    if let Some(observer) = inner.parts.own.observer_of(sub) {
        observer.stands_anywhere();
    }
}

impl Session {
    /// The subscription shows what it publishes of the contents, which the store has after `at`
    /// entries. It is `ready`.
    pub fn load(&mut self, sub: u64, at: u64, contents: &Contents) -> Result<(), EventFault>
        ensures { Loads sub at contents.now self.old self.new result }
    {
        test(&self.inner, can_load(&self.inner, sub, at))?;
        load_at(&mut self.inner, sub, at, contents)?;
        Ok(())
    }

    /// The subscription goes on over a batch of entries, by its own observer. A tick of `steps` is one
    /// question of it.
    pub fn advance<L: Ledger>(
        &mut self,
        sub: u64,
        batch: &Batch,
        steps: &mut Steps<L>,
    ) -> Result<(), EventFault>
        ensures advances { Advances sub batch.now.from batch.now.count batch.now.changes self.old self.new result }
        ensures grows { steps.old ≤ steps.new }
        ensures ticks { steps.new ≤ steps.old + watched_count (observer_of sub self.old) * (2 * length batch.now.changes) }
    {
        let place = place_after(&self.inner, sub, batch.count);
        test(&self.inner, place.is_some())?;
        match place {
            Some(at) => Ok(advance_to(&mut self.inner, sub, at, batch, steps)?),
            None => Err(EventFault::Idle),
        }
    }

    /// The subscription goes `count` entries on, by news that were made elsewhere. Of a document that no
    /// other subscription publishes it says the text that is known, and makes one known that was not.
    pub fn feed(
        &mut self,
        sub: u64,
        count: u64,
        news: &Publishes,
        known: &mut KnownTexts,
    ) -> Result<(), EventFault>
        requires right { AreRight sub self.old.carried.box (news_of news.now) known.old }
        ensures feeds { Feeds sub count news.now self.old self.new result }
        ensures learnt { AreLearnt sub self.old.carried.box (news_of news.now) known.old known.new }
    {
        know_observer(&self.inner, sub);
        let place = place_after(&self.inner, sub, count);
        test(&self.inner, place.is_some())?;
        match place {
            Some(at) => Ok(go_on_known(&mut self.inner, sub, count, at, news, known)?),
            None => Err(EventFault::Idle),
        }
    }
}
