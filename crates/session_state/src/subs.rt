//! Live subscriptions.
ghost use Rattle.std.specs.Prelude.{◌≡◌, map, Some, IfSome, option_map, option_and_then, slice_set};
ghost use Rattle.live_observer.specs.Observing.{IsPlanOf, carried};
ghost use Rattle.session_model.specs.Subscriptions.{is_crowded, sub_named, cursor_of, may_load, loaded, closed};
ghost use Rattle.session_model.specs.Observers.{observers_without, observer_at, observers_with, observers_changed};
ghost use Rattle.session_state.specs.Subs.{as_live, place_in, live_of, placed_at, observers_of, observer_in};

use ejson_value::{Items, Text};
use live_observer::{Observer, Plan};
use publication::Cursors;

/// How many subscriptions of a session may be live.
const MAX_LIVE: usize = 256;

/// A live subscription: one that was opened and not closed.
#[derive(Drop)]
pub struct Sub {
    /// Which of the session's subscriptions it is, from 0 as they are opened.
    pub sub: u64,
    pub id: Text,
    /// The publication's name, the parameters, and the cursors that they make.
    pub name: Text,
    pub params: Items,
    pub cursors: Cursors,
    /// A place of the history that it may not show less than.
    pub floor: u64,
    /// How many entries of the history its documents take in; None until it is loaded.
    pub cursor: Option<u64>,
    /// It stands at the documents of that place; None until then.
    pub observer: Option<Observer>,
}

// The place of the subscription with this number.
fn place_of(subs: &[Sub], number: u64) -> Option<usize>
    ensures { result ≡ place_in number (map as_live subs.now) }
{
    for (place, sub) in subs.iter().enumerate() {
        if number == sub.sub {
            return Some(place);
        }
    }
    None
}

/// The live subscription with this number.
pub fn sub_of(subs: &[Sub], number: u64) -> Option<&Sub>
    ensures live { option_map (λ s. as_live s.now) result ≡ live_of number (map as_live subs.now) }
    ensures observer { option_and_then (λ s. s.now.observer) result ≡ observer_at number (map as_live subs.now) (observers_of subs.now) }
{
    let place = place_of(subs, number)?;
    subs.get(place)
}

/// The number of the live subscription with this id.
pub fn sub_named(subs: &[Sub], id: &Text) -> Option<u64>
    ensures { result ≡ sub_named id.now (map as_live subs.now) }
{
    for sub in subs {
        if id.as_str() == sub.id.as_str() {
            return Some(sub.sub);
        }
    }
    None
}

/// Whether as many subscriptions are live as may be.
pub fn is_crowded(subs: &[Sub]) -> bool
    ensures { result ≡ is_crowded (map as_live subs.now) }
{
    subs.len() >= MAX_LIVE
}

/// The place that the subscription with this number shows.
pub fn cursor_of(subs: &[Sub], number: u64) -> Option<u64>
    ensures { result ≡ cursor_of number (map as_live subs.now) }
{
    for sub in subs {
        if number == sub.sub {
            return sub.cursor;
        }
    }
    None
}

/// Whether the subscription with this number is live and not loaded, and may be loaded at this place.
pub fn may_load(subs: &[Sub], number: u64, at: u64) -> bool
    ensures { result ≡ may_load number at (map as_live subs.now) }
{
    for sub in subs {
        if number == sub.sub {
            return sub.cursor.is_none() && sub.floor <= at;
        }
    }
    false
}

// The subscription at this place of the list has this observer.
fn watch_at(subs: &mut Vec<Sub>, place: usize, observer: Observer)
    ensures same { map as_live subs.new.items ≡ map as_live subs.old.items }
    ensures observers { observers_of subs.new.items ≡ slice_set (observers_of subs.old.items) place (Some observer) }
{
    if let Some(sub) = subs.get_mut(place) {
        sub.observer = Some(observer);
    }
}

/// The subscription with this number has this observer from now on.
pub(crate) fn watch(subs: &mut Vec<Sub>, number: u64, observer: Observer)
    ensures same { map as_live subs.new.items ≡ map as_live subs.old.items }
    ensures observers { observers_of subs.new.items ≡ observers_with number (Some observer) (map as_live subs.old.items) (observers_of subs.old.items) }
{
    if let Some(place) = place_of(subs.as_slice(), number) {
        watch_at(subs, place, observer);
    }
}

fn commit_in(sub: &mut Sub, plan: Plan)
    requires { IfSome sub.old.observer (λ o. IsPlanOf o plan) }
    ensures same { as_live sub.new ≡ as_live sub.old }
    ensures observer { sub.new.observer ≡ option_map (λ o. carried o plan) sub.old.observer }
{
    if let Some(observer) = &mut sub.observer {
        observer.commit(plan);
    }
}

fn commit_at(subs: &mut Vec<Sub>, place: usize, plan: Plan)
    requires { IfSome (observer_in place (observers_of subs.old.items)) (λ o. IsPlanOf o plan) }
    ensures same { map as_live subs.new.items ≡ map as_live subs.old.items }
    ensures observers { observers_of subs.new.items
        ≡ slice_set (observers_of subs.old.items) place (option_map (λ o. carried o plan) (observer_in place (observers_of subs.old.items))) }
{
    if let Some(sub) = subs.get_mut(place) {
        commit_in(sub, plan);
    }
}

/// Carries out what the observer of the subscription with this number has planned.
pub(crate) fn commit(subs: &mut Vec<Sub>, number: u64, plan: Plan)
    requires { IfSome (observer_at number (map as_live subs.old.items) (observers_of subs.old.items)) (λ o. IsPlanOf o plan) }
    ensures same { map as_live subs.new.items ≡ map as_live subs.old.items }
    ensures observers { observers_of subs.new.items
        ≡ observers_changed number (λ o. carried o plan) (map as_live subs.old.items) (observers_of subs.old.items) }
{
    if let Some(place) = place_of(subs.as_slice(), number) {
        commit_at(subs, place, plan);
    }
}

// The subscription at this place of the list shows this place of the history.
fn place_at(subs: &mut Vec<Sub>, place: usize, at: u64)
    ensures placed { map as_live subs.new.items ≡ placed_at place at (map as_live subs.old.items) }
    ensures observers { observers_of subs.new.items ≡ observers_of subs.old.items }
{
    if let Some(sub) = subs.get_mut(place) {
        sub.cursor = Some(at);
    }
}

/// The subscription with this number shows this place of the history from now on.
pub(crate) fn load(subs: &mut Vec<Sub>, number: u64, at: u64)
    ensures loaded { map as_live subs.new.items ≡ loaded number at (map as_live subs.old.items) }
    ensures observers { observers_of subs.new.items ≡ observers_of subs.old.items }
{
    if let Some(place) = place_of(subs.as_slice(), number) {
        place_at(subs, place, at);
    }
}

/// The subscriptions with this number are live no longer.
pub(crate) fn close(subs: &mut Vec<Sub>, number: u64)
    ensures closed { map as_live subs.new.items ≡ closed number (map as_live subs.old.items) }
    ensures observers { observers_of subs.new.items ≡ observers_without number (map as_live subs.old.items) (observers_of subs.old.items) }
{
    subs.retain(|sub| number != sub.sub);
}
