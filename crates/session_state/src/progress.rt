//! How far the live subscriptions are, and which calls that tells.
ghost use Rattle.std.specs.Prelude.{true, ◌≤◌, IfSome, ◌≡◌, ◌++◌, ◌∷◌, [], map, IfOk, OnOk, Some, if◌then◌else◌};
ghost use Rattle.session_model.specs.Subscriptions.{loaded, closed};
ghost use Rattle.session_journal_laws.specs.Fired.{lesser};
ghost use Rattle.session_state.specs.Subs.{as_live};
ghost use Rattle.session_state.specs.Calls.{as_phase, as_method, told_by, told_now_by, are_settled};
ghost use Rattle.session_state.specs.Progress.{nowhere, with_cursor, progress_with, is_open_by, turned_phase};

use crate::calls::{Method, Phase};
use crate::subs::Sub;
use ejson_value::{Mem, Names, Text};
use std::alloc::Global;

/// How far the live subscriptions are: the least place that one shows, None where none is loaded,
/// and whether one is opened that isn't loaded.
#[derive(Clone, Copy, Debug, PartialEq, Eq)]
pub struct Progress {
    pub least: Option<u64>,
    pub opening: bool,
}

fn lesser(one: Option<u64>, other: Option<u64>) -> Option<u64>
    ensures { result ≡ lesser one other }
{
    match (one, other) {
        (None, other) => other,
        (Some(one), None) => Some(one),
        (Some(one), Some(other)) => { if one <= other { Some(one) } else { Some(other) } }
    }
}

impl Progress {
    /// Whether the fence of a call is open that had ended at this place.
    pub fn is_open(&self, at: u64) -> bool
        ensures { result ≡ is_open_by self.now at }
    {
        match (self.opening, self.least) {
            (true, _) => false,
            (false, None) => true,
            (false, Some(least)) => at <= least,
        }
    }

    // With one more subscription at this place.
    fn with(self, cursor: Option<u64>) -> Progress
        ensures { result ≡ with_cursor self cursor }
    {
        Progress {
            least: lesser(self.least, cursor),
            opening: self.opening || cursor.is_none(),
        }
    }

    fn nowhere() -> Progress
        ensures { result ≡ nowhere }
    {
        Progress {
            least: None,
            opening: false,
        }
    }
}

/// How far they are.
pub(crate) fn progress_now(subs: &[Sub]) -> Progress
    ensures { result ≡ progress_with nowhere (map as_live subs.now) }
{
    let mut progress = Progress::nowhere();
    for sub in subs {
        progress = progress.with(sub.cursor);
    }
    progress
}

// The place that a subscription shows once the one with this number shows that place.
fn cursor_once_loaded(is_it: bool, sub: &Sub, at: u64) -> Option<u64>
    ensures { result ≡ (if is_it then Some at else sub.now.cursor) }
{
    if is_it { Some(at) } else { sub.cursor }
}

/// How far they are once the subscription with this number shows this place.
pub(crate) fn progress_loaded(subs: &[Sub], number: u64, at: u64) -> Progress
    ensures { result ≡ progress_with nowhere (loaded number at (map as_live subs.now)) }
{
    let mut progress = Progress::nowhere();
    let mut is_found = false;
    for sub in subs {
        let is_it = !is_found && number == sub.sub;
        progress = progress.with(cursor_once_loaded(is_it, sub, at));
        is_found = is_found || is_it;
    }
    progress
}

// With this subscription, unless it has this number.
fn with_other(progress: Progress, sub: &Sub, number: u64) -> Progress
    ensures { result ≡ progress_with progress (closed number (as_live sub.now ∷ [])) }
{
    if number == sub.sub {
        progress
    } else {
        progress.with(sub.cursor)
    }
}

/// How far they are once those with this number are closed.
pub(crate) fn progress_closed(subs: &[Sub], number: u64) -> Progress
    ensures { result ≡ progress_with nowhere (closed number (map as_live subs.now)) }
{
    let mut progress = Progress::nowhere();
    for sub in subs {
        progress = with_other(progress, sub, number);
    }
    progress
}

/// How far they are once this one is opened.
pub(crate) fn progress_opened(subs: &[Sub], sub: &Sub) -> Progress
    ensures { result ≡ progress_with nowhere (map as_live subs.now ++ as_live sub.now ∷ []) }
{
    progress_now(subs).with(sub.cursor)
}

// The place at which a call ended, once the call of this number is found to have ended at that place.
pub(crate) fn phase_with(ended: Option<(u64, u64)>, place: usize, phase: Phase) -> Phase
    ensures { as_phase result ≡ turned_phase ended place (as_phase phase) }
{
    match ended {
        Some((k, at)) if k == place as u64 => Phase::Finished { at },
        _ => phase,
    }
}

// The id, where the call is to be told.
fn push_told(ids: &mut Names, id: &Text, phase: Phase, progress: &Progress) -> Result<(), Mem>
    ensures { OnOk result (ids.new ≡ ids.old ++ told_now_by progress.now id.now (as_phase phase)) }
{
    if let Phase::Finished { at } = phase {
        if progress.is_open(at) {
            return ids.push(id.copy()?);
        }
    }
    Ok(())
}

/// The ids of the calls whose fences are open, by rising number, once the call of this number is
/// found to have ended at that place. It looks at none of the first ones, which are settled.
pub(crate) fn updated_ids(
    alloc: Global,
    methods: &[Method],
    passed: usize,
    ended: Option<(u64, u64)>,
    progress: &Progress,
) -> Result<Names, Mem>
    requires settled { are_settled passed (map as_method methods.now) ≡ true }
    requires before { IfSome ended (λ e. passed ≤ e.0) }
    ensures { IfOk result (λ ids. ids ≡ told_by progress.now ended (map as_method methods.now)) }
{
    let mut ids = Names::new(alloc);
    for place in passed..methods.len() {
        let method = &methods[place];
        let phase = phase_with(ended, place, method.phase);
        push_told(&mut ids, &method.id, phase, progress)?;
    }
    Ok(ids)
}
