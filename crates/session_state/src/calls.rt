//! Calls of methods.
ghost use Rattle.std.specs.Prelude.{◌≡◌, map, true, option_map, option_to_list};
ghost use Rattle.session_model.specs.Methods.{phase_at, id_at, turned};
ghost use Rattle.session_state.specs.Calls.{as_phase, as_method, fired_by, fire_at, fire_by, is_refused, has_refused, is_settled, are_settled};

use crate::progress::Progress;
use ejson_value::Text;

/// How far a call is (Meteor's DDP.md, "Remote procedure calls").
#[derive(Clone, Copy, Debug, PartialEq, Eq)]
pub enum Phase {
    Running,
    /// The history had no room for it.
    Refused,
    /// Its run had ended when the history had so many entries. It waits for the documents.
    Finished { at: u64 },
    /// It was told to be `updated`.
    Told { at: u64 },
}

/// A call. Its number is its place among the session's calls.
#[derive(Drop)]
pub struct Method {
    pub id: Text,
    pub phase: Phase,
}

/// How far the call of this number is.
pub fn phase_at(methods: &[Method], k: u64) -> Option<Phase>
    ensures { option_map as_phase result ≡ phase_at k (map as_method methods.now) }
{
    let method = methods.get(k as usize)?;
    Some(method.phase)
}

/// The id of the call of this number.
pub fn id_at(methods: &[Method], k: u64) -> Option<&Text>
    ensures { option_to_list (option_map (λ t. t.now) result) ≡ id_at k (map as_method methods.now) }
{
    let method = methods.get(k as usize)?;
    Some(&method.id)
}

fn is_refused(phase: Phase) -> bool
    ensures { result ≡ is_refused (as_phase phase) }
{
    phase == Phase::Refused
}

/// Whether the history had no room for some call.
pub(crate) fn has_refused(methods: &[Method]) -> bool
    ensures { result ≡ has_refused (map as_method methods.now) }
{
    for method in methods {
        if is_refused(method.phase) {
            return true;
        }
    }
    false
}

/// The call of this number is so far from now on.
pub(crate) fn turn(methods: &mut Vec<Method>, k: u64, phase: Phase)
    ensures { map as_method methods.new.items ≡ turned k (as_phase phase) (map as_method methods.old.items) }
{
    if let Some(method) = methods.get_mut(k as usize) {
        method.phase = phase;
    }
}

// A finished call whose fence is open is told.
pub(crate) fn fired(phase: Phase, progress: &Progress) -> Phase
    ensures { as_phase result ≡ fired_by progress.now (as_phase phase) }
{
    match phase {
        Phase::Finished { at } => {
            if progress.is_open(at) {
                Phase::Told { at }
            } else {
                Phase::Finished { at }
            }
        }
        other => other,
    }
}

fn fire_at(methods: &mut Vec<Method>, place: usize, progress: &Progress)
    ensures { map as_method methods.new.items ≡ fire_at progress.now place (map as_method methods.old.items) }
{
    if let Some(method) = methods.get_mut(place) {
        method.phase = fired(method.phase, progress);
    }
}

/// Each finished call whose fence is open is told from now on. It looks at none of the first ones
/// that are settled.
pub(crate) fn fire(methods: &mut Vec<Method>, settled: usize, progress: &Progress)
    requires { are_settled settled (map as_method methods.old.items) ≡ true }
    ensures fired { map as_method methods.new.items ≡ fire_by progress.now (map as_method methods.old.items) }
    ensures settled { are_settled settled (map as_method methods.new.items) ≡ true }
{
    for place in settled..methods.len() {
        fire_at(methods, place, progress);
    }
}

// Nothing more becomes of it.
fn is_settled(phase: Phase) -> bool
    ensures { result ≡ is_settled (as_phase phase) }
{
    match phase {
        Phase::Running | Phase::Finished { .. } => false,
        Phase::Refused | Phase::Told { .. } => true,
    }
}

/// How many calls are known to be settled, so many having been known before.
pub(crate) fn more_settled(methods: &[Method], settled: usize) -> usize
    requires { are_settled settled (map as_method methods.now) ≡ true }
    ensures { are_settled result (map as_method methods.now) ≡ true }
{
    for place in settled..methods.len() {
        if !is_settled(methods[place].phase) {
            return place;
        }
    }
    methods.len()
}
