//! A client's calls.
ghost use Rattle.std.specs.Prelude.{◌≡◌, ◌≤◌, [], ◌∷◌, ◌++◌, length, false, not, Some, None, is_some, option_map, option_to_list, IfOk, OnOk, if◌then◌else◌};
ghost use Rattle.std.specs.Option.{option_copied};
ghost use Rattle.std.specs.List.{list_all};
ghost use Rattle.ejson_value.specs.View.{view};
ghost use Rattle.program_steps.specs.Runs.{outcome_view};
ghost use Rattle.client_model.specs.Client.{Call as ACall};
ghost use Rattle.client_model.specs.Taking.{call_at, awaits_update, numbers_of, updated_refusal, outcome_by, number_changed, all_changed};
ghost use Rattle.client_model.specs.Taking.{with_outcome, with_update};
ghost use Rattle.client_model.specs.Asking.{outcome_in, call_limit};
ghost use Rattle.client_core.specs.Numbered.{awaits_result, number_where, new_number, AreSeen, AreUpdated};
ghost use Rattle.view_model.specs.Pending.{is_among};

use crate::numbers::number_of;
use ejson_value::{Fault, Mem, Names, Text, Value, copy};
use program_steps::Outcome;
use std::alloc::Global;
use std::collections::BTreeSet;
use std::marker::Model;

/// A call: what the server said that it came to, and whether the server said that its writes are
/// there.
#[derive(Drop)]
pub struct Call {
    outcome: Option<Outcome>,
    is_updated: bool,
}

impl Model for Call {
    ghost use Rattle.std.specs.Prelude.{option_map};
    ghost use Rattle.std.specs.Coded.{codes};
    ghost use Rattle.value_model.specs.Coding.{val_code};
    ghost use Rattle.program_steps.specs.Runs.{outcome_view};
    ghost use Rattle.client_model.specs.Client.{Call as ACall};

    ghost Value = { ACall };

    ghost coded = { Prim.hlevel (codes, val_code) };

    ghost view = { λ a. record { outcome = option_map outcome_view a.outcome; is_updated = a.is_updated } };
}

impl Call {
    /// A call that was made just now.
    pub fn new() -> Call
        ensures { result ≡ record { outcome = None; is_updated = false } }
    {
        Call {
            outcome: None,
            is_updated: false,
        }
    }

    // It came to this.
    fn set_outcome(&mut self, outcome: Outcome)
        ensures { self.new ≡ with_outcome (outcome_view outcome) self.old }
    {
        self.outcome = Some(outcome);
    }

    // Its writes are there.
    fn set_updated(&mut self)
        ensures { self.new ≡ with_update self.old }
    {
        self.is_updated = true;
    }

    /// What it came to, once the server said so and that its writes are there.
    pub fn settled(&self) -> Option<&Outcome>
        ensures { option_map outcome_view (option_copied result) ≡ outcome_in (Some self.now) }
    {
        if self.is_updated {
            self.outcome.as_ref()
        } else {
            None
        }
    }
}

/// The call of this number, the first one having 1.
pub fn call_at(calls: &[Call], number: u32) -> Option<&Call>
    ensures { option_copied result ≡ call_at calls.now number }
{
    if number == 0 {
        None
    } else {
        calls.get(number as usize - 1)
    }
}

/// Whether each call has come to its end.
pub fn are_settled(calls: &[Call]) -> bool
    ensures { result ≡ list_all (λ (call : ACall). is_some (outcome_in (Some call))) calls.now }
{
    calls.iter().all(|call| call.settled().is_some())
}

// Whether the call of this number has no result.
fn awaits_result(calls: &[Call], number: u32) -> bool
    ensures { result ≡ awaits_result (call_at calls.now number) }
{
    match call_at(calls, number) {
        None => false,
        Some(call) => call.outcome.is_none(),
    }
}

// Whether the call of this number isn't updated.
fn awaits_update(calls: &[Call], number: u32) -> bool
    ensures { result ≡ awaits_update (call_at calls.now number) }
{
    match call_at(calls, number) {
        None => false,
        Some(call) => !call.is_updated,
    }
}

/// The number of the call of this id, where it has no result.
pub fn without_result(alloc: Global, calls: &[Call], id: &Text) -> Result<Option<u32>, Mem>
    requires { length calls.now ≤ call_limit }
    ensures { IfOk result (λ number. number ≡ number_where awaits_result calls.now id.now) }
{
    match number_of(alloc, calls.len(), id)? {
        Some(number) if awaits_result(calls, number) => Ok(Some(number)),
        _ => Ok(None),
    }
}

// The number of the call of this id, where it isn't updated.
fn without_update(alloc: Global, calls: &[Call], id: &Text) -> Result<Option<u32>, Mem>
    requires { length calls.now ≤ call_limit }
    ensures { IfOk result (λ number. number ≡ number_where awaits_update calls.now id.now) }
{
    match number_of(alloc, calls.len(), id)? {
        Some(number) if awaits_update(calls, number) => Ok(Some(number)),
        _ => Ok(None),
    }
}

// What a result says that a call came to.
pub fn outcome_by(error: &Option<Fault>, value: &Option<Value>) -> Result<Outcome, Mem>
    ensures { IfOk result (λ outcome. outcome_view outcome ≡ outcome_by error.now (option_map view value.now)) }
{
    match (error, value) {
        (Some(error), _) => Ok(Outcome::Failed(error.copy()?)),
        (None, Some(value)) => Ok(Outcome::Done(Some(copy(value)?))),
        (None, None) => Ok(Outcome::Done(None)),
    }
}

/// The call of this number came to this.
pub fn finish(calls: &mut Vec<Call>, number: u32, outcome: Outcome)
    ensures { calls.new.items ≡ number_changed number (with_outcome (outcome_view outcome)) calls.old.items }
{
    if number == 0 {
        return;
    }
    if let Some(call) = calls.get_mut(number as usize - 1) {
        call.set_outcome(outcome);
    }
}

// The writes of the call of this number are there.
fn update_one(calls: &mut Vec<Call>, number: u32)
    ensures { calls.new.items ≡ number_changed number with_update calls.old.items }
{
    if number == 0 {
        return;
    }
    if let Some(call) = calls.get_mut(number as usize - 1) {
        call.set_updated();
    }
}

/// The writes of these calls are there.
pub fn update(calls: &mut Vec<Call>, numbers: &[u32])
    ensures { calls.new.items ≡ all_changed numbers.now with_update calls.old.items }
{
    for number in numbers {
        update_one(calls, *number);
    }
}

// Puts the number behind the others, unless it is among them.
fn put_number(numbers: &mut Vec<u32>, seen: &mut BTreeSet<u32>, number: u32) -> Result<bool, Mem>
    requires { AreSeen seen.old numbers.old.items }
    ensures added { IfOk result (λ is_new. is_new ≡ not (is_among numbers.old.items number)) }
    ensures put { IfOk result (λ is_new. numbers.new.items ≡ (if is_new then numbers.old.items ++ number ∷ [] else numbers.old.items)) }
    ensures seen { OnOk result (AreSeen seen.new numbers.new.items) }
{
    if !seen.insert(number)? {
        return Ok(false);
    }
    numbers.push(number)?;
    Ok(true)
}

fn put_updated(
    alloc: Global,
    calls: &[Call],
    numbers: &mut Vec<u32>,
    seen: &mut BTreeSet<u32>,
    id: &Text,
) -> Result<bool, Mem>
    requires few { length calls.now ≤ call_limit }
    requires seen { AreSeen seen.old numbers.old.items }
    ensures added { IfOk result (λ is_new. is_new ≡ is_some (new_number calls.now numbers.old.items id.now)) }
    ensures put { OnOk result (numbers.new.items ≡ numbers.old.items ++ option_to_list (new_number calls.now numbers.old.items id.now)) }
    ensures seen { OnOk result (AreSeen seen.new numbers.new.items) }
{
    match without_update(alloc, calls, id)? {
        None => Ok(false),
        Some(number) => put_number(numbers, seen, number),
    }
}

/// The numbers of the calls of these ids. There are none exactly where one of the ids is no call, or
/// is updated, or stands twice.
pub fn updated(alloc: Global, calls: &[Call], ids: &Names) -> Result<Option<Vec<u32>>, Mem>
    requires { length calls.now ≤ call_limit }
    ensures { IfOk result (λ numbers. AreUpdated calls.now ids.now (option_map (λ ns. ns.items) numbers)) }
{
    let mut numbers = Vec::new(alloc);
    let mut seen = BTreeSet::new(alloc);
    for id in ids.as_slice() {
        if !put_updated(alloc, calls, &mut numbers, &mut seen, id)? {
            return Ok(None);
        }
    }
    Ok(Some(numbers))
}
