//! A client's subscriptions.
ghost use Rattle.std.specs.Prelude.{◌≡◌, ℕ, List, [], true, false, None, Some, IfOk, OnOk, OnErr};
ghost use Rattle.std.specs.List.{list_any};
ghost use Rattle.map_model.specs.Maps.{at, set, IsSorted};
ghost use Rattle.value_model.specs.Order.{text_cmp};
ghost use Rattle.client_model.specs.declared.subs.SubState.TheVariants as state;
ghost use Rattle.client_model.specs.Client.{Sub as ASub};
ghost use Rattle.client_model.specs.Taking.{turned, ended_by, readied};
ghost use Rattle.client_model.specs.Asking.{is_going_on, is_live, is_running, is_waiting, stopped};

use client_model::subs::SubState;
use ejson_value::{Fault, Mem, Names, Text};
use std::alloc::Global;
use std::collections::BTreeMap;
use std::collections::btree_map::Iter;
use std::marker::Model;

/// A subscription, and whether its `unsub` was queued since its `sub`.
#[derive(Drop)]
pub struct Sub {
    pub(crate) state: SubState,
    pub(crate) is_stopped: bool,
}

impl Model for Sub {
    ghost use Rattle.std.specs.Coded.{codes};
    ghost use Rattle.client_model.specs.Client.{Sub as ASub};

    ghost Value = { ASub };

    ghost coded = { Prim.hlevel codes };

    ghost view = { λ a. record { state = a.state; is_stopped = a.is_stopped } };
}

/// A client's subscriptions by id. A contract sees them by rising id.
#[derive(Drop)]
pub struct Subs {
    subs: BTreeMap<Text, Sub>,
}

impl Model for Subs {
    ghost use Rattle.std.specs.Coded.{codes};
    ghost use Rattle.map_model.specs.Maps.{IsSorted};
    ghost use Rattle.value_model.specs.Order.{text_cmp};
    ghost use Rattle.client_model.specs.Client.{Subs as TheSubs};

    ghost Value = { TheSubs };

    ghost coded = { Prim.hlevel codes };

    ghost view = { λ a. a.subs.entries };

    ghost invariant = { λ a. IsSorted text_cmp a.subs.entries };
}

fn is_going_on(state: &SubState) -> bool
    ensures { result ≡ is_going_on state.now }
{
    match state {
        SubState::Waiting | SubState::Ready => true,
        SubState::Ended | SubState::Refused { .. } => false,
    }
}

fn is_waiting(state: &SubState) -> bool
    ensures { result ≡ is_waiting state.now }
{
    match state {
        SubState::Waiting => true,
        SubState::Ready | SubState::Ended | SubState::Refused { .. } => false,
    }
}

/// How a subscription is over.
pub fn ended_by(error: &Option<Fault>) -> Result<SubState, Mem>
    ensures { IfOk result (λ state. state ≡ ended_by error.now) }
{
    match error {
        Some(error) => {
            let code = error.code.copy()?;
            Ok(SubState::Refused { code })
        }
        None => Ok(SubState::Ended),
    }
}

impl Sub {
    // It is in this state now.
    fn turn(&mut self, next: SubState)
        ensures { self.new ≡ record self.old { state = next } }
    {
        self.state = next;
    }

    // Its `unsub` was queued.
    fn stop(&mut self)
        ensures { self.new ≡ record self.old { is_stopped = true } }
    {
        self.is_stopped = true;
    }
}

impl Subs {
    pub fn new(alloc: Global) -> Subs
        ensures { result ≡ [] }
    {
        Subs {
            subs: BTreeMap::new(alloc),
        }
    }

    /// Whether the subscription of this id waits or is ready.
    pub fn is_live(&self, id: &Text) -> bool
        ensures { result ≡ is_live (at text_cmp self.now id.now) }
    {
        match self.subs.get(id) {
            None => false,
            Some(sub) => is_going_on(&sub.state),
        }
    }

    /// Whether it does, and its `unsub` wasn't queued.
    pub fn is_running(&self, id: &Text) -> bool
        ensures { result ≡ is_running (at text_cmp self.now id.now) }
    {
        match self.subs.get(id) {
            None => false,
            Some(sub) => is_going_on(&sub.state) && !sub.is_stopped,
        }
    }

    /// The subscription of this id waits.
    pub fn ask(&mut self, id: Text) -> Result<(), Mem>
        ensures ok { OnOk result (self.new ≡ set text_cmp self.old id (Some (record { state = state.Waiting; is_stopped = false }))) }
        ensures err { OnErr result (self.new ≡ self.old) }
    {
        drop(
            self.subs.insert(
                id,
                Sub {
                    state: SubState::Waiting,
                    is_stopped: false,
                },
            )?,
        );
        Ok(())
    }

    /// The `unsub` of this id was queued.
    pub fn stop(&mut self, id: &Text)
        ensures { self.new ≡ set text_cmp self.old id.now (stopped (at text_cmp self.old id.now)) }
    {
        if let Some(sub) = self.subs.get_mut(id) {
            sub.stop();
        }
    }

    /// The subscription of this id, if there is one, is in this state now.
    pub fn turn(&mut self, id: &Text, state: SubState)
        ensures { self.new ≡ turned state id.now self.old }
    {
        if let Some(sub) = self.subs.get_mut(id) {
            sub.turn(state);
        }
    }

    /// The subscriptions of these ids are ready.
    pub fn turn_ready(&mut self, ids: &Names)
        ensures { self.new ≡ readied ids.now self.old }
    {
        for id in ids.as_slice() {
            self.turn(id, SubState::Ready);
        }
    }

    /// Whether some subscription waits.
    pub fn some_waits(&self) -> bool
        ensures { result ≡ list_any (λ (entry : List ℕ × ASub). is_waiting entry.1.state) self.now }
    {
        self.subs.iter().any(|(_, sub)| is_waiting(&sub.state))
    }

    /// The subscriptions by rising id.
    pub fn iter(&self) -> Iter<'_, Text, Sub>
        ensures { result ≡ self.now }
    {
        self.subs.iter()
    }
}
