//! Observers and their plans.
ghost use Rattle.std.specs.Prelude.{◌≡◌, ◌+◌, ◌*◌, ◌≤◌, [], map, false, length, Ok, IfOk};
ghost use Rattle.std.specs.List.{AllByRecursion, list_any};
ghost use Rattle.map_model.specs.Maps.{IsSorted};
ghost use Rattle.ejson_value.specs.Key.{key_cmp};
ghost use Rattle.ejson_value.specs.Rows.{Rows};
ghost use Rattle.ejson_value.specs.Changes.{news_of};
ghost use Rattle.live_observer.specs.Observing.{cursors_of, StandsAt, Follows, IsStep, carried, IsPlanOf, touches, is_own, IsWhole, IsWatching, IsAt};
ghost use Rattle.live_observer.specs.Observing.{HaveNoLimit};
ghost use Rattle.live_observer.specs.Answering.{AreToldBy, plan_of, carried_at, IsMoveAt};

use crate::told::{ToldBy, answer};
use crate::watched::Watched;
use ejson_value::{Change, Contents, Mem, Publishes};
use publication::{Cursor, Cursors};
use selector_match::Steps;
use sort_window::Moves;
use std::alloc::Global;
use std::marker::Model;
use std::sync::ledger::Ledger;

/// An observer of what cursors publish. It stands at contents: those that it was started at, and then
/// those that the changes whose plans were committed lead to. Without a cursor with a limit it keeps
/// no documents, and stands at any. Contracts see its cursors, each with its window.
#[derive(Drop)]
pub struct Observer {
    alloc: Global,
    watched: Vec<Watched>,
}

impl Model for Observer {
    ghost use Rattle.std.specs.Coded.{codes};
    ghost use Rattle.value_model.specs.Coding.{val_code};
    ghost use Rattle.selector_match.specs.Coding.{query_code};
    ghost use Rattle.sort_window.specs.Coding.{window_code};
    ghost use Rattle.live_observer.specs.Observing.{AnObserver, IsWhole};

    ghost Value = { AnObserver };

    ghost coded = { Prim.hlevel (codes, val_code, query_code, window_code) };

    ghost view = { λ a. a.watched.items };

    ghost invariant = { λ a. IsWhole a.watched.items };
}

/// What becomes of an observer's windows, with all the memory that it takes. Contracts see the moves
/// of each window, cursor by cursor, where there are any.
#[derive(Drop)]
pub struct Plan {
    moves: Vec<Option<Moves>>,
}

impl Model for Plan {
    ghost use Rattle.live_observer.specs.Observing.{APlan};
    ghost use Rattle.live_observer.specs.Coding.{plan_code};

    ghost Value = { APlan };

    ghost coded = { plan_code };

    ghost view = { λ a. a.moves.items };
}

impl Plan {
    fn none(alloc: Global) -> Plan
        ensures { result ≡ [] }
    {
        Plan {
            moves: Vec::new(alloc),
        }
    }

    fn of(alloc: Global, told: Vec<ToldBy>) -> Result<Plan, Mem>
        ensures { IfOk result (λ plan. plan ≡ plan_of told.items) }
    {
        let mut moves = Vec::with_capacity(alloc, told.len())?;
        for one in told {
            moves.push(one.into_moves())?;
        }
        Ok(Plan { moves })
    }
}

fn watch_all(alloc: Global, cursors: &[Cursor], all: &Contents) -> Result<Vec<Watched>, Mem>
    requires { IsSorted key_cmp all.now }
    ensures cursors { IfOk result (λ watched. cursors_of watched.items ≡ cursors.now) }
    ensures watching { IfOk result (λ watched. AllByRecursion IsWatching watched.items) }
    ensures stands { IfOk result (λ watched. StandsAt watched.items all.now) }
{
    let mut watched = Vec::new(alloc);
    for cursor in cursors {
        watched.push(Watched::start(alloc, cursor, all)?)?;
    }
    Ok(watched)
}

// Whether the change is of a document in the collection of one of the cursors.
fn touches_one(watched: &[Watched], change: &Change) -> bool
    ensures { result ≡ list_any (λ w. is_own w.cursor change.now) watched.now }
{
    watched
        .iter()
        .any(|one| one.cursor.collection == change.key.collection)
}

fn touches(watched: &[Watched], changes: &[Change]) -> bool
    ensures { result ≡ touches watched.now changes.now }
{
    changes.iter().any(|change| touches_one(watched, change))
}

// Carries out what becomes of the window at this place.
fn commit_at(watched: &mut Vec<Watched>, place: usize, moves: Option<Moves>)
    requires { IsMoveAt watched.old.items place moves }
    ensures { watched.new.items ≡ carried_at watched.old.items place moves }
{
    if let Some(one) = watched.get_mut(place) {
        one.commit(moves);
    }
}

fn commit_all(watched: &mut Vec<Watched>, mut moves: Vec<Option<Moves>>)
    requires { IsPlanOf watched.old.items moves.items }
    ensures { watched.new.items ≡ carried watched.old.items moves.items }
{
    while let Some(last) = moves.pop() {
        commit_at(watched, moves.len(), last);
    }
}

impl Observer {
    /// An observer of the cursors that stands at the contents. It keeps the documents that match a
    /// cursor with a limit, and looks at no document for one without.
    pub fn start(alloc: Global, cursors: Cursors, all: &Contents) -> Result<Observer, Mem>
        ensures cursors { IfOk result (λ observer. cursors_of observer ≡ cursors) }
        ensures stands { IfOk result (λ observer. StandsAt observer all.now) }
    {
        all.known();
        let watched = watch_all(alloc, cursors.as_slice(), all)?;
        Ok(Observer { alloc, watched })
    }

    // What each cursor tells of the changes.
    fn told<L: Ledger>(&self, changes: &[Change], steps: &mut Steps<L>) -> Result<Vec<ToldBy>, Mem>
        ensures told { IfOk result (λ told. AreToldBy self.now changes.now told.items) }
        ensures grows { steps.old ≤ steps.new }
        ensures ticks { steps.new ≤ steps.old + length self.now * (2 * length changes.now) }
    {
        let mut told = Vec::with_capacity(self.alloc, self.watched.len())?;
        for one in &self.watched {
            let tells = one.told(self.alloc, changes, steps)?;
            told.push(tells)?;
        }
        Ok(told)
    }

    fn step_all<L: Ledger>(
        &self,
        changes: &[Change],
        steps: &mut Steps<L>,
    ) -> Result<(Publishes, Plan), Mem>
        ensures follows { IfOk result (λ both. (rows rows' : Rows) → Follows self.now changes.now rows rows' →
            IsStep self.now rows rows' (news_of both.0) both.1) }
        ensures plan { IfOk result (λ both. IsPlanOf self.now both.1) }
        ensures grows { steps.old ≤ steps.new }
        ensures ticks { steps.new ≤ steps.old + length self.now * (2 * length changes.now) }
    {
        let told = self.told(changes, steps)?;
        let answer = answer(self.alloc, told.as_slice())?;
        let plan = Plan::of(self.alloc, told)?;
        Ok((answer, plan))
    }

    /// What becomes of the published documents as the changes lead on from the contents where the
    /// observer stands: each key at which something else is published then, with the document or none,
    /// and the plan that leads the observer there. A key may stand in several of the changes. It looks
    /// at most at the two documents of each change for each cursor, and where no change is of a
    /// document in a cursor's collection it takes no memory. The observer stays as it is.
    pub fn step<L: Ledger>(
        &self,
        changes: &[Change],
        steps: &mut Steps<L>,
    ) -> Result<(Publishes, Plan), Mem>
        ensures follows { IfOk result (λ both. (rows rows' : Rows) → Follows self.now changes.now rows rows' →
            IsStep self.now rows rows' (news_of both.0) both.1) }
        ensures plan { IfOk result (λ both. IsPlanOf self.now both.1) }
        ensures elsewhere { touches self.now changes.now ≡ false → result ≡ Ok ([], []) }
        ensures grows { steps.old ≤ steps.new }
        ensures ticks { steps.new ≤ steps.old + length self.now * (2 * length changes.now) }
    {
        if touches(self.watched.as_slice(), changes) {
            self.step_all(changes, steps)
        } else {
            Ok((Publishes::new(self.alloc), Plan::none(self.alloc)))
        }
    }

    /// Carries out the plan, which is of this observer as it stands. It takes no memory.
    pub fn commit(&mut self, plan: Plan)
        requires { IsPlanOf self.old plan }
        ensures carried { self.new ≡ carried self.old plan }
        ensures cursors { cursors_of self.new ≡ cursors_of self.old }
    {
        let Plan { moves } = plan;
        commit_all(&mut self.watched, moves);
    }

    /// Tells a proof that an observer none of whose cursors has a limit stands at any contents; it does
    /// nothing.
    pub fn stands_anywhere(&self)
        ensures { HaveNoLimit (cursors_of self.now) → (rows : Rows) → StandsAt self.now rows }
    {
        let _ = &self.watched;
    }
}
