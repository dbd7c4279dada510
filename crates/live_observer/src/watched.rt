//! Cursors that are watched, each with its window.
ghost use Rattle.std.specs.Prelude.{◌≡◌, ◌+◌, ◌*◌, ◌≤◌, length, None, Some, IfOk};
ghost use Rattle.map_model.specs.Maps.{IsSorted};
ghost use Rattle.ejson_value.specs.Key.{key_cmp};
ghost use Rattle.live_observer.specs.Observing.{IsAt, IsWatching, IsMoveOf, carried_one};
ghost use Rattle.live_observer.specs.Answering.{IsToldBy};

use crate::plain::told_plain;
use crate::told::ToldBy;
use crate::window::{filled, moves};
use ejson_value::{Change, Contents, Mem};
use publication::Cursor;
use selector_match::Steps;
use sort_window::{Moves, Window};
use std::alloc::Global;
use std::sync::ledger::Ledger;

/// A cursor, with a window of the documents that match where it has a limit.
#[derive(Drop)]
pub(crate) struct Watched {
    pub(crate) cursor: Cursor,
    pub(crate) window: Option<Window>,
}

// The window that the cursor needs, if any: one without a limit needs none, and looks at nothing.
fn window(alloc: Global, cursor: &Cursor, all: &Contents) -> Result<Option<Window>, Mem>
    requires { IsSorted key_cmp all.now }
    ensures watching { IfOk result (λ window. IsWatching (record { cursor = cursor.now; window = window })) }
    ensures stands { IfOk result (λ window. IsAt all.now (record { cursor = cursor.now; window = window })) }
{
    match cursor.limit {
        None => Ok(None),
        Some(limit) => Ok(Some(filled(alloc, cursor, limit, all)?)),
    }
}

impl Watched {
    pub(crate) fn start(alloc: Global, cursor: &Cursor, all: &Contents) -> Result<Watched, Mem>
        requires { IsSorted key_cmp all.now }
        ensures cursor { IfOk result (λ watched. watched.cursor ≡ cursor.now) }
        ensures watching { IfOk result IsWatching }
        ensures stands { IfOk result (IsAt all.now) }
    {
        let window = window(alloc, cursor, all)?;
        Ok(Watched {
            cursor: cursor.copy()?,
            window,
        })
    }

    // What a cursor without a limit tells of the changes.
    fn told_plain<L: Ledger>(
        &self,
        alloc: Global,
        changes: &[Change],
        steps: &mut Steps<L>,
    ) -> Result<ToldBy, Mem>
        requires watching { IsWatching self.now }
        requires plain { self.now.window ≡ None }
        ensures told { IfOk result (IsToldBy self.now changes.now) }
        ensures grows { steps.old ≤ steps.new }
        ensures ticks { steps.new ≤ steps.old + 2 * length changes.now }
    {
        let name = self.cursor.name.copy()?;
        let shown = told_plain(alloc, &self.cursor, changes, steps)?;
        Ok(ToldBy::plain(name, shown))
    }

    // What a cursor with a limit tells of the changes, by its window.
    fn told_window<L: Ledger>(
        &self,
        alloc: Global,
        window: &Window,
        changes: &[Change],
        steps: &mut Steps<L>,
    ) -> Result<ToldBy, Mem>
        requires watching { IsWatching self.now }
        requires window { self.now.window ≡ Some window.now }
        ensures told { IfOk result (IsToldBy self.now changes.now) }
        ensures grows { steps.old ≤ steps.new }
        ensures ticks { steps.new ≤ steps.old + 2 * length changes.now }
    {
        let name = self.cursor.name.copy()?;
        let moves = moves(alloc, window, &self.cursor, changes, steps)?;
        Ok(ToldBy::window(alloc, name, moves))
    }

    /// What the cursor tells of the changes, and what becomes of its window.
    pub(crate) fn told<L: Ledger>(
        &self,
        alloc: Global,
        changes: &[Change],
        steps: &mut Steps<L>,
    ) -> Result<ToldBy, Mem>
        requires { IsWatching self.now }
        ensures told { IfOk result (IsToldBy self.now changes.now) }
        ensures grows { steps.old ≤ steps.new }
        ensures ticks { steps.new ≤ steps.old + 2 * length changes.now }
    {
        match &self.window {
            None => self.told_plain(alloc, changes, steps),
            Some(window) => self.told_window(alloc, window, changes, steps),
        }
    }

    /// Carries out what becomes of the window.
    pub(crate) fn commit(&mut self, moves: Option<Moves>)
        requires { IsMoveOf self.old moves }
        ensures { self.new ≡ carried_one self.old moves }
    {
        let Some(moves) = moves else { return };
        if let Some(window) = &mut self.window {
            window.commit(moves);
        }
    }
}
