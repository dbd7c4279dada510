//! Windows and their moves.
ghost use Rattle.std.specs.Prelude.{◌≡◌, ℕ, List, Option, ◌∷◌, ◌++◌, false, OnOk, ◌+◌, ◌-◌, ◌<◌, ◌≤◌, [], length, map, count_by, nat_lt, option_map};
ghost use Rattle.std.specs.Prelude.{vec_len, vec_capacity, Some, None, IfOk, if◌then◌else◌};
ghost use Rattle.std.specs.List.{list_any};
ghost use Rattle.value_model.specs.Size.{is_name};
ghost use Rattle.map_model.specs.Maps.{at};
ghost use Rattle.map_model.specs.Changes.{Change, changed, Fit};
ghost use Rattle.sort_window.specs.declared.rows.Row.{Row};
ghost use Rattle.value_model.specs.Order.{text_cmp};
ghost use Rattle.sort_window.specs.Inside.{stands_before, AreInOrder};
ghost use Rattle.sort_window.specs.Drafts.{AreRowsOf, AreDrafted};
ghost use Rattle.sort_window.specs.Shown.{IsTold};
ghost use Rattle.sort_window.specs.Telling.{IsDraftOf, seen, IsQuiet, IsToldMore, AreTold, RowsAreTold};
ghost use Rattle.sort_window.specs.Windows.{before, after, change_to, rows_after, AreMovesOf, IsPlan};

use crate::changes::{RowChange, carry_all};
use crate::draft::Draft;
use crate::held::Held;
use crate::lists::{contains, find, place};
use crate::rows::{Row, Rows, ShownList};
use crate::told::{Told, listed, tell};
use ejson_value::{Doc, Mem, SortKeys, Text};
use std::alloc::Global;
use std::collections::BTreeMap;
use std::marker::Model;

/// A window: all rows that match, kept in the order of the sort keys, of which the first `limit` are
/// shown. Contracts see the sort keys, the limit and the rows by id.
#[derive(Drop)]
pub struct Window {
    alloc: Global,
    sort: SortKeys,
    limit: u32,
    by_id: Vec<Held>,
    in_order: Vec<Held>,
}

impl Model for Window {
    ghost use Rattle.sort_window.specs.Windows.{WindowState};
    ghost use Rattle.sort_window.specs.Coding.{window_code};
    ghost use Rattle.sort_window.specs.Inside.{IsInside};

    ghost Value = { WindowState };

    ghost coded = { window_code };

    ghost view = { λ a. record { sort = a.sort; limit = a.limit; rows = a.by_id.items } };

    ghost invariant = { λ a. IsInside a.sort a.by_id.items a.in_order.items };
}

/// What a window's rows become, with all the memory that it takes, and what readers see of it.
/// Contracts see the changes by id, for how many rows there is room, and what readers are told.
#[derive(Drop)]
pub struct Moves {
    changes: Vec<RowChange>,
    // Empty lists with room for all rows.
    by_id: Vec<Held>,
    in_order: Vec<Held>,
    shown: ShownList,
}

impl Model for Moves {
    ghost use Rattle.std.specs.Prelude.{◌≡◌, [], map, min, vec_capacity};
    ghost use Rattle.sort_window.specs.Windows.{MovesState};
    ghost use Rattle.sort_window.specs.Coding.{moves_code};

    ghost Value = { MovesState };

    ghost coded = { moves_code };

    ghost view = { λ a. record {
      changes = a.changes.items;
      room = min (vec_capacity a.by_id) (vec_capacity a.in_order);
      told = map (λ one. (one.id, one.doc)) a.shown;
    } };

    ghost invariant = { λ a. (a.by_id.items ≡ []) × (a.in_order.items ≡ []) };
}

// The rows, moved to where there is room for them.
fn moved(mut room: Vec<Held>, rows: &mut Vec<Held>) -> Vec<Held>
    requires empty { room.items ≡ [] }
    requires room { vec_len rows.old ≤ vec_capacity room }
    ensures items { result.items ≡ rows.old.items }
    ensures len { vec_len result ≡ vec_len rows.old }
    ensures capacity { vec_capacity room ≤ vec_capacity result }
{
    let _ = room.append(rows);
    room
}

impl Moves {
    /// What readers see now at each id at which they see something else than before, by id.
    pub fn shown(&self) -> &ShownList
        ensures { map (λ one. (one.id, one.doc)) result.now ≡ self.now.told }
    {
        &self.shown
    }
}

impl Window {
    /// A window of no rows.
    pub fn new(alloc: Global, sort: SortKeys, limit: u32) -> Window
        ensures { result ≡ record { sort = sort; limit = limit; rows = [] } }
    {
        Window {
            alloc,
            sort,
            limit,
            by_id: Vec::new(alloc),
            in_order: Vec::new(alloc),
        }
    }

    // What becomes of the row at one id.
    fn change(&self, id: &Text, row: &Option<Row>) -> Result<RowChange, Mem>
        ensures { IfOk result (λ change. change ≡ change_to self.now.rows (id.now, row.now)) }
    {
        RowChange::of(self.alloc, id, row, find(self.by_id.as_slice(), id))
    }

    // Drafts what becomes of the row at one more id.
    fn draft_one(&self, draft: &mut Draft, id: &Text, row: &Option<Row>) -> Result<(), Mem>
        requires drafted { AreDrafted self.now.sort draft.old.changes.items draft.old.going.items draft.old.coming.items }
        requires new { list_any (λ other. is_name id.now other.key) draft.old.changes.items ≡ false }
        ensures changes { OnOk result (draft.new.changes.items ≡ draft.old.changes.items ++ (change_to self.now.rows (id.now, row.now)) ∷ []) }
        ensures drafted { OnOk result (AreDrafted self.now.sort draft.new.changes.items draft.new.going.items draft.new.coming.items) }
    {
        let change = self.change(id, row)?;
        draft.add(&self.sort, change)
    }

    fn draft(&self, news: &Rows) -> Result<Draft, Mem>
        ensures changes { IfOk result (λ draft. draft.changes.items ≡ map {B = Change (List ℕ) Row} (λ one. change_to self.now.rows one) news.now) }
        ensures drafted { IfOk result (λ draft. IsDraftOf self.now draft.changes.items draft.going.items draft.coming.items) }
    {
        let mut draft = Draft::new(self.alloc);
        for (id, row) in news.iter() {
            self.draft_one(&mut draft, id, row)?;
        }
        Ok(draft)
    }

    // How many of the rows in order stand before this one.
    fn rank(&self, rows: &[Held], held: &Held) -> usize
        requires { AreInOrder self.now.sort rows.now }
        ensures { result ≡ count_by (stands_before self.now.sort held.now.0 held.now.1.whole) rows.now }
    {
        place(&self.sort, rows, held.id(), held.whole())
    }

    // How many rows will stand before this one.
    fn rank_after(&self, draft: &Draft, held: &Held) -> usize
        requires { IsDraftOf self.now draft.now.changes.items draft.now.going.items draft.now.coming.items }
        ensures { result ≡ count_by (stands_before self.now.sort held.now.0 held.now.1.whole) (changed text_cmp self.now.rows draft.now.changes.items) }
    {
        let stand = self.rank(self.in_order.as_slice(), held);
        let come = self.rank(draft.coming.as_slice(), held);
        let go = self.rank(draft.going.as_slice(), held);
        (stand + come).saturating_sub(go)
    }

    // The document as readers see it, where this many rows stand before it.
    fn seen<'a>(&self, rank: usize, held: &'a Held) -> Option<&'a Doc>
        ensures { option_map (λ doc. doc.now) result ≡ (if nat_lt rank self.now.limit then Some held.now.1.projected else None) }
    {
        if rank < self.limit as usize {
            Some(held.projected())
        } else {
            None
        }
    }

    // The row as readers see it.
    fn seen_before<'a>(&self, held: Option<&'a Held>) -> Option<&'a Doc>
        ensures { option_map (λ doc. doc.now) result ≡ seen self.now.sort self.now.limit self.now.rows (option_map (λ held. held.now) held.entry) }
    {
        match held {
            None => None,
            Some(held) => self.seen(self.rank(self.in_order.as_slice(), held), held),
        }
    }

    // The row as readers will see it.
    fn seen_after<'a>(&self, draft: &Draft, held: Option<&'a Held>) -> Option<&'a Doc>
        requires { IsDraftOf self.now draft.now.changes.items draft.now.going.items draft.now.coming.items }
        ensures { option_map (λ doc. doc.now) result ≡
            seen self.now.sort self.now.limit (changed text_cmp self.now.rows draft.now.changes.items) (option_map (λ held. held.now) held.entry) }
    {
        match held {
            None => None,
            Some(held) => self.seen(self.rank_after(draft, held), held),
        }
    }

    // Tells of the id of a change.
    fn tell_change(&self, told: &mut Told, draft: &Draft, change: &RowChange) -> Result<(), Mem>
        requires drafted { IsDraftOf self.now draft.now.changes.items draft.now.going.items draft.now.coming.items }
        requires stands { at text_cmp self.now.rows change.now.key ≡ change.now.before }
        requires ends { at text_cmp (changed text_cmp self.now.rows draft.now.changes.items) change.now.key ≡ change.now.after }
        ensures more { OnOk result (IsToldMore (before self.now) (after self.now draft.now.changes.items) told.old.entries told.new.entries) }
        ensures here { OnOk result (IsQuiet (before self.now) (after self.now draft.now.changes.items) told.new.entries change.now.key) }
    {
        tell(
            told,
            change.id(),
            self.seen_before(change.before()),
            self.seen_after(draft, change.after()),
        )
    }

    fn tell_changes(&self, told: &mut Told, draft: &Draft) -> Result<(), Mem>
        requires { IsDraftOf self.now draft.now.changes.items draft.now.going.items draft.now.coming.items }
        ensures more { OnOk result (IsToldMore (before self.now) (after self.now draft.now.changes.items) told.old.entries told.new.entries) }
        ensures all { OnOk result (AreTold (before self.now) (after self.now draft.now.changes.items) told.new.entries draft.now.changes.items) }
    {
        for change in &draft.changes {
            self.tell_change(told, draft, change)?;
        }
        Ok(())
    }

    // Tells of a row that stays.
    fn tell_held(&self, told: &mut Told, draft: &Draft, held: &Held) -> Result<(), Mem>
        requires drafted { IsDraftOf self.now draft.now.changes.items draft.now.going.items draft.now.coming.items }
        requires stands { at text_cmp self.now.rows held.now.0 ≡ Some held.now.1 }
        requires stays { at text_cmp (changed text_cmp self.now.rows draft.now.changes.items) held.now.0 ≡ Some held.now.1 }
        ensures more { OnOk result (IsToldMore (before self.now) (after self.now draft.now.changes.items) told.old.entries told.new.entries) }
        ensures here { OnOk result (IsQuiet (before self.now) (after self.now draft.now.changes.items) told.new.entries held.now.0) }
    {
        tell(
            told,
            held.id(),
            self.seen_before(Some(held)),
            self.seen_after(draft, Some(held)),
        )
    }

    // Tells of a row, whose id is told of already if it is that of a change.
    fn tell_row(&self, told: &mut Told, draft: &Draft, held: &Held) -> Result<(), Mem>
        requires drafted { IsDraftOf self.now draft.now.changes.items draft.now.going.items draft.now.coming.items }
        requires stands { at text_cmp self.now.rows held.now.0 ≡ Some held.now.1 }
        requires all { AreTold (before self.now) (after self.now draft.now.changes.items) told.old.entries draft.now.changes.items }
        ensures more { OnOk result (IsToldMore (before self.now) (after self.now draft.now.changes.items) told.old.entries told.new.entries) }
        ensures here { OnOk result (IsQuiet (before self.now) (after self.now draft.now.changes.items) told.new.entries held.now.0) }
    {
        if contains(&self.sort, draft.going.as_slice(), held) {
            return Ok(());
        }
        self.tell_held(told, draft, held)
    }

    fn tell_rows(&self, told: &mut Told, draft: &Draft, rows: &[Held]) -> Result<(), Mem>
        requires drafted { IsDraftOf self.now draft.now.changes.items draft.now.going.items draft.now.coming.items }
        requires rows { AreRowsOf self.now.rows rows.now }
        requires all { AreTold (before self.now) (after self.now draft.now.changes.items) told.old.entries draft.now.changes.items }
        ensures more { OnOk result (IsToldMore (before self.now) (after self.now draft.now.changes.items) told.old.entries told.new.entries) }
        ensures here { OnOk result (RowsAreTold (before self.now) (after self.now draft.now.changes.items) told.new.entries rows.now) }
    {
        for held in rows {
            self.tell_row(told, draft, held)?;
        }
        Ok(())
    }

    // A row that stays comes into view or leaves it only where it stands this near to the limit.
    fn tell_crossing(&self, told: &mut Told, draft: &Draft) -> Result<(), Mem>
        requires drafted { IsDraftOf self.now draft.now.changes.items draft.now.going.items draft.now.coming.items }
        requires all { AreTold (before self.now) (after self.now draft.now.changes.items) told.old.entries draft.now.changes.items }
        ensures more { OnOk result (IsToldMore (before self.now) (after self.now draft.now.changes.items) told.old.entries told.new.entries) }
        ensures rows { OnOk result ((id : List ℕ) (row : Row) → at text_cmp self.now.rows id ≡ Some row →
            at text_cmp (changed text_cmp self.now.rows draft.now.changes.items) id ≡ Some row →
            IsQuiet (before self.now) (after self.now draft.now.changes.items) told.new.entries id) }
    {
        let limit = self.limit as usize;
        let count = draft.changes.len();
        let end = self.in_order.len().min(limit.saturating_add(count));
        let start = limit.saturating_sub(count).min(end);
        self.tell_rows(told, draft, &self.in_order[start..end])
    }

    // What readers are told once the rows have changed.
    fn told(&self, draft: &Draft) -> Result<ShownList, Mem>
        requires { IsDraftOf self.now draft.now.changes.items draft.now.going.items draft.now.coming.items }
        ensures { IfOk result (λ shown. IsTold (before self.now) (after self.now draft.now.changes.items) (map (λ one. (one.id, one.doc)) shown)) }
    {
        let mut told = BTreeMap::new(self.alloc);
        self.tell_changes(&mut told, draft)?;
        self.tell_crossing(&mut told, draft)?;
        listed(self.alloc, told)
    }

    // An empty list with room for this many more rows than there are.
    fn room(&self, count: usize) -> Result<Vec<Held>, Mem>
        ensures empty { IfOk result (λ room. room.items ≡ []) }
        ensures room { IfOk result (λ room. length self.now.rows + count ≤ vec_capacity room) }
    {
        match self.by_id.len().checked_add(count) {
            None => Err(Mem),
            Some(room) => Ok(Vec::with_capacity(self.alloc, room)?),
        }
    }

    /// Plans what the rows become where this is what there is at these ids now. The window stays as
    /// it is.
    pub fn plan(&self, news: &Rows) -> Result<Moves, Mem>
        ensures { IfOk result (λ moves. IsPlan self.now news.now moves) }
    {
        let draft = self.draft(news)?;
        let shown = self.told(&draft)?;
        let count = draft.changes.len();
        let by_id = self.room(count)?;
        let in_order = self.room(count)?;
        let Draft {
            changes,
            going,
            coming,
        } = draft;
        drop(going);
        drop(coming);
        Ok(Moves {
            changes,
            by_id,
            in_order,
            shown,
        })
    }

    /// Carries out the moves, which are of this window as it stands. It takes no memory.
    pub fn commit(&mut self, moves: Moves)
        requires { AreMovesOf self.old moves }
        ensures { self.new ≡ record self.old { rows = rows_after self.old moves } }
    {
        let Moves {
            changes,
            by_id,
            in_order,
            shown,
        } = moves;
        drop(shown);
        let mut by_id = moved(by_id, &mut self.by_id);
        let mut in_order = moved(in_order, &mut self.in_order);
        carry_all(&self.sort, &mut by_id, &mut in_order, changes);
        self.by_id = by_id;
        self.in_order = in_order;
    }
}
