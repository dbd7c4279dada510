//! What becomes of a single row, carried out in both lists of a window.
ghost use Rattle.std.specs.Prelude.{◌≡◌, ◌+◌, ◌<◌, ◌≤◌, Some, None, option_map, IfSome, IfOk, length, vec_len, vec_capacity};
ghost use Rattle.map_model.specs.Maps.{at, set};
ghost use Rattle.map_model.specs.Changes.{changed, Fit};
ghost use Rattle.value_model.specs.Order.{text_cmp};
ghost use Rattle.sort_window.specs.Inside.{IsInside};

use crate::held::Held;
use crate::lists::{put_by_id, put_in_order, take_by_id, take_in_order};
use crate::rows::Row;
use ejson_value::{Mem, SortKeys, Text};
use std::alloc::Global;
use std::marker::Model;

/// A row twice, once for each list.
#[derive(Drop)]
pub(crate) struct Both {
    by_id: Held,
    in_order: Held,
}

impl Model for Both {
    ghost use Rattle.std.specs.Prelude.{◌≡◌, List, ℕ};
    ghost use Rattle.sort_window.specs.declared.rows.Row.{Row};
    ghost use Rattle.sort_window.specs.Coding.{held_code};

    ghost Value = { List ℕ × Row };

    ghost coded = { held_code };

    ghost view = { λ a. a.by_id };

    ghost invariant = { λ a. a.in_order ≡ a.by_id };
}

/// What becomes of the row at an id. A contract sees the id, the row that stands there and the one
/// that will.
#[derive(Drop)]
pub(crate) struct RowChange {
    id: Text,
    before: Option<Held>,
    after: Option<Both>,
}

impl Model for RowChange {
    ghost use Rattle.std.specs.Prelude.{◌≡◌, List, ℕ, option_map, IfSome};
    ghost use Rattle.map_model.specs.Changes.{Change};
    ghost use Rattle.sort_window.specs.declared.rows.Row.{Row};
    ghost use Rattle.sort_window.specs.Coding.{change_code};

    ghost Value = { Change (List ℕ) Row };

    ghost coded = { change_code };

    ghost view = { λ a. record { key = a.id; before = option_map (λ held. held.1) a.before; after = option_map (λ both. both.1) a.after } };

    ghost invariant = { λ a. IfSome a.before (λ held. held.0 ≡ a.id) × IfSome a.after (λ both. both.0 ≡ a.id) };
}

// The row, if there is one, twice.
fn twice(alloc: Global, id: &Text, row: &Option<Row>) -> Result<Option<Both>, Mem>
    ensures value { IfOk result (λ after. option_map (λ both. both.1) after ≡ row.now) }
    ensures same_id { IfOk result (λ after. IfSome after (λ both. both.0 ≡ id.now)) }
{
    match row {
        None => Ok(None),
        Some(row) => {
            let by_id = Held::new(alloc, id.copy()?, row.copy()?)?;
            let in_order = by_id.share()?;
            Ok(Some(Both { by_id, in_order }))
        }
    }
}

fn share(held: Option<&Held>) -> Result<Option<Held>, Mem>
    ensures { IfOk result (λ copy. copy ≡ option_map (λ held. held.now) held.entry) }
{
    match held {
        None => Ok(None),
        Some(held) => Ok(Some(held.share()?)),
    }
}

impl RowChange {
    /// The change from this row, which has the id, to what there is there now.
    pub(crate) fn of(
        alloc: Global,
        id: &Text,
        row: &Option<Row>,
        before: Option<&Held>,
    ) -> Result<RowChange, Mem>
        requires { IfSome before (λ held. held.now.0 ≡ id.now) }
        ensures { IfOk result (λ change. change ≡
            record { key = id.now; before = option_map (λ held. held.now.1) before.entry; after = row.now }) }
    {
        let id = id.copy()?;
        let before = share(before)?;
        Ok(RowChange {
            after: twice(alloc, &id, row)?,
            id,
            before,
        })
    }

    pub(crate) fn id(&self) -> &Text
        ensures { result.now ≡ self.now.key }
    {
        &self.id
    }

    /// The row that stands there.
    pub(crate) fn before(&self) -> Option<&Held>
        ensures { option_map (λ held. held.now) result ≡ option_map (λ row. (self.now.key, row)) self.now.before }
    {
        self.before.as_ref()
    }

    /// The row that will stand there.
    pub(crate) fn after(&self) -> Option<&Held>
        ensures { option_map (λ held. held.now) result ≡ option_map (λ row. (self.now.key, row)) self.now.after }
    {
        match &self.after {
            None => None,
            Some(both) => Some(&both.by_id),
        }
    }
}

// Takes the row from both lists.
fn take_both(sort: &SortKeys, by_id: &mut Vec<Held>, in_order: &mut Vec<Held>, held: &Held)
    requires inside { IsInside sort.now by_id.old.items in_order.old.items }
    requires there { at text_cmp by_id.old.items held.now.0 ≡ Some held.now.1 }
    ensures inside { IsInside sort.now by_id.new.items in_order.new.items }
    ensures value { by_id.new.items ≡ set text_cmp by_id.old.items held.now.0 None }
    ensures len { vec_len by_id.new + 1 ≡ vec_len by_id.old }
    ensures len_in_order { vec_len in_order.new + 1 ≡ vec_len in_order.old }
    ensures capacity { vec_capacity by_id.new ≡ vec_capacity by_id.old }
    ensures capacity_in_order { vec_capacity in_order.new ≡ vec_capacity in_order.old }
{
    take_in_order(sort, in_order, held);
    take_by_id(by_id, held);
}

// Puts a row with a new id into both lists, where there is room for it.
fn put_both(sort: &SortKeys, by_id: &mut Vec<Held>, in_order: &mut Vec<Held>, both: Both)
    requires inside { IsInside sort.now by_id.old.items in_order.old.items }
    requires new { at text_cmp by_id.old.items both.0 ≡ None }
    requires room { vec_len by_id.old < vec_capacity by_id.old }
    requires room_in_order { vec_len in_order.old < vec_capacity in_order.old }
    ensures inside { IsInside sort.now by_id.new.items in_order.new.items }
    ensures value { by_id.new.items ≡ set text_cmp by_id.old.items both.0 (Some both.1) }
    ensures len { vec_len by_id.new ≡ vec_len by_id.old + 1 }
    ensures len_in_order { vec_len in_order.new ≡ vec_len in_order.old + 1 }
    ensures capacity { vec_capacity by_id.old ≤ vec_capacity by_id.new }
    ensures capacity_in_order { vec_capacity in_order.old ≤ vec_capacity in_order.new }
{
    let Both {
        by_id: held,
        in_order: same,
    } = both;
    put_in_order(sort, in_order, same);
    put_by_id(by_id, held);
}

// Takes the row that stands at the id, if there is one.
fn take_before(
    sort: &SortKeys,
    by_id: &mut Vec<Held>,
    in_order: &mut Vec<Held>,
    id: &Text,
    before: &Option<Held>,
)
    requires inside { IsInside sort.now by_id.old.items in_order.old.items }
    requires fits { at text_cmp by_id.old.items id.now ≡ option_map (λ held. held.1) before.now }
    requires same_id { IfSome before.now (λ held. held.0 ≡ id.now) }
    ensures inside { IsInside sort.now by_id.new.items in_order.new.items }
    ensures value { by_id.new.items ≡ set text_cmp by_id.old.items id.now None }
    ensures len { vec_len by_id.new ≤ vec_len by_id.old }
    ensures len_in_order { vec_len in_order.new ≤ vec_len in_order.old }
    ensures capacity { vec_capacity by_id.new ≡ vec_capacity by_id.old }
    ensures capacity_in_order { vec_capacity in_order.new ≡ vec_capacity in_order.old }
{
    match before {
        None => {}
        Some(held) => take_both(sort, by_id, in_order, held),
    }
}

// Puts the row that will stand at the id, if there is one.
fn put_after(
    sort: &SortKeys,
    by_id: &mut Vec<Held>,
    in_order: &mut Vec<Held>,
    id: &Text,
    after: Option<Both>,
)
    requires inside { IsInside sort.now by_id.old.items in_order.old.items }
    requires new { at text_cmp by_id.old.items id.now ≡ None }
    requires same_id { IfSome after (λ both. both.0 ≡ id.now) }
    requires room { vec_len by_id.old < vec_capacity by_id.old }
    requires room_in_order { vec_len in_order.old < vec_capacity in_order.old }
    ensures inside { IsInside sort.now by_id.new.items in_order.new.items }
    ensures value { by_id.new.items ≡ set text_cmp by_id.old.items id.now (option_map (λ both. both.1) after) }
    ensures len { vec_len by_id.new ≤ vec_len by_id.old + 1 }
    ensures len_in_order { vec_len in_order.new ≤ vec_len in_order.old + 1 }
    ensures capacity { vec_capacity by_id.old ≤ vec_capacity by_id.new }
    ensures capacity_in_order { vec_capacity in_order.old ≤ vec_capacity in_order.new }
{
    match after {
        None => {}
        Some(both) => put_both(sort, by_id, in_order, both),
    }
}

/// Carries the change out, where there is room for one more row.
pub(crate) fn carry_out(
    sort: &SortKeys,
    by_id: &mut Vec<Held>,
    in_order: &mut Vec<Held>,
    change: RowChange,
)
    requires inside { IsInside sort.now by_id.old.items in_order.old.items }
    requires fits { at text_cmp by_id.old.items change.key ≡ change.before }
    requires room { vec_len by_id.old < vec_capacity by_id.old }
    requires room_in_order { vec_len in_order.old < vec_capacity in_order.old }
    ensures inside { IsInside sort.now by_id.new.items in_order.new.items }
    ensures value { by_id.new.items ≡ set text_cmp by_id.old.items change.key change.after }
    ensures len { vec_len by_id.new ≤ vec_len by_id.old + 1 }
    ensures len_in_order { vec_len in_order.new ≤ vec_len in_order.old + 1 }
    ensures capacity { vec_capacity by_id.old ≤ vec_capacity by_id.new }
    ensures capacity_in_order { vec_capacity in_order.old ≤ vec_capacity in_order.new }
{
    let RowChange { id, before, after } = change;
    take_before(sort, by_id, in_order, &id, &before);
    put_after(sort, by_id, in_order, &id, after);
}

/// Carries the changes out one after another, where there is room for one more row each.
pub(crate) fn carry_all(
    sort: &SortKeys,
    by_id: &mut Vec<Held>,
    in_order: &mut Vec<Held>,
    changes: Vec<RowChange>,
)
    requires inside { IsInside sort.now by_id.old.items in_order.old.items }
    requires fit { Fit text_cmp by_id.old.items changes.items }
    requires room { vec_len by_id.old + length changes.items ≤ vec_capacity by_id.old }
    requires room_in_order { vec_len in_order.old + length changes.items ≤ vec_capacity in_order.old }
    ensures inside { IsInside sort.now by_id.new.items in_order.new.items }
    ensures value { by_id.new.items ≡ changed text_cmp by_id.old.items changes.items }
{
    for change in changes {
        carry_out(sort, by_id, in_order, change);
    }
}
