//! Rows in the order of sort keys, and rows by id.
ghost use Rattle.std.specs.Prelude.{◌≡◌, ◌+◌, ◌<◌, ◌≤◌, ◌∷◌, ℕ, count_by, false, length, option_map, slice_get, vec_len, vec_capacity, Some, None};
ghost use Rattle.std.specs.Prelude.{IfSome, OnOk, IsTrue};
ghost use Rattle.map_model.specs.Maps.{at, set, IsSorted};
ghost use Rattle.value_model.specs.Order.{text_cmp};
ghost use Rattle.sort_window.specs.Inside.{stands_before, has_id, has_id_below, is_row, AreInOrder, HasOneMore};

use crate::held::Held;
use crate::sorting::before;
use ejson_value::{Doc, Mem, SortKeys, Text};

/// How many of the rows, which are in order, stand before this document.
pub(crate) fn place(sort: &SortKeys, rows: &[Held], id: &Text, whole: &Doc) -> usize
    requires { AreInOrder sort.now rows.now }
    ensures within { result ≤ length rows.now }
    ensures value { result ≡ count_by (stands_before sort.now id.now whole.now) rows.now }
{
    rows.partition_point(|held| before(sort, held.id(), held.whole(), id, whole))
}

/// How many of the rows by id have lower ids.
pub(crate) fn place_of_id(rows: &[Held], id: &Text) -> usize
    requires { IsSorted text_cmp rows.now }
    ensures within { result ≤ length rows.now }
    ensures value { result ≡ count_by (has_id_below id.now) rows.now }
{
    rows.partition_point(|held| held.id().cmp(id).is_lt())
}

// The row at this place.
fn row_at(rows: &[Held], place: usize) -> Option<&Held>
    ensures { option_map (λ held. held.now) result ≡ slice_get rows.now place }
{
    rows.get(place)
}

/// The row of this id among rows by id.
pub(crate) fn find<'a>(rows: &'a [Held], id: &Text) -> Option<&'a Held>
    requires { IsSorted text_cmp rows.now }
    ensures value { option_map (λ held. held.now.1) result ≡ at text_cmp rows.now id.now }
    ensures found { IfSome result (λ held. held.now.0 ≡ id.now) }
{
    match row_at(rows, place_of_id(rows, id)) {
        None => None,
        Some(held) => {
            if held.id().cmp(id).is_eq() {
                Some(held)
            } else {
                None
            }
        }
    }
}

/// Puts a row with a new id among rows by id, where there is room for it.
pub(crate) fn put_by_id(rows: &mut Vec<Held>, held: Held)
    requires sorted { IsSorted text_cmp rows.old.items }
    requires new { at text_cmp rows.old.items held.0 ≡ None }
    requires room { vec_len rows.old < vec_capacity rows.old }
    ensures value { rows.new.items ≡ set text_cmp rows.old.items held.0 (Some held.1) }
    ensures len { vec_len rows.new ≡ vec_len rows.old + 1 }
    ensures capacity { vec_capacity rows.old ≤ vec_capacity rows.new }
{
    let place = place_of_id(rows.as_slice(), held.id());
    let _ = rows.insert(place, held);
}

/// Takes the row of this id from rows by id.
pub(crate) fn take_by_id(rows: &mut Vec<Held>, held: &Held)
    requires sorted { IsSorted text_cmp rows.old.items }
    requires there { at text_cmp rows.old.items held.now.0 ≡ Some held.now.1 }
    ensures value { rows.new.items ≡ set text_cmp rows.old.items held.now.0 None }
    ensures len { vec_len rows.new + 1 ≡ vec_len rows.old }
    ensures capacity { vec_capacity rows.new ≡ vec_capacity rows.old }
{
    let place = place_of_id(rows.as_slice(), held.id());
    drop(rows.remove(place));
}

/// Puts a row with a new id among rows in order, where there is room for it.
pub(crate) fn put_in_order(sort: &SortKeys, rows: &mut Vec<Held>, held: Held)
    requires sorted { AreInOrder sort.now rows.old.items }
    requires new { count_by (has_id held.0) rows.old.items ≡ 0 }
    requires room { vec_len rows.old < vec_capacity rows.old }
    ensures sorted { AreInOrder sort.now rows.new.items }
    ensures more { HasOneMore rows.old.items held rows.new.items }
    ensures len { vec_len rows.new ≡ vec_len rows.old + 1 }
    ensures capacity { vec_capacity rows.old ≤ vec_capacity rows.new }
{
    let place = place(sort, rows.as_slice(), held.id(), held.whole());
    let _ = rows.insert(place, held);
}

/// Takes a row from rows in order.
pub(crate) fn take_in_order(sort: &SortKeys, rows: &mut Vec<Held>, held: &Held)
    requires sorted { AreInOrder sort.now rows.old.items }
    requires there { 0 < count_by (is_row held.now) rows.old.items }
    ensures sorted { AreInOrder sort.now rows.new.items }
    ensures less { HasOneMore rows.new.items held.now rows.old.items }
    ensures len { vec_len rows.new + 1 ≡ vec_len rows.old }
    ensures capacity { vec_capacity rows.new ≡ vec_capacity rows.old }
{
    let place = place(sort, rows.as_slice(), held.id(), held.whole());
    drop(rows.remove(place));
}

/// Puts one more row with a new id among rows in order.
pub(crate) fn add_in_order(sort: &SortKeys, rows: &mut Vec<Held>, held: &Held) -> Result<(), Mem>
    requires sorted { AreInOrder sort.now rows.old.items }
    requires new { count_by (has_id held.now.0) rows.old.items ≡ 0 }
    ensures sorted { OnOk result (AreInOrder sort.now rows.new.items) }
    ensures more { OnOk result (HasOneMore rows.old.items held.now rows.new.items) }
{
    let shared = held.share()?;
    rows.reserve(1)?;
    put_in_order(sort, rows, shared);
    Ok(())
}

/// Whether one of the rows in order has the id of this one.
pub(crate) fn contains(sort: &SortKeys, rows: &[Held], held: &Held) -> bool
    requires sorted { AreInOrder sort.now rows.now }
    ensures there { IsTrue result → 0 < count_by (has_id held.now.0) rows.now }
    ensures missing { result ≡ false → count_by (is_row held.now) rows.now ≡ 0 }
{
    match row_at(rows, place(sort, rows, held.id(), held.whole())) {
        None => false,
        Some(other) => other.id().cmp(held.id()).is_eq(),
    }
}
