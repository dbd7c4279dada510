//! Reading the sort keys and the limit of a cursor.
ghost use Rattle.std.specs.Prelude.{◌≡◌, [], IfOk, length, codes, option_map};
ghost use Rattle.value_model.specs.Val.{vals_of, fields_of};
ghost use Rattle.value_model.specs.Branches.{field_of, path_of};
ghost use Rattle.ejson_value.specs.View.{view};
ghost use Rattle.program_reading.specs.Faults.{below, element, Gives};
ghost use Rattle.app_model.specs.Fields.{or_bad_shape};
ghost use Rattle.app_model.specs.Sorting.{limit_by, limit_in, limit_of, limit_reading, direction_in, direction_of, sort_path_of, key_with, key_of};
ghost use Rattle.app_model.specs.Sorting.{key_reading, keys_behind, keys_reading, sort_reading, window_reading};

use ejson_value::{Doc, Items, Mem, Path, PathFault, SortKey, SortKeys, Text, Value};
use program_reading::{AppFault, Flaw, bad, below, element, has_more_items, member};
use std::alloc::Global;

const MAX_KEYS: usize = 8;

const MAX_LIMIT: u64 = 10_000;

fn limit_by(number: u64) -> Option<u32>
    ensures { result ≡ limit_by number }
{
    if 1 <= number && number <= MAX_LIMIT {
        Some(number as u32)
    } else {
        None
    }
}

fn limit_in(number: i64) -> Option<u32>
    ensures { result ≡ limit_in number }
{
    if number < 0 {
        return None;
    }
    limit_by(number as u64)
}

fn limit_of(value: &Value) -> Option<u32>
    ensures { result ≡ limit_of (view value.now) }
{
    match value {
        Value::Int(number) => limit_in(number.get()),
        _ => None,
    }
}

fn read_limit(place: Text, limit: Option<&Value>) -> Result<Option<u32>, AppFault>
    ensures { Gives (λ limit. limit) result (limit_reading place (option_map (λ v. view v.now) limit.entry)) }
{
    let Some(value) = limit else {
        return Ok(None);
    };
    match limit_of(value) {
        Some(number) => Ok(Some(number)),
        None => Err(bad(Flaw::BadShape, place)),
    }
}

fn direction_in(number: i64) -> Option<bool>
    ensures { result ≡ direction_in number }
{
    if number == 1 {
        Some(false)
    } else if number == -1 {
        Some(true)
    } else {
        None
    }
}

// Whether the sort key is descending.
fn direction_of(direction: Option<&Value>) -> Option<bool>
    ensures { result ≡ direction_of (option_map (λ v. view v.now) direction.entry) }
{
    let Some(value) = direction else {
        return None;
    };
    match value {
        Value::Int(number) => direction_in(number.get()),
        _ => None,
    }
}

fn written_path(alloc: Global, written: &Text) -> Result<Option<Path>, Mem>
    ensures { IfOk result (λ path. path ≡ path_of written.now) }
{
    match Path::read(alloc, written) {
        Ok(path) => Ok(Some(path)),
        Err(PathFault::BadPath) => Ok(None),
        Err(PathFault::Memory) => Err(Mem),
    }
}

fn sort_path(alloc: Global, written: Option<&Value>) -> Result<Option<Path>, Mem>
    ensures { IfOk result (λ path. path ≡ sort_path_of (option_map (λ v. view v.now) written.entry)) }
{
    let Some(value) = written else {
        return Ok(None);
    };
    match value {
        Value::Text(written) => written_path(alloc, written),
        _ => Ok(None),
    }
}

fn key_with(path: Option<Path>, direction: Option<bool>) -> Option<SortKey>
    ensures { result ≡ key_with path direction }
{
    let Some(path) = path else {
        return None;
    };
    match direction {
        None => None,
        Some(descending) => Some(SortKey { path, descending }),
    }
}

// The sort key that a pair describes.
fn key_of(alloc: Global, items: &Items) -> Result<Option<SortKey>, Mem>
    ensures { IfOk result (λ key. key ≡ key_of items.now) }
{
    if items.len() == 2 {
        let path = sort_path(alloc, items.get(0))?;
        Ok(key_with(path, direction_of(items.get(1))))
    } else {
        Ok(None)
    }
}

fn read_pair(alloc: Global, place: &Text, items: &Items) -> Result<SortKey, AppFault>
    ensures { Gives (λ key. key) result (or_bad_shape place.now (key_of items.now)) }
{
    match key_of(alloc, items)? {
        Some(key) => Ok(key),
        None => Err(bad(Flaw::BadShape, place.copy()?)),
    }
}

fn read_key(alloc: Global, place: &Text, value: &Value) -> Result<SortKey, AppFault>
    ensures { Gives (λ key. key) result (key_reading place.now (view value.now)) }
{
    match value {
        Value::List(items) => read_pair(alloc, place, items),
        _ => Err(bad(Flaw::BadShape, place.copy()?)),
    }
}

fn read_next_key(
    alloc: Global,
    place: &Text,
    keys: &SortKeys,
    value: &Value,
) -> Result<SortKey, AppFault>
    ensures { Gives (λ key. key) result (key_reading (element place.now (length keys.now)) (view value.now)) }
{
    let place = element(alloc, place.as_str(), keys.len())?;
    read_key(alloc, &place, value)
}

fn read_each_key(alloc: Global, place: &Text, items: &Items) -> Result<SortKeys, AppFault>
    ensures { Gives (λ keys. keys) result (keys_behind place.now [] (vals_of items.now)) }
{
    let mut keys = SortKeys::new(alloc);
    for item in items.as_slice() {
        let key = read_next_key(alloc, place, &keys, item)?;
        keys.push(key)?;
    }
    Ok(keys)
}

fn read_keys(alloc: Global, place: &Text, items: &Items) -> Result<SortKeys, AppFault>
    ensures { Gives (λ keys. keys) result (keys_reading place.now (vals_of items.now)) }
{
    if !has_more_items(items, 0) {
        return Err(bad(Flaw::BadShape, place.copy()?));
    }
    if has_more_items(items, MAX_KEYS) {
        return Err(bad(Flaw::TooMany, place.copy()?));
    }
    read_each_key(alloc, place, items)
}

fn read_sort(alloc: Global, place: &Text, sort: Option<&Value>) -> Result<SortKeys, AppFault>
    ensures { Gives (λ keys. keys) result (sort_reading place.now (option_map (λ v. view v.now) sort.entry)) }
{
    let Some(value) = sort else {
        return Ok(SortKeys::new(alloc));
    };
    match value {
        Value::List(items) => read_keys(alloc, place, items),
        _ => Err(bad(Flaw::BadShape, place.copy()?)),
    }
}

fn read_own_limit(alloc: Global, place: &Text, fields: &Doc) -> Result<Option<u32>, AppFault>
    ensures { Gives (λ limit. limit) result (limit_reading (below place.now (codes "limit")) (field_of (fields_of fields.now) (codes "limit"))) }
{
    let at_limit = below(alloc, place.as_str(), "limit")?;
    read_limit(at_limit, member(alloc, fields, "limit")?)
}

fn read_own_sort(alloc: Global, place: &Text, fields: &Doc) -> Result<SortKeys, AppFault>
    ensures { Gives (λ keys. keys) result (sort_reading (below place.now (codes "sort")) (field_of (fields_of fields.now) (codes "sort"))) }
{
    let at_sort = below(alloc, place.as_str(), "sort")?;
    read_sort(alloc, &at_sort, member(alloc, fields, "sort")?)
}

// The limit and the sort keys of the cursor at this place.
pub(crate) fn read_window(
    alloc: Global,
    place: &Text,
    fields: &Doc,
) -> Result<(Option<u32>, SortKeys), AppFault>
    ensures { Gives (λ window. window) result (window_reading place.now (fields_of fields.now)) }
{
    let limit = read_own_limit(alloc, place, fields)?;
    let sort = read_own_sort(alloc, place, fields)?;
    Ok((limit, sort))
}
