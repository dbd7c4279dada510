//! Reading the projection of a cursor.
ghost use Rattle.std.specs.Prelude.{◌≡◌, [], Some, IfOk, IfSome, OnSome, option_map};
ghost use Rattle.value_model.specs.Val.{fields_of};
ghost use Rattle.value_model.specs.Branches.{path_of};
ghost use Rattle.ejson_value.specs.View.{view};
ghost use Rattle.program_reading.specs.Faults.{below, Gives};
ghost use Rattle.app_model.specs.Fields.{flag, says, begins_with_id, Joins, path_behind, next_path, or_bad_shape, paths_behind, projecting};
ghost use Rattle.app_model.specs.Fields.{fields_reading, projection_reading};

use crate::publication::{Paths, Projection};
use crate::seen::{Seen, part_names};
use ejson_value::{Doc, Mem, Path, PathFault, Text, Value};
use program_reading::{AppFault, Flaw, bad, below};
use std::alloc::Global;

// The number that stands at a path that is included, or left out.
fn flag(including: bool) -> i64
    ensures { result ≡ flag including }
{
    if including { 1 } else { 0 }
}

fn says(including: bool, value: &Value) -> bool
    ensures { result ≡ says including (view value.now) }
{
    match value {
        Value::Int(number) => number.get() == flag(including),
        _ => false,
    }
}

fn begins_with_id(path: &[Text]) -> bool
    ensures { result ≡ begins_with_id path.now }
{
    match path.split_first() {
        None => false,
        Some((part, _rest)) => part.as_str() == "_id",
    }
}

// The path, which joins the others, if it may stand behind them.
fn path_behind(alloc: Global, seen: &mut Seen, path: Path) -> Result<Option<Path>, Mem>
    ensures path { IfOk result (λ found. found ≡ path_behind seen.old (Some path)) }
    ensures seen { IfOk result (λ found. OnSome found (Joins seen.old seen.new path)) }
{
    let names = part_names(alloc, &path)?;
    if begins_with_id(&names) || seen.has_prefix(&names) {
        return Ok(None);
    }
    seen.put(names)?;
    Ok(Some(path))
}

// The path that the name writes, if it may stand behind the others.
fn named_path(alloc: Global, seen: &mut Seen, name: &Text) -> Result<Option<Path>, Mem>
    ensures path { IfOk result (λ found. found ≡ path_behind seen.old (path_of name.now)) }
    ensures seen { IfOk result (λ found. IfSome found (λ path. Joins seen.old seen.new path)) }
{
    match Path::read(alloc, name) {
        Ok(path) => path_behind(alloc, seen, path),
        Err(PathFault::BadPath) => Ok(None),
        Err(PathFault::Memory) => Err(Mem),
    }
}

fn next_path(
    alloc: Global,
    including: bool,
    seen: &mut Seen,
    name: &Text,
    value: &Value,
) -> Result<Option<Path>, Mem>
    ensures path { IfOk result (λ found. found ≡ next_path including seen.old name.now (view value.now)) }
    ensures seen { IfOk result (λ found. IfSome found (λ path. Joins seen.old seen.new path)) }
{
    if says(including, value) {
        named_path(alloc, seen, name)
    } else {
        Ok(None)
    }
}

fn read_path(
    alloc: Global,
    place: &Text,
    including: bool,
    seen: &mut Seen,
    name: &Text,
    value: &Value,
) -> Result<Path, AppFault>
    ensures path { Gives (λ path. path) result (or_bad_shape (below place.now name.now) (next_path including seen.old name.now (view value.now))) }
    ensures seen { IfOk result (λ path. Joins seen.old seen.new path) }
{
    match next_path(alloc, including, seen, name, value)? {
        Some(path) => Ok(path),
        None => Err(bad(Flaw::BadShape, below(alloc, place.as_str(), name.as_str())?)),
    }
}

fn read_paths(alloc: Global, place: &Text, including: bool, fields: &Doc) -> Result<Paths, AppFault>
    ensures { Gives (λ paths. paths) result (paths_behind place.now including [] (fields_of fields.now)) }
{
    let mut seen = Seen::new(alloc);
    let mut paths = Paths::new(alloc);
    for (name, value) in fields.iter() {
        let path = read_path(alloc, place, including, &mut seen, name, value)?;
        paths.push(path)?;
    }
    Ok(paths)
}

fn projecting(including: bool, paths: Paths) -> Projection
    ensures { result ≡ projecting including paths }
{
    if including {
        Projection::Only(paths)
    } else {
        Projection::Without(paths)
    }
}

fn read_fields(alloc: Global, place: &Text, fields: &Doc) -> Result<Projection, AppFault>
    ensures { Gives (λ p. p) result (fields_reading place.now (fields_of fields.now)) }
{
    let Some((_name, first)) = fields.iter().next() else {
        return Ok(Projection::All);
    };
    let including = says(true, first);
    Ok(projecting(including, read_paths(alloc, place, including, fields)?))
}

// The projection that the member of a cursor at this place describes.
pub(crate) fn read_projection(
    alloc: Global,
    place: &Text,
    member: Option<&Value>,
) -> Result<Projection, AppFault>
    ensures { Gives (λ p. p) result (projection_reading place.now (option_map (λ v. view v.now) member.entry)) }
{
    let Some(value) = member else {
        return Ok(Projection::All);
    };
    match value {
        Value::Object(fields) => read_fields(alloc, place, fields),
        _ => Err(bad(Flaw::BadShape, place.copy()?)),
    }
}
