//! Paths sorted by their parts, among which those that go on below a field are found by halves.
ghost use Rattle.std.specs.Prelude.{◌≡◌, ◌+◌, IfOk, OnOk, false, drop, length, ◌++◌, ◌∷◌, [], Some, None, if◌then◌else◌};
ghost use Rattle.std.specs.List.{AllByRecursion};
ghost use Rattle.value_model.specs.Order.{text_cmp};
ghost use Rattle.app_model.specs.Fields.{path_cmp};
ghost use Rattle.publication.specs.Parts.{paths_in, below, is_before, is_upto, IsRising, AreLonger, AreSorted, paths_of};
ghost use Rattle.publication.specs.Projected.{rests_below, ends_here, reaches_nothing};

use app_model::{Paths, Projection};
use ejson_value::{Mem, Part, Text};
use std::alloc::Global;
use std::cmp::Ordering;

fn compare_parts(a: &Part, b: &Part) -> Ordering
    ensures { result ≡ text_cmp a.now b.now }
{
    a.name().cmp(b.name())
}

// Part by part; a beginning of a path comes before the path.
fn compare_paths(a: &[Part], b: &[Part]) -> Ordering
    ensures { result ≡ path_cmp a.now b.now }
{
    let Some((first, rest)) = a.split_first() else {
        return if b.is_empty() {
            Ordering::Equal
        } else {
            Ordering::Less
        };
    };
    let Some((other, more)) = b.split_first() else {
        return Ordering::Greater;
    };
    match compare_parts(first, other) {
        Ordering::Equal => compare_paths(rest, more),
        apart => apart,
    }
}

// Puts the path behind the others.
fn push_path<'a>(paths: &mut Vec<&'a [Part]>, path: &'a [Part]) -> Result<(), Mem>
    ensures { OnOk result (paths_in paths.new.items ≡ paths_in paths.old.items ++ path.now ∷ []) }
{
    paths.push(path)?;
    Ok(())
}

fn parts_of<'a>(alloc: Global, paths: &'a Paths) -> Result<Vec<&'a [Part]>, Mem>
    ensures { IfOk result (λ parts. paths_in parts.items ≡ paths.now) }
{
    let mut parts = Vec::new(alloc);
    for path in paths.as_slice() {
        push_path(&mut parts, path.parts())?;
    }
    Ok(parts)
}

fn sorted<'a>(alloc: Global, paths: &'a Paths) -> Result<Vec<&'a [Part]>, Mem>
    ensures { IfOk result (λ sorted. AreSorted paths.now (paths_in sorted.items)) }
{
    let mut parts = parts_of(alloc, paths)?;
    parts.sort_by(|a, b| compare_paths(a, b))?;
    Ok(parts)
}

// The projection's paths, sorted.
pub(crate) fn sorted_paths<'a>(
    alloc: Global,
    projection: &'a Projection,
) -> Result<Vec<&'a [Part]>, Mem>
    ensures { IfOk result (λ sorted. AreSorted (paths_of projection.now) (paths_in sorted.items)) }
{
    match projection {
        Projection::All => Ok(Vec::new(alloc)),
        Projection::Only(paths) => sorted(alloc, paths),
        Projection::Without(paths) => sorted(alloc, paths),
    }
}

// Whether the path's part at this level comes before the name; that of a path that has ended does.
fn is_before(name: &Text, level: usize, path: &[Part]) -> bool
    ensures { result ≡ is_before name.now (drop level path.now) }
{
    match path.get(level) {
        None => true,
        Some(part) => part.name().cmp(name).is_lt(),
    }
}

fn is_upto(name: &Text, level: usize, path: &[Part]) -> bool
    ensures { result ≡ is_upto name.now (drop level path.now) }
{
    match path.get(level) {
        None => true,
        Some(part) => part.name().cmp(name).is_le(),
    }
}

// The paths without those whose part at this level comes before the name.
fn from_name<'a, 'b>(name: &Text, level: usize, paths: &'b [&'a [Part]]) -> &'b [&'a [Part]]
    requires { IsRising (below level (paths_in paths.now)) }
    ensures same { rests_below name.now (below level (paths_in result.now)) ≡ rests_below name.now (below level (paths_in paths.now)) }
    ensures none_before { AllByRecursion (λ path. is_before name.now path ≡ false) (below level (paths_in result.now)) }
    ensures rising { IsRising (below level (paths_in result.now)) }
{
    let start = paths.partition_point(|path| is_before(name, level, path));
    let (_before, rest) = paths.split_at(start);
    rest
}

// The first of the paths, whose part at this level is the name.
fn upto_name<'a, 'b>(name: &Text, level: usize, paths: &'b [&'a [Part]]) -> &'b [&'a [Part]]
    requires none_before { AllByRecursion (λ path. is_before name.now path ≡ false) (below level (paths_in paths.now)) }
    requires rising { IsRising (below level (paths_in paths.now)) }
    ensures rests { below (level + 1) (paths_in result.now) ≡ rests_below name.now (below level (paths_in paths.now)) }
    ensures longer { AreLonger (below level (paths_in result.now)) }
    ensures rising { IsRising (below (level + 1) (paths_in result.now)) }
{
    let end = paths.partition_point(|path| is_upto(name, level, path));
    &paths[..end]
}

// The paths whose part at this level is the name.
pub(crate) fn named<'a, 'b>(name: &Text, level: usize, paths: &'b [&'a [Part]]) -> &'b [&'a [Part]]
    requires { IsRising (below level (paths_in paths.now)) }
    ensures rests { below (level + 1) (paths_in result.now) ≡ rests_below name.now (below level (paths_in paths.now)) }
    ensures longer { AreLonger (below level (paths_in result.now)) }
    ensures rising { IsRising (below (level + 1) (paths_in result.now)) }
{
    upto_name(name, level, from_name(name, level, paths))
}

fn count_parts(path: &[Part]) -> usize
    ensures { result ≡ length path.now }
{
    path.len()
}

// The level below this one, if there is a path; none of the paths has ended.
pub(crate) fn next_level(level: usize, paths: &[&[Part]]) -> Option<usize>
    requires { AreLonger (below level (paths_in paths.now)) }
    ensures { result ≡ (if reaches_nothing (below (level + 1) (paths_in paths.now)) then None else Some (level + 1)) }
{
    let path = paths.first()?;
    if level < count_parts(path) {
        Some(level + 1)
    } else {
        None
    }
}

// Whether one of the paths has ended at this level. A path that has ended comes before the others.
pub(crate) fn ends_here(level: usize, paths: &[&[Part]]) -> bool
    requires { IsRising (below level (paths_in paths.now)) }
    ensures { result ≡ ends_here (below level (paths_in paths.now)) }
{
    match paths.first() {
        None => false,
        Some(path) => path.len() <= level,
    }
}
