//! Conflicts among the paths of updates. The paths are sorted by their parts, so that each stands
//! right before one that it begins, if there is any.
ghost use Rattle.std.specs.Prelude.{◌≡◌, true, IfOk, MatchOption};
ghost use Rattle.std.specs.Ordering.{eq_by_cmp, as_partial_cmp};
ghost use Rattle.std.specs.Cmp.{partial_order_from_own_ties};
ghost use Rattle.std.specs.Cmp.Rules.{comparing};
ghost use Rattle.std.proofs.Common.{rules, refl};
ghost use Rattle.modifier_apply.specs.View.{changes_view};
ghost use Rattle.modifier_apply.specs.Modified.{is_prefix, paths_of, conflicts};
ghost use Rattle.modifier_apply.specs.Neighbours.{parts_cmp};
ghost use Rattle.modifier_apply.specs.NeighboursLaws.{parts_total};

use crate::modifier::Update;
use ejson_value::{Mem, Part};
use std::alloc::Global;
use std::cmp::Ordering;
use std::collections::BTreeSet;
use std::marker::Model;

// A path among paths that go by their parts. A contract sees its parts' names.
#[derive(Drop)]
struct ByParts<'a> {
    parts: &'a [Part],
}

impl<'a> Model for ByParts<'a> {
    ghost use Rattle.std.specs.Prelude.{List, ℕ};

    ghost Value = { List (List ℕ) };

    ghost view = { λ a. a.parts.now };
}

fn compare_parts(path: &[Part], other: &[Part]) -> Ordering
    ensures { result ≡ parts_cmp path.now other.now }
{
    let Some((part, parts)) = path.split_first() else {
        return 0.cmp(&other.len());
    };
    let Some((first, others)) = other.split_first() else {
        return Ordering::Greater;
    };
    let order = part.name().cmp(first.name());
    if order.is_ne() {
        return order;
    }
    compare_parts(parts, others)
}

impl PartialEq for ByParts<'_> {
    ghost eq = { eq_by_cmp parts_cmp };

    ghost laws = { Prim.search (comparing, rules, parts_total) };

    fn eq(&self, other: &Self) -> bool {
        self.cmp(other).is_eq()
    }
}

impl Eq for ByParts<'_> {
    ghost laws = { Prim.search (comparing, rules, parts_total) };
}

impl PartialOrd for ByParts<'_> {
    ghost partial_cmp = { as_partial_cmp parts_cmp };

    ghost laws = { partial_order_from_own_ties (Prim.search (comparing, rules, parts_total)) (Prim.search (comparing, rules, parts_total)) };

    fn partial_cmp(&self, other: &Self) -> Option<Ordering> {
        Some(self.cmp(other))
    }
}

impl Ord for ByParts<'_> {
    ghost cmp = { parts_cmp };

    ghost total = { parts_total };

    ghost matches_partial_cmp = { λ x y. refl };

    ghost matches_eq = { λ x y. refl };

    fn cmp(&self, other: &Self) -> Ordering {
        compare_parts(self.parts, other.parts)
    }
}

// Whether the first path is the second, or begins it.
fn is_prefix(path: &[Part], other: &[Part]) -> bool
    ensures { result ≡ is_prefix path.now other.now }
{
    let Some((part, parts)) = path.split_first() else {
        return true;
    };
    let Some((first, others)) = other.split_first() else {
        return false;
    };
    part.name() == first.name() && is_prefix(parts, others)
}

// The paths in order, or none where two of them are equal.
fn in_order<'a>(alloc: Global, updates: &'a [Update]) -> Result<Option<BTreeSet<ByParts<'a>>>, Mem>
    ensures { IfOk result (λ o. MatchOption o (conflicts (paths_of (changes_view updates.now)) ≡ true)
        (λ paths. conflicts (paths_of (changes_view updates.now)) ≡ conflicts paths.keys)) }
{
    let mut paths = BTreeSet::new(alloc);
    for update in updates {
        let parts = update.path.parts();
        if !paths.insert(ByParts { parts })? {
            return Ok(None);
        }
    }
    Ok(Some(paths))
}

fn one_begins_next(paths: &BTreeSet<ByParts<'_>>) -> bool
    ensures { result ≡ conflicts paths.now.keys }
{
    let mut others = paths.iter();
    let Some(first) = others.next() else {
        return false;
    };
    let mut path = first;
    for next in others {
        if is_prefix(path.parts, next.parts) {
            return true;
        }
        path = next;
    }
    false
}

/// Whether two of the updates are at one path, or at a path and one that it begins.
pub(crate) fn have_conflict(alloc: Global, updates: &[Update]) -> Result<bool, Mem>
    ensures { IfOk result (λ b. b ≡ conflicts (paths_of (changes_view updates.now))) }
{
    if let [_] = updates {
        return Ok(false);
    }
    match in_order(alloc, updates)? {
        None => Ok(true),
        Some(paths) => Ok(one_begins_next(&paths)),
    }
}
