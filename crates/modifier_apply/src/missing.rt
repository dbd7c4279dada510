//! What a list lacks, found by the order of values.
ghost use Rattle.std.specs.Prelude.{◌≡◌, ◌++◌, Bool, IfOk};
ghost use Rattle.std.specs.List.{list_any};
ghost use Rattle.std.specs.Ordering.{eq_by_cmp, as_partial_cmp};
ghost use Rattle.std.specs.Cmp.{partial_order_from_own_ties};
ghost use Rattle.std.specs.Cmp.Rules.{comparing};
ghost use Rattle.std.specs.BTreeSet.{contains};
ghost use Rattle.std.proofs.Common.{rules, refl};
ghost use Rattle.value_model.specs.Val.{Val};
ghost use Rattle.value_model.specs.Order.{compare};
ghost use Rattle.value_model.specs.OrderLaws.{compare_total};
ghost use Rattle.modifier_apply.specs.Modified.{same, with_missing};

use ejson_value::{Items, Mem, Value, compare, copy};
use std::alloc::Global;
use std::cmp::Ordering;
use std::collections::BTreeSet;
use std::marker::Model;

// A value among values in their order.
#[derive(Drop)]
struct ByOrder<'a> {
    value: &'a Value,
}

impl<'a> Model for ByOrder<'a> {
    ghost use Rattle.value_model.specs.Val.{Val};
    ghost use Rattle.value_model.specs.Coding.{val_code};
    ghost use Rattle.ejson_value.specs.View.{view as seen_as};

    ghost Value = { Val };

    ghost coded = { val_code };

    ghost view = { λ a. seen_as a.value.now };
}

impl PartialEq for ByOrder<'_> {
    ghost eq = { eq_by_cmp compare };

    ghost laws = { Prim.search (comparing, rules, compare_total) };

    fn eq(&self, other: &Self) -> bool {
        self.cmp(other).is_eq()
    }
}

impl Eq for ByOrder<'_> {
    ghost laws = { Prim.search (comparing, rules, compare_total) };
}

impl PartialOrd for ByOrder<'_> {
    ghost partial_cmp = { as_partial_cmp compare };

    ghost laws = { partial_order_from_own_ties (Prim.search (comparing, rules, compare_total)) (Prim.search (comparing, rules, compare_total)) };

    fn partial_cmp(&self, other: &Self) -> Option<Ordering> {
        Some(self.cmp(other))
    }
}

impl Ord for ByOrder<'_> {
    ghost cmp = { compare };

    ghost total = { compare_total };

    ghost matches_partial_cmp = { λ x y. refl };

    ghost matches_eq = { λ x y. refl };

    fn cmp(&self, other: &Self) -> Ordering {
        compare(self.value, other.value)
    }
}

fn in_order<'a>(alloc: Global, items: &'a Items) -> Result<BTreeSet<ByOrder<'a>>, Mem>
    ensures { IfOk result (λ seen. (q : Val) → contains compare seen q ≡ list_any (λ v. same v q) items.now) }
{
    let mut seen = BTreeSet::new(alloc);
    for value in items.as_slice() {
        seen.insert(ByOrder { value })?;
    }
    Ok(seen)
}

// The operands that the list lacks, one of each.
fn missing<'a>(alloc: Global, items: &Items, operands: &'a Items) -> Result<Vec<ByOrder<'a>>, Mem>
    ensures { IfOk result (λ vs. items.now ++ vs.items ≡ with_missing operands.now items.now) }
{
    let mut seen = in_order(alloc, items)?;
    let mut missing = Vec::new(alloc);
    for value in operands.as_slice() {
        if !seen.insert(ByOrder { value })? {
            continue;
        }
        missing.push(ByOrder { value })?;
    }
    Ok(missing)
}

/// The list with the operands that it lacks behind the others, one of each.
pub(crate) fn with_missing(alloc: Global, mut items: Items, operands: &Items) -> Result<Items, Mem>
    ensures { IfOk result (λ vs. vs ≡ with_missing operands.now items) }
{
    let missing = missing(alloc, &items, operands)?;
    for one in &missing {
        items.push(copy(one.value)?)?;
    }
    Ok(items)
}
