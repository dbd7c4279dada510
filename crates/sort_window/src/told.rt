//! What readers are told, by id.
ghost use Rattle.std.specs.Prelude.{◌≡◌, true, false, option_map, map, IfOk, OnOk};
ghost use Rattle.map_model.specs.Maps.{IsSorted};
ghost use Rattle.value_model.specs.Order.{text_cmp};
ghost use Rattle.sort_window.specs.Telling.{IsOneTold};

use crate::rows::{Shown, ShownList};
use ejson_value::{Doc, ListOf, Mem, Text, same_documents};
use std::alloc::Global;
use std::collections::BTreeMap;

pub(crate) type Told = BTreeMap<Text, Option<Doc>>;

fn same_shown(before: Option<&Doc>, after: Option<&Doc>) -> bool
    ensures same { result ≡ true → option_map (λ doc. doc.now) before.entry ≡ option_map (λ doc. doc.now) after.entry }
    ensures apart { result ≡ false → option_map (λ doc. doc.now) before.entry ≡ option_map (λ doc. doc.now) after.entry → ⊥ }
{
    match (before, after) {
        (None, None) => true,
        (Some(before), Some(after)) => same_documents(before, after),
        _ => false,
    }
}

fn copy_shown(doc: Option<&Doc>) -> Result<Option<Doc>, Mem>
    ensures { IfOk result (λ copy. copy ≡ option_map (λ doc. doc.now) doc.entry) }
{
    match doc {
        None => Ok(None),
        Some(doc) => Ok(Some(doc.copy()?)),
    }
}

/// Tells what readers see at the id now, where that is something else than before.
pub(crate) fn tell(
    told: &mut Told,
    id: &Text,
    before: Option<&Doc>,
    after: Option<&Doc>,
) -> Result<(), Mem>
    ensures { OnOk result
        (IsOneTold told.old.entries id.now (option_map (λ doc. doc.now) before.entry) (option_map (λ doc. doc.now) after.entry) told.new.entries) }
{
    if same_shown(before, after) {
        return Ok(());
    }
    let doc = copy_shown(after)?;
    drop(told.insert(id.copy()?, doc)?);
    Ok(())
}

/// What is told, as a list.
pub(crate) fn listed(alloc: Global, told: Told) -> Result<ShownList, Mem>
    ensures all { IfOk result (λ shown. map (λ one. (one.id, one.doc)) shown ≡ told.entries) }
    ensures ordered { IfOk result (λ shown. IsSorted text_cmp told.entries) }
{
    let mut shown = ListOf::new(alloc);
    for (id, doc) in told {
        shown.push(Shown { id, doc })?;
    }
    Ok(shown)
}
