//! The changes of several entries, joined and made.
ghost use Rattle.std.specs.Prelude.{◌≡◌, ◌++◌, IfOk, OnOk};
ghost use Rattle.map_model.specs.Maps.{set};
ghost use Rattle.map_model.specs.Changes.{changed};
ghost use Rattle.ejson_value.specs.Changes.{changes_of};
ghost use Rattle.ejson_value.specs.Key.{key_cmp};
ghost use Rattle.history_log.specs.Log.{changes_in, rows_by};

use crate::log::Logged;
use ejson_value::{Change, Changes, Contents, Mem};
use std::alloc::Global;

fn push_changes(all: &mut Changes, changes: &Changes) -> Result<(), Mem>
    ensures { OnOk result (all.new ≡ all.old ++ changes.now) }
{
    for change in changes.as_slice() {
        all.push(change.copy()?)?;
    }
    Ok(())
}

/// The changes of the entries, one after another.
pub(crate) fn joined(alloc: Global, logged: &[Logged]) -> Result<Changes, Mem>
    ensures { IfOk result (λ changes. changes ≡ changes_in logged.now) }
{
    let mut all = Changes::new(alloc);
    for one in logged {
        push_changes(&mut all, &one.changes)?;
    }
    Ok(all)
}

fn put_change(rows: &mut Contents, change: &Change) -> Result<(), Mem>
    ensures { OnOk result (rows.new ≡ set key_cmp rows.old change.now.key change.now.after) }
{
    match &change.after {
        Some(doc) => {
            let key = change.key.copy()?;
            rows.put(key, doc.copy()?)
        }
        None => {
            drop(rows.remove(&change.key));
            Ok(())
        }
    }
}

fn put_changes(rows: &mut Contents, changes: &Changes) -> Result<(), Mem>
    ensures { OnOk result (rows.new ≡ changed key_cmp rows.old (changes_of changes.now)) }
{
    for change in changes.as_slice() {
        put_change(rows, change)?;
    }
    Ok(())
}

/// The documents after the entries, where there were none before them.
pub(crate) fn made(alloc: Global, logged: &[Logged]) -> Result<Contents, Mem>
    ensures { IfOk result (λ rows. rows ≡ rows_by (changes_in logged.now)) }
{
    let mut rows = Contents::new(alloc);
    for one in logged {
        put_changes(&mut rows, &one.changes)?;
    }
    Ok(rows)
}
