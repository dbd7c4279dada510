//! Drafts of a plan: its changes, and which rows go and come.
ghost use Rattle.std.specs.Prelude.{◌≡◌, ◌∷◌, ◌++◌, [], false, count_by, option_map, IfSome, OnOk};
ghost use Rattle.std.specs.List.{list_any};
ghost use Rattle.value_model.specs.Size.{is_name};
ghost use Rattle.sort_window.specs.Drafts.{AreDrafted, HasMoreIf};
ghost use Rattle.sort_window.specs.Inside.{has_id, AreInOrder};

use crate::changes::RowChange;
use crate::held::Held;
use crate::lists::add_in_order;
use ejson_value::{Mem, SortKeys};
use std::alloc::Global;

/// The changes of a plan, with the rows that go and those that come, each in order.
#[derive(Drop)]
pub(crate) struct Draft {
    pub(crate) changes: Vec<RowChange>,
    pub(crate) going: Vec<Held>,
    pub(crate) coming: Vec<Held>,
}

// Puts the row among rows in order, if it is one. No row has its id.
fn add_if(sort: &SortKeys, rows: &mut Vec<Held>, held: Option<&Held>) -> Result<(), Mem>
    requires sorted { AreInOrder sort.now rows.old.items }
    requires new { IfSome (option_map (λ held. held.now) held) (λ row. count_by (has_id row.0) rows.old.items ≡ 0) }
    ensures sorted { OnOk result (AreInOrder sort.now rows.new.items) }
    ensures more { OnOk result (HasMoreIf rows.old.items (option_map (λ held. held.now) held.entry) rows.new.items) }
{
    match held {
        None => Ok(()),
        Some(held) => add_in_order(sort, rows, held),
    }
}

impl Draft {
    pub(crate) fn new(alloc: Global) -> Draft
        ensures { (result.changes.items ≡ []) × (result.going.items ≡ []) × (result.coming.items ≡ []) }
    {
        Draft {
            changes: Vec::new(alloc),
            going: Vec::new(alloc),
            coming: Vec::new(alloc),
        }
    }

    /// Puts one more change of another id.
    pub(crate) fn add(&mut self, sort: &SortKeys, change: RowChange) -> Result<(), Mem>
        requires drafted { AreDrafted sort.now self.old.changes.items self.old.going.items self.old.coming.items }
        requires new { list_any (λ other. is_name change.key other.key) self.old.changes.items ≡ false }
        ensures changes { OnOk result (self.new.changes.items ≡ self.old.changes.items ++ change ∷ []) }
        ensures drafted { OnOk result (AreDrafted sort.now self.new.changes.items self.new.going.items self.new.coming.items) }
    {
        add_if(sort, &mut self.going, change.before())?;
        add_if(sort, &mut self.coming, change.after())?;
        self.changes.push(change)?;
        Ok(())
    }
}
