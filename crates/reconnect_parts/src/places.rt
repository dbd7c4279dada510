//! Texts by the order in which others were queued, and ids by their own.
ghost use Rattle.std.specs.Prelude.{◌≡◌, ◌++◌, map, IfOk, OnOk};
ghost use Rattle.std.specs.Ordering.{nat_cmp};
ghost use Rattle.std.specs.BTreeMap.{insert_entry};
ghost use Rattle.std.specs.BTreeSet.{insert_key};
ghost use Rattle.value_model.specs.Order.{text_cmp};

use ejson_value::{Mem, Text};
use std::collections::{BTreeMap, BTreeSet, VecDeque};

/// Texts by their places.
pub type Placed = BTreeMap<u64, Text>;

/// Texts that wait, the first one first.
pub type Queue = VecDeque<Text>;

/// Ids by their bytes.
pub type Ids = BTreeSet<Text>;

/// Puts a copy of the text at its place.
pub fn place(placed: &mut Placed, place: u64, text: &Text) -> Result<(), Mem>
    ensures { OnOk result (placed.new.entries ≡ insert_entry nat_cmp placed.old.entries place text.now) }
{
    drop(placed.insert(place, text.copy()?)?);
    Ok(())
}

/// Puts the texts behind those that wait, by rising place.
pub fn queue_placed(waiting: &mut Queue, placed: Placed) -> Result<(), Mem>
    ensures { OnOk result (waiting.new.items ≡ waiting.old.items ++ map (λ e. e.1) placed.entries) }
{
    for (_, text) in placed {
        waiting.push_back(text)?;
    }
    Ok(())
}

/// Puts a copy of the id among the others.
pub fn enter(ids: &mut Ids, id: &Text) -> Result<(), Mem>
    ensures { OnOk result (ids.new.keys ≡ insert_key text_cmp ids.old.keys id.now) }
{
    let _new = ids.insert(id.copy()?)?;
    Ok(())
}
