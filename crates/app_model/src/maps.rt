//! Maps by name.
ghost use Rattle.std.specs.Prelude.{◌≡◌, IfOk, OnOk};
ghost use Rattle.std.specs.BTreeMap.{insert_entry};
ghost use Rattle.value_model.specs.Order.{text_cmp};

use ejson_value::{Copied, Mem, Text};
use std::collections::BTreeMap;
use std::default::Emptied;

// Puts the value under the name.
pub(crate) fn put<T: Drop>(map: &mut BTreeMap<Text, T>, name: &Text, value: T) -> Result<(), Mem>
    ensures { OnOk result (map.new.entries ≡ insert_entry text_cmp map.old.entries name.now value) }
{
    drop(map.insert(name.copy()?, value)?);
    Ok(())
}

// A map equal to this one.
pub(crate) fn copy_map<T: Copied>(map: &BTreeMap<Text, T>) -> Result<BTreeMap<Text, T>, Mem>
    ensures { IfOk result (λ m. m.entries ≡ map.now.entries) }
{
    let mut copies = BTreeMap::emptied(map)?;
    for (name, value) in map.iter() {
        put(&mut copies, name, value.copied()?)?;
    }
    Ok(copies)
}
