//! One lane.
ghost use Rattle.std.specs.Prelude.{◌≡◌, [], OnOk, OnErr, is_some};
ghost use Rattle.std.specs.BTreeMap.{insert_entry};
ghost use Rattle.map_model.specs.Maps.{at};
ghost use Rattle.value_model.specs.Order.{text_cmp};

use crate::named::Lanes;
use ejson_value::{Mem, Text};
use std::alloc::Global;
use std::collections::BTreeMap;
use std::marker::Model;

/// One lane.
pub struct Lane<X> {
    values: BTreeMap<Text, X>,
}

// A `derive` would have each crate that lets lanes go prove anew how all that they hold is let go.
impl<X: Drop> Drop for Lane<X> {
    fn drop(self) {
        let Lane { values } = self;
        drop(values);
    }
}

impl<X> Model for Lane<X> {
    ghost use Rattle.std.specs.Prelude.{ℕ, List};
    ghost use Rattle.std.specs.Coded.{coded_ℕ, coded_list, coded×};
    ghost use Rattle.map_model.specs.Maps.{IsSorted};
    ghost use Rattle.value_model.specs.Order.{text_cmp};
    ghost use Rattle.lanes.specs.Lanes.{Named};

    ghost Value = { Named X };

    ghost coded = { coded_list (coded× (coded_list coded_ℕ) X.code) };

    ghost view = { λ a. a.values.entries };

    ghost invariant = { λ a. IsSorted text_cmp a.values.entries };
}

impl<X> Lane<X> {
    /// A lane with nothing in it.
    pub fn new(alloc: Global) -> Lane<X>
        ensures { result ≡ [] }
    {
        Lane {
            values: BTreeMap::new(alloc),
        }
    }

    /// Whether there is a value of this name.
    pub fn has(&self, name: &Text) -> bool
        ensures { result ≡ is_some (at text_cmp self.now name.now) }
    {
        self.values.contains_key(name)
    }
}

// It takes the name, so that nothing else is owned while memory is asked for.
fn put<X: Drop>(values: &mut BTreeMap<Text, X>, name: Text, value: X) -> Result<(), Mem>
    ensures ok { OnOk result (values.new.entries ≡ insert_entry text_cmp values.old.entries name value) }
    ensures err { OnErr result (values.new.entries ≡ values.old.entries) }
{
    drop(values.insert(name, value)?);
    Ok(())
}

impl<X: Drop> Lanes<X> for Lane<X> {
    ghost values = { λ a. a };

    fn fewest(&self) -> usize {
        self.values.len()
    }

    fn get(&self, name: &Text) -> Option<&X> {
        self.values.get(name)
    }

    fn get_mut(&mut self, name: &Text) -> Option<&mut X> {
        self.values.get_mut(name)
    }

    fn put(&mut self, name: Text, value: X) -> Result<(), Mem> {
        put(&mut self.values, name, value)
    }
}
