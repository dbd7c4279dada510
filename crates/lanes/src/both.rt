//! A lane beside others.
ghost use Rattle.std.specs.Prelude.{◌≡◌, []};

use crate::lane::Lane;
use crate::named::Lanes;
use ejson_value::{Mem, Text};
use std::marker::Model;

/// A lane, and others, of which none has a name of the other's.
pub struct Both<X, B: Lanes<X>> {
    pub one: Lane<X>,
    pub other: B,
}

// A `derive` would have each crate that lets them go prove anew how all that they hold is let go.
impl<X: Drop, B: Lanes<X> + Drop> Drop for Both<X, B> {
    fn drop(self) {
        let Both { one, other } = self;
        drop(one);
        drop(other);
    }
}

impl<X, B: Lanes<X>> Model for Both<X, B> {
    ghost use Rattle.std.specs.Prelude.{ℕ, List};
    ghost use Rattle.std.specs.Coded.{coded_ℕ, coded_list, coded×};
    ghost use Rattle.map_model.specs.Maps.{union};
    ghost use Rattle.value_model.specs.Order.{text_cmp};
    ghost use Rattle.lanes.specs.Lanes.{Named, AreLanes};

    ghost Value = { Named X };

    ghost coded = { coded_list (coded× (coded_list coded_ℕ) X.code) };

    ghost view = { λ a. union text_cmp a.one (B.values a.other) };

    ghost invariant = { λ a. AreLanes a.one (B.values a.other) };
}

impl<X, B: Lanes<X>> Both<X, B> {
    /// A lane and others, with nothing in them.
    pub fn new(one: Lane<X>, other: B) -> Both<X, B>
        requires one { one ≡ [] }
        requires other { B.values other ≡ [] }
        ensures { result ≡ [] }
    {
        Both { one, other }
    }
}

impl<X: Drop, B: Lanes<X>> Lanes<X> for Both<X, B> {
    ghost values = { λ a. a };

    fn fewest(&self) -> usize {
        self.one.fewest().min(self.other.fewest())
    }

    fn get(&self, name: &Text) -> Option<&X> {
        if self.one.has(name) {
            self.one.get(name)
        } else {
            self.other.get(name)
        }
    }

    fn get_mut(&mut self, name: &Text) -> Option<&mut X> {
        if self.one.has(name) {
            self.one.get_mut(name)
        } else {
            self.other.get_mut(name)
        }
    }

    fn put(&mut self, name: Text, value: X) -> Result<(), Mem> {
        if self.one.fewest() <= self.other.fewest() {
            self.one.put(name, value)
        } else {
            self.other.put(name, value)
        }
    }
}
