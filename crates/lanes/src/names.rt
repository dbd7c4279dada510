//! The names.
ghost use Rattle.std.specs.Prelude.{◌≡◌, ◌++◌, ◌∷◌, [], length, is_some, MatchOption, IfOk, OnOk, OnErr};
ghost use Rattle.std.specs.Map.{remove_entry};
ghost use Rattle.std.specs.BTreeMap.{is_at, insert_entry};
ghost use Rattle.map_model.specs.Maps.{at};
ghost use Rattle.value_model.specs.Order.{text_cmp};
ghost use Rattle.lanes.specs.Names.{NoneFrom, IsLeastFrom};

use ejson_value::{Mem, Text};
use std::alloc::Global;
use std::collections::BTreeMap;
use std::marker::Model;

/// Names in the order of their bytes, each once. A contract sees each with nothing beside it.
#[derive(Drop)]
pub struct Names {
    names: BTreeMap<Text, ()>,
}

impl Model for Names {
    ghost use Rattle.std.specs.Coded.{codes};
    ghost use Rattle.map_model.specs.Maps.{IsSorted};
    ghost use Rattle.value_model.specs.Order.{text_cmp};
    ghost use Rattle.lanes.specs.Names.{TheNames};

    ghost Value = { TheNames };

    ghost coded = { Prim.hlevel codes };

    ghost view = { λ a. a.names.entries };

    ghost invariant = { λ a. IsSorted text_cmp a.names.entries };
}

impl Names {
    /// There are none.
    pub fn new(alloc: Global) -> Names
        ensures { result ≡ [] }
    {
        Names {
            names: BTreeMap::new(alloc),
        }
    }

    /// How many there are.
    pub fn len(&self) -> usize
        ensures { result ≡ length self.now }
    {
        self.names.len()
    }

    /// Whether the name is among them.
    pub fn contains(&self, name: &Text) -> bool
        ensures { result ≡ is_some (at text_cmp self.now name.now) }
    {
        self.names.contains_key(name)
    }

    /// Puts the name among them.
    pub fn put(&mut self, name: &Text) -> Result<(), Mem>
        ensures ok { OnOk result (self.new ≡ insert_entry text_cmp self.old name.now tt) }
        ensures err { OnErr result (self.new ≡ self.old) }
    {
        let name = name.copy()?;
        drop(self.names.insert(name, ())?);
        Ok(())
    }

    /// Takes the name from among them.
    pub fn remove(&mut self, name: &Text)
        ensures { self.new ≡ remove_entry (is_at (text_cmp name.now)) self.old }
    {
        let _had = self.names.remove(name);
    }

    /// Takes them all away.
    pub fn clear(&mut self)
        ensures { self.new ≡ [] }
    {
        self.names.clear();
    }

    /// The least of them that is this text or stands behind it.
    pub fn from(&self, from: Text) -> Option<&Text>
        ensures { MatchOption result (NoneFrom from self.now) (λ name. IsLeastFrom from self.now name.now) }
    {
        match self.names.range(from..).next() {
            Some((name, _)) => Some(name),
            None => None,
        }
    }
}

/// The text that stands next behind this one.
pub fn behind(name: &Text) -> Result<Text, Mem>
    ensures { IfOk result (λ next. next ≡ name.now ++ 0 ∷ []) }
{
    let mut next = name.copy()?;
    next.push('\0')?;
    Ok(next)
}
