//! The paths of a projection that were read so far.
ghost use Rattle.std.specs.Prelude.{◌≡◌, ◌<◌, [], ◌+◌, IfOk, OnOk};
ghost use Rattle.std.specs.List.{list_any};
ghost use Rattle.app_model.specs.Fields.{leads_to, Joins};

use ejson_value::{Mem, Path, Text};
use std::alloc::Global;
use std::collections::BTreeSet;
use std::marker::Model;

// Paths by their parts. A contract sees them in some order.
#[derive(Drop)]
pub(crate) struct Seen {
    paths: BTreeSet<Vec<Text>>,
}

impl Model for Seen {
    ghost use Rattle.std.specs.Prelude.{List, ℕ, map};

    ghost Value = { List (List (List ℕ)) };

    ghost view = { λ s. map (λ path. path.items) s.paths.keys };
}

// The names of the path's parts.
pub(crate) fn part_names(alloc: Global, path: &Path) -> Result<Vec<Text>, Mem>
    ensures { IfOk result (λ names. names.items ≡ path.now) }
{
    let mut names = Vec::new(alloc);
    for part in path.parts() {
        names.push(part.name().copy()?)?;
    }
    Ok(names)
}

impl Seen {
    pub(crate) fn new(alloc: Global) -> Seen
        ensures { result ≡ [] }
    {
        Seen {
            paths: BTreeSet::new(alloc),
        }
    }

    // Whether the path is one of them or goes on from one. Each beginning of the path is looked up.
    pub(crate) fn has_prefix(&self, path: &[Text]) -> bool
        ensures { result ≡ list_any (λ p. leads_to p path.now) self.now }
    {
        for end in 0..path.len() + 1 {
            if self.paths.contains(&path[..end]) {
                return true;
            }
        }
        false
    }

    pub(crate) fn put(&mut self, path: Vec<Text>) -> Result<(), Mem>
        ensures { OnOk result (Joins self.old self.new path.items) }
    {
        self.paths.insert(path)?;
        Ok(())
    }
}
