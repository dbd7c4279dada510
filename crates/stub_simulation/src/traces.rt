//! Which documents the steps of a simulation change and touch.
ghost use Rattle.std.specs.Prelude.{◌≡◌, [], OnOk};
ghost use Rattle.program_model.specs.Touched.{keys_put};
ghost use Rattle.stub_simulation.specs.Simulating.{changed_keys};

use crate::key_set::KeySet;
use ejson_value::{Change, Key, Mem};
use program_run::Effect;
use std::alloc::Global;

/// The keys of the documents that steps changed, and of those that they touched, each once.
#[derive(Drop)]
pub(crate) struct Traces {
    pub(crate) changed: KeySet,
    pub(crate) touched: KeySet,
}

fn put_keys(keys: &mut KeySet, more: &[Key]) -> Result<(), Mem>
    ensures { OnOk result (keys.new ≡ keys_put keys.old more.now) }
{
    for key in more {
        keys.put(key)?;
    }
    Ok(())
}

fn put_changed(keys: &mut KeySet, changes: &[Change]) -> Result<(), Mem>
    ensures { OnOk result (keys.new ≡ keys_put keys.old (changed_keys changes.now)) }
{
    for change in changes {
        keys.put(&change.key)?;
    }
    Ok(())
}

impl Traces {
    /// No document.
    pub(crate) fn new(alloc: Global) -> Traces
        ensures changed { result.changed ≡ [] }
        ensures touched { result.touched ≡ [] }
    {
        Traces {
            changed: KeySet::new(alloc),
            touched: KeySet::new(alloc),
        }
    }

    /// One step more.
    pub(crate) fn add(&mut self, effect: &Effect) -> Result<(), Mem>
        ensures changed { OnOk result (self.new.changed ≡ keys_put self.old.changed (changed_keys effect.now.changes)) }
        ensures touched { OnOk result (self.new.touched ≡ keys_put self.old.touched effect.now.touched) }
    {
        put_changed(&mut self.changed, effect.changes.as_slice())?;
        put_keys(&mut self.touched, effect.touched.as_slice())
    }
}
