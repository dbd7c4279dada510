//! What the steps of a stub left so far, beside the view that they work on.
ghost use Rattle.std.specs.Prelude.{◌≡◌, ◌++◌, [], map, length, false, not, is_some, OnOk};
ghost use Rattle.std.specs.Option.{option_copied};
ghost use Rattle.std.specs.List.{list_any};
ghost use Rattle.std.specs.Ordering.{eq_by_cmp};
ghost use Rattle.map_model.specs.Maps.{at, set};
ghost use Rattle.map_model.specs.Changes.{changed};
ghost use Rattle.ejson_value.specs.declared.key.Key.{Key};
ghost use Rattle.ejson_value.specs.Key.{key_cmp};
ghost use Rattle.ejson_value.specs.Changes.{changes_of};
ghost use Rattle.program_model.specs.Touched.{keys_put};
ghost use Rattle.stub_simulation.specs.Simulating.{changed_keys};
ghost use Rattle.stub_simulation.specs.Drafts.{shown_by, is_changed, IsWithin, new_ids};

use crate::fitting::Totals;
use crate::traces::Traces;
use ejson_value::{Change, Contents, Doc, Key, Keys, Mem, Names};
use program_run::Effect;
use program_steps::ProgramStep;
use std::alloc::Global;

/// What steps left so far: the keys of the documents that they changed and touched, and what stands
/// now at the changed ones.
#[derive(Drop)]
pub(crate) struct Draft {
    pub(crate) traces: Traces,
    pub(crate) left: Contents,
    /// Of the view's documents with these changes.
    pub(crate) totals: Totals,
    /// The ids that were inserted, in order.
    pub(crate) made: Names,
    /// Whether the stub has ended, or was refused.
    pub(crate) is_over: bool,
}

// Puts what the change leaves at its key.
fn put_change(left: &mut Contents, change: &Change) -> Result<(), Mem>
    ensures { OnOk result (left.new ≡ set key_cmp left.old change.now.key change.now.after) }
{
    match &change.after {
        None => {
            drop(left.remove(&change.key));
            Ok(())
        }
        Some(doc) => left.put(change.key.copy()?, doc.copy()?),
    }
}

fn put_changes(left: &mut Contents, changes: &[Change]) -> Result<(), Mem>
    ensures { OnOk result (left.new ≡ changed key_cmp left.old (changes_of changes.now)) }
{
    for change in changes {
        put_change(left, change)?;
    }
    Ok(())
}

fn put_ids(made: &mut Names, keys: &[Key]) -> Result<(), Mem>
    ensures { OnOk result (made.new ≡ made.old ++ map (λ (key : Key). key.id) keys.now) }
{
    for key in keys {
        made.push(key.id.copy()?)?;
    }
    Ok(())
}

// A step that inserts has made the id of its document.
fn put_made(made: &mut Names, step: &ProgramStep, touched: &Keys) -> Result<(), Mem>
    ensures { OnOk result (made.new ≡ made.old ++ new_ids step.now touched.now) }
{
    match step {
        ProgramStep::Insert { .. } => put_ids(made, touched.as_slice()),
        ProgramStep::Update { .. }
        | ProgramStep::Remove { .. }
        | ProgramStep::Require { .. }
        | ProgramStep::Unblock
        | ProgramStep::Throw(_)
        | ProgramStep::Return(_)
        | ProgramStep::Guarded { .. } => Ok(()),
    }
}

impl Draft {
    /// Nothing was made yet over a view that has this much.
    pub(crate) fn new(alloc: Global, totals: Totals) -> Draft
        ensures changed { result.traces.changed ≡ [] }
        ensures touched { result.traces.touched ≡ [] }
        ensures left { result.left ≡ [] }
        ensures totals { result.totals ≡ totals }
        ensures made { result.made ≡ [] }
        ensures over { result.is_over ≡ false }
    {
        Draft {
            traces: Traces::new(alloc),
            left: Contents::new(alloc),
            totals,
            made: Names::new(alloc),
            is_over: false,
        }
    }

    /// Whether the steps left the document at the key as it is in the view.
    pub(crate) fn is_fresh(&self, key: &Key) -> bool
        ensures { result ≡ not (is_changed self.now key.now) }
    {
        !self.traces.changed.contains(key)
    }

    /// What stands now at the key.
    pub(crate) fn doc_at<'a>(&'a self, view: &'a Contents, key: &Key) -> Option<&'a Doc>
        requires { IsWithin self.now }
        ensures { option_copied result ≡ at key_cmp (shown_by view.now self.now) key.now }
    {
        view.known();
        if self.is_fresh(key) {
            view.get(key)
        } else {
            self.left.get(key)
        }
    }

    /// Takes what a step did, after which there is this much.
    pub(crate) fn take(
        &mut self,
        step: &ProgramStep,
        effect: &Effect,
        totals: Totals,
    ) -> Result<(), Mem>
        ensures changed { OnOk result (self.new.traces.changed ≡ keys_put self.old.traces.changed (changed_keys effect.now.changes)) }
        ensures touched { OnOk result (self.new.traces.touched ≡ keys_put self.old.traces.touched effect.now.touched) }
        ensures left { OnOk result (self.new.left ≡ changed key_cmp self.old.left (changes_of effect.now.changes)) }
        ensures totals { OnOk result (self.new.totals ≡ totals) }
        ensures made { OnOk result (self.new.made ≡ self.old.made ++ new_ids step.now effect.now.touched) }
        ensures over { OnOk result (self.new.is_over ≡ is_some effect.now.outcome) }
    {
        self.traces.add(effect)?;
        put_changes(&mut self.left, effect.changes.as_slice())?;
        put_made(&mut self.made, step, &effect.touched)?;
        self.totals = totals;
        self.is_over = effect.outcome.is_some();
        Ok(())
    }
}
