//! How many documents there are, and whether a step is taken that ran over those alone that it looks at.
ghost use Rattle.std.specs.Prelude.{◌≡◌, ◌+◌, ◌||◌, IfOk, is_none, nat_lt};
ghost use Rattle.ejson_value.specs.Key.{key_cmp};
ghost use Rattle.collection_store.specs.Limits.{old_bytes, new_bytes, max_documents, max_bytes};
ghost use Rattle.stub_simulation.specs.Drafts.{shown_by, IsWithin, old_count, new_count, is_past, is_new, is_taken};

use crate::draft::Draft;
use counted_contents::bytes_after;
use ejson_value::{Changes, Contents, Mem};
use program_steps::ProgramStep;

const MAX_DOCUMENTS: usize = 262_144;

const MAX_BYTES: u64 = 67_108_864;

/// How many documents there are, and how many bytes they have.
#[derive(Clone, Copy)]
pub(crate) struct Totals {
    pub(crate) documents: usize,
    pub(crate) bytes: u64,
}

fn old_count(changes: &Changes) -> usize
    ensures { result ≡ old_count changes.now }
{
    changes
        .as_slice()
        .iter()
        .filter(|change| change.before.is_some())
        .count()
}

fn new_count(changes: &Changes) -> usize
    ensures { result ≡ new_count changes.now }
{
    changes
        .as_slice()
        .iter()
        .filter(|change| change.after.is_some())
        .count()
}

// So many documents fit in memory.
fn documents_after(documents: usize, changes: &Changes) -> Result<usize, Mem>
    ensures { IfOk result (λ after. after + old_count changes.now ≡ documents + new_count changes.now) }
{
    let old = old_count(changes);
    match documents.checked_add(new_count(changes)) {
        None => Err(Mem),
        Some(all) => all.checked_sub(old).ok_or(Mem),
    }
}

impl Totals {
    /// How much there is once the changes are made.
    pub(crate) fn after(self, changes: &Changes) -> Result<Totals, Mem>
        ensures documents { IfOk result (λ after. after.documents + old_count changes.now ≡ self.documents + new_count changes.now) }
        ensures bytes { IfOk result (λ after. after.bytes + old_bytes changes.now ≡ self.bytes + new_bytes changes.now) }
    {
        let documents = documents_after(self.documents, changes)?;
        let bytes = bytes_after(self.bytes, changes)?;
        Ok(Totals { documents, bytes })
    }

    // Whether a store holds less.
    fn is_past(self) -> bool
        ensures { result ≡ is_past self.documents self.bytes }
    {
        self.documents > MAX_DOCUMENTS || self.bytes > MAX_BYTES
    }
}

// Whether there is a first change, and nothing stands at its key.
fn is_new(view: &Contents, draft: &Draft, changes: &Changes) -> bool
    requires { IsWithin draft.now }
    ensures { result ≡ is_new (shown_by view.now draft.now) changes.now }
{
    match changes.get(0) {
        None => false,
        Some(change) => draft.doc_at(view, &change.key).is_none(),
    }
}

/// Whether the step is taken that made these changes over the documents that it looks at, and leaves
/// this much in all.
pub(crate) fn is_taken(
    view: &Contents,
    draft: &Draft,
    step: &ProgramStep,
    changes: &Changes,
    totals: Totals,
) -> bool
    requires { IsWithin draft.now }
    ensures { result ≡ is_taken (shown_by view.now draft.now) step.now changes.now totals.documents totals.bytes }
{
    match step {
        ProgramStep::Insert { .. } => is_new(view, draft, changes) && !totals.is_past(),
        ProgramStep::Update { .. } => !totals.is_past(),
        ProgramStep::Guarded { .. } => false,
        ProgramStep::Remove { .. }
        | ProgramStep::Require { .. }
        | ProgramStep::Unblock
        | ProgramStep::Throw(_)
        | ProgramStep::Return(_) => true,
    }
}
