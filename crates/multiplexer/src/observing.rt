//! What an observer tells of changes.
ghost use Rattle.std.specs.Prelude.{◌≡◌, ◌+◌, ◌*◌, ◌≤◌, length, IfOk};
ghost use Rattle.std.specs.Arc.{arc_value};
ghost use Rattle.map_model.specs.Maps.{IsSorted};
ghost use Rattle.map_model.specs.Changes.{Leads};
ghost use Rattle.ejson_value.specs.Key.{key_cmp};
ghost use Rattle.ejson_value.specs.Rows.{Rows};
ghost use Rattle.ejson_value.specs.Changes.{changes_of, news_of};
ghost use Rattle.publication.specs.Published.{published};
ghost use Rattle.live_observer.specs.Observing.{cursors_of, HaveNoLimit, IsDifference};
ghost use Rattle.multiplexer.specs.Inside.{seen_entry};
ghost use Rattle.multiplexer.specs.Sources.{entry_of};
ghost use Rattle.multiplexer.specs.Telling.{news_in};

use crate::entry::Told;
use ejson_value::{Change, Mem, Publishes};
use live_observer::Observer;
use selector_match::Steps;
use std::alloc::Global;
use std::sync::Arc;
use std::sync::ledger::Ledger;

// What it tells, with no plan of its own: it keeps no documents.
fn stepped<L: Ledger>(
    observer: &Observer,
    changes: &[Change],
    steps: &mut Steps<L>,
) -> Result<Publishes, Mem>
    ensures differs { HaveNoLimit (cursors_of observer.now) → (rows rows' : Rows) → IsSorted key_cmp rows → Leads key_cmp (changes_of changes.now) rows rows' →
        IfOk result (λ told. IsDifference (published (cursors_of observer.now) rows) (published (cursors_of observer.now) rows') (news_of told)) }
    ensures grows { steps.old ≤ steps.new }
    ensures ticks { steps.new ≤ steps.old + length observer.now * (2 * length changes.now) }
{
    observer.stands_anywhere();
    let (told, plan) = observer.step(changes, steps)?;
    drop(plan);
    Ok(told)
}

fn shared(alloc: Global, told: Publishes) -> Result<Told, Mem>
    ensures news { IfOk result (λ shared. arc_value shared.news ≡ told) }
    ensures entry { IfOk result (λ shared. seen_entry shared ≡ entry_of told) }
{
    let news = Arc::new(alloc, told)?;
    Told::new(alloc, news)
}

/// What an observer none of whose cursors has a limit tells of changes that lead from any documents to
/// others: by key, each key at which its cursors publish something else then, with the document or none.
/// No text of it is known. It looks at most at the two documents of each change for each cursor.
pub(crate) fn observed<L: Ledger>(
    alloc: Global,
    observer: &Observer,
    changes: &[Change],
    steps: &mut Steps<L>,
) -> Result<Told, Mem>
    ensures differs { HaveNoLimit (cursors_of observer.now) → (rows rows' : Rows) → IsSorted key_cmp rows → Leads key_cmp (changes_of changes.now) rows rows' →
        IfOk result (λ told. IsDifference (published (cursors_of observer.now) rows) (published (cursors_of observer.now) rows') (news_in (seen_entry told))) }
    ensures entry { IfOk result (λ told. seen_entry told ≡ entry_of (arc_value told.news)) }
    ensures grows { steps.old ≤ steps.new }
    ensures ticks { steps.new ≤ steps.old + length observer.now * (2 * length changes.now) }
{
    let told = stepped(observer, changes, steps)?;
    shared(alloc, told)
}
