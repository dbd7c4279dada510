//! What a cursor without a limit tells of changes.
ghost use Rattle.std.specs.Prelude.{◌≡◌, ◌+◌, ◌*◌, ◌≤◌, ◌++◌, [], length, map, None, Some, IfOk, OnOk, option_map};
ghost use Rattle.map_model.specs.Maps.{at, set, keyed, IsSorted};
ghost use Rattle.value_model.specs.Order.{text_cmp};
ghost use Rattle.live_observer.specs.Noting.{before_first, net_of, noted, all_noted, net_told, all_told};

use crate::shown::{is_same, plain};
use ejson_value::{Change, Doc, ListOf, Mem, Text, copy_option};
use publication::Cursor;
use selector_match::Steps;
use sort_window::{Shown, ShownList};
use std::alloc::Global;
use std::collections::BTreeMap;
use std::sync::ledger::Ledger;

/// What a cursor published of a document before some changes, and what it publishes after them.
#[derive(Drop)]
pub(crate) struct Net {
    before: Option<Doc>,
    after: Option<Doc>,
}

// By the documents' ids.
type Nets = BTreeMap<Text, Net>;

// What was published at the change's id before the first change there, of which this is noted.
fn before_first<L: Ledger>(
    alloc: Global,
    held: Option<&Net>,
    cursor: &Cursor,
    change: &Change,
    steps: &mut Steps<L>,
) -> Result<Option<Doc>, Mem>
    ensures value { IfOk result (λ before. before ≡ before_first cursor.now change.now (option_map (λ net. net.now) held.entry)) }
    ensures grows { steps.old ≤ steps.new }
    ensures ticks { steps.new ≤ steps.old + 1 }
{
    match held {
        None => plain(alloc, cursor, &change.key.id, &change.before, steps),
        Some(net) => copy_option(&net.before),
    }
}

// Notes what is published at the id of a change in the cursor's collection.
fn note_own<L: Ledger>(
    alloc: Global,
    nets: &mut Nets,
    cursor: &Cursor,
    change: &Change,
    steps: &mut Steps<L>,
) -> Result<(), Mem>
    ensures value { OnOk result (nets.new.entries
        ≡ set text_cmp nets.old.entries change.now.key.id (Some (net_of cursor.now (at text_cmp nets.old.entries change.now.key.id) change.now))) }
    ensures grows { steps.old ≤ steps.new }
    ensures ticks { steps.new ≤ steps.old + 2 }
{
    let before = before_first(alloc, nets.get(&change.key.id), cursor, change, steps)?;
    let after = plain(alloc, cursor, &change.key.id, &change.after, steps)?;
    drop(nets.insert(change.key.id.copy()?, Net { before, after })?);
    Ok(())
}

fn note<L: Ledger>(
    alloc: Global,
    nets: &mut Nets,
    cursor: &Cursor,
    change: &Change,
    steps: &mut Steps<L>,
) -> Result<(), Mem>
    ensures value { OnOk result (nets.new.entries ≡ noted cursor.now nets.old.entries change.now) }
    ensures grows { steps.old ≤ steps.new }
    ensures ticks { steps.new ≤ steps.old + 2 }
{
    if cursor.collection == change.key.collection {
        note_own(alloc, nets, cursor, change, steps)
    } else {
        Ok(())
    }
}

fn note_all<L: Ledger>(
    alloc: Global,
    nets: &mut Nets,
    cursor: &Cursor,
    changes: &[Change],
    steps: &mut Steps<L>,
) -> Result<(), Mem>
    ensures value { OnOk result (nets.new.entries ≡ all_noted cursor.now nets.old.entries changes.now) }
    ensures grows { steps.old ≤ steps.new }
    ensures ticks { steps.new ≤ steps.old + 2 * length changes.now }
{
    for change in changes {
        note(alloc, nets, cursor, change, steps)?;
    }
    Ok(())
}

// Tells what is published of a document, if it is something else than before.
fn tell(told: &mut ShownList, id: Text, net: Net) -> Result<(), Mem>
    ensures { OnOk result (map (λ one. (one.id, one.doc)) told.new ≡ map (λ one. (one.id, one.doc)) told.old ++ keyed id (net_told id net) []) }
{
    let Net { before, after } = net;
    if is_same(&before, &after) {
        return Ok(());
    }
    told.push(Shown { id, doc: after })
}

fn listed(alloc: Global, nets: Nets) -> Result<ShownList, Mem>
    ensures told { IfOk result (λ told. map (λ one. (one.id, one.doc)) told ≡ all_told nets.entries) }
    ensures ordered { IfOk result (λ told. IsSorted text_cmp nets.entries) }
{
    let mut told = ListOf::new(alloc);
    for (id, net) in nets {
        tell(&mut told, id, net)?;
    }
    Ok(told)
}

// What the cursor tells of one change in its collection.
fn told_own<L: Ledger>(
    alloc: Global,
    cursor: &Cursor,
    change: &Change,
    steps: &mut Steps<L>,
) -> Result<ShownList, Mem>
    ensures told { IfOk result (λ told. map (λ one. (one.id, one.doc)) told ≡
        keyed change.now.key.id (net_told change.now.key.id (net_of cursor.now None change.now)) []) }
    ensures grows { steps.old ≤ steps.new }
    ensures ticks { steps.new ≤ steps.old + 2 }
{
    let id = &change.key.id;
    let before = plain(alloc, cursor, id, &change.before, steps)?;
    let after = plain(alloc, cursor, id, &change.after, steps)?;
    let mut told = ListOf::new(alloc);
    tell(&mut told, id.copy()?, Net { before, after })?;
    Ok(told)
}

// What the cursor tells of one change.
fn told_once<L: Ledger>(
    alloc: Global,
    cursor: &Cursor,
    change: &Change,
    steps: &mut Steps<L>,
) -> Result<ShownList, Mem>
    ensures told { IfOk result (λ told. map (λ one. (one.id, one.doc)) told ≡ all_told (noted cursor.now [] change.now)) }
    ensures grows { steps.old ≤ steps.new }
    ensures ticks { steps.new ≤ steps.old + 2 }
{
    if cursor.collection != change.key.collection {
        return Ok(ListOf::new(alloc));
    }
    told_own(alloc, cursor, change, steps)
}

// What the cursor tells of the changes, of which several may be at one id.
fn told_by_id<L: Ledger>(
    alloc: Global,
    cursor: &Cursor,
    changes: &[Change],
    steps: &mut Steps<L>,
) -> Result<ShownList, Mem>
    ensures told { IfOk result (λ told. map (λ one. (one.id, one.doc)) told ≡ all_told (all_noted cursor.now [] changes.now)) }
    ensures ordered { IfOk result (λ told. IsSorted text_cmp (all_noted cursor.now [] changes.now)) }
    ensures grows { steps.old ≤ steps.new }
    ensures ticks { steps.new ≤ steps.old + 2 * length changes.now }
{
    let mut nets = BTreeMap::new(alloc);
    note_all(alloc, &mut nets, cursor, changes, steps)?;
    listed(alloc, nets)
}

/// What the cursor, which has no limit, tells of the changes, by id.
pub(crate) fn told_plain<L: Ledger>(
    alloc: Global,
    cursor: &Cursor,
    changes: &[Change],
    steps: &mut Steps<L>,
) -> Result<ShownList, Mem>
    ensures told { IfOk result (λ told. map (λ one. (one.id, one.doc)) told ≡ all_told (all_noted cursor.now [] changes.now)) }
    ensures ordered { IfOk result (λ told. IsSorted text_cmp (all_noted cursor.now [] changes.now)) }
    ensures grows { steps.old ≤ steps.new }
    ensures ticks { steps.new ≤ steps.old + 2 * length changes.now }
{
    match changes {
        [change] => told_once(alloc, cursor, change, steps),
        _ => told_by_id(alloc, cursor, changes, steps),
    }
}
