//! The acts that a phase lists.
ghost use Rattle.std.specs.Prelude.{◌≡◌, ◌++◌, map, IfOk, OnOk};
ghost use Rattle.connection.specs.world_model.declared.events.Act.TheVariants as act;
ghost use Rattle.connection.specs.world_model.Settle.{running_from, load_at, loads};
ghost use Rattle.connection.specs.session_state.Subs.{as_live};
ghost use Rattle.world_rounds_laws.specs.Listing.{behind_by, behind};
ghost use Rattle.world_core.specs.Acting.{learns_of};

use connection::session_state::Sub;
use connection::world_model::Act;
use ejson_value::Mem;
use std::alloc::Global;

/// The calls that run, each to be learnt of at this place of the history.
pub(crate) fn learns(alloc: Global, calls: &[u64], at: u64) -> Result<Vec<Act>, Mem>
    ensures { IfOk result (λ acts. acts.items ≡ learns_of at calls.now) }
{
    let mut acts = Vec::new(alloc);
    for k in calls {
        acts.push(Act::Learn { k: *k, at })?;
    }
    Ok(acts)
}

fn push_load(acts: &mut Vec<Act>, sub: &Sub, at: u64) -> Result<(), Mem>
    ensures { OnOk result (acts.new.items ≡ acts.old.items ++ load_at at (as_live sub.now)) }
{
    if sub.cursor.is_none() {
        acts.push(Act::Load { sub: sub.sub, at })?;
    }
    Ok(())
}

/// The subscriptions that aren't loaded, each to be loaded at this place of the history.
pub(crate) fn loads(alloc: Global, subs: &[Sub], at: u64) -> Result<Vec<Act>, Mem>
    ensures { IfOk result (λ acts. acts.items ≡ loads at (map as_live subs.now)) }
{
    let mut acts = Vec::new(alloc);
    for sub in subs {
        push_load(&mut acts, sub, at)?;
    }
    Ok(acts)
}

fn push_advance(acts: &mut Vec<Act>, sub: &Sub, entries: u64) -> Result<(), Mem>
    ensures { OnOk result (acts.new.items ≡ acts.old.items ++ behind_by entries sub.now.sub sub.now.cursor) }
{
    match sub.cursor {
        Some(at) if at < entries => acts.push(Act::Advance {
            sub: sub.sub,
            count: entries - at,
        })?,
        _ => {}
    }
    Ok(())
}

/// The subscriptions that show less than so many entries of the history, each to go on to the last.
pub(crate) fn advances(alloc: Global, subs: &[Sub], entries: u64) -> Result<Vec<Act>, Mem>
    ensures { IfOk result (λ acts. acts.items ≡ behind entries (map as_live subs.now)) }
{
    let mut acts = Vec::new(alloc);
    for sub in subs {
        push_advance(&mut acts, sub, entries)?;
    }
    Ok(acts)
}
