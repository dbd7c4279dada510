//! The listing of what is to be done.
ghost use Rattle.std.specs.Prelude.{◌≡◌, ◌++◌, map, true, option_map, IfOk, OnOk};
ghost use Rattle.session_state.specs.Subs.{as_live};
ghost use Rattle.session_state.specs.Calls.{as_phase, as_method, are_settled};
ghost use Rattle.session_state.specs.Own.{as_state, as_blocking};
ghost use Rattle.session_state.specs.Work.{as_work, work_of, as_place, as_source, source_of, unloaded_by, unloaded_in, cursors_by, cursors_in};
ghost use Rattle.session_state.specs.Work.{feeds_by, feeds_in, running_by, running_from};

use crate::{Call, Method, Own, Phase, Sub};
use ejson_value::{Items, Mem, Text, copy};
use std::alloc::Global;

/// A loaded subscription, and the place that it shows.
#[derive(Clone, Copy, Debug, PartialEq, Eq)]
pub struct Place {
    pub sub: u64,
    pub at: u64,
}

/// What a subscription is fed by: its publication's name and its parameters.
#[derive(Drop)]
pub struct Feed {
    pub name: Text,
    pub params: Items,
}

/// What is to be done for a session.
#[derive(Drop)]
pub struct Work {
    /// The call that blocks.
    pub call: Option<Call>,
    /// The subscriptions that aren't loaded, by rising number.
    pub unloaded: Vec<u64>,
    /// Those that are, by rising number, and what each is fed by; a subscription with a limited
    /// cursor is fed by its own observer alone, and has None.
    pub cursors: Vec<Place>,
    pub feeds: Vec<Option<Feed>>,
    /// The calls that run, by rising number.
    pub running: Vec<u64>,
}

fn copy_call(call: &Option<Call>) -> Result<Option<Call>, Mem>
    ensures { IfOk result (λ made. option_map as_blocking made ≡ option_map as_blocking call.now) }
{
    let Some(call) = call else {
        return Ok(None);
    };
    let method = call.method.copy()?;
    let params = call.params.copy()?;
    Ok(Some(Call {
        k: call.k,
        method,
        params,
        seed: copy(&call.seed)?,
    }))
}

fn push_unloaded(unloaded: &mut Vec<u64>, sub: &Sub) -> Result<(), Mem>
    ensures { OnOk result (unloaded.new.items ≡ unloaded.old.items ++ unloaded_by (as_live sub.now)) }
{
    if sub.cursor.is_none() {
        unloaded.push(sub.sub)?;
    }
    Ok(())
}

fn unloaded(alloc: Global, subs: &[Sub]) -> Result<Vec<u64>, Mem>
    ensures { IfOk result (λ made. made.items ≡ unloaded_in (map as_live subs.now)) }
{
    let mut unloaded = Vec::new(alloc);
    for sub in subs {
        push_unloaded(&mut unloaded, sub)?;
    }
    Ok(unloaded)
}

fn push_place(cursors: &mut Vec<Place>, sub: &Sub) -> Result<(), Mem>
    ensures { OnOk result (map as_place cursors.new.items ≡ map as_place cursors.old.items ++ cursors_by (as_live sub.now)) }
{
    if let Some(at) = sub.cursor {
        cursors.push(Place { sub: sub.sub, at })?;
    }
    Ok(())
}

fn cursors(alloc: Global, subs: &[Sub]) -> Result<Vec<Place>, Mem>
    ensures { IfOk result (λ made. map as_place made.items ≡ cursors_in (map as_live subs.now)) }
{
    let mut cursors = Vec::new(alloc);
    for sub in subs {
        push_place(&mut cursors, sub)?;
    }
    Ok(cursors)
}

fn feed_of(sub: &Sub) -> Result<Option<Feed>, Mem>
    ensures { IfOk result (λ feed. option_map as_source feed ≡ source_of (as_live sub.now)) }
{
    if sub.cursors.limited() {
        return Ok(None);
    }
    let name = sub.name.copy()?;
    Ok(Some(Feed {
        name,
        params: sub.params.copy()?,
    }))
}

fn push_feed(feeds: &mut Vec<Option<Feed>>, sub: &Sub) -> Result<(), Mem>
    ensures { OnOk result (map (option_map as_source) feeds.new.items ≡ map (option_map as_source) feeds.old.items ++ feeds_by (as_live sub.now)) }
{
    if sub.cursor.is_some() {
        feeds.push(feed_of(sub)?)?;
    }
    Ok(())
}

fn feeds(alloc: Global, subs: &[Sub]) -> Result<Vec<Option<Feed>>, Mem>
    ensures { IfOk result (λ made. map (option_map as_source) made.items ≡ feeds_in (map as_live subs.now)) }
{
    let mut feeds = Vec::new(alloc);
    for sub in subs {
        push_feed(&mut feeds, sub)?;
    }
    Ok(feeds)
}

fn push_running(running: &mut Vec<u64>, place: usize, method: &Method) -> Result<(), Mem>
    ensures { OnOk result (running.new.items ≡ running.old.items ++ running_by place (as_phase method.now.phase)) }
{
    if method.phase == Phase::Running {
        running.push(place as u64)?;
    }
    Ok(())
}

// None of the first ones is looked at, which are settled.
fn running_behind(alloc: Global, methods: &[Method], settled: usize) -> Result<Vec<u64>, Mem>
    requires { are_settled settled (map as_method methods.now) ≡ true }
    ensures { IfOk result (λ made. made.items ≡ running_from 0 (map as_method methods.now)) }
{
    let mut running = Vec::new(alloc);
    for place in settled..methods.len() {
        push_running(&mut running, place, &methods[place])?;
    }
    Ok(running)
}

/// The calls that run, by rising number.
pub fn running(alloc: Global, own: &Own) -> Result<Vec<u64>, Mem>
    ensures { IfOk result (λ made. made.items ≡ running_from 0 (as_state own.now).methods) }
{
    running_behind(alloc, own.methods.as_slice(), own.settled)
}

/// What is to be done.
pub fn tasks_of(alloc: Global, own: &Own) -> Result<Work, Mem>
    ensures { IfOk result (λ work. as_work work ≡ work_of (as_state own.now)) }
{
    let subs = own.subs.as_slice();
    let unloaded = unloaded(alloc, subs)?;
    let cursors = cursors(alloc, subs)?;
    let feeds = feeds(alloc, subs)?;
    let running = running(alloc, own)?;
    let call = copy_call(&own.blocking)?;
    Ok(Work {
        call,
        unloaded,
        cursors,
        feeds,
        running,
    })
}
