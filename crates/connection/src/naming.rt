//! The act that an event names.
ghost use Rattle.std.specs.Prelude.{◌≡◌, ◌<◌, option_map};
ghost use Rattle.connection.specs.world_model.Events.{number_of};
ghost use Rattle.connection.specs.world_model.declared.events.Act.TheVariants as act;
ghost use Rattle.connection.specs.Acting.{IsNamed};
ghost use Rattle.connection.specs.Named.{place_at, count_at, load_named, advance_named, named_at};

use crate::connection::Connection;
use crate::world_model::{Act, Event};
use ejson_value::{Text, Whole};

// The number, if it isn't below 0.
fn natural(number: Whole) -> Option<u64>
    ensures { result ≡ number_of number }
{
    let number = number.get();
    if number < 0 {
        None
    } else {
        Some(number as u64)
    }
}

// The place of a history of this length: its end where none is named. A number below 0 is none, as are
// those past the end.
fn place_at(entries: u64, at: Option<Whole>) -> u64
    requires { entries < 18446744073709551615 }
    ensures { result ≡ place_at entries at }
{
    let Some(at) = at else {
        return entries;
    };
    match natural(at) {
        Some(at) => at,
        None => entries + 1,
    }
}

// How many entries a subscription that shows this place is to go on: those to the end where no number is
// named.
fn count_at(entries: u64, cursor: Option<u64>, count: Option<Whole>) -> u64
    ensures { result ≡ count_at entries cursor count }
{
    match (count, cursor) {
        (Some(count), _) => natural(count).unwrap_or(0),
        (None, Some(cursor)) => entries.saturating_sub(cursor),
        (None, None) => 0,
    }
}

fn step_named(k: Whole) -> Option<Act>
    ensures { result ≡ option_map act.Step (number_of k) }
{
    Some(Act::Step { k: natural(k)? })
}

fn learn_named(entries: u64, k: Whole, at: Option<Whole>) -> Option<Act>
    requires { entries < 18446744073709551615 }
    ensures { result ≡ option_map (λ n. act.Learn n (place_at entries at)) (number_of k) }
{
    let k = natural(k)?;
    let at = place_at(entries, at);
    Some(Act::Learn { k, at })
}

fn load_named(connection: &Connection, entries: u64, id: &Text, at: Option<Whole>) -> Option<Act>
    requires { entries < 18446744073709551615 }
    ensures { result ≡ load_named connection.now.session.carried.own.subs entries id.now at }
{
    let sub = connection.sub_of(id)?;
    let at = place_at(entries, at);
    Some(Act::Load { sub, at })
}

fn advance_named(
    connection: &Connection,
    entries: u64,
    id: &Text,
    count: Option<Whole>,
) -> Option<Act>
    ensures { result ≡ advance_named connection.now.session.carried.own.subs entries id.now count }
{
    let sub = connection.sub_of(id)?;
    let count = count_at(entries, connection.cursor_of(sub), count);
    Some(Act::Advance { sub, count })
}

// The act that the event names, by what the session keeps.
fn named_at(connection: &Connection, entries: u64, event: &Event) -> Option<Act>
    requires { entries < 18446744073709551615 }
    ensures { result ≡ named_at connection.now.session.carried.own.subs entries event.now }
{
    match event {
        Event::Do { act, .. } => Some(*act),
        Event::Step { k, .. } => step_named(*k),
        Event::Learn { k, at, .. } => learn_named(entries, *k, *at),
        Event::Load { id, at, .. } => load_named(connection, entries, id, *at),
        Event::Advance { id, count, .. } => advance_named(connection, entries, id, *count),
        _ => None,
    }
}

impl Connection {
    /// The act of the client and its session that the event names over a history of this length, if it
    /// names one.
    pub fn named(&self, entries: u64, event: &Event) -> Option<Act>
        requires { entries < 18446744073709551615 }
        ensures { IsNamed self.now entries event.now result }
    {
        named_at(self, entries, event)
    }
}
