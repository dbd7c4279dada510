//! Clients are told in turn, or those of each lane by a thread; so are the documents of a store printed.
ghost use Rattle.std.specs.Prelude.{◌≡◌, length, IfOk};
ghost use Rattle.std.specs.Thread.{IsSync};
ghost use Rattle.map_model.specs.Maps.{union};
ghost use Rattle.value_model.specs.Order.{text_cmp};
ghost use Rattle.world_core.specs.history_model.Lines.{store_lines};
ghost use Rattle.world_core.specs.store_machine.State.{held_by};
ghost use Rattle.world_news_laws.specs.News.{AreNews};
ghost use Rattle.lanes.specs.Lanes.{AreTold, AreLanes};
ghost use Rattle.world_core.specs.Visits.{AreReady, Tells, Leads};

use crate::clients::{Clients, NoLane};
use crate::connection::Connection;
use crate::multiplexer::Multiplexer;
use crate::store_machine::Machine;
use crate::telling::{either, told_in_turn};
use ejson_codec::Lines;
use ejson_value::{Mem, Text};
use heard_messages::Heard;
use history_log::store_lines;
use lanes::{Both, Lane, Lanes};
use std::alloc::Global;
use std::marker::Sync;
use std::thread::{Threads, available_parallelism, join_mut};

/// How many entries of the history there are to show, to all of them together, so that threads are worth
/// it.
const MUCH_WORK: u64 = 1000;

/// How many documents there are, so that threads are worth it to print them.
const MANY_DOCUMENTS: usize = 1000;

// How many lanes there are.
const LANES: usize = 4;

// What there is to show goes to those of these names that are in the lane. Nothing is taken that
// publications told before.
fn told_alone(
    alloc: Global,
    machine: &Machine,
    names: &[Text],
    lane: &mut Lane<Connection>,
) -> Result<bool, Mem>
    requires { AreReady machine.now lane.old }
    ensures { AreTold (Tells machine.now) (Leads machine.now) names.now lane.old lane.new result }
{
    let mut news = Multiplexer::new(alloc);
    let mut heard = Heard::new(alloc);
    told_in_turn(alloc, machine, &mut news, &mut heard, names, lane)
}

// Lanes each of which a thread tells.
trait ByThreads: Lanes<Connection> {
    // What there is to show goes to those of these names that are in the lanes.
    fn told_by_threads<R: Threads>(
        rt: &R,
        alloc: Global,
        machine: &Machine,
        names: &[Text],
        clients: &mut Self,
    ) -> Result<bool, Mem>
        requires { AreReady machine.now (Self.values clients.old) }
        ensures { AreTold (Tells machine.now) (Leads machine.now) names.now (Self.values clients.old) (Self.values clients.new) result };
}

impl ByThreads for NoLane {
    fn told_by_threads<R: Threads>(
        _rt: &R,
        _alloc: Global,
        _machine: &Machine,
        _names: &[Text],
        _clients: &mut NoLane,
    ) -> Result<bool, Mem> {
        Ok(false)
    }
}

// A thread tells the lane, while this one has the others told: a thread that has just been made may wait for the
// processor of the one that made it, so that this one tells none.
fn both_told<R: Threads, B: ByThreads>(
    rt: &R,
    alloc: Global,
    machine: &Machine,
    names: &[Text],
    one: &mut Lane<Connection>,
    other: &mut B,
) -> Result<bool, Mem>
    requires lanes { AreLanes one.old (B.values other.old) }
    requires one { AreReady machine.now one.old }
    requires other { AreReady machine.now (B.values other.old) }
    ensures told { AreTold (Tells machine.now) (Leads machine.now) names.now
        (union text_cmp one.old (B.values other.old)) (union text_cmp one.new (B.values other.new)) result }
    ensures lanes { AreLanes one.new (B.values other.new) }
{
    let (first, second) = join_mut(
        rt,
        &mut || -> Result<bool, Mem>
            requires { AreReady machine.now one.now }
            ensures { AreTold (Tells machine.entry.now) (Leads machine.entry.now) names.entry.now one.entry.now one.exit.now result }
        { told_alone(alloc, machine, names, one) },
        &mut || -> Result<bool, Mem>
            requires { AreReady machine.now (B.values other.now) }
            ensures { AreTold (Tells machine.entry.now) (Leads machine.entry.now) names.entry.now (B.values other.entry.now) (B.values other.exit.now) result }
        { B::told_by_threads(rt, alloc, machine, names, other) },
    );
    either(first, second)
}

impl<B: ByThreads> ByThreads for Both<Connection, B> {
    fn told_by_threads<R: Threads>(
        rt: &R,
        alloc: Global,
        machine: &Machine,
        names: &[Text],
        clients: &mut Both<Connection, B>,
    ) -> Result<bool, Mem> {
        both_told(
            rt,
            alloc,
            machine,
            names,
            &mut clients.one,
            &mut clients.other,
        )
    }
}

// Whether there is a processor for each lane.
fn are_many(rt: &impl Threads) -> bool {
    match available_parallelism(rt) {
        Ok(count) => count.get() >= LANES,
        Err(_) => false,
    }
}

/// How clients are told, and documents printed.
pub trait Hands {
    /// What it takes.
    ghost ready: { Type 0 };

    /// What there is to show, which is so many entries for all of them together, goes to those of these
    /// names that are among the clients. Whether any act was made.
    fn tell(
        &self,
        alloc: Global,
        machine: &Machine,
        news: &mut Multiplexer,
        heard: &mut Heard,
        names: &[Text],
        work: u64,
        clients: &mut Clients,
    ) -> Result<bool, Mem>
        requires ready { ready }
        requires clients { AreReady machine.now clients.old }
        requires news { AreNews machine.now news.old }
        ensures told { AreTold (Tells machine.now) (Leads machine.now) names.now clients.old clients.new result }
        ensures news { AreNews machine.now news.new };

    /// What `store` prints.
    fn store_lines(&self, alloc: Global, machine: &Machine) -> Result<Lines, Mem>
        requires { ready }
        ensures { IfOk result (λ lines. lines ≡ store_lines (length machine.now.history) (held_by machine.now).rows) };
}

/// One after another.
#[derive(Drop)]
pub struct InTurn;

impl Hands for InTurn {
    ghost ready = { Unit {0} };

    fn tell(
        &self,
        alloc: Global,
        machine: &Machine,
        news: &mut Multiplexer,
        heard: &mut Heard,
        names: &[Text],
        _work: u64,
        clients: &mut Clients,
    ) -> Result<bool, Mem> {
        told_in_turn(alloc, machine, news, heard, names, clients)
    }

    fn store_lines(&self, _alloc: Global, machine: &Machine) -> Result<Lines, Mem> {
        machine.store_lines()
    }
}

/// By threads, where there is much work and a processor for each lane.
#[derive(Drop)]
pub struct OnThreads<'a, R> {
    rt: &'a R,
}

impl<'a, R: Threads + Sync> OnThreads<'a, R> {
    /// By threads of this runtime.
    pub fn new(rt: &'a R) -> OnThreads<'a, R> {
        OnThreads { rt }
    }
}

impl<'a, R: Threads + Sync> Hands for OnThreads<'a, R> {
    ghost ready = { IsSync R.row };

    fn tell(
        &self,
        alloc: Global,
        machine: &Machine,
        news: &mut Multiplexer,
        heard: &mut Heard,
        names: &[Text],
        work: u64,
        clients: &mut Clients,
    ) -> Result<bool, Mem> {
        if work < MUCH_WORK || names.len() < 2 || !are_many(self.rt) {
            return told_in_turn(alloc, machine, news, heard, names, clients);
        }
        Clients::told_by_threads(self.rt, alloc, machine, names, clients)
    }

    fn store_lines(&self, alloc: Global, machine: &Machine) -> Result<Lines, Mem> {
        if machine.contents().len() < MANY_DOCUMENTS || !are_many(self.rt) {
            return machine.store_lines();
        }
        store_lines(self.rt, alloc, machine.length(), machine.contents())
    }
}
