//! The thread that accepts connections.
ghost use Rattle.std.specs.Prelude.{◌≡◌, ◌+◌, ℕ, [], OnOk, IfErr};
ghost use mathlib.Core.List.{Mem as has};
ghost use Rattle.duct.specs.Told.{CountsFaults};
ghost use Rattle.duct.specs.Networks.{network_failed};

use crate::attending::{Guest, attend};
use crate::hall::{Hall, PLACES};
use app_model::App;
use duct::{Link, NetFault, Network};
use ejson_value::Mem;
use shared_multiplexer::SharedMultiplexer;
use shared_store::{Callers, SharedStore, StoreName, StorePass};
use std::alloc::Global;
use std::sync::{Arc, Wait};
use std::thread;
use std::thread::{JoinHandle, Threads};

// How many callers a store may have at once.
const CALLERS: u64 = 65_536;

/// What the accepting thread holds: the hall, whence a new connection's pass and caller come, and the thread of each place.
#[derive(Drop)]
pub(crate) struct Door<N: StoreName, L: Link> {
    hall: Arc<Hall<N, L>, Global>,
    pass: StorePass<N>,
    callers: Callers<N>,
    sessions: u32,
    threads: Vec<Option<JoinHandle<()>>>,
}

impl<N: StoreName + Send + Sync + 'static, L: Link + Send + Drop + 'static> Door<N, L> {
    /// The door of a hall that nobody has entered.
    pub(crate) fn open(
        alloc: Global,
        app: &App,
        store: SharedStore<N>,
        mut pass: StorePass<N>,
        callers: Callers<N>,
    ) -> Result<Door<N, L>, Mem>
        requires { app.now ≡ N.app }
    {
        let multiplexer = SharedMultiplexer::make(alloc, pass.note(store.log()).pass());
        let hall = Arc::new(alloc, Hall::new(alloc, app.copy()?, store, multiplexer))?;
        let mut threads = Vec::new(alloc);
        for _ in 0..PLACES {
            threads.push(None)?;
        }
        Ok(Door {
            hall,
            pass,
            callers,
            sessions: 0,
            threads,
        })
    }

    // What the thread of the next session is given.
    fn next_guest(&mut self, link: L) -> Option<Guest<N, L>> {
        let number = self.sessions.checked_add(1)?;
        if self.callers.out() >= CALLERS {
            return None;
        }
        let Ok(Some(caller)) = self.callers.caller(self.hall.store.log(), number) else {
            return None;
        };
        self.sessions = number;
        let pass = self.pass.note(self.hall.store.log()).pass();
        Some(Guest::new(link, pass, caller))
    }

    // A thread has this place. The one that had it before has given it back, and is about to end.
    fn keep<R: Threads>(&mut self, rt: &R, key: usize, thread: JoinHandle<()>) {
        let before = match self.threads.get_mut(key) {
            Some(place) => place.replace(thread),
            None => Some(thread),
        };
        if let Some(before) = before {
            before.join(rt);
        }
    }

    // The connection is served by a thread of its own, or by this one where none can be made.
    fn begin<R: Threads + Wait + Copy + Send + Sync + 'static>(
        &mut self,
        rt: &R,
        hall: Arc<Hall<N, L>, Global>,
        key: usize,
        guest: Guest<N, L>,
    ) {
        let rt = *rt;
        let served = move ||
            requires { (a : ℕ) → has a L.Bell.row.lives → has a [] }
        { attend(rt, hall, key, guest) };
        match thread::spawn(&rt, served) {
            Ok(thread) => self.keep(&rt, key, thread),
            Err(refused) => {
                let serve_here = refused.value;
                serve_here();
            }
        }
    }

    /// Gives the connection a place, a session of the next number, and a thread. It is let go where no place is free, or no
    /// memory is left for it.
    pub(crate) fn seat<R: Threads + Wait + Copy + Send + Sync + 'static>(
        &mut self,
        rt: &R,
        link: L,
    ) {
        let Ok(bell) = link.bell() else {
            return;
        };
        let Ok(hall) = Arc::try_clone(&self.hall) else {
            return;
        };
        let Some(key) = hall.enter(rt, bell) else {
            return;
        };
        match self.next_guest(link) {
            Some(guest) => self.begin(rt, hall, key, guest),
            None => hall.leave(rt, key),
        }
    }

    /// All connections end.
    pub(crate) fn close<R: Threads>(self, rt: &R) {
        for place in self.threads {
            if let Some(thread) = place {
                thread.join(rt);
            }
        }
    }
}

/// Accepts so many connections, and gives each a place.
pub(crate) fn accept_all<
    N: StoreName + Send + Sync + 'static,
    W: Network,
    R: Threads + Wait + Copy + Send + Sync + 'static,
>(rt: &R, door: &mut Door<N, W::Link>, net: &mut W, connections: u32) -> Result<(), NetFault>
where
    W::Link: 'static,
    ensures given { OnOk result (W.given net.new ≡ W.given net.old + connections) }
    ensures sound { OnOk result (W.faults net.new ≡ W.faults net.old) }
    ensures faults { IfErr result (λ fault. CountsFaults (network_failed fault) (W.faults net.old) (W.faults net.new)) }
{
    for _ in 0..connections {
        let link = net.accept()?;
        door.seat(rt, link);
    }
    Ok(())
}
