//! What the threads of a server share.
ghost use Rattle.std.specs.Prelude.{◌≡◌};

use app_model::App;
use duct::{Bell, Link};
use server_connection::Wakes;
use shared_multiplexer::SharedMultiplexer;
use shared_store::{SharedStore, StoreName};
use slab::Slab;
use std::alloc::Global;
use std::sync::{Mutex, Wait};

/// How many connections have a place at once.
pub const PLACES: usize = 128;

/// The store, its application, what publications tell of its history, and the places of the connections, each with the bell of its link.
#[derive(Drop)]
pub(crate) struct Hall<N: StoreName, L: Link> {
    pub(crate) alloc: Global,
    pub(crate) app: App,
    pub(crate) store: SharedStore<N>,
    pub(crate) multiplexer: SharedMultiplexer<N>,
    places: Mutex<Slab<L::Bell>>,
    ghost of: { app ≡ N.app },
}

impl<N: StoreName, L: Link> Hall<N, L> {
    /// A hall with no connection.
    pub(crate) fn new(
        alloc: Global,
        app: App,
        store: SharedStore<N>,
        multiplexer: SharedMultiplexer<N>,
    ) -> Hall<N, L>
        requires { app ≡ N.app }
    {
        Hall {
            alloc,
            app,
            store,
            multiplexer,
            places: Mutex::new(Slab::new(alloc)),
        }
    }

    /// A place for one more connection, if one is free: its key.
    pub(crate) fn enter<R: Wait>(&self, rt: &R, bell: L::Bell) -> Option<usize> {
        let mut places = self.places.lock(rt);
        if places.len() < PLACES {
            places.insert(bell).ok()
        } else {
            None
        }
    }

    /// The place is free again.
    pub(crate) fn leave<R: Wait>(&self, rt: &R, key: usize) {
        let mut places = self.places.lock(rt);
        drop(places.try_remove(key));
    }
}

/// Who has a place, but for the one with this key.
#[derive(Drop)]
pub(crate) struct Others<'h, R: Wait, N: StoreName, L: Link> {
    pub(crate) rt: &'h R,
    pub(crate) hall: &'h Hall<N, L>,
    pub(crate) key: usize,
}

impl<R: Wait, N: StoreName, L: Link> Wakes for Others<'_, R, N, L> {
    fn wake(&self) {
        let places = self.hall.places.lock(self.rt);
        for (key, bell) in places.iter() {
            if key != self.key {
                bell.ring();
            }
        }
    }
}
