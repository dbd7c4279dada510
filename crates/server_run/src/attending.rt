//! The thread of a connection.
ghost use Rattle.std.specs.Prelude.{◌≡◌, ◌<◌};

use crate::hall::{Hall, Others};
use duct::Link;
use server_connection::serve_connection;
use shared_session::HeldSession;
use shared_store::{Caller, StoreName, StorePass};
use std::alloc::Global;
use std::sync::{Arc, Wait};

/// What a connection's thread is given: its link, and by which its session asks the store.
#[derive(Drop)]
pub(crate) struct Guest<N: StoreName, L: Drop> {
    link: L,
    pass: StorePass<N>,
    caller: Caller<N>,
    ghost some: { 0 < caller.number },
    ghost none: { caller.made ≡ 0 },
}

impl<N: StoreName, L: Drop> Guest<N, L> {
    pub(crate) fn new(link: L, pass: StorePass<N>, caller: Caller<N>) -> Guest<N, L>
        requires some { 0 < caller.number }
        requires none { caller.made ≡ 0 }
    {
        Guest { link, pass, caller }
    }
}

// Serves the connection until it ends. It is let go at once where there is no memory for its session.
fn serve_guest<R: Wait, N: StoreName, L: Link + Drop>(
    rt: &R,
    hall: &Hall<N, L>,
    key: usize,
    guest: Guest<N, L>,
) {
    let Guest {
        mut link,
        mut pass,
        mut caller,
    } = guest;
    let own = pass.note(hall.store.log()).pass();
    let made = HeldSession::make(hall.alloc, &hall.app, caller.number(), own);
    if let Ok(mut session) = made {
        let others = Others { rt, hall, key };
        serve_connection(
            rt,
            &hall.store,
            &hall.multiplexer,
            &others,
            &mut pass,
            &mut caller,
            &mut session,
            &mut link,
        );
    }
}

/// What a connection's thread does. As its last act it gives the place back.
pub(crate) fn attend<R: Wait + Copy, N: StoreName, L: Link + Drop>(
    rt: R,
    hall: Arc<Hall<N, L>, Global>,
    key: usize,
    guest: Guest<N, L>,
) {
    serve_guest(&rt, &hall, key, guest);
    hall.leave(&rt, key);
}
