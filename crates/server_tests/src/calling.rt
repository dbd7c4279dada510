//! The one place where these tests call the loops.
ghost use Rattle.std.specs.Prelude.{◌≡◌, ◌<◌};

use app_model::App;
use duct::{Link, NetFault, Network};
use ejson_value::Mem;
use server_connection::{Ended, Wakes, serve_connection};
use server_run::serve;
use shared_multiplexer::SharedMultiplexer;
use shared_session::HeldSession;
use shared_store::{Caller, SharedStore, StoreName, StorePass};
use std::alloc::Global;
use std::sync::Wait;
use std::thread::Threads;

// Nobody is woken.
#[derive(Drop)]
struct Nobody;

impl Wakes for Nobody {
    fn wake(&self) {}
}

/// Serves the link by a new session with the caller's number: how that ends, and how long the history then is.
pub(crate) fn serve_link<N: StoreName, R: Wait, L: Link>(
    rt: &R,
    alloc: Global,
    app: &App,
    store: &SharedStore<N>,
    pass: &mut StorePass<N>,
    caller: &mut Caller<N>,
    link: &mut L,
) -> Result<(Ended, u64), Mem>
    requires app { app.now ≡ N.app }
    requires number { 0 < caller.old.number }
    requires made { caller.old.made ≡ 0 }
{
    let own = pass.note(store.log()).pass();
    let mut session = HeldSession::make(alloc, app, caller.number(), own)?;
    let multiplexer = SharedMultiplexer::make(alloc, pass.note(store.log()).pass());
    let end = serve_connection(
        rt,
        store,
        &multiplexer,
        &Nobody,
        pass,
        caller,
        &mut session,
        link,
    );
    Ok((end, pass.len()))
}

/// Serves so many connections of a network.
pub(crate) fn serve_all<W: Network, R: Threads + Wait + Copy + Send + Sync + 'static>(
    rt: &R,
    alloc: Global,
    app: &App,
    net: &mut W,
    connections: u32,
) -> Result<(), NetFault>
where
    W::Link: 'static,
{
    serve(rt, alloc, app, net, 1, connections)
}
