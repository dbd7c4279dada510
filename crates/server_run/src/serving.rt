//! A server.
ghost use Rattle.std.specs.Prelude.{◌≡◌, ◌+◌, OnOk, IfErr};
ghost use Rattle.duct.specs.Told.{CountsFaults};
ghost use Rattle.duct.specs.Networks.{network_failed};

use crate::accepting::{Door, accept_all};
use app_model::App;
use duct::{Link, NetFault, Network};
use ejson_value::Mem;
use pass_log::Opened;
use shared_store::{SharedStore, StoreName};
use std::alloc::Global;
use std::marker::Brand;
use std::sync::Wait;
use std::sync::ledger::Blank;
use std::thread::Threads;
use store_machine::Entry;

/// The door of a hall over a new store of this name, with an empty history.
pub(crate) fn open_door<N: StoreName + Send + Sync + 'static, L: Link + Send + Drop + 'static>(
    alloc: Global,
    app: &App,
    opened: Opened<Entry>,
    blank: Blank,
) -> Result<Door<N, L>, Mem>
    requires log { opened ≡ N.log }
    requires ledger { blank.name ≡ N.name }
    requires parts { blank.parts ≡ N.parts }
    requires many { N.parts ≡ 65537 }
    requires app { app.now ≡ N.app }
{
    let (store, pass, callers) = SharedStore::<N>::make(alloc, app, opened, blank)?;
    Door::<N, L>::open(alloc, app, store, pass, callers)
}

// Serves over the store of this name.
fn serve_named<
    N: StoreName + Send + Sync + 'static,
    W: Network,
    R: Threads + Wait + Copy + Send + Sync + 'static,
>(
    rt: &R,
    alloc: Global,
    app: &App,
    opened: Opened<Entry>,
    blank: Blank,
    net: &mut W,
    port: u16,
    connections: u32,
) -> Result<(), NetFault>
where
    W::Link: 'static,
    requires log { opened ≡ N.log }
    requires ledger { blank.name ≡ N.name }
    requires parts { blank.parts ≡ N.parts }
    requires many { N.parts ≡ 65537 }
    requires app { app.now ≡ N.app }
    ensures given { OnOk result (W.given net.new ≡ W.given net.old + connections) }
    ensures sound { OnOk result (W.faults net.new ≡ W.faults net.old) }
    ensures faults { IfErr result (λ fault. CountsFaults (network_failed fault) (W.faults net.old) (W.faults net.new)) }
{
    let Ok(mut door) = open_door::<N, W::Link>(alloc, app, opened, blank) else {
        return Err(NetFault::Memory);
    };
    net.listen(port)?;
    let accepted = accept_all(rt, &mut door, net, connections);
    door.close(rt);
    accepted
}

/// Listens at the port, accepts so many connections, and serves each until it ends: by a thread of its own, over one store of
/// the application with an empty history. `PLACES` of them are served at once; one more is let go, and counts as served.
/// The n-th that gets a place is the session with the number n. At the end, also where the network gave no more links, all
/// threads are joined.
pub fn serve<W: Network, R: Threads + Wait + Copy + Send + Sync + 'static>(
    rt: &R,
    alloc: Global,
    app: &App,
    net: &mut W,
    port: u16,
    connections: u32,
) -> Result<(), NetFault>
where
    W::Link: 'static,
    ensures given { OnOk result (W.given net.new ≡ W.given net.old + connections) }
    ensures sound { OnOk result (W.faults net.new ≡ W.faults net.old) }
    ensures faults { IfErr result (λ fault. CountsFaults (network_failed fault) (W.faults net.old) (W.faults net.new)) }
{
    let Ok(opened) = Opened::make(alloc) else {
        return Err(NetFault::Memory);
    };
    let blank = Blank::new(65537);
    serve_named::<Brand, W, R>(rt, alloc, app, opened, blank, net, port, connections)
}
