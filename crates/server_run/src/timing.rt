//! A server whose connections hearts watch.
ghost use Rattle.std.specs.Prelude.{◌≡◌, ◌+◌, OnOk, IfErr};
ghost use Rattle.duct.specs.Told.{CountsFaults};
ghost use Rattle.duct.specs.Networks.{network_failed};
ghost use Rattle.heartbeat.specs.Beats.{IsTime};

use crate::accepting::Door;
use crate::serving::open_door;
use app_model::App;
use duct::{NetFault, Network};
use pass_log::Opened;
use shared_store::StoreName;
use std::alloc::Global;
use std::marker::Brand;
use std::sync::Wait;
use std::sync::ledger::Blank;
use std::thread::Threads;
use store_machine::Entry;
use timed_link::{Clocks, TimedLink};

// Accepts so many connections, and gives each a place, its link watched by a heart with a clock of its own. It is let go where no
// memory is left for the clock.
fn accept_timed<
    N: StoreName + Send + Sync + 'static,
    W: Network,
    K: Clocks,
    R: Threads + Wait + Copy + Send + Sync + 'static,
>(
    rt: &R,
    alloc: Global,
    door: &mut Door<N, TimedLink<W::Link, K::Clock>>,
    net: &mut W,
    clocks: &mut K,
    connections: u32,
    interval: u32,
    timeout: u32,
) -> Result<(), NetFault>
where
    W::Link: 'static,
    K::Clock: 'static,
    requires interval { IsTime interval }
    requires timeout { IsTime timeout }
    ensures given { OnOk result (W.given net.new ≡ W.given net.old + connections) }
    ensures sound { OnOk result (W.faults net.new ≡ W.faults net.old) }
    ensures faults { IfErr result (λ fault. CountsFaults (network_failed fault) (W.faults net.old) (W.faults net.new)) }
{
    for _ in 0..connections {
        let link = net.accept()?;
        if let Ok(clock) = clocks.clock() {
            door.seat(rt, TimedLink::new(alloc, link, clock, interval, timeout));
        }
    }
    Ok(())
}

// Serves over the store of this name.
fn serve_named_timed<
    N: StoreName + Send + Sync + 'static,
    W: Network,
    K: Clocks,
    R: Threads + Wait + Copy + Send + Sync + 'static,
>(
    rt: &R,
    alloc: Global,
    app: &App,
    opened: Opened<Entry>,
    blank: Blank,
    net: &mut W,
    clocks: &mut K,
    port: u16,
    connections: u32,
    interval: u32,
    timeout: u32,
) -> Result<(), NetFault>
where
    W::Link: 'static,
    K::Clock: 'static,
    requires log { opened ≡ N.log }
    requires ledger { blank.name ≡ N.name }
    requires parts { blank.parts ≡ N.parts }
    requires many { N.parts ≡ 65537 }
    requires app { app.now ≡ N.app }
    requires interval { IsTime interval }
    requires timeout { IsTime timeout }
    ensures given { OnOk result (W.given net.new ≡ W.given net.old + connections) }
    ensures sound { OnOk result (W.faults net.new ≡ W.faults net.old) }
    ensures faults { IfErr result (λ fault. CountsFaults (network_failed fault) (W.faults net.old) (W.faults net.new)) }
{
    let Ok(mut door) = open_door::<N, TimedLink<W::Link, K::Clock>>(alloc, app, opened, blank)
    else {
        return Err(NetFault::Memory);
    };
    net.listen(port)?;
    let accepted = accept_timed(
        rt,
        alloc,
        &mut door,
        net,
        clocks,
        connections,
        interval,
        timeout,
    );
    door.close(rt);
    accepted
}

/// Serves as `serve` does, each connection over a link that a heart watches, with a clock of its own: its client is sent a `ping` once
/// no text of it came for `interval`, and the connection ends once none came for a further `timeout`, both in milliseconds. A connection
/// ends at once where no memory is left for its clock.
pub fn serve_timed<W: Network, K: Clocks, R: Threads + Wait + Copy + Send + Sync + 'static>(
    rt: &R,
    alloc: Global,
    app: &App,
    net: &mut W,
    clocks: &mut K,
    port: u16,
    connections: u32,
    interval: u32,
    timeout: u32,
) -> Result<(), NetFault>
where
    W::Link: 'static,
    K::Clock: 'static,
    requires interval { IsTime interval }
    requires timeout { IsTime timeout }
    ensures given { OnOk result (W.given net.new ≡ W.given net.old + connections) }
    ensures sound { OnOk result (W.faults net.new ≡ W.faults net.old) }
    ensures faults { IfErr result (λ fault. CountsFaults (network_failed fault) (W.faults net.old) (W.faults net.new)) }
{
    let Ok(opened) = Opened::make(alloc) else {
        return Err(NetFault::Memory);
    };
    let blank = Blank::new(65537);
    serve_named_timed::<Brand, W, K, R>(
        rt,
        alloc,
        app,
        opened,
        blank,
        net,
        clocks,
        port,
        connections,
        interval,
        timeout,
    )
}
