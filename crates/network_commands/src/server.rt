//! The command `serve`.
ghost use Rattle.std.specs.Prelude.{◌≡◌, ◌≢◌, ◌↔◌, ◌<◌, ◌≤◌, length};
ghost use Rattle.checking.specs.Input.{input_limit};
ghost use Rattle.network_commands.specs.declared.command.NetworkCommand.TheVariants as command;
ghost use Rattle.network_commands.specs.Cause.{outside, Serves, Talks, Ends, IsUnasked};

use crate::input::read_served;
use crate::reporting::name_bad;
use app_model::App;
use commands::{Status, Wanted};
use duct::{NetFault, Network};
use ejson_value::{Mem, Text};
use io_edge::Sink;
use server_run::serve;
use std::alloc::Global;
use std::marker::Sync;
use std::sync::Wait;
use std::thread::Threads;

// Serves the application until so many connections have ended.
fn serve_app<R: Threads + Wait + Copy + Send + Sync + 'static, N: Network>(
    rt: &R,
    alloc: Global,
    app: App,
    net: &mut N,
    port: u16,
    connections: u32,
) -> Status
where
    N::Link: 'static,
    ensures serves { Serves connections (record { given = N.given net.old; faults = N.faults net.old })
        (record { given = N.given net.new; faults = N.faults net.new }) result }
    ensures asked { ¬ (IsUnasked result) }
    ensures silent { result ≢ Status.WriteFault }
{
    let served = serve(rt, alloc, &app, net, port, connections);
    drop(app);
    match served {
        Ok(()) => Status::Ok,
        Err(NetFault::Failed) => Status::NetFault,
        Err(NetFault::Memory) => Status::Memory,
    }
}

/// What the line of this number of a server's input has to be.
pub(crate) fn app_wanted(number: u32) -> Wanted {
    if number == 1 {
        Wanted::Application
    } else {
        Wanted::Nothing
    }
}

/// Serves the application of an input, or names its first bad line.
pub(crate) fn serve_input<R: Threads + Wait + Copy + Send + Sync + 'static, O: Sink, N: Network>(
    rt: &R,
    alloc: Global,
    port: u16,
    connections: u32,
    input: &[u8],
    output: &mut O,
    net: &mut N,
    reason: &mut Text,
) -> Status
where
    N::Link: 'static,
    requires { length input.now ≤ input_limit }
    ensures ends { Ends (Talks N.Link.steps N.Link.faults) (command.Serve port connections) input.now
        (outside (O.written output.old) (N.given net.old) (N.faults net.old))
        (outside (O.written output.new) (N.given net.new) (N.faults net.new)) result }
    ensures write_fault { (result ≡ Status.WriteFault) ↔ (O.faults output.old < O.faults output.new) }
    ensures unasked { IsUnasked result → net.new ≡ net.old }
    ensures told { result ≢ Status.BadInput → reason.new ≡ reason.old }
{
    match read_served(alloc, input) {
        Ok(Ok(app)) => serve_app(rt, alloc, app, net, port, connections),
        Ok(Err(number)) => name_bad(alloc, app_wanted(number), input, number, output, reason),
        Err(Mem) => Status::Memory,
    }
}
