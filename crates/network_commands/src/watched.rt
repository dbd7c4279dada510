//! The commands whose links hearts watch.
ghost use Rattle.std.specs.Prelude.{◌≡◌, ◌≢◌, ◌↔◌, ◌<◌, ◌≤◌, [], length, IfSome};
ghost use Rattle.checking.specs.Input.{input_limit};
ghost use Rattle.heartbeat.specs.Beats.{IsTime};
ghost use Rattle.timed_link.specs.Times.{IsFresh};
ghost use Rattle.network_commands.specs.declared.command.NetworkCommand.TheVariants as command;
ghost use Rattle.network_commands.specs.Words.{HasTimes};
ghost use Rattle.network_commands.specs.Cause.{outside, Serves, Ends, CauseOf, IsUnasked};
ghost use Rattle.network_commands.specs.TimedCause.{TimedTalks, IsWatched};

use crate::command::{NetworkCommand, TimedCommand};
use crate::console::{script_wanted, tell_end};
use crate::input::{read_scripted, read_served};
use crate::reporting::name_bad;
use crate::server::app_wanted;
use app_model::App;
use client_script::{ConsoleEnd, Script};
use commands::{Status, read_input};
use console_run::{TimedConsole, console_timed};
use duct::{Link, NetFault, Network};
use ejson_value::{Mem, Text};
use io_edge::{ReadAll, Sink, Source};
use server_run::serve_timed;
use std::alloc::Global;
use std::marker::Sync;
use std::sync::Wait;
use std::thread::Threads;
use timed_link::{Clock, Clocks, TimedLink};

// Serves the application until so many connections have ended.
fn serve_app<R: Threads + Wait + Copy + Send + Sync + 'static, N: Network, K: Clocks>(
    rt: &R,
    alloc: Global,
    app: App,
    net: &mut N,
    clocks: &mut K,
    port: u16,
    connections: u32,
    interval: u32,
    timeout: u32,
) -> Status
where
    N::Link: 'static,
    K::Clock: 'static,
    requires interval { IsTime interval }
    requires timeout { IsTime timeout }
    ensures serves { Serves connections (record { given = N.given net.old; faults = N.faults net.old })
        (record { given = N.given net.new; faults = N.faults net.new }) result }
    ensures asked { ¬ (IsUnasked result) }
    ensures silent { result ≢ Status.WriteFault }
{
    let served = serve_timed(
        rt,
        alloc,
        &app,
        net,
        clocks,
        port,
        connections,
        interval,
        timeout,
    );
    drop(app);
    match served {
        Ok(()) => Status::Ok,
        Err(NetFault::Failed) => Status::NetFault,
        Err(NetFault::Memory) => Status::Memory,
    }
}

// Serves the application of an input, or names its first bad line.
fn serve_input<R: Threads + Wait + Copy + Send + Sync + 'static, O: Sink, N: Network, K: Clocks>(
    rt: &R,
    alloc: Global,
    port: u16,
    connections: u32,
    interval: u32,
    timeout: u32,
    input: &[u8],
    output: &mut O,
    net: &mut N,
    clocks: &mut K,
    reason: &mut Text,
) -> Status
where
    N::Link: 'static,
    K::Clock: 'static,
    requires interval { IsTime interval }
    requires timeout { IsTime timeout }
    requires within { length input.now ≤ input_limit }
    ensures ends { Ends (TimedTalks N.Link.steps K.Clock.told N.Link.faults interval timeout) (command.Serve port connections) input.now
        (outside (O.written output.old) (N.given net.old) (N.faults net.old))
        (outside (O.written output.new) (N.given net.new) (N.faults net.new)) result }
    ensures write_fault { (result ≡ Status.WriteFault) ↔ (O.faults output.old < O.faults output.new) }
    ensures unasked { IsUnasked result → net.new ≡ net.old }
    ensures told { result ≢ Status.BadInput → reason.new ≡ reason.old }
{
    match read_served(alloc, input) {
        Ok(Ok(app)) => serve_app(
            rt,
            alloc,
            app,
            net,
            clocks,
            port,
            connections,
            interval,
            timeout,
        ),
        Ok(Err(number)) => name_bad(alloc, app_wanted(number), input, number, output, reason),
        Err(Mem) => Status::Memory,
    }
}

// The link, watched by a heart that goes by this clock.
fn watch<L: Link, C: Clock>(
    alloc: Global,
    link: L,
    clock: C,
    interval: u32,
    timeout: u32,
) -> TimedLink<L, C>
    requires interval { IsTime interval }
    requires timeout { IsTime timeout }
    requires unasked { IfSome (C.told clock) (λ answers. answers ≡ []) }
    ensures link { result.link ≡ link }
    ensures fresh { IsFresh result.watch }
    ensures watched { IsWatched C.told interval timeout result }
{
    TimedLink::new(alloc, link, clock, interval, timeout)
}

// Runs the script over a link to the peer at this port. The clock is there before the peer is asked for.
#[tactic(auto, using(crate::proofs::Causes::no_timed_write_fault))]
fn run_script<R: Wait, O: Sink, N: Network, K: Clocks>(
    rt: &R,
    alloc: Global,
    app: &App,
    script: &Script,
    output: &mut O,
    net: &mut N,
    clocks: &mut K,
    port: u16,
    interval: u32,
    timeout: u32,
) -> Status
    requires interval { IsTime interval }
    requires timeout { IsTime timeout }
    ensures talks { TimedTalks N.Link.steps K.Clock.told N.Link.faults interval timeout app.now script.now
        (outside (O.written output.old) (N.given net.old) (N.faults net.old))
        (outside (O.written output.new) (N.given net.new) (N.faults net.new)) result }
    ensures asked { ¬ (IsUnasked result) }
    ensures write_fault { (result ≡ Status.WriteFault) ↔ (O.faults output.old < O.faults output.new) }
{
    let Ok(clock) = clocks.clock() else {
        return Status::Memory;
    };
    let link = match net.connect(port) {
        Ok(link) => link,
        Err(NetFault::Failed) => return Status::NetFault,
        Err(NetFault::Memory) => return Status::Memory,
    };
    let mut link = watch(alloc, link, clock, interval, timeout);
    match console_timed(rt, alloc, app, script, &mut link, output) {
        TimedConsole::Timeout { .. } => Status::Timeout,
        TimedConsole::Ended(end) => match end {
            ConsoleEnd::WriteFault => Status::WriteFault,
            end => tell_end(alloc, end, output),
        },
    }
}

// Runs the script of an input, or names its first bad line.
fn run_console<R: Wait, O: Sink, N: Network, K: Clocks>(
    rt: &R,
    alloc: Global,
    port: u16,
    interval: u32,
    timeout: u32,
    input: &[u8],
    output: &mut O,
    net: &mut N,
    clocks: &mut K,
    reason: &mut Text,
) -> Status
    requires interval { IsTime interval }
    requires timeout { IsTime timeout }
    requires within { length input.now ≤ input_limit }
    ensures ends { Ends (TimedTalks N.Link.steps K.Clock.told N.Link.faults interval timeout) (command.Console port) input.now
        (outside (O.written output.old) (N.given net.old) (N.faults net.old))
        (outside (O.written output.new) (N.given net.new) (N.faults net.new)) result }
    ensures write_fault { (result ≡ Status.WriteFault) ↔ (O.faults output.old < O.faults output.new) }
    ensures unasked { IsUnasked result → net.new ≡ net.old }
    ensures told { result ≢ Status.BadInput → reason.new ≡ reason.old }
{
    match read_scripted(alloc, input) {
        Ok(Ok((app, script))) => run_script(
            rt, alloc, &app, &script, output, net, clocks, port, interval, timeout,
        ),
        Ok(Err(number)) => name_bad(alloc, script_wanted(number), input, number, output, reason),
        Err(Mem) => Status::Memory,
    }
}

// Runs an input of a command.
fn run_input<R: Threads + Wait + Copy + Send + Sync + 'static, O: Sink, N: Network, K: Clocks>(
    rt: &R,
    alloc: Global,
    timed: TimedCommand,
    input: &[u8],
    output: &mut O,
    net: &mut N,
    clocks: &mut K,
    reason: &mut Text,
) -> Status
where
    N::Link: 'static,
    K::Clock: 'static,
    requires times { HasTimes timed }
    requires within { length input.now ≤ input_limit }
    ensures ends { Ends (TimedTalks N.Link.steps K.Clock.told N.Link.faults timed.interval timed.timeout) timed.command input.now
        (outside (O.written output.old) (N.given net.old) (N.faults net.old))
        (outside (O.written output.new) (N.given net.new) (N.faults net.new)) result }
    ensures write_fault { (result ≡ Status.WriteFault) ↔ (O.faults output.old < O.faults output.new) }
    ensures unasked { IsUnasked result → net.new ≡ net.old }
    ensures told { result ≢ Status.BadInput → reason.new ≡ reason.old }
{
    let TimedCommand {
        command,
        interval,
        timeout,
    } = timed;
    match command {
        NetworkCommand::Serve { port, connections } => serve_input(
            rt,
            alloc,
            port,
            connections,
            interval,
            timeout,
            input,
            output,
            net,
            clocks,
            reason,
        ),
        NetworkCommand::Console { port } => run_console(
            rt, alloc, port, interval, timeout, input, output, net, clocks, reason,
        ),
    }
}

/// Reads the input of a command whose links hearts watch, and runs it.
pub(crate) fn run_watched<
    R: Threads + Wait + Copy + Send + Sync + 'static,
    I: Source,
    O: Sink,
    N: Network,
    K: Clocks,
>(
    rt: &R,
    alloc: Global,
    timed: TimedCommand,
    input: &mut I,
    output: &mut O,
    net: &mut N,
    clocks: &mut K,
    reason: &mut Text,
) -> Status
where
    N::Link: 'static,
    K::Clock: 'static,
    requires { HasTimes timed }
    ensures cause { CauseOf (TimedTalks N.Link.steps K.Clock.told N.Link.faults timed.interval timed.timeout) timed.command
        (I.left input.old) (I.left input.new)
        (outside (O.written output.old) (N.given net.old) (N.faults net.old))
        (outside (O.written output.new) (N.given net.new) (N.faults net.new)) result }
    ensures unasked { IsUnasked result → net.new ≡ net.old }
    ensures read_fault { (result ≡ Status.ReadFault) ↔ (I.faults input.old < I.faults input.new) }
    ensures write_fault { (result ≡ Status.WriteFault) ↔ (O.faults output.old < O.faults output.new) }
    ensures told { result ≢ Status.BadInput → reason.new ≡ reason.old }
{
    match read_input(alloc, input) {
        Ok(bytes) => run_input(
            rt,
            alloc,
            timed,
            bytes.as_slice(),
            output,
            net,
            clocks,
            reason,
        ),
        Err(ReadAll::Failed) => Status::ReadFault,
        Err(ReadAll::TooLong) => Status::TooLong,
        Err(ReadAll::Memory) => Status::Memory,
    }
}
