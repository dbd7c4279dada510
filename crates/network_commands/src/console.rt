//! The commands `console` and `console-retry`.
ghost use Rattle.std.specs.Prelude.{◌≡◌, ◌≢◌, ◌↔◌, ◌<◌, ◌≤◌, length};
ghost use Rattle.checking.specs.Input.{input_limit};
ghost use Rattle.network_commands.specs.declared.command.NetworkCommand.TheVariants as command;
ghost use Rattle.network_commands.specs.Cause.{outside, ComesTo, Talks, Retried, Ends, IsUnasked};

use crate::command::RetryCommand;
use crate::input::read_scripted;
use crate::reporting::{name_bad, tell_sent};
use app_model::App;
use client_script::{ConsoleEnd, Script};
use commands::{Status, Wanted};
use console_retry::console_retry;
use console_run::console;
use duct::{NetFault, Network};
use ejson_value::{Mem, Text};
use io_edge::Sink;
use std::alloc::Global;
use std::sync::Wait;

/// The status for the end of a script.
pub(crate) fn tell_end<O: Sink>(alloc: Global, end: ConsoleEnd, output: &mut O) -> Status
    requires { end ≢ ConsoleEnd.WriteFault }
    ensures told { ComesTo end (O.written output.old) (O.written output.new) result }
    ensures asked { ¬ (IsUnasked result) }
    ensures write_fault { (result ≡ Status.WriteFault) ↔ (O.faults output.old < O.faults output.new) }
{
    match end {
        ConsoleEnd::Done => Status::Ok,
        ConsoleEnd::ServerSent(number) => tell_sent(alloc, number, output),
        ConsoleEnd::Version => Status::Version,
        ConsoleEnd::Closed => Status::Closed,
        ConsoleEnd::LinkFault => Status::NetFault,
        ConsoleEnd::WriteFault => Status::WriteFault,
        ConsoleEnd::Memory => Status::Memory,
    }
}

// Runs the script over a link to the peer at this port.
#[tactic(auto, using(crate::proofs::Causes::no_write_fault))]
fn run_script<R: Wait, O: Sink, N: Network>(
    rt: &R,
    alloc: Global,
    app: &App,
    script: &Script,
    output: &mut O,
    net: &mut N,
    port: u16,
) -> Status
    ensures talks { Talks N.Link.steps N.Link.faults app.now script.now
        (outside (O.written output.old) (N.given net.old) (N.faults net.old))
        (outside (O.written output.new) (N.given net.new) (N.faults net.new)) result }
    ensures asked { ¬ (IsUnasked result) }
    ensures write_fault { (result ≡ Status.WriteFault) ↔ (O.faults output.old < O.faults output.new) }
{
    let mut link = match net.connect(port) {
        Ok(link) => link,
        Err(NetFault::Failed) => return Status::NetFault,
        Err(NetFault::Memory) => return Status::Memory,
    };
    match console(rt, alloc, app, script, &mut link, output) {
        ConsoleEnd::WriteFault => Status::WriteFault,
        end => tell_end(alloc, end, output),
    }
}

/// What the line of this number of a console's input has to be.
pub(crate) fn script_wanted(number: u32) -> Wanted {
    if number == 1 {
        Wanted::Application
    } else {
        Wanted::Action
    }
}

/// Runs the script of an input, or names its first bad line.
pub(crate) fn run_console<R: Wait, O: Sink, N: Network>(
    rt: &R,
    alloc: Global,
    port: u16,
    input: &[u8],
    output: &mut O,
    net: &mut N,
    reason: &mut Text,
) -> Status
    requires { length input.now ≤ input_limit }
    ensures ends { Ends (Talks N.Link.steps N.Link.faults) (command.Console port) input.now
        (outside (O.written output.old) (N.given net.old) (N.faults net.old))
        (outside (O.written output.new) (N.given net.new) (N.faults net.new)) result }
    ensures write_fault { (result ≡ Status.WriteFault) ↔ (O.faults output.old < O.faults output.new) }
    ensures unasked { IsUnasked result → net.new ≡ net.old }
    ensures told { result ≢ Status.BadInput → reason.new ≡ reason.old }
{
    match read_scripted(alloc, input) {
        Ok(Ok((app, script))) => run_script(rt, alloc, &app, &script, output, net, port),
        Ok(Err(number)) => name_bad(alloc, script_wanted(number), input, number, output, reason),
        Err(Mem) => Status::Memory,
    }
}

// Runs the script over links to the peer at this port, one after another.
#[tactic(auto, using(crate::proofs::Causes::no_write_fault))]
fn run_retried<R: Wait, O: Sink, N: Network>(
    rt: &R,
    alloc: Global,
    app: &App,
    script: &Script,
    output: &mut O,
    net: &mut N,
    retry: RetryCommand,
) -> Status
    ensures retried { Retried N.Link.steps N.Link.faults retry.tries app.now script.now
        (outside (O.written output.old) (N.given net.old) (N.faults net.old))
        (outside (O.written output.new) (N.given net.new) (N.faults net.new)) result }
    ensures asked { ¬ (IsUnasked result) }
    ensures write_fault { (result ≡ Status.WriteFault) ↔ (O.faults output.old < O.faults output.new) }
{
    match console_retry(rt, alloc, app, script, retry.port, retry.tries, net, output) {
        ConsoleEnd::WriteFault => Status::WriteFault,
        end => tell_end(alloc, end, output),
    }
}

/// Runs the script of an input over one link after another, or names its first bad line.
pub(crate) fn run_console_retry<R: Wait, O: Sink, N: Network>(
    rt: &R,
    alloc: Global,
    retry: RetryCommand,
    input: &[u8],
    output: &mut O,
    net: &mut N,
    reason: &mut Text,
) -> Status
    requires { length input.now ≤ input_limit }
    ensures ends { Ends (Retried N.Link.steps N.Link.faults retry.tries) (command.Console retry.port) input.now
        (outside (O.written output.old) (N.given net.old) (N.faults net.old))
        (outside (O.written output.new) (N.given net.new) (N.faults net.new)) result }
    ensures write_fault { (result ≡ Status.WriteFault) ↔ (O.faults output.old < O.faults output.new) }
    ensures unasked { IsUnasked result → net.new ≡ net.old }
    ensures told { result ≢ Status.BadInput → reason.new ≡ reason.old }
{
    match read_scripted(alloc, input) {
        Ok(Ok((app, script))) => run_retried(rt, alloc, &app, &script, output, net, retry),
        Ok(Err(number)) => name_bad(alloc, script_wanted(number), input, number, output, reason),
        Err(Mem) => Status::Memory,
    }
}
