//! All that the program does.
ghost use Rattle.std.specs.Prelude.{◌≡◌, ◌≢◌, ◌↔◌, ◌<◌, ◌≤◌, length, None};
ghost use Rattle.checking.specs.Input.{input_limit};
ghost use Rattle.network_commands.specs.declared.command.NetworkCommand.TheVariants as command;
ghost use Rattle.network_commands.specs.Words.{network_command_in, retry_command_in, timed_command_in};
ghost use Rattle.network_commands.specs.Cause.{outside, Talks, Retried, Ends, CauseOf, RunCauseOf, RunCause, IsUnasked};
ghost use Rattle.network_commands.specs.TimedCause.{TimedCause};

use crate::command::{
    NetworkCommand, RetryCommand, network_command_in, retry_command_in, timed_command_in,
};
use crate::console::{run_console, run_console_retry};
use crate::server::serve_input;
use crate::watched::run_watched;
use commands::{Status, World, read_input, run_on};
use duct::Network;
use ejson_value::Text;
use io_edge::{ReadAll, Sink, Source};
use std::alloc::Global;
use std::marker::Sync;
use std::sync::Wait;
use std::thread::Threads;
use timed_link::Clocks;

// Runs an input of a command.
fn run_input<R: Threads + Wait + Copy + Send + Sync + 'static, O: Sink, N: Network>(
    rt: &R,
    alloc: Global,
    command: NetworkCommand,
    input: &[u8],
    output: &mut O,
    net: &mut N,
    reason: &mut Text,
) -> Status
where
    N::Link: 'static,
    requires { length input.now ≤ input_limit }
    ensures ends { Ends (Talks N.Link.steps N.Link.faults) command input.now
        (outside (O.written output.old) (N.given net.old) (N.faults net.old))
        (outside (O.written output.new) (N.given net.new) (N.faults net.new)) result }
    ensures write_fault { (result ≡ Status.WriteFault) ↔ (O.faults output.old < O.faults output.new) }
    ensures unasked { IsUnasked result → net.new ≡ net.old }
    ensures told { result ≢ Status.BadInput → reason.new ≡ reason.old }
{
    match command {
        NetworkCommand::Serve { port, connections } => serve_input(
            rt,
            alloc,
            port,
            connections,
            input,
            output,
            net,
            reason,
        ),
        NetworkCommand::Console { port } => {
            run_console(rt, alloc, port, input, output, net, reason)
        }
    }
}

// Reads the input of a command and runs it.
fn run_command<R: Threads + Wait + Copy + Send + Sync + 'static, I: Source, O: Sink, N: Network>(
    rt: &R,
    alloc: Global,
    command: NetworkCommand,
    input: &mut I,
    output: &mut O,
    net: &mut N,
    reason: &mut Text,
) -> Status
where
    N::Link: 'static,
    ensures cause { CauseOf (Talks N.Link.steps N.Link.faults) command (I.left input.old) (I.left input.new)
        (outside (O.written output.old) (N.given net.old) (N.faults net.old))
        (outside (O.written output.new) (N.given net.new) (N.faults net.new)) result }
    ensures unasked { IsUnasked result → net.new ≡ net.old }
    ensures read_fault { (result ≡ Status.ReadFault) ↔ (I.faults input.old < I.faults input.new) }
    ensures write_fault { (result ≡ Status.WriteFault) ↔ (O.faults output.old < O.faults output.new) }
    ensures told { result ≢ Status.BadInput → reason.new ≡ reason.old }
{
    match read_input(alloc, input) {
        Ok(bytes) => run_input(rt, alloc, command, bytes.as_slice(), output, net, reason),
        Err(ReadAll::Failed) => Status::ReadFault,
        Err(ReadAll::TooLong) => Status::TooLong,
        Err(ReadAll::Memory) => Status::Memory,
    }
}

// Reads the input of a console that goes on over further links and runs it.
fn run_retry<R: Wait, I: Source, O: Sink, N: Network>(
    rt: &R,
    alloc: Global,
    retry: RetryCommand,
    input: &mut I,
    output: &mut O,
    net: &mut N,
    reason: &mut Text,
) -> Status
    ensures cause { CauseOf (Retried N.Link.steps N.Link.faults retry.tries) (command.Console retry.port) (I.left input.old) (I.left input.new)
        (outside (O.written output.old) (N.given net.old) (N.faults net.old))
        (outside (O.written output.new) (N.given net.new) (N.faults net.new)) result }
    ensures unasked { IsUnasked result → net.new ≡ net.old }
    ensures read_fault { (result ≡ Status.ReadFault) ↔ (I.faults input.old < I.faults input.new) }
    ensures write_fault { (result ≡ Status.WriteFault) ↔ (O.faults output.old < O.faults output.new) }
    ensures told { result ≢ Status.BadInput → reason.new ≡ reason.old }
{
    match read_input(alloc, input) {
        Ok(bytes) => run_console_retry(rt, alloc, retry, bytes.as_slice(), output, net, reason),
        Err(ReadAll::Failed) => Status::ReadFault,
        Err(ReadAll::TooLong) => Status::TooLong,
        Err(ReadAll::Memory) => Status::Memory,
    }
}

// Does what words say that name no console which goes on over further links.
fn run_named<R: Threads + Wait + Copy + Send + Sync + 'static, I: Source, O: Sink, N: Network>(
    rt: &R,
    alloc: Global,
    words: &[Text],
    input: &mut I,
    output: &mut O,
    net: &mut N,
    reason: &mut Text,
    left: &mut Option<World>,
) -> Status
where
    N::Link: 'static,
    ensures cause { RunCauseOf N.Link.steps N.Link.faults (network_command_in words.now) words.now (I.left input.old) (I.left input.new)
        (outside (O.written output.old) (N.given net.old) (N.faults net.old))
        (outside (O.written output.new) (N.given net.new) (N.faults net.new)) result }
    ensures untouched { result ≡ Status.Usage → (input.new ≡ input.old) × (output.new ≡ output.old) × (left.new ≡ left.old) }
    ensures other { network_command_in words.now ≡ None → net.new ≡ net.old }
    ensures unasked { IsUnasked result → net.new ≡ net.old }
    ensures read_fault { (result ≡ Status.ReadFault) ↔ (I.faults input.old < I.faults input.new) }
    ensures write_fault { (result ≡ Status.WriteFault) ↔ (O.faults output.old < O.faults output.new) }
    ensures told { result ≢ Status.BadInput → reason.new ≡ reason.old }
{
    match network_command_in(words) {
        Some(command) => run_command(rt, alloc, command, input, output, net, reason),
        None => run_on(rt, alloc, words, input, output, reason, left),
    }
}

/// Does what the words say, with an input that it reads whole. `serve PORT CONNECTIONS` serves the application of line 1 at this port of the
/// machine until so many connections have ended. `console PORT` connects to a server there, and runs the script of the further lines.
/// `console-retry PORT TRIES`
/// does the same, and goes on over a new link where one is lost, so many times at most. All other words are run as `run_on` runs them.
///
/// `cause` says when each status comes, and what was read and written then. Where a line isn't of the grammar, it is named, nothing else is
/// written, `reason` is set to a line for a person that says which line is bad and why, if there is memory for it, and the network is asked for
/// nothing.
pub fn run<R: Threads + Wait + Copy + Send + Sync + 'static, I: Source, O: Sink, N: Network>(
    rt: &R,
    alloc: Global,
    words: &[Text],
    input: &mut I,
    output: &mut O,
    net: &mut N,
    reason: &mut Text,
    left: &mut Option<World>,
) -> Status
where
    N::Link: 'static,
    ensures cause { RunCause N.Link.steps N.Link.faults words.now (I.left input.old) (I.left input.new)
        (outside (O.written output.old) (N.given net.old) (N.faults net.old))
        (outside (O.written output.new) (N.given net.new) (N.faults net.new)) result }
    ensures untouched { result ≡ Status.Usage → (input.new ≡ input.old) × (output.new ≡ output.old) × (left.new ≡ left.old) }
    ensures other { retry_command_in words.now ≡ None → network_command_in words.now ≡ None → net.new ≡ net.old }
    ensures unasked { IsUnasked result → net.new ≡ net.old }
    ensures read_fault { (result ≡ Status.ReadFault) ↔ (I.faults input.old < I.faults input.new) }
    ensures write_fault { (result ≡ Status.WriteFault) ↔ (O.faults output.old < O.faults output.new) }
    ensures told { result ≢ Status.BadInput → reason.new ≡ reason.old }
{
    match retry_command_in(words) {
        Some(retry) => run_retry(rt, alloc, retry, input, output, net, reason),
        None => run_named(rt, alloc, words, input, output, net, reason, left),
    }
}

/// Does what the words say, as `run` does, with two commands more: `serve-beat PORT CONNECTIONS INTERVAL TIMEOUT` and
/// `console-beat PORT INTERVAL TIMEOUT` are `serve` and `console` over links that hearts with these times, in milliseconds, watch, each
/// with a clock of its own. The end of a connection that is given up is one of those that are waited for; a console ends with `Timeout`
/// where it gives the server up.
pub fn run_timed<
    R: Threads + Wait + Copy + Send + Sync + 'static,
    I: Source,
    O: Sink,
    N: Network,
    K: Clocks,
>(
    rt: &R,
    alloc: Global,
    words: &[Text],
    input: &mut I,
    output: &mut O,
    net: &mut N,
    clocks: &mut K,
    reason: &mut Text,
    left: &mut Option<World>,
) -> Status
where
    N::Link: 'static,
    K::Clock: 'static,
    ensures cause { TimedCause N.Link.steps K.Clock.told N.Link.faults words.now (I.left input.old) (I.left input.new)
        (outside (O.written output.old) (N.given net.old) (N.faults net.old))
        (outside (O.written output.new) (N.given net.new) (N.faults net.new)) result }
    ensures untouched { result ≡ Status.Usage → (input.new ≡ input.old) × (output.new ≡ output.old) × (left.new ≡ left.old) }
    ensures other { timed_command_in words.now ≡ None → retry_command_in words.now ≡ None → network_command_in words.now ≡ None → net.new ≡ net.old }
    ensures unwatched { timed_command_in words.now ≡ None → clocks.new ≡ clocks.old }
    ensures unasked { IsUnasked result → net.new ≡ net.old }
    ensures read_fault { (result ≡ Status.ReadFault) ↔ (I.faults input.old < I.faults input.new) }
    ensures write_fault { (result ≡ Status.WriteFault) ↔ (O.faults output.old < O.faults output.new) }
    ensures told { result ≢ Status.BadInput → reason.new ≡ reason.old }
{
    match timed_command_in(words) {
        Some(timed) => run_watched(rt, alloc, timed, input, output, net, clocks, reason),
        None => run(rt, alloc, words, input, output, net, reason, left),
    }
}
