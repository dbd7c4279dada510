//! The program `ddp`: a reactive data server and its client, with the commands `check`, `replay`, `revive`, `beat`, `gen`, `serve` and
//! `console`; with hearts the last two are `serve-beat` and `console-beat`, and a console that goes on over further links is
//! `console-retry`.
#![tactic(auto)]

mod announcing;

use announcing::{Announcing, Trouble};
use commands::{Status, World};
use ddp_socket::SocketNetwork;
use duct::Network;
use ejson_value::{Mem, Text};
use heartbeat::{Clocks, SystemClocks};
use io_edge::{Sink, Source, StdSink, StdSource};
use std::marker::Sync;
use std::process::ExitCode;
use std::rt::Env;
use std::sync::Wait;
use std::thread::Threads;
use std::{env, io, mem};
use usage::usage_text;

// The word, if there is memory for it.
fn text_of(word: String) -> io::Result<Text> {
    match Text::from_string(word) {
        Ok(text) => Ok(text),
        Err(Mem) => Err(io::Error::from(io::ErrorKind::OutOfMemory)),
    }
}

// The words that the program was given.
fn words(rt: &(impl Env + AllocGlobal)) -> io::Result<Vec<Text>> {
    let mut words = Vec::new(rt.alloc());
    for word in env::args(rt)?.skip(1) {
        words.push(text_of(word)?)?;
    }
    Ok(words)
}

// What it comes to where the words can't be had.
fn status_of(fault: io::Error) -> Status {
    if fault.kind() == io::ErrorKind::OutOfMemory {
        Status::Memory
    } else {
        Status::Usage
    }
}

fn run<
    R: Env + AllocGlobal + Threads + Wait + Copy + Send + Sync + 'static,
    I: Source,
    O: Sink,
    N: Network,
    K: Clocks,
>(
    rt: &R,
    source: &mut I,
    sink: &mut O,
    net: &mut N,
    clocks: &mut K,
    reason: &mut Text,
    left: &mut Option<World>,
) -> Status
where
    N::Link: 'static,
    K::Clock: 'static,
{
    match words(rt) {
        Ok(words) => network_commands::run_timed(
            rt,
            rt.alloc(),
            words.as_slice(),
            source,
            sink,
            net,
            clocks,
            reason,
            left,
        ),
        Err(fault) => status_of(fault),
    }
}

fn tell_message(rt: &(impl Eprint + AllocGlobal), status: Status) -> io::Result<()> {
    eprintln!(rt; "ddp: {}", status.message())
}

// Tells the usage, if there is memory for it.
fn tell_usage(rt: &(impl Eprint + AllocGlobal)) -> io::Result<()> {
    match usage_text(rt.alloc()) {
        Ok(text) => eprint!(rt; "{}", text.as_str()),
        Err(_) => tell_message(rt, Status::Usage),
    }
}

// Tells what the network failed at. Where it gave what it was asked for, a link of it failed.
fn tell_trouble(rt: &impl Eprint, trouble: Option<Trouble>) -> io::Result<()> {
    match trouble {
        Some(Trouble::Listening(port)) => eprintln!(rt;
            "ddp: nothing can listen at port {port} of 127.0.0.1: it is taken, or this user may not have it; choose another port"
        ),
        Some(Trouble::Accepting) => eprintln!(rt;
            "ddp: no further connection could be taken: the system is short of descriptors or memory"
        ),
        Some(Trouble::Connecting(port)) => eprintln!(rt;
            "ddp: no server answers at ws://127.0.0.1:{port}/websocket: see whether it is running, and whether the port is right"
        ),
        None => eprintln!(rt; "ddp: the link to the server failed before the script was done"),
    }
}

// Tells on standard error how the run ended.
fn tell(
    rt: &(impl Eprint + AllocGlobal),
    status: Status,
    reason: &Text,
    trouble: Option<Trouble>,
) -> io::Result<()> {
    match status {
        Status::Ok => Ok(()),
        Status::Usage => tell_usage(rt),
        Status::BadInput if !reason.is_empty() => eprintln!(rt; "ddp: {}", reason.as_str()),
        Status::NetFault => tell_trouble(rt, trouble),
        _ => tell_message(rt, status),
    }
}

fn main(rt: HostRuntime) -> ExitCode {
    let mut source = StdSource::new(rt.stdin());
    let mut sink = StdSink::new(rt.stdout());
    let mut net = Announcing::new(rt, SocketNetwork::new(rt, rt.alloc()));
    let mut clocks = SystemClocks::new(rt);
    let mut reason = Text::new(rt.alloc());
    let mut left = None;
    let status = run(
        &rt,
        &mut source,
        &mut sink,
        &mut net,
        &mut clocks,
        &mut reason,
        &mut left,
    );
    let _ = tell(&rt, status, &reason, net.trouble());
    // The process ends here, and its memory with it.
    mem::forget(left);
    ExitCode::from(status.code())
}
