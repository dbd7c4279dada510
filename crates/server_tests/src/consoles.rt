//! A server and two consoles over sockets, on threads of one test.
use crate::apps::{DRAWN, app, items};
use crate::calling::serve_all;
use crate::listening::Listening;
use console_run::{ConsoleEnd, Script, console};
use ddp_socket::SocketNetwork;
use duct::{Link, Network};
use ejson_value::Mem;
use io_edge::{Calls, MemorySink};
use std::alloc::Global;
use std::net::{Net, TcpListener, TcpStream};
use std::random::RandomSource;
use std::sync::Wait;
use std::test::Fail;
use std::thread::Threads;
use std::time::Clock;
use std::{str, thread};

const SCRIPT: &str = r#"[["sub","1","all",[]],["wait"],["call","make",[5]],["wait"],["show"]]"#;

// The ports of which the test takes the first that is free.
const PORTS: u16 = 41317;

fn script(alloc: Global) -> Result<Script, Mem> {
    let lines = items(alloc, SCRIPT)?;
    match Script::read(alloc, &lines) {
        Ok(script) => Ok(script),
        Err(_) => Err(Mem),
    }
}

// How a console with the script ends over the link.
fn ran<R: Wait, L: Link>(
    rt: &R,
    alloc: Global,
    link: &mut L,
    output: &mut MemorySink,
) -> Result<ConsoleEnd, Mem> {
    let app = app(alloc, DRAWN)?;
    let script = script(alloc)?;
    Ok(console(rt, alloc, &app, &script, link, output))
}

// The id of a document with the number that the console handed in, as its line tells.
fn shown(line: &str) -> Option<&str> {
    let id = line.strip_prefix("[\"doc\",\"tasks\",\"")?;
    id.strip_suffix("\",{\"n\":5}]")
}

// The id of the document that the console's call made, as a line of its method tells.
fn made(line: &str) -> Option<&str> {
    let id = line.strip_prefix("[\"method\",\"1\",\"done\",\"")?;
    id.strip_suffix("\"]")
}

// Whether what was written shows the document that the console's own call made.
fn shows_its_own(written: &str) -> bool {
    let Some(own) = written.lines().find_map(made) else {
        return false;
    };
    written.lines().any(|line| shown(line) == Some(own))
}

// Whether a console over the link is done, and shows its own document.
fn is_done<R: Wait, L: Link>(rt: &R, alloc: Global, link: &mut L) -> bool {
    let Ok(mut output) = MemorySink::new(alloc, 10_000, Calls::new(alloc)) else {
        return false;
    };
    if !matches!(ran(rt, alloc, link, &mut output), Ok(ConsoleEnd::Done)) {
        return false;
    }
    match str::from_utf8(output.written()) {
        Ok(written) => shows_its_own(written),
        Err(_) => false,
    }
}

// Whether a console is done over a socket.
fn is_done_at<
    R: Net<Listener = TcpListener, Stream = TcpStream> + RandomSource + Clock + Wait + Copy + Send,
>(rt: &R, alloc: Global, port: u16) -> bool {
    let mut network = SocketNetwork::new(*rt, alloc);
    match network.connect(port) {
        Ok(mut link) => is_done(rt, alloc, &mut link),
        Err(_) => false,
    }
}

// Whether two consoles are, each on a thread of its own.
fn are_done_at<
    R: Net<Listener = TcpListener, Stream = TcpStream>
        + RandomSource
        + Clock
        + Threads
        + Wait
        + Copy
        + Send
        + Sync,
>(rt: &R, alloc: Global, port: u16) -> bool {
    let (first, second) = thread::join(
        rt,
        move || is_done_at(rt, alloc, port),
        move || is_done_at(rt, alloc, port),
    );
    first && second
}

// Whether two connections of the network, which listens already, are served.
fn serves<W: Network + Drop, R: Threads + Wait + Copy + Send + Sync + 'static>(
    rt: &R,
    alloc: Global,
    network: W,
) -> bool
where
    W::Link: 'static,
{
    let mut network = Listening::new(network);
    match app(alloc, DRAWN) {
        Ok(app) => serve_all(rt, alloc, &app, &mut network, 2).is_ok(),
        Err(_) => false,
    }
}

// Whether the network listens at one of the ports, and at which.
fn port_of<N: Network>(network: &mut N) -> Option<u16> {
    (PORTS..PORTS + 500).find(|port| network.listen(*port).is_ok())
}

#[test]
fn two_consoles_are_served_over_sockets(rt: HostRuntime) -> Result<(), Fail> {
    let alloc = rt.alloc();
    let mut network = SocketNetwork::new(rt, alloc);
    let Some(port) = port_of(&mut network) else {
        return Err("no port is free".into());
    };
    let (served, done) = thread::join(
        &rt,
        move || serves(&rt, alloc, network),
        move || are_done_at(&rt, alloc, port),
    );
    assert!(rt; served);
    assert!(rt; done);
    Ok(())
}
