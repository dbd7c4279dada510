ghost use Rattle.std.specs.Prelude.{◌≤◌, length};

use ddp_socket::{READS, SocketLink, TRIES, WRITES, accept, connect};
use duct::{Link, NetFault, Polled, SendFault};
use ejson_value::{Mem, Text};
use std::alloc::Global;
use std::io;
use std::io::{ErrorKind, Read, Write};
use std::random::RandomSource;
use std::test::Fail;

const REQUEST: &[u8] =
    b"GET /websocket HTTP/1.1\r\nHost: 127.0.0.1\r\nConnection: Upgrade\r\nUpgrade: websocket\r\nSec-WebSocket-Version: 13\r\nSec-WebSocket-Key: dGhlIHNhbXBsZSBub25jZQ==\r\n\r\n";

// What a stream gives behind its parts.
#[derive(Drop)]
enum Then {
    Blocks,
    Ends,
    // These six bytes at each read.
    Repeats([u8; 6]),
    // As many pings at each read as there is room for.
    Pings,
}

// How long a masked ping with 125 bytes is.
const PING: usize = 131;

// How many bytes a write takes.
const TAKES: usize = 200;

// A stream that gives a part at each read, counts its reads, takes so many writes, each of 200 bytes at most, and then fails
// at each with this error.
#[derive(Drop)]
struct Stream<'a> {
    parts: &'a [&'a [u8]],
    at: usize,
    then: Then,
    reads: &'a mut u32,
    writes: u32,
    refused: ErrorKind,
}

// Puts as many bytes at the front as there is room for.
fn give(bytes: &[u8], into: &mut [u8]) -> usize
    ensures { result ≤ length into.new }
{
    let n = bytes.len().min(into.len());
    into[..n].copy_from_slice(&bytes[..n]);
    n
}

// Puts pings at the front, whose bytes and mask are zeros.
fn give_pings(into: &mut [u8]) -> usize
    ensures { result ≤ length into.new }
{
    for (at, byte) in into.iter_mut().enumerate() {
        *byte = match at % PING {
            0 => 0x89,
            1 => 0xfd,
            _ => 0,
        };
    }
    into.len() - into.len() % PING
}

impl Read for Stream<'_> {
    fn read(&mut self, into: &mut [u8]) -> io::Result<usize> {
        *self.reads = self.reads.saturating_add(1);
        let at = self.at;
        self.at = at.saturating_add(1);
        match self.parts.get(at) {
            Some(part) => Ok(give(part, into)),
            None => match &self.then {
                Then::Blocks => Err(io::Error::from(ErrorKind::WouldBlock)),
                Then::Ends => Ok(0),
                Then::Repeats(bytes) => Ok(give(bytes, into)),
                Then::Pings => Ok(give_pings(into)),
            },
        }
    }
}

impl Write for Stream<'_> {
    fn write(&mut self, bytes: &[u8]) -> io::Result<usize> {
        match self.writes.checked_sub(1) {
            Some(writes) => {
                self.writes = writes;
                Ok(bytes.len().min(TAKES))
            }
            None => Err(io::Error::from(self.refused)),
        }
    }

    fn flush(&mut self) -> io::Result<()> {
        Ok(())
    }
}

// The random bytes of a test.
#[derive(Clone, Copy)]
struct Zeros;

impl RandomSource for Zeros {
    fn fill_bytes(&self, into: &mut [u8]) -> io::Result<()> {
        into.fill(0);
        Ok(())
    }
}

// A server's link over a stream.
fn link<'a>(
    alloc: Global,
    parts: &'a [&'a [u8]],
    then: Then,
    reads: &'a mut u32,
    writes: u32,
    refused: ErrorKind,
) -> SocketLink<Stream<'a>, Zeros> {
    accept(
        alloc,
        Stream {
            parts,
            at: 0,
            then,
            reads,
            writes,
            refused,
        },
    )
}

// Whether a link tries the handshake of a peer that sends nothing so often, and then fails.
fn fails_at_silence(alloc: Global) -> bool {
    let mut reads = 0;
    let mut link = link(
        alloc,
        &[],
        Then::Blocks,
        &mut reads,
        9,
        ErrorKind::BrokenPipe,
    );
    let failed = matches!(link.poll(), Polled::Failed) && matches!(link.poll(), Polled::Failed);
    drop(link);
    failed && reads == TRIES
}

// Whether a link tries the handshake of a peer so often that sends half a head, and then fails.
fn fails_at_half_a_head(alloc: Global) -> bool {
    let mut reads = 0;
    let parts: [&[u8]; 1] = [b"GET /websocket HTTP/1.1\r\nHost: 127.0.0.1\r\n"];
    let mut link = link(
        alloc,
        &parts,
        Then::Blocks,
        &mut reads,
        9,
        ErrorKind::BrokenPipe,
    );
    let failed = matches!(link.poll(), Polled::Failed);
    drop(link);
    failed && reads == TRIES + 1
}

// Whether a handshake ends whose head comes a few bytes at a time.
fn fails_at_a_slow_head(alloc: Global) -> bool {
    let mut reads = 0;
    let parts: [&[u8]; 1] = [b"GET /websocket HTTP/1.1\r\n"];
    let endless = Then::Repeats(*b"a: b\r\n");
    let mut link = link(alloc, &parts, endless, &mut reads, 9, ErrorKind::BrokenPipe);
    let failed = matches!(link.poll(), Polled::Failed);
    drop(link);
    failed && reads == READS + 1
}

// Whether a text is heard whose frame comes byte by byte.
fn hears_bytes(alloc: Global) -> bool {
    let mut reads = 0;
    let parts: [&[u8]; 9] = [
        REQUEST, b"\x81", b"\x82", b"\x00", b"\x00", b"\x00", b"\x00", b"h", b"i",
    ];
    let mut link = link(
        alloc,
        &parts,
        Then::Blocks,
        &mut reads,
        9,
        ErrorKind::BrokenPipe,
    );
    let opened = matches!(link.poll(), Polled::Quiet);
    opened && matches!(link.poll(), Polled::Message(text) if text.as_str() == "hi")
}

// Whether a poll ends though its peer sends the fragments of a text without end.
fn ends_each_poll(alloc: Global) -> bool {
    let mut reads = 0;
    let parts: [&[u8]; 2] = [REQUEST, b"\x01\x80\x00\x00\x00\x00"];
    let endless = Then::Repeats([0, 0x80, 0, 0, 0, 0]);
    let mut link = link(alloc, &parts, endless, &mut reads, 9, ErrorKind::BrokenPipe);
    let quiet = (0..3u8).all(|_| matches!(link.poll(), Polled::Quiet));
    drop(link);
    quiet && reads == 2 * READS
}

// How many reads so many polls make of a peer that sends pings without end and takes no pong; none where one isn't quiet.
fn reads_of_pings(alloc: Global, polls: u32) -> Option<u32> {
    let mut reads = 0;
    let parts: [&[u8]; 1] = [REQUEST];
    let mut link = link(
        alloc,
        &parts,
        Then::Pings,
        &mut reads,
        1,
        ErrorKind::WouldBlock,
    );
    let quiet = (0..polls).all(|_| matches!(link.poll(), Polled::Quiet));
    drop(link);
    quiet.then_some(reads)
}

// Whether no more is read of a peer once so many pongs wait for it.
fn ends_reading(alloc: Global) -> bool {
    let some = reads_of_pings(alloc, 8);
    some.is_some() && some == reads_of_pings(alloc, 80)
}

// Whether a client fails where its server sends nothing, and where it ends.
fn fails_to_connect(alloc: Global, then: Then, wanted: u32) -> bool {
    let mut reads = 0;
    let stream = Stream {
        parts: &[],
        at: 0,
        then,
        reads: &mut reads,
        writes: 9,
        refused: ErrorKind::BrokenPipe,
    };
    let failed = matches!(connect(Zeros, alloc, stream), Err(NetFault::Failed));
    failed && reads == wanted
}

#[test]
fn calls_end(rt: HostRuntime) {
    let alloc = rt.alloc();
    assert!(rt; fails_at_silence(alloc));
    assert!(rt; fails_at_half_a_head(alloc));
    assert!(rt; fails_at_a_slow_head(alloc));
    assert!(rt; hears_bytes(alloc));
    assert!(rt; ends_each_poll(alloc));
    assert!(rt; ends_reading(alloc));
    assert!(rt; fails_to_connect(alloc, Then::Blocks, TRIES));
    assert!(rt; fails_to_connect(alloc, Then::Ends, 1));
}

// What a send of a text answers; none where another text came back.
fn sent<L: Link>(alloc: Global, link: &mut L) -> Option<Result<(), SendFault>> {
    let text = Text::from_str(alloc, "hi").ok()?;
    match link.send(text) {
        Ok(()) => Some(Ok(())),
        Err((back, fault)) if back.as_str() == "hi" => Some(Err(fault)),
        Err(_) => None,
    }
}

// A link is full before its handshake, and while an earlier text waits.
fn is_full(alloc: Global) -> bool {
    let mut reads = 0;
    let parts: [&[u8]; 1] = [REQUEST];
    let mut link = link(
        alloc,
        &parts,
        Then::Blocks,
        &mut reads,
        1,
        ErrorKind::WouldBlock,
    );
    let before = sent(alloc, &mut link) == Some(Err(SendFault::Full));
    let opened = matches!(link.poll(), Polled::Quiet);
    let taken = sent(alloc, &mut link) == Some(Ok(()));
    let full = sent(alloc, &mut link) == Some(Err(SendFault::Full));
    before && opened && taken && full && matches!(link.poll(), Polled::Quiet)
}

// Whether a send ends though its peer takes a few bytes at a time: the next write would fail.
fn ends_a_send(alloc: Global) -> Result<bool, Mem> {
    let mut reads = 0;
    let parts: [&[u8]; 1] = [REQUEST];
    let mut link = link(
        alloc,
        &parts,
        Then::Blocks,
        &mut reads,
        1 + WRITES,
        ErrorKind::BrokenPipe,
    );
    let mut text = Text::new(alloc);
    for _ in 0..2000 {
        text.push_str("0123456789")?;
    }
    let opened = matches!(link.poll(), Polled::Quiet);
    let taken = link.send(text).is_ok();
    Ok(opened && taken && sent(alloc, &mut link) == Some(Err(SendFault::Failed)))
}

// A link fails at a write that fails, and stays so.
fn is_broken(alloc: Global) -> bool {
    let mut reads = 0;
    let parts: [&[u8]; 1] = [REQUEST];
    let mut link = link(
        alloc,
        &parts,
        Then::Blocks,
        &mut reads,
        1,
        ErrorKind::BrokenPipe,
    );
    let opened = matches!(link.poll(), Polled::Quiet);
    let failed = sent(alloc, &mut link) == Some(Err(SendFault::Failed));
    let again = sent(alloc, &mut link) == Some(Err(SendFault::Failed));
    opened && failed && again && matches!(link.poll(), Polled::Failed)
}

// A link whose peer has closed stays so.
fn is_closed(alloc: Global) -> bool {
    let mut reads = 0;
    let parts: [&[u8]; 2] = [REQUEST, b"\x88\x80\x00\x00\x00\x00"];
    let mut link = link(
        alloc,
        &parts,
        Then::Blocks,
        &mut reads,
        9,
        ErrorKind::BrokenPipe,
    );
    let opened = matches!(link.poll(), Polled::Quiet);
    let closed = matches!(link.poll(), Polled::Closed);
    let refused = sent(alloc, &mut link) == Some(Err(SendFault::Closed));
    opened && closed && refused && matches!(link.poll(), Polled::Closed)
}

#[test]
fn a_refused_text_comes_back(rt: HostRuntime) -> Result<(), Fail> {
    let alloc = rt.alloc();
    assert!(rt; ends_a_send(alloc)?);
    assert!(rt; is_full(alloc));
    assert!(rt; is_broken(alloc));
    assert!(rt; is_closed(alloc));
    Ok(())
}
