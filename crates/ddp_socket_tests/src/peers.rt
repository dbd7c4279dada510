use crate::talk::listening;
use ddp_socket::{SocketLink, SocketNetwork, WakingStream};
use duct::{Bell, Link, NetFault, Network, Polled};
use std::alloc::Global;
use std::io;
use std::io::{Read, Write};
use std::net::{Ipv4Addr, Net, Shutdown, TcpListener, TcpStream};
use std::random::RandomSource;
use std::test::Fail;
use std::time::Clock;

// How often a link is polled for what a peer sent.
const POLLS: u32 = 100;

pub const REQUEST: &[u8] =
    b"GET /websocket HTTP/1.1\r\nHost: 127.0.0.1\r\nConnection: Upgrade\r\nUpgrade: websocket\r\nSec-WebSocket-Version: 13\r\nSec-WebSocket-Key: dGhlIHNhbXBsZSBub25jZQ==\r\n\r\n";

// The example of RFC 6455, section 1.3: how a server answers that key.
const ACCEPTED: &[u8] = b"sec-websocket-accept: s3pPLMBiTxaQ9kYGzzhZRbK+xOo=\r\n";

// Each row: what a peer sends behind its handshake before it sends no more (RFC 6455, section 5.2), in hexadecimal; what
// the polls of the link then give; and what the peer was sent behind the handshake.
const FRAMES: &str = r#"818000000000 => [] failed =>
8182000000006869 => [hi] failed =>
818201020304696b => [hi] failed =>
8182000000006869818100000000788182000000006a6b => [hi] [x] [jk] failed =>
818400000000f09f8d8c => [🍌] failed =>
018100000000688980000000000080000000008a80000000008081000000006a => [hj] failed => 8a00
898100000000618182000000006869 => [hi] failed => 8a0161
82810000000061 => closed => 880203eb
81820000000068698280000000008182000000006869 => [hi] closed => 880203eb
02810000000061 => failed =>
028100000000618081000000006280 => closed => 880203eb
88820000000003e8 => closed => 880203e8
88850000000003e8627965 => closed => 880503e8627965
8882000000000fa0 => closed => 88020fa0
88820000000003ed => closed => 881403ea50726f746f636f6c2076696f6c6174696f6e
888000000000 => closed => 8800
888000000000818100000000 => closed => 8800
81850000000068 => failed =>
8182000000 => failed =>
81820000000068698181 => [hi] failed =>
818100000000ff => failed => 880203ef
818200000000686981820000 => [hi] failed =>
81ff000000000080000100000000 => failed => 880203f1
81ff000000000080000000000000 => failed =>
8181000000006881ff000000000080000100000000 => [h] failed => 880203f1
81026869 => failed => 880203ea
c18000000000 => failed => 880203ea
808000000000 => failed => 880203ea
838000000000 => failed => 880203ea
818000000000018100000000688181000000006a => [] failed => 880203ea
89fe007e00000000000000000000000000000000000000000000000000000000000000000000000000000000000000000000000000000000000000000000000000000000000000000000000000000000000000000000000000000000000000000000000000000000000000000000000000000000000000000000000000000000000000000000 => failed => 880203ea
81ffffffffffffffffff00000000 => failed => 880203ea
8a8000000000 => failed =>
018200000000f09f8082000000008d8c => [🍌] failed =>
 => failed =>
"#;

// Each row: what a peer sends as its handshake before it sends no more, with a bar for the end of a line and KEYS for the
// fields of a good one; and the status of the answer, if there is any.
const HEADS: &str = r#" =>
hello => 400
GET /websocket HTTP/1.1|Host: 127.0.0.1|| => 400
GET /websocket HTTP/1.1|Host: 127.0.0.1|Connection: Upgrade|Upgrade: websocket|Sec-WebSocket-Version: 13| => 400
GET /websocket HTTP/1.1|Host: 127.0.0.1|Connection: Upgrade|Upgrade: websocket|Sec-WebSocket-Version: 13|| => 400
GET /websocket HTTP/1.1|Host: 127.0.0.1|Connection: Upgrade|Upgrade: websocket|Sec-WebSocket-Version: 13|Sec-WebSocket-Key: dGhl|| => 400
GET /websocket HTTP/1.1|Host: 127.0.0.1|Connection: Upgrade|Upgrade: websocket|Sec-WebSocket-Key: dGhlIHNhbXBsZSBub25jZQ==|| => 400
GET /websocket HTTP/1.1|Host: 127.0.0.1|Connection: Upgrade|Upgrade: websocket|Sec-WebSocket-Version: 8|Sec-WebSocket-Key: dGhlIHNhbXBsZSBub25jZQ==|| => 426
POST /websocket HTTP/1.1|KEYS|| => 400
GET /websocket HTTP/1.0|KEYS|| => 400
GET /websocket HTTP/1.1|KEYS||junk => 400
GET /websocket HTTP/1.1|KEYS|| => 101
GET /websocket HTTP/1.1|Connection: keep-alive, Upgrade|Upgrade: WebSocket|Sec-WebSocket-Version: 13|Sec-WebSocket-Key: dGhlIHNhbXBsZSBub25jZQ==|| => 101
GET /websocket HTTP/1.1|Sec-WebSocket-Extensions: permessage-deflate|Sec-WebSocket-Protocol: ddp|KEYS|| => 101
GET /websocket HTTP/1.1|Host: 127.0.0.1|connection: UPGRADE|UPGRADE: WEBSOCKET|sec-websocket-version: 13|sec-websocket-key: dGhlIHNhbXBsZSBub25jZQ==|| => 101
GET / HTTP/1.1|KEYS|| => 101
GET /any/other?query HTTP/1.1|KEYS|| => 101
GET /sockjs/info HTTP/1.1|KEYS|| => 404
GET /sockjs/1/x/websocket HTTP/1.1|KEYS|| => 404
GET /sockjs HTTP/1.1|Origin: http://localhost|KEYS|| => 404
GET /websocket HTTP/1.1|Origin: http://127.0.0.1:3000|KEYS|| => 101
GET /websocket HTTP/1.1|Origin: http://127.8.9.1|KEYS|| => 101
GET /websocket HTTP/1.1|Origin: http://[::1]:3000|KEYS|| => 101
GET /websocket HTTP/1.1|Origin: http://LocalHost:3000|KEYS|| => 101
GET /websocket HTTP/1.1|Origin: null|KEYS|| => 101
GET /websocket HTTP/1.1|Origin: file:///home/page.html|KEYS|| => 101
GET /websocket HTTP/1.1|Origin: http://evil.example|KEYS|| => 403
GET /websocket HTTP/1.1|Origin: http://localhost.evil.example|KEYS|| => 403
GET /websocket HTTP/1.1|Origin: http://128.0.0.1|KEYS|| => 403
GET /websocket HTTP/1.1|Origin: evil|KEYS|| => 403
GET /websocket HTTP/1.1|Origin: https://Example.org|Host: example.org:3000|Connection: Upgrade|Upgrade: websocket|Sec-WebSocket-Version: 13|Sec-WebSocket-Key: dGhlIHNhbXBsZSBub25jZQ==|| => 101
GET /websocket HTTP/1.1|Origin: https://example.org|Host: other.example.org|Connection: Upgrade|Upgrade: websocket|Sec-WebSocket-Version: 13|Sec-WebSocket-Key: dGhlIHNhbXBsZSBub25jZQ==|| => 403
GET /websocket HTTP/1.1|Origin: https://example.org|Connection: Upgrade|Upgrade: websocket|Sec-WebSocket-Version: 13|Sec-WebSocket-Key: dGhlIHNhbXBsZSBub25jZQ==|| => 403
"#;

const KEYS: &[u8] =
    b"Host: 127.0.0.1\r\nConnection: Upgrade\r\nUpgrade: websocket\r\nSec-WebSocket-Version: 13\r\nSec-WebSocket-Key: dGhlIHNhbXBsZSBub25jZQ==\r\n";

// The first bytes of a handshake of TLS.
const TLS: &[u8] = b"\x16\x03\x01\x02\x00\x01\x00\x01\xfc\x03\x03";

fn digit(letter: u8) -> u8 {
    match letter {
        b'0'..=b'9' => letter - b'0',
        b'a'..=b'f' => letter - b'a' + 10,
        _ => 0,
    }
}

pub fn bytes(alloc: Global, digits: &str) -> Result<Vec<u8>, Fail> {
    let mut bytes = Vec::new(alloc);
    for pair in digits.as_bytes().chunks_exact(2) {
        bytes.push(digit(pair[0]) << 4 | digit(pair[1]))?;
    }
    Ok(bytes)
}

// The bytes of a head: its lines, of which one may stand for all fields.
fn lines(alloc: Global, row: &str) -> Result<Vec<u8>, Fail> {
    let mut bytes = Vec::new(alloc);
    let mut first = true;
    for line in row.split('|') {
        if !first {
            bytes.extend_from_slice(b"\r\n")?;
        }
        first = false;
        if line == "KEYS" {
            bytes.extend_from_slice(&KEYS[..KEYS.len() - 2])?;
        } else {
            bytes.extend_from_slice(line.as_bytes())?;
        }
    }
    Ok(bytes)
}

// Adds a text that a link gave.
fn add_text(all: &mut String, text: &str) -> Result<(), Fail> {
    all.push_str("[")?;
    all.push_str(text)?;
    all.push_str("] ")?;
    Ok(())
}

// The word for what is no text.
fn word(polled: Polled) -> &'static str {
    match polled {
        Polled::Closed => "closed",
        Polled::Failed => "failed",
        _ => "memory",
    }
}

// What the polls of a link give, up to its end.
pub fn heard<L: Link>(alloc: Global, link: &mut L) -> Result<String, Fail> {
    let mut all = String::new(alloc);
    for _ in 0..POLLS {
        match link.poll() {
            Polled::Quiet => {}
            Polled::Message(text) => add_text(&mut all, text.as_str())?,
            end => {
                all.push_str(word(end))?;
                return Ok(all);
            }
        }
    }
    Ok(all)
}

// A peer that has sent this, and the link of it.
pub fn peer<
    R: Net<Listener = TcpListener, Stream = TcpStream> + RandomSource + Clock + Copy + Send,
>(
    rt: R,
    network: &mut SocketNetwork<R>,
    port: u16,
    head: &[u8],
) -> Result<(TcpStream, SocketLink<WakingStream, R>), Fail> {
    let mut peer = TcpStream::connect(&rt, (Ipv4Addr::LOCALHOST, port))?;
    peer.write_all(head)?;
    Ok((peer, network.accept()?))
}

// A peer and its link behind the handshake; the peer has sent these frames, and sends no more.
pub fn sends<
    R: Net<Listener = TcpListener, Stream = TcpStream> + RandomSource + Clock + Copy + Send,
>(
    rt: R,
    network: &mut SocketNetwork<R>,
    port: u16,
    frames: &[u8],
) -> Result<(TcpStream, SocketLink<WakingStream, R>), Fail> {
    let (mut peer, mut link) = peer(rt, network, port, REQUEST)?;
    if !matches!(link.poll(), Polled::Quiet) {
        return Err(io::Error::from(io::ErrorKind::ConnectionRefused).into());
    }
    peer.write_all(frames)?;
    peer.shutdown(Shutdown::Write)?;
    Ok((peer, link))
}

// Whether these end with the head that accepts the handshake, and then these.
pub fn is_answered(sent: &[u8], wanted: &[u8]) -> bool {
    let head = sent.len().saturating_sub(wanted.len());
    sent.ends_with(wanted)
        && sent[..head].ends_with(b"\r\n\r\n")
        && sent.windows(ACCEPTED.len()).any(|part| part == ACCEPTED)
}

// What is heard of a peer that sends these frames, and what it is sent.
fn exchange<
    R: Net<Listener = TcpListener, Stream = TcpStream> + RandomSource + Clock + Copy + Send,
>(
    rt: R,
    alloc: Global,
    network: &mut SocketNetwork<R>,
    port: u16,
    frames: &[u8],
) -> Result<(String, Vec<u8>), Fail> {
    let (mut peer, mut link) = sends(rt, network, port, frames)?;
    let heard = heard(alloc, &mut link)?;
    drop(link);
    let mut sent = Vec::new(alloc);
    peer.read_to_end(&mut sent)?;
    Ok((heard, sent))
}

// The three parts of a row.
fn parts(row: &str) -> Option<(&str, &str, &str)> {
    let (frames, wanted) = row.split_once(" =>")?;
    let (polls, reply) = wanted.split_once(" =>")?;
    Some((frames, polls.trim(), reply.trim()))
}

// Whether a row of frames is heard as it says, and answered so.
fn is_heard<
    R: Net<Listener = TcpListener, Stream = TcpStream> + RandomSource + Clock + Copy + Send,
>(
    rt: R,
    alloc: Global,
    network: &mut SocketNetwork<R>,
    port: u16,
    row: &str,
) -> Result<bool, Fail> {
    let Some((frames, polls, reply)) = parts(row) else {
        return Ok(false);
    };
    let frames = bytes(alloc, frames)?;
    let reply = bytes(alloc, reply)?;
    let (heard, sent) = exchange(rt, alloc, network, port, &frames)?;
    Ok(heard.as_str() == polls && is_answered(&sent, &reply))
}

// What a peer is still told. A connection that ends with bytes unread is reset behind it.
pub fn rest(alloc: Global, peer: &mut TcpStream) -> Result<Vec<u8>, Fail> {
    let mut sent = Vec::new(alloc);
    let mut part = [0; 256];
    for _ in 0..POLLS {
        match peer.read(&mut part) {
            Ok(0) => return Ok(sent),
            Ok(n) => sent.extend_from_slice(&part[..n])?,
            Err(error) if error.kind() == io::ErrorKind::ConnectionReset => return Ok(sent),
            Err(error) => return Err(error.into()),
        }
    }
    Ok(sent)
}

// What a peer is told that sends this as its handshake, and whether its link is open then; a link that isn't stays so.
fn greeting<
    R: Net<Listener = TcpListener, Stream = TcpStream> + RandomSource + Clock + Copy + Send,
>(
    rt: R,
    alloc: Global,
    network: &mut SocketNetwork<R>,
    port: u16,
    head: &[u8],
) -> Result<(Vec<u8>, bool), Fail> {
    let (mut peer, mut link) = peer(rt, network, port, head)?;
    peer.shutdown(Shutdown::Write)?;
    let opened = match link.poll() {
        Polled::Quiet => true,
        Polled::Failed if matches!(link.poll(), Polled::Failed) => false,
        _ => return Err(io::Error::from(io::ErrorKind::Other).into()),
    };
    drop(link);
    Ok((rest(alloc, &mut peer)?, opened))
}

// Whether an answer has this status, which is empty where there is none.
fn has_status(sent: &[u8], status: &str) -> bool {
    if status.is_empty() {
        return sent.is_empty();
    }
    match sent.strip_prefix(b"HTTP/1.1 ".as_slice()) {
        Some(rest) => rest.starts_with(status.as_bytes()),
        None => false,
    }
}

// How the fields begin that grant an extension and a subprotocol, of which a server here speaks none.
const EXTENSION: &[u8] = b"sec-websocket-extensions";

const SUBPROTOCOL: &[u8] = b"sec-websocket-protocol";

// Whether an answer grants an extension or a subprotocol.
fn grants_more(sent: &[u8]) -> bool {
    sent.windows(EXTENSION.len())
        .any(|part| part.eq_ignore_ascii_case(EXTENSION))
        || sent
            .windows(SUBPROTOCOL.len())
            .any(|part| part.eq_ignore_ascii_case(SUBPROTOCOL))
}

// Whether a row of heads is answered as it says, and the link open where the handshake is taken.
fn is_greeted<
    R: Net<Listener = TcpListener, Stream = TcpStream> + RandomSource + Clock + Copy + Send,
>(
    rt: R,
    alloc: Global,
    network: &mut SocketNetwork<R>,
    port: u16,
    row: &str,
) -> Result<bool, Fail> {
    let Some((head, status)) = row.split_once(" =>") else {
        return Ok(false);
    };
    let head = lines(alloc, head)?;
    let (sent, opened) = greeting(rt, alloc, network, port, &head)?;
    let answered = has_status(&sent, status.trim()) && !grants_more(&sent);
    Ok(answered && opened == (status.trim() == "101"))
}

// Whether a head that is no text, and one that is too long, are answered so.
fn are_refused<
    R: Net<Listener = TcpListener, Stream = TcpStream> + RandomSource + Clock + Copy + Send,
>(rt: R, alloc: Global, network: &mut SocketNetwork<R>, port: u16) -> Result<bool, Fail> {
    let (no_text, first) = greeting(rt, alloc, network, port, TLS)?;
    let mut long = Vec::new(alloc);
    long.extend_from_slice(b"GET /websocket HTTP/1.1\r\nX: ")?;
    long.resize(70000, b'x')?;
    let (too_long, second) = greeting(rt, alloc, network, port, &long)?;
    Ok(has_status(&no_text, "400") && has_status(&too_long, "431") && !first && !second)
}

// Whether a head of so many fields is answered so.
fn is_too_many<
    R: Net<Listener = TcpListener, Stream = TcpStream> + RandomSource + Clock + Copy + Send,
>(rt: R, alloc: Global, network: &mut SocketNetwork<R>, port: u16) -> Result<bool, Fail> {
    let mut head = Vec::new(alloc);
    head.extend_from_slice(b"GET /websocket HTTP/1.1\r\n")?;
    for _ in 0..200u8 {
        head.extend_from_slice(b"X: x\r\n")?;
    }
    head.extend_from_slice(KEYS)?;
    head.extend_from_slice(b"\r\n")?;
    let (sent, opened) = greeting(rt, alloc, network, port, &head)?;
    Ok(has_status(&sent, "400") && !opened)
}

// What is heard of a peer that goes without a word, and leaves unread what it was sent.
fn is_gone<R: Net<Listener = TcpListener, Stream = TcpStream> + RandomSource + Clock + Copy + Send>(
    rt: R,
    alloc: Global,
    network: &mut SocketNetwork<R>,
    port: u16,
) -> Result<bool, Fail> {
    let (peer, mut link) = peer(rt, network, port, REQUEST)?;
    let opened = matches!(link.poll(), Polled::Quiet);
    drop(peer);
    Ok(opened && heard(alloc, &mut link)?.as_str() == "failed")
}

// Whether a peer is told so whose link is let go before it was polled.
fn is_turned_away<
    R: Net<Listener = TcpListener, Stream = TcpStream> + RandomSource + Clock + Copy + Send,
>(rt: R, alloc: Global, network: &mut SocketNetwork<R>, port: u16) -> Result<bool, Fail> {
    let (mut peer, link) = peer(rt, network, port, REQUEST)?;
    drop(link);
    Ok(has_status(&rest(alloc, &mut peer)?, "503"))
}

// Adds a row, as one that isn't as it says.
fn add(wrong: &mut String, row: &str) -> Result<(), Fail> {
    wrong.push_str(row)?;
    wrong.push_str("\n")?;
    Ok(())
}

// Adds the rows of frames that aren't as they say.
fn add_wrong_frames<
    R: Net<Listener = TcpListener, Stream = TcpStream> + RandomSource + Clock + Copy + Send,
>(
    rt: R,
    alloc: Global,
    network: &mut SocketNetwork<R>,
    port: u16,
    wrong: &mut String,
) -> Result<(), Fail> {
    for row in FRAMES.lines() {
        if !is_heard(rt, alloc, network, port, row)? {
            add(wrong, row)?;
        }
    }
    Ok(())
}

// Adds the rows of heads that aren't answered as they say.
fn add_wrong_heads<
    R: Net<Listener = TcpListener, Stream = TcpStream> + RandomSource + Clock + Copy + Send,
>(
    rt: R,
    alloc: Global,
    network: &mut SocketNetwork<R>,
    port: u16,
    wrong: &mut String,
) -> Result<(), Fail> {
    for row in HEADS.lines() {
        if !is_greeted(rt, alloc, network, port, row)? {
            add(wrong, row)?;
        }
    }
    Ok(())
}

// The rows that aren't as they say; a link that stands beside them all, and whose bell is rung, then still gives its text.
fn wrong_rows<
    R: Net<Listener = TcpListener, Stream = TcpStream> + RandomSource + Clock + Copy + Send,
>(
    rt: R,
    alloc: Global,
    network: &mut SocketNetwork<R>,
    port: u16,
    wrong: &mut String,
) -> Result<bool, Fail> {
    let text = bytes(alloc, "8182000000006869")?;
    let (_peer, mut standing) = sends(rt, network, port, &text)?;
    add_wrong_frames(rt, alloc, network, port, wrong)?;
    add_wrong_heads(rt, alloc, network, port, wrong)?;
    let refused = are_refused(rt, alloc, network, port)?;
    let too_many = is_too_many(rt, alloc, network, port)?;
    let gone = is_gone(rt, alloc, network, port)?;
    let turned_away = is_turned_away(rt, alloc, network, port)?;
    standing.bell()?.ring();
    let last = heard(alloc, &mut standing)?;
    Ok(refused && too_many && gone && turned_away && last.as_str() == "[hi] failed")
}

fn all_are_right<
    R: Net<Listener = TcpListener, Stream = TcpStream> + RandomSource + Clock + Copy + Send,
>(rt: R, alloc: Global, wrong: &mut String) -> Result<bool, Fail> {
    let mut network = SocketNetwork::new(rt, alloc);
    match listening(&mut network) {
        Some(port) => wrong_rows(rt, alloc, &mut network, port, wrong),
        None => Ok(false),
    }
}

#[test]
fn links_fail_alone(rt: HostRuntime) -> Result<(), Fail> {
    let mut wrong = String::new(rt.alloc());
    assert!(rt; all_are_right(rt, rt.alloc(), &mut wrong)?);
    assert_eq!(rt; wrong.as_str(), "");
    Ok(())
}

// Whether the calls of a network fail where nothing listens, and where the port is taken.
fn fails<R: Net<Listener = TcpListener, Stream = TcpStream> + RandomSource + Clock + Copy + Send>(
    rt: R,
    alloc: Global,
) -> bool {
    let mut network = SocketNetwork::new(rt, alloc);
    let unheard = matches!(network.accept(), Err(NetFault::Failed));
    let Some(port) = listening(&mut network) else {
        return false;
    };
    let mut other = SocketNetwork::new(rt, alloc);
    let taken = matches!(other.listen(port), Err(NetFault::Failed));
    drop(network);
    unheard && taken && matches!(other.connect(port), Err(NetFault::Failed))
}

#[test]
fn networks_fail(rt: HostRuntime) {
    assert!(rt; fails(rt, rt.alloc()));
}
