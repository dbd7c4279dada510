ghost use Rattle.std.specs.Prelude.{◌≡◌, ℕ, List, Some, false, IfOk};
ghost use Rattle.tungstenite.specs.Heads.{Serves, Connected};
ghost use Rattle.ddp_socket.specs.Links.{largest, IsBounded};

use crate::door::Door;
use crate::metered::Metered;
use crate::turn::{Turn, error_turn};
use duct::NetFault;
use http::Request;
use std::alloc::Global;
use std::io::{Read, Write};
use std::random::RandomSource;
use tungstenite::handshake::{client, server};
use tungstenite::{
    CloseCode, CloseFrame, Error, HandshakeError, MaskKeys, RandomKeys, Role, Utf8Bytes, WebSocket,
    WebSocketConfig,
};

/// How often a handshake is tried. At reads of 20 ms that is 10 seconds.
pub const TRIES: u32 = 500;

/// The most bytes of a message that a link takes. It is above what the ends of DDP take, so that they refuse a long text
/// by their own rules; past it the link fails.
pub const LARGEST: usize = 8388608;

// The masking keys of an end: a client masks each frame, a server none (RFC 6455, section 5.1).
#[derive(Drop)]
pub enum Masks<R> {
    Server,
    Client(RandomKeys<R>),
}

impl<R: RandomSource> MaskKeys for Masks<R> {
    fn next_key(&mut self) -> [u8; 4] {
        match self {
            Masks::Server => [0; 4],
            Masks::Client(keys) => keys.next_key(),
        }
    }

    fn has_failed(&self) -> bool {
        match self {
            Masks::Server => false,
            Masks::Client(keys) => keys.has_failed(),
        }
    }
}

pub(crate) type Socket<S, R> = WebSocket<Metered<S>, Masks<R>>;

fn limits() -> WebSocketConfig
    ensures message { result.max_message_size ≡ Some largest }
    ensures frame { result.max_frame_size ≡ Some largest }
    ensures masked { result.accept_unmasked_frames ≡ false }
{
    WebSocketConfig::default()
        .max_message_size(Some(LARGEST))
        .max_frame_size(Some(LARGEST))
        .max_write_buffer_size(LARGEST)
}

// Why a handshake came to nothing.
fn net_fault(error: Error) -> NetFault {
    match error_turn(error) {
        Turn::Memory => NetFault::Memory,
        _ => NetFault::Failed,
    }
}

// The server's handshake.
pub(crate) fn serve<S: Read + Write + Drop, R: RandomSource + Drop>(
    alloc: Global,
    stream: S,
) -> Result<Socket<S, R>, NetFault>
    ensures served { IfOk result Serves }
    ensures bounded { IfOk result (λ socket. IsBounded socket.conn) }
{
    let stream = Metered::new(alloc, stream);
    let mut mid = server::start(alloc, stream, Door { alloc }, Some(limits()));
    for _ in 0..TRIES {
        match mid.handshake() {
            Ok(done) => {
                return Ok(WebSocket::from_raw_socket(
                    alloc,
                    done.into_inner(),
                    Masks::Server,
                    Role::Server,
                    Some(limits()),
                ));
            }
            Err(HandshakeError::Interrupted(next)) => mid = next,
            Err(HandshakeError::Failure(error)) => return Err(net_fault(error)),
        }
    }
    Err(NetFault::Failed)
}

// The request of a client, for the path that Meteor serves.
fn request(alloc: Global) -> Result<Request<()>, NetFault> {
    match client::request_of(alloc, "ws://127.0.0.1/websocket") {
        Ok(request) => Ok(request),
        Err(error) => Err(net_fault(error)),
    }
}

// The client's handshake with this nonce.
fn ask_with<S: Read + Write + Drop, R: RandomSource + Drop>(
    rt: R,
    alloc: Global,
    nonce: [u8; 16],
    request: Request<()>,
    stream: S,
) -> Result<Socket<S, R>, NetFault>
    ensures { IfOk result (λ socket. (key : List ℕ) × Connected key socket) }
{
    let keys = Masks::Client(RandomKeys::new(rt));
    let mut mid = match client::start(
        alloc,
        nonce,
        keys,
        request,
        Metered::new(alloc, stream),
        Some(limits()),
    ) {
        Ok(mid) => mid,
        Err(error) => return Err(net_fault(error)),
    };
    for _ in 0..TRIES {
        match mid.handshake() {
            Ok((socket, _response)) => return Ok(socket),
            Err(HandshakeError::Interrupted(next)) => mid = next,
            Err(HandshakeError::Failure(error)) => return Err(net_fault(error)),
        }
    }
    Err(NetFault::Failed)
}

// The client's handshake.
pub(crate) fn ask<S: Read + Write + Drop, R: RandomSource + Drop>(
    rt: R,
    alloc: Global,
    stream: S,
) -> Result<Socket<S, R>, NetFault>
    ensures { IfOk result (λ socket. (key : List ℕ) × Connected key socket) }
{
    let mut nonce = [0; 16];
    if rt.fill_bytes(&mut nonce).is_err() {
        return Err(NetFault::Failed);
    }
    let request = request(alloc)?;
    ask_with(rt, alloc, nonce, request, stream)
}

// Says that no more comes, with this code and no words. A close frame is sent once; what waits is sent before it.
pub(crate) fn part<S: Read + Write + Drop, R: RandomSource + Drop>(
    socket: &mut Socket<S, R>,
    code: CloseCode,
) {
    let frame = CloseFrame {
        code,
        reason: Utf8Bytes::from_static(""),
    };
    let _ = socket.close(Some(frame));
}
