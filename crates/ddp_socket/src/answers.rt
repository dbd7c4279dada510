// What a peer is told in HTTP that gets no WebSocket (RFC 6455, sections 4.2.2 and 4.4).
ghost use Rattle.httparse.specs.Spans.{IsRequestWithin};

use httparse::Status;
use httparse::spans::{EMPTY_HEADER_SPAN, HeaderSpan, RequestSpans, parse_request};
use websocket::handshake::HandshakeError;
use websocket::handshake::server::check_request;

const BAD: &[u8] =
    b"HTTP/1.1 400 Bad Request\r\nsec-websocket-version: 13\r\nconnection: close\r\ncontent-length: 0\r\n\r\n";

const OTHER_VERSION: &[u8] =
    b"HTTP/1.1 426 Upgrade Required\r\nupgrade: websocket\r\nsec-websocket-version: 13\r\nconnection: close, upgrade\r\ncontent-length: 0\r\n\r\n";

const TOO_LONG: &[u8] =
    b"HTTP/1.1 431 Request Header Fields Too Large\r\nconnection: close\r\ncontent-length: 0\r\n\r\n";

/// For a peer that comes while no place is free.
pub(crate) const NO_PLACE: &[u8] =
    b"HTTP/1.1 503 Service Unavailable\r\nconnection: close\r\ncontent-length: 0\r\n\r\n";

// The longest head that is read whole, and how many fields one may have.
const LONGEST: usize = 65536;

const FIELDS: usize = 124;

// How the field begins that names a version.
const VERSION: &[u8] = b"\nsec-websocket-version:";

// Whether a head names a version.
fn has_version(head: &[u8]) -> bool {
    head.windows(VERSION.len())
        .any(|part| part.eq_ignore_ascii_case(VERSION))
}

// The answer to a whole head: it asks for no WebSocket, or for one of another version.
fn answer_to_request(head: &[u8], found: &RequestSpans, fields: &[HeaderSpan]) -> &'static [u8]
    requires { IsRequestWithin head.now fields.now found.now }
{
    match check_request(head, found, fields) {
        Err(HandshakeError::MissingSecWebSocketVersionHeader) if has_version(head) => OTHER_VERSION,
        _ => BAD,
    }
}

/// The answer to what came in place of a handshake.
pub(crate) fn answer_to(head: &[u8]) -> &'static [u8] {
    if head.len() > LONGEST {
        return TOO_LONG;
    }
    let mut fields = [EMPTY_HEADER_SPAN; FIELDS];
    match parse_request(head, &mut fields) {
        Ok(Status::Complete(found)) => answer_to_request(head, &found, &fields),
        _ => BAD,
    }
}
