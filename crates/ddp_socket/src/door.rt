// Which requests for a WebSocket are taken: at each path but SockJS's, which is another protocol, and of no page of another
// host.
use http::header::{HOST, ORIGIN};
use http::uri::Authority;
use http::{HeaderMap, HeaderValue, Request, Response, StatusCode, Uri};
use std::alloc::Global;
use std::net::{Ipv4Addr, Ipv6Addr};
use tungstenite::handshake::server::{Callback, ErrorResponse};

// Whether a host is this machine: `localhost`, or an address of loopback.
fn is_here(host: &str) -> bool {
    let address = host.trim_start_matches('[').trim_end_matches(']');
    host.eq_ignore_ascii_case("localhost")
        || Ipv4Addr::parse_ascii(host.as_bytes()).is_ok_and(|address| address.is_loopback())
        || Ipv6Addr::parse_ascii(address.as_bytes()).is_ok_and(|address| address.is_loopback())
}

// Whether it is the host, without its port, of a `Host` field.
fn is_asked(alloc: Global, host: &str, field: Option<&HeaderValue>) -> bool {
    let Some(field) = field else {
        return false;
    };
    match Authority::from_bytes(alloc, field.as_bytes()) {
        Ok(asked) => asked.host().eq_ignore_ascii_case(host),
        Err(_) => false,
    }
}

// Whether an origin is a file's, which has no host.
fn is_file(origin: &[u8]) -> bool {
    origin == b"null".as_slice() || origin.starts_with(b"file://")
}

// Whether a page of this origin may connect to this host.
fn is_near(alloc: Global, origin: &HeaderValue, asked: Option<&HeaderValue>) -> bool {
    if is_file(origin.as_bytes()) {
        return true;
    }
    match Uri::from_bytes(alloc, origin.as_bytes()) {
        Ok(page) => match page.host() {
            Some(host) => is_here(host) || is_asked(alloc, host, asked),
            None => false,
        },
        Err(_) => false,
    }
}

// Whether a request comes from no page, or from one that may connect.
fn is_welcome(alloc: Global, fields: &HeaderMap<HeaderValue>) -> bool {
    match fields.get(ORIGIN) {
        Some(origin) => is_near(alloc, origin, fields.get(HOST)),
        None => true,
    }
}

// Why a request isn't taken, if it isn't.
fn refusal(alloc: Global, request: &Request<()>) -> Option<StatusCode> {
    if request.uri().path().starts_with("/sockjs") {
        return Some(StatusCode::NOT_FOUND);
    }
    if !is_welcome(alloc, request.headers()) {
        return Some(StatusCode::FORBIDDEN);
    }
    None
}

fn refused(alloc: Global, status: StatusCode) -> ErrorResponse {
    let mut refused = Response::new(alloc, None);
    *refused.status_mut() = status;
    let fields = refused.headers_mut();
    let _ = fields.insert("connection", HeaderValue::from_static("close"));
    let _ = fields.insert("content-length", HeaderValue::from_static("0"));
    refused
}

/// Takes a request, or says in HTTP why not.
#[derive(Drop)]
pub(crate) struct Door {
    pub(crate) alloc: Global,
}

impl Callback for Door {
    fn on_request(
        self,
        request: &Request<()>,
        response: Response<()>,
    ) -> Result<Response<()>, ErrorResponse> {
        match refusal(self.alloc, request) {
            Some(status) => Err(refused(self.alloc, status)),
            None => Ok(response),
        }
    }
}
