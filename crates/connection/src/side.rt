//! What is kept of a client with its session.
use crate::Session;
use crate::client_core::Client;
use crate::link::Link;
use std::alloc::Global;

/// A call that the store had no room for: its number, and how many entries the history had then.
#[derive(Clone, Copy, Debug, PartialEq, Eq)]
pub(crate) struct Refusal {
    pub(crate) k: u64,
    pub(crate) at: u64,
}

/// A client with its session. The texts that the session took, and those that it sent, stay on the
/// links.
pub(crate) struct Side {
    pub(crate) alloc: Global,
    pub(crate) client: Client,
    /// Whether the client sent a text as it stands.
    pub(crate) made_raw: bool,
    pub(crate) upward: Link,
    pub(crate) downward: Link,
    pub(crate) number: u32,
    pub(crate) session: Session,
    /// A refusal by the store that the session has still to learn of.
    pub(crate) kept: Option<Refusal>,
    pub(crate) is_dropped: bool,
}

// A `derive` would have each crate that lets one go prove anew how all that it holds is let go.
impl Drop for Side {
    fn drop(self) {
        let Side {
            alloc: _,
            client,
            made_raw: _,
            upward,
            downward,
            number: _,
            session,
            kept: _,
            is_dropped: _,
        } = self;
        drop(client);
        drop(upward);
        drop(downward);
        drop(session);
    }
}
