//! How serving ends.

/// Why a connection is served no longer.
#[derive(Clone, Copy, Debug, PartialEq, Eq)]
pub enum Ended {
    /// A poll answered that the peer has closed.
    PeerClosed,
    /// A `connect` of another version was taken.
    VersionRefused,
    /// A poll or a send failed.
    LinkFault,
    /// The session's journal has as many items as it may have.
    JournalFull,
    /// The history has the session's call `last`, which was begun elsewhere.
    Foreign { last: u64 },
    /// Memory was refused.
    Memory,
}
