//! Why a script is no longer run.

/// Why a script is no longer run.
#[derive(Clone, Copy, Debug, PartialEq, Eq)]
pub enum ConsoleEnd {
    /// Each line was run, and nothing waits any more.
    Done,
    /// The client refused a text of the server, by the rule of this number.
    ServerSent(u8),
    /// The server doesn't speak the client's version.
    Version,
    /// The link answered that the peer has closed.
    Closed,
    /// The link failed.
    LinkFault,
    /// The output could not be written whole.
    WriteFault,
    /// There was no memory left.
    Memory,
}
