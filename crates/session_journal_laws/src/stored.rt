//! The items of a journal as a session keeps them.
use session_model::SubFault;

/// An item of a journal. One that answers a text holds the text's place among those that the session took, in place of
/// what the text says.
#[derive(Clone, Copy, Debug, PartialEq, Eq)]
pub enum Stored {
    /// A `connect` of the session's version was taken.
    Connect,
    /// A `connect` of another version was taken.
    Fail,
    /// A `ping` was taken.
    Ping { text: u64 },
    /// A `pong` was taken.
    Pong,
    /// A text was refused.
    Bad { text: u64 },
    /// A `sub` opened this subscription; they are numbered from 0.
    Open { sub: u64, text: u64 },
    /// A `sub` had the id of a live subscription.
    Same { text: u64 },
    /// A `sub` that was refused, or, without a cause, an `unsub` that had no live subscription.
    Nosub { text: u64, fault: Option<SubFault> },
    /// An `unsub` ended this subscription.
    Close { sub: u64, text: u64 },
    /// A `method` of a known name is this call; they are numbered from 0.
    Call { k: u64, text: u64 },
    /// A `method` had an unknown name.
    Unknown { text: u64 },
    /// The subscription shows the documents after so many entries of the history.
    Load { sub: u64, at: u64 },
    /// The subscription goes so many entries on.
    Advance { sub: u64, count: u64 },
    /// The history, when it had so many entries, had no room for the call.
    Refused { k: u64, at: u64 },
    /// The call lets the next message be handled.
    Unblocked { k: u64 },
    /// The call's run had ended when the history had so many entries.
    Finished { k: u64, at: u64 },
}
