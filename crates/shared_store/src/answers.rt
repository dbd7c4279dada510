//! What is answered of a shared store.
use program_steps::Status;
use store_machine::BeginFault;
use thiserror::Error;

/// How far a call's run is, with a place of the history: that of the entry that was made, or else the history's end.
#[derive(Drop)]
pub struct Placed {
    pub place: u64,
    pub status: Status,
}

/// Why a call is not begun. A refused call leaves the history as it was.
#[derive(Clone, Copy, Debug, PartialEq, Eq, Error)]
pub enum SharedBegin {
    /// The history has no room: with the call there would be `entries` entries, those counted that runs
    /// have still to make, and `kept` kept bytes, and one of the two is past its limit.
    #[error("the history is full")]
    Full { entries: u64, kept: u64 },
    /// The session has begun a call with a greater number. The greatest is `last`.
    #[error("the session's call {last} was begun")]
    NotNext { last: u64 },
    #[error("out of memory")]
    Memory,
}

impl From<BeginFault> for SharedBegin {
    ghost use Rattle.std.specs.Prelude.{◌≡◌};
    ghost use Rattle.shared_store.specs.Answers.{fault_of};

    ghost from_gives = { λ fault e. e ≡ fault_of fault };

    fn from(fault: BeginFault) -> SharedBegin {
        match fault {
            BeginFault::Full { entries, kept } => SharedBegin::Full { entries, kept },
            BeginFault::Memory => SharedBegin::Memory,
        }
    }
}
