//! Why an event changes nothing.
use ejson_value::Mem;
use thiserror::Error;

/// Why an event of a session changed nothing, in the order of the tests.
#[derive(Clone, Copy, Debug, PartialEq, Eq, Error)]
pub enum EventFault {
    /// The event isn't enabled.
    #[error("the event isn't enabled")]
    Idle,
    /// The journal has 262,144 items.
    #[error("the journal is full")]
    JournalFull,
    /// As many messages wait as may, 4,096, or the bytes of their texts with this one's pass 4,194,304.
    #[error("the queue is full")]
    QueueFull,
    #[error("out of memory")]
    Memory,
}

impl From<Mem> for EventFault {
    ghost use Rattle.std.specs.Prelude.{◌≡◌};
    ghost use Rattle.session_laws.specs.declared.fault.EventFault.TheVariants.{Memory};

    ghost from_gives = { λ _ e. e ≡ Memory };

    fn from(_: Mem) -> EventFault {
        EventFault::Memory
    }
}
