//! Why a server's text isn't taken.
use ejson_value::Mem;
use thiserror::Error;

/// Why a text of the server isn't taken.
#[derive(Clone, Copy, Debug, PartialEq, Eq, Error)]
pub enum HeardFault {
    /// No text is taken any more: one was refused.
    #[error("no text is taken any more")]
    Idle,
    /// The text is refused, and no further one is taken: 1 it is too long or no JSON object; 2 its message isn't of its form; 3 it
    /// belongs to a session, and there is none yet; 4 a second answer to `connect`, or a refused version where there was a session
    /// before; 5 `added` of a document that is there, 6 `changed` and 7 `removed` of one that isn't.
    #[error("the server sent what breaks rule {0}")]
    ServerSent(u8),
    #[error("out of memory")]
    Memory,
}

impl From<Mem> for HeardFault {
    ghost use Rattle.std.specs.Prelude.{◌≡◌};
    ghost use Rattle.reconnect_parts.specs.declared.fault.HeardFault.TheVariants.{Memory};

    ghost from_gives = { λ _ e. e ≡ Memory };

    fn from(_: Mem) -> HeardFault {
        HeardFault::Memory
    }
}
