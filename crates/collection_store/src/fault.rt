//! Why an operation is refused.
ghost use Rattle.std.specs.Prelude.{◌≡◌};
ghost use Rattle.collection_store.specs.Outcome.{code_of};

use ejson_value::Mem;
use thiserror::Error;

/// Why an operation is refused. A refused operation leaves the store as it was.
#[derive(Clone, Copy, Debug, PartialEq, Eq, Error)]
pub enum OpFault {
    #[error("no such collection")]
    NoCollection,
    #[error("the id is there")]
    Duplicate,
    #[error("the document is too large or too deep")]
    TooLarge,
    /// The modifier's refusal by a document, by its number from 1 to 6.
    #[error("the modifier is refused")]
    Modifier(u8),
    #[error("no room")]
    Full,
    #[error("out of memory")]
    Memory,
}

impl OpFault {
    /// The code that tells a client the refusal. Want of memory has none.
    pub fn code(self) -> Option<u16>
        ensures { result ≡ code_of self }
    {
        match self {
            OpFault::NoCollection => Some(404),
            OpFault::Duplicate => Some(409),
            OpFault::TooLarge => Some(413),
            OpFault::Modifier(_) => Some(422),
            OpFault::Full => Some(507),
            OpFault::Memory => None,
        }
    }
}

impl From<Mem> for OpFault {
    ghost use Rattle.std.specs.Prelude.{◌≡◌};
    ghost use Rattle.collection_store.specs.declared.fault.OpFault.TheVariants.{Memory};

    ghost from_gives = { λ _ e. e ≡ Memory };

    fn from(_: Mem) -> OpFault {
        OpFault::Memory
    }
}
