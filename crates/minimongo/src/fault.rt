//! Why a server's message isn't taken.
use crate::ServeFault;
use ejson_value::Mem;
use thiserror::Error;

/// Why a message about a document isn't taken.
#[derive(Clone, Copy, Debug, PartialEq, Eq, Error)]
pub enum ViewFault {
    /// It doesn't fit the server's copy: 5 `added` of a document that is there, 6 `changed` and 7
    /// `removed` of one that isn't.
    #[error("a message that doesn't fit the document")]
    Wrong(u8),
    #[error("out of memory")]
    Memory,
}

impl From<Mem> for ViewFault {
    ghost use Rattle.std.specs.Prelude.{◌≡◌};
    ghost use Rattle.minimongo.specs.declared.fault.ViewFault.TheVariants.{Memory};

    ghost from_gives = { λ _ e. e ≡ Memory };

    fn from(_: Mem) -> ViewFault {
        ViewFault::Memory
    }
}

impl From<ServeFault> for ViewFault {
    ghost use Rattle.std.specs.Prelude.{◌≡◌};
    ghost use Rattle.minimongo.specs.Faults.{view_fault};

    ghost from_gives = { λ fault e. e ≡ view_fault fault };

    fn from(fault: ServeFault) -> ViewFault {
        match fault {
            ServeFault::Wrong(number) => ViewFault::Wrong(number),
            ServeFault::Memory => ViewFault::Memory,
        }
    }
}
