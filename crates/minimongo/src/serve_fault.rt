//! What becomes of a server's message, and why it is refused.
use ejson_value::Mem;
use thiserror::Error;

/// Whose copy a message is about.
#[derive(Clone, Copy, Debug, PartialEq, Eq)]
pub enum Served {
    /// A saved one, which has taken it.
    Saved,
    /// The view's own: nobody holds the document.
    NotSaved,
}

/// Why a message about a document isn't taken.
#[derive(Clone, Copy, Debug, PartialEq, Eq, Error)]
pub enum ServeFault {
    /// It doesn't fit what the server said before: 5 `added` of a document that is there, 6 `changed`
    /// and 7 `removed` of one that isn't.
    #[error("a message that doesn't fit the document")]
    Wrong(u8),
    #[error("out of memory")]
    Memory,
}

impl From<Mem> for ServeFault {
    ghost use Rattle.std.specs.Prelude.{◌≡◌};
    ghost use Rattle.minimongo.specs.declared.serve_fault.ServeFault.TheVariants.{Memory};

    ghost from_gives = { λ _ e. e ≡ Memory };

    fn from(_: Mem) -> ServeFault {
        ServeFault::Memory
    }
}
