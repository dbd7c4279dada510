//! Why the cursors of a publication can't be made.
use ejson_value::Mem;
use std::alloc::AllocFailed;
use thiserror::Error;

/// Why the cursors of a publication can't be made with the parameters of a call.
#[derive(Clone, Copy, Debug, Error)]
pub enum CursorFault {
    /// A selector's template can't be filled: 1 no such parameter, 2 too deep, 3 too large.
    #[error("a template can't be filled")]
    Fill(u8),
    /// A filled template is no selector: 1 not an object, 2 an unknown operator, 3 a bad operand.
    #[error("a filled template is no selector")]
    Selector(u8),
    #[error("out of memory")]
    Memory,
}

impl From<Mem> for CursorFault {
    ghost use Rattle.std.specs.Prelude.{◌≡◌};
    ghost use Rattle.publication.specs.declared.fault.CursorFault.TheVariants.{Memory};

    ghost from_gives = { λ _ e. e ≡ Memory };

    fn from(_: Mem) -> CursorFault {
        CursorFault::Memory
    }
}

impl<T: Drop> From<AllocFailed<T>> for CursorFault {
    ghost use Rattle.std.specs.Prelude.{◌≡◌};
    ghost use Rattle.publication.specs.declared.fault.CursorFault.TheVariants.{Memory};

    ghost from_gives = { λ _ e. e ≡ Memory };

    fn from(_: AllocFailed<T>) -> CursorFault {
        CursorFault::Memory
    }
}
