//! Why a value is no selector.
use ejson_value::Mem;
use std::alloc::{AllocError, AllocFailed};
use std::error::Error;
use std::fmt;

/// Why a value is no selector.
#[derive(Clone, Copy, Debug)]
pub enum SelectorFault {
    NotObject,
    UnknownOperator,
    BadOperand,
    Memory,
}

impl SelectorFault {
    // The fault in words.
    fn words(&self) -> &'static str {
        match self {
            SelectorFault::NotObject => "a selector is an object",
            SelectorFault::UnknownOperator => "unknown operator",
            SelectorFault::BadOperand => "an operand of another form",
            SelectorFault::Memory => "out of memory",
        }
    }
}

impl fmt::Display for SelectorFault {
    fn fmt<W: fmt::Write>(&self, f: &mut fmt::Formatter<W>) -> fmt::Result {
        f.write_str(self.words())
    }
}

impl Error for SelectorFault {}

impl From<Mem> for SelectorFault {
    ghost use Rattle.std.specs.Prelude.{◌≡◌};
    ghost use Rattle.selector_match.specs.declared.fault.SelectorFault.TheVariants.{Memory};

    ghost from_gives = { λ _ e. e ≡ Memory };

    fn from(_: Mem) -> SelectorFault {
        SelectorFault::Memory
    }
}

impl From<AllocError> for SelectorFault {
    ghost use Rattle.std.specs.Prelude.{◌≡◌};
    ghost use Rattle.selector_match.specs.declared.fault.SelectorFault.TheVariants.{Memory};

    ghost from_gives = { λ _ e. e ≡ Memory };

    fn from(_: AllocError) -> SelectorFault {
        SelectorFault::Memory
    }
}

impl<T: Drop> From<AllocFailed<T>> for SelectorFault {
    ghost use Rattle.std.specs.Prelude.{◌≡◌};
    ghost use Rattle.selector_match.specs.declared.fault.SelectorFault.TheVariants.{Memory};

    ghost from_gives = { λ _ e. e ≡ Memory };

    fn from(_: AllocFailed<T>) -> SelectorFault {
        SelectorFault::Memory
    }
}
