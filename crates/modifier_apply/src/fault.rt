//! Why a value is no modifier, and why a modifier is refused.
ghost use Rattle.std.specs.Prelude.{◌≡◌};
ghost use Rattle.modifier_apply.specs.Modified.{refusal_number};

use ejson_value::Mem;
use std::alloc::{AllocError, AllocFailed};
use std::error::Error;
use std::fmt;

/// Why a value is no modifier.
#[derive(Clone, Copy, Debug)]
pub enum ModifierFault {
    NotObject,
    UnknownOperator,
    BadOperand,
    Memory,
}

impl ModifierFault {
    // The fault in words.
    fn words(&self) -> &'static str {
        match self {
            ModifierFault::NotObject => "a modifier is an object",
            ModifierFault::UnknownOperator => "unknown operator",
            ModifierFault::BadOperand => "an operand of another form",
            ModifierFault::Memory => "out of memory",
        }
    }
}

impl fmt::Display for ModifierFault {
    fn fmt<W: fmt::Write>(&self, f: &mut fmt::Formatter<W>) -> fmt::Result {
        f.write_str(self.words())
    }
}

impl Error for ModifierFault {}

impl From<Mem> for ModifierFault {
    ghost use Rattle.std.specs.Prelude.{◌≡◌};
    ghost use Rattle.modifier_apply.specs.declared.fault.ModifierFault.TheVariants.{Memory};

    ghost from_gives = { λ _ e. e ≡ Memory };

    fn from(_: Mem) -> ModifierFault {
        ModifierFault::Memory
    }
}

impl From<AllocError> for ModifierFault {
    ghost use Rattle.std.specs.Prelude.{◌≡◌};
    ghost use Rattle.modifier_apply.specs.declared.fault.ModifierFault.TheVariants.{Memory};

    ghost from_gives = { λ _ e. e ≡ Memory };

    fn from(_: AllocError) -> ModifierFault {
        ModifierFault::Memory
    }
}

impl<T: Drop> From<AllocFailed<T>> for ModifierFault {
    ghost use Rattle.std.specs.Prelude.{◌≡◌};
    ghost use Rattle.modifier_apply.specs.declared.fault.ModifierFault.TheVariants.{Memory};

    ghost from_gives = { λ _ e. e ≡ Memory };

    fn from(_: AllocFailed<T>) -> ModifierFault {
        ModifierFault::Memory
    }
}

/// Why a modifier is refused by a document.
#[derive(Clone, Copy, Debug)]
pub enum ApplyFault {
    NotNumber,
    NotArray,
    PathBlocked,
    IdChange,
    NumberRange,
    Conflict,
    Memory,
}

impl ApplyFault {
    // The fault in words.
    fn words(&self) -> &'static str {
        match self {
            ApplyFault::NotNumber => "not a number",
            ApplyFault::NotArray => "not a list",
            ApplyFault::PathBlocked => "the path can't go on",
            ApplyFault::IdChange => "the id can't change",
            ApplyFault::NumberRange => "a number out of range",
            ApplyFault::Conflict => "two changes at one place",
            ApplyFault::Memory => "out of memory",
        }
    }
}

impl fmt::Display for ApplyFault {
    fn fmt<W: fmt::Write>(&self, f: &mut fmt::Formatter<W>) -> fmt::Result {
        f.write_str(self.words())
    }
}

impl Error for ApplyFault {}

impl ApplyFault {
    /// The number that tells a client the refusal, from 1 to 6. Want of memory has none.
    pub fn number(self) -> Option<u8>
        ensures { result ≡ refusal_number self }
    {
        match self {
            ApplyFault::NotNumber => Some(1),
            ApplyFault::NotArray => Some(2),
            ApplyFault::PathBlocked => Some(3),
            ApplyFault::IdChange => Some(4),
            ApplyFault::NumberRange => Some(5),
            ApplyFault::Conflict => Some(6),
            ApplyFault::Memory => None,
        }
    }
}

impl From<Mem> for ApplyFault {
    ghost use Rattle.std.specs.Prelude.{◌≡◌};
    ghost use Rattle.modifier_apply.specs.declared.fault.ApplyFault.TheVariants.{Memory};

    ghost from_gives = { λ _ e. e ≡ Memory };

    fn from(_: Mem) -> ApplyFault {
        ApplyFault::Memory
    }
}
