//! Why a call or an operation is refused.
use ejson_value::Mem;
use thiserror::Error;

/// Why a call is not begun. A refused call leaves the machine as it was.
#[derive(Clone, Copy, Debug, PartialEq, Eq, Error)]
pub enum BeginFault {
    /// The history has no room: with the call there would be `entries` entries, those counted that runs
    /// have still to make, and `kept` kept bytes, and one of the two is past its limit.
    #[error("the history is full")]
    Full { entries: u64, kept: u64 },
    #[error("out of memory")]
    Memory,
}

impl From<Mem> for BeginFault {
    ghost use Rattle.std.specs.Prelude.{◌≡◌};
    ghost use Rattle.store_machine.specs.declared.fault.BeginFault.TheVariants.{Memory};

    ghost from_gives = { λ _ e. e ≡ Memory };

    fn from(_: Mem) -> BeginFault {
        BeginFault::Memory
    }
}

/// Why an operation is not made. A refused operation leaves the machine as it was.
#[derive(Clone, Copy, Debug, PartialEq, Eq, Error)]
pub enum AdminFault {
    /// With a code in the manner of HTTP: 503 the history is full, 400 it is no operation, 404, 409, 413,
    /// 422 and 507 as the store refuses it.
    #[error("refused with {code}")]
    Refused { code: u16 },
    #[error("out of memory")]
    Memory,
}

impl From<Mem> for AdminFault {
    ghost use Rattle.std.specs.Prelude.{◌≡◌};
    ghost use Rattle.store_machine.specs.declared.fault.AdminFault.TheVariants.{Memory};

    ghost from_gives = { λ _ e. e ≡ Memory };

    fn from(_: Mem) -> AdminFault {
        AdminFault::Memory
    }
}
