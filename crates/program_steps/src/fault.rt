//! Why a template can't be filled.
use ejson_value::Mem;
use thiserror::Error;

/// Why a template can't be filled.
#[derive(Clone, Copy, Debug, PartialEq, Eq, Error)]
pub enum FillFault {
    #[error("no such parameter or made id")]
    NoParam,
    #[error("deeper than 32 levels")]
    TooDeep,
    #[error("larger than 1,048,576 bytes")]
    TooLarge,
    #[error("out of memory")]
    Memory,
}

impl From<Mem> for FillFault {
    ghost use Rattle.std.specs.Prelude.{◌≡◌};
    ghost use Rattle.program_steps.specs.declared.fault.FillFault.TheVariants.{Memory};

    ghost from_gives = { λ _ e. e ≡ Memory };

    fn from(_: Mem) -> FillFault {
        FillFault::Memory
    }
}
