//! Why a line was not read.
use ejson_value::Mem;
use thiserror::Error;

/// Why a line was not read as an event.
#[derive(Clone, Copy, Debug, PartialEq, Eq, Error)]
pub enum LineFault {
    /// The line is none of the rows of an event.
    #[error("the line describes no event")]
    NotAnEvent,
    #[error("out of memory")]
    Memory,
}

impl From<Mem> for LineFault {
    ghost use Rattle.std.specs.Prelude.{◌≡◌};
    ghost use Rattle.world_events.specs.declared.fault.LineFault.TheVariants.{Memory};

    ghost from_gives = { λ _ e. e ≡ Memory };

    fn from(_: Mem) -> LineFault {
        LineFault::Memory
    }
}
