//! Why a script was not read.
use ejson_value::Mem;
use thiserror::Error;

/// Why values were not read as a script.
#[derive(Clone, Copy, Debug, PartialEq, Eq, Error)]
pub enum ScriptFault {
    /// The value with this number, counted from 1, is the first one that describes no line.
    #[error("value {line} describes no line of a script")]
    Bad { line: u64 },
    #[error("out of memory")]
    Memory,
}

impl From<Mem> for ScriptFault {
    ghost use Rattle.std.specs.Prelude.{◌≡◌};
    ghost use Rattle.client_script.specs.declared.fault.ScriptFault.TheVariants.{Memory};

    ghost from_gives = { λ _ e. e ≡ Memory };

    fn from(_: Mem) -> ScriptFault {
        ScriptFault::Memory
    }
}
