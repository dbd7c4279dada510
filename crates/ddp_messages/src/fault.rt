//! Why a text is no message.
use ejson_codec::ReadFault;
use ejson_value::{Mem, Text};
use std::error::Error;
use std::fmt;

/// Why a text wasn't read as a message.
#[derive(Debug, Drop)]
pub enum MsgFault {
    /// The text is no JSON; of a server's text, it is no JSON object.
    Parse,
    /// The JSON is no message. Its text `msg`, where it has one.
    BadRequest { msg: Option<Text> },
    Memory,
}

impl MsgFault {
    // The fault in words.
    fn words(&self) -> &'static str {
        match self {
            MsgFault::Parse => "not JSON",
            MsgFault::BadRequest { .. } => "not a message",
            MsgFault::Memory => "out of memory",
        }
    }
}

impl fmt::Display for MsgFault {
    fn fmt<W: fmt::Write>(&self, f: &mut fmt::Formatter<W>) -> fmt::Result {
        f.write_str(self.words())
    }
}

impl Error for MsgFault {}

impl From<Mem> for MsgFault {
    ghost use Rattle.std.specs.Prelude.{◌≡◌};
    ghost use Rattle.ddp_messages.specs.declared.fault.MsgFault.TheVariants.{Memory};

    ghost from_gives = { λ _ e. e ≡ Memory };

    fn from(_: Mem) -> MsgFault {
        MsgFault::Memory
    }
}

/// Why a field wasn't read: it lacks or isn't of its form, or memory is wanting.
#[derive(Clone, Copy)]
pub(crate) enum FieldFault {
    Malformed,
    Memory,
}

impl From<Mem> for FieldFault {
    ghost use Rattle.std.specs.Prelude.{◌≡◌};
    ghost use Rattle.ddp_messages.specs.declared.fault.FieldFault.TheVariants.{Memory};

    ghost from_gives = { λ _ e. e ≡ Memory };

    fn from(_: Mem) -> FieldFault {
        FieldFault::Memory
    }
}

impl From<ReadFault> for FieldFault {
    ghost use Rattle.std.specs.Prelude.{◌≡◌};
    ghost use Rattle.ddp_messages.specs.Faults.{field_fault_of};

    ghost from_gives = { λ fault e. e ≡ field_fault_of fault };

    fn from(fault: ReadFault) -> FieldFault {
        match fault {
            ReadFault::Ejson(_) => FieldFault::Malformed,
            ReadFault::Memory => FieldFault::Memory,
        }
    }
}
