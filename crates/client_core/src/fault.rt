//! Why a client refuses a call or a text.
use ejson_value::Mem;
use minimongo::ViewFault;
use thiserror::Error;

/// Why a client doesn't do what it is asked for.
#[derive(Clone, Copy, Debug, PartialEq, Eq, Error)]
pub enum ClientFault {
    /// It can't be done now: the client isn't connected, or the request makes no sense as things are.
    #[error("not possible now")]
    Idle,
    #[error("out of memory")]
    Memory,
}

/// Why a client doesn't take a text of its server.
#[derive(Clone, Copy, Debug, PartialEq, Eq, Error)]
pub enum TakeFault {
    /// It takes no text any more: its version was refused, or a text broke it.
    #[error("no text is taken any more")]
    Idle,
    /// The text is refused, and has broken the client: 1 it is too long or no JSON object; 2 its
    /// message isn't of its form; 3 it belongs to a session, and there is none yet; 4 a second answer
    /// to `connect`; 5 `added` of a document that is there, 6 `changed` and 7 `removed` of one that
    /// isn't; 8 `result` of a method that awaits none; 9 `updated` of one that awaits none, or of one
    /// twice.
    #[error("the server sent what breaks rule {0}")]
    ServerSent(u8),
    #[error("out of memory")]
    Memory,
}

impl From<Mem> for ClientFault {
    ghost use Rattle.std.specs.Prelude.{◌≡◌};
    ghost use Rattle.client_core.specs.declared.fault.ClientFault.TheVariants.{Memory};

    ghost from_gives = { λ _ e. e ≡ Memory };

    fn from(_: Mem) -> ClientFault {
        ClientFault::Memory
    }
}

impl From<Mem> for TakeFault {
    ghost use Rattle.std.specs.Prelude.{◌≡◌};
    ghost use Rattle.client_core.specs.declared.fault.TakeFault.TheVariants.{Memory};

    ghost from_gives = { λ _ e. e ≡ Memory };

    fn from(_: Mem) -> TakeFault {
        TakeFault::Memory
    }
}

impl From<ViewFault> for TakeFault {
    ghost use Rattle.std.specs.Prelude.{◌≡◌};
    ghost use Rattle.client_core.specs.Faults.{take_fault};

    ghost from_gives = { λ fault e. e ≡ take_fault fault };

    fn from(fault: ViewFault) -> TakeFault {
        match fault {
            ViewFault::Wrong(number) => TakeFault::ServerSent(number),
            ViewFault::Memory => TakeFault::Memory,
        }
    }
}
