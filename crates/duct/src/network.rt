ghost use Rattle.std.specs.Prelude.{◌≡◌, ◌+◌, ℕ, IfErr, OnOk, OnErr};
ghost use Rattle.duct.specs.Told.{CountsFaults};
ghost use Rattle.duct.specs.Networks.{network_failed};

use crate::link::Link;
use thiserror::Error;

/// Why a network gave no link, or doesn't listen.
#[derive(Clone, Copy, Debug, PartialEq, Eq, Error)]
pub enum NetFault {
    #[error("the network failed")]
    Failed,
    #[error("out of memory")]
    Memory,
}

/// What gives links to peers. Ports are TCP's, on this machine.
pub trait Network {
    type Link: Link + Send + Drop;

    // How many links it has given.
    ghost given: { Self → ℕ };

    // How many calls have failed.
    ghost faults: { Self → ℕ };

    /// Begins to take connections at this port.
    fn listen(&mut self, port: u16) -> Result<(), NetFault>
        ensures given { given self.new ≡ given self.old }
        ensures sound { OnOk result (faults self.new ≡ faults self.old) }
        ensures faults { IfErr result (λ fault. CountsFaults (network_failed fault) (faults self.old) (faults self.new)) };

    /// The link of the next peer that connects.
    fn accept(&mut self) -> Result<Self::Link, NetFault>
        ensures given { OnOk result (given self.new ≡ given self.old + 1) }
        ensures none { OnErr result (given self.new ≡ given self.old) }
        ensures sound { OnOk result (faults self.new ≡ faults self.old) }
        ensures faults { IfErr result (λ fault. CountsFaults (network_failed fault) (faults self.old) (faults self.new)) };

    /// A link to the peer that listens at this port.
    fn connect(&mut self, port: u16) -> Result<Self::Link, NetFault>
        ensures given { OnOk result (given self.new ≡ given self.old + 1) }
        ensures none { OnErr result (given self.new ≡ given self.old) }
        ensures sound { OnOk result (faults self.new ≡ faults self.old) }
        ensures faults { IfErr result (λ fault. CountsFaults (network_failed fault) (faults self.old) (faults self.new)) };
}
