//! A network that listens before it is served.
ghost use Rattle.std.specs.Prelude.{◌≡◌};

use duct::{NetFault, Network};

/// A network that listens already.
#[derive(Drop)]
pub(crate) struct Listening<W> {
    network: W,
}

impl<W: Network> Listening<W> {
    pub(crate) fn new(network: W) -> Listening<W> {
        Listening { network }
    }
}

impl<W: Network> Network for Listening<W> {
    type Link = W::Link;

    ghost given = { λ n. W.given n.network };

    ghost faults = { λ n. W.faults n.network };

    fn listen(&mut self, _port: u16) -> Result<(), NetFault> {
        Ok(())
    }

    fn accept(&mut self) -> Result<W::Link, NetFault> {
        self.network.accept()
    }

    fn connect(&mut self, port: u16) -> Result<W::Link, NetFault> {
        self.network.connect(port)
    }
}
