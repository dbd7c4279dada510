//! The network of the program, which says on standard error where it listens, and remembers what it failed at.
use duct::{NetFault, Network};
use std::io;

/// What a network failed at.
#[derive(Clone, Copy)]
pub(crate) enum Trouble {
    /// To listen at this port.
    Listening(u16),
    /// To take one more connection.
    Accepting,
    /// To reach the server at this port.
    Connecting(u16),
}

/// A network that says where it listens.
#[derive(Drop)]
pub(crate) struct Announcing<R, N> {
    rt: R,
    net: N,
    trouble: Option<Trouble>,
}

// What it failed at, where it failed.
fn trouble_of<T>(answer: &Result<T, NetFault>, at: Trouble) -> Option<Trouble> {
    match answer {
        Err(NetFault::Failed) => Some(at),
        _ => None,
    }
}

// Says where a network listens.
fn announce<R: Eprint>(rt: &R, port: u16) -> io::Result<()> {
    eprintln!(rt; "ddp: listening at ws://127.0.0.1:{port}/websocket")
}

impl<R, N> Announcing<R, N> {
    /// This network, which says on the standard error of `rt` where it listens.
    pub(crate) fn new(rt: R, net: N) -> Announcing<R, N> {
        Announcing {
            rt,
            net,
            trouble: None,
        }
    }

    /// What its last call failed at, if it did.
    pub(crate) fn trouble(&self) -> Option<Trouble> {
        self.trouble
    }
}

impl<R: Eprint, N: Network> Network for Announcing<R, N> {
    type Link = N::Link;

    ghost given = { λ n. N.given n.net };

    ghost faults = { λ n. N.faults n.net };

    fn listen(&mut self, port: u16) -> Result<(), NetFault> {
        let listens = self.net.listen(port);
        self.trouble = trouble_of(&listens, Trouble::Listening(port));
        if listens.is_ok() {
            let _ = announce(&self.rt, port);
        }
        listens
    }

    fn accept(&mut self) -> Result<N::Link, NetFault> {
        let link = self.net.accept();
        self.trouble = trouble_of(&link, Trouble::Accepting);
        link
    }

    fn connect(&mut self, port: u16) -> Result<N::Link, NetFault> {
        let link = self.net.connect(port);
        self.trouble = trouble_of(&link, Trouble::Connecting(port));
        link
    }
}
