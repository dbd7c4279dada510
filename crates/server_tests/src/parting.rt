//! A link in memory whose peer may close behind its last text.
ghost use Rattle.std.specs.Prelude.{◌≡◌, None};

use duct::{Link, MemoryLink, NoBell, Polled, SendFault};
use ejson_value::{Mem, Text};

/// A link whose peer, where it parts, has closed once no text waits any more. Until then it takes what is sent, unlike a
/// `MemoryLink` that is closed from the start.
#[derive(Drop)]
pub(crate) struct Parting {
    link: MemoryLink,
    parts: bool,
}

impl Parting {
    pub(crate) fn new(link: MemoryLink, parts: bool) -> Parting {
        Parting { link, parts }
    }

    /// The link in memory.
    pub(crate) fn link(&self) -> &MemoryLink {
        &self.link
    }
}

impl Link for Parting {
    type Bell = NoBell;

    ghost told = { λ _. None };

    ghost faults = { λ l. l.link.faults };

    fn poll(&mut self) -> Polled {
        match self.link.poll() {
            Polled::Quiet if self.parts => Polled::Closed,
            polled => polled,
        }
    }

    fn send(&mut self, text: Text) -> Result<(), (Text, SendFault)> {
        self.link.send(text)
    }

    fn bell(&self) -> Result<NoBell, Mem> {
        Ok(NoBell)
    }
}
