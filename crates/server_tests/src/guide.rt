//! A client whose server is to show it what another thread writes.
ghost use Rattle.std.specs.Prelude.{◌≡◌, None};
ghost use Rattle.duct.specs.Told.{CountsFaults};
ghost use Rattle.duct.specs.Polls.{poll_failed};

use duct::{Link, NoBell, Polled, SendFault};
use ejson_value::{Mem, Text};
use std::alloc::Global;
use std::sync::atomic::{AtomicU64, Ordering};
use std::thread;

/// How often the link is polled at most.
pub(crate) const MOST_POLLS: u64 = 10_000_000;

const CONNECT: &str = r#"{"msg":"connect","version":"1","support":["1"]}"#;

const SUB: &str = r#"{"msg":"sub","id":"1","name":"all","params":[]}"#;

/// Gives a `connect` and a `sub`, and is then quiet until it was handed an `added`: then its peer has closed. The flag is
/// raised once it was handed a `ready`.
#[derive(Drop)]
pub(crate) struct Guide<'a> {
    alloc: Global,
    polls: u64,
    ready: &'a AtomicU64,
    added: bool,
}

impl<'a> Guide<'a> {
    pub(crate) fn new(alloc: Global, ready: &'a AtomicU64) -> Guide<'a> {
        Guide {
            alloc,
            polls: 0,
            ready,
            added: false,
        }
    }

    /// Whether it was handed an `added`, before it was polled too often.
    pub(crate) fn was_shown(&self) -> bool {
        self.added && self.polls < MOST_POLLS
    }

    // What a poll gives whose text this is: no failure.
    fn give(&self, text: &str) -> Polled
        ensures { CountsFaults (poll_failed result) 0 0 }
    {
        match Text::from_str(self.alloc, text) {
            Ok(text) => Polled::Message(text),
            Err(_) => Polled::Memory,
        }
    }
}

impl Link for Guide<'_> {
    type Bell = NoBell;

    ghost told = { λ _. None };

    ghost faults = { λ _. 0 };

    fn poll(&mut self) -> Polled {
        self.polls = self.polls.saturating_add(1);
        if self.polls == 1 {
            return self.give(CONNECT);
        }
        if self.polls == 2 {
            return self.give(SUB);
        }
        if self.added || self.polls >= MOST_POLLS {
            return Polled::Closed;
        }
        thread::yield_now();
        Polled::Quiet
    }

    fn send(&mut self, text: Text) -> Result<(), (Text, SendFault)> {
        if text.as_str().contains("\"msg\":\"ready\"") {
            self.ready.store(1, Ordering::SeqCst);
        }
        if text.as_str().contains("\"msg\":\"added\"") {
            self.added = true;
        }
        Ok(())
    }

    fn bell(&self) -> Result<NoBell, Mem> {
        Ok(NoBell)
    }
}
