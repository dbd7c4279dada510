//! Clients of a server with more of them than it has places, and the network that gives their links.
ghost use Rattle.std.specs.Prelude.{◌≡◌, None};

use duct::{Bell, Link, NetFault, Network, Polled, SendFault};
use ejson_value::{Mem, Text};
use server_run::PLACES;
use std::alloc::Global;
use std::sync::Arc;
use std::sync::atomic::{AtomicU64, Ordering};
use std::thread;

/// How many links the network gives: one for each place, one for which none is free, and one for which one is free again.
pub(crate) const LINKS: u32 = PLACES as u32 + 2;

// The one for which no place is free.
const LEFT_OVER: u32 = PLACES as u32 + 1;

// How often a link is polled, and waited for, at most.
const MOST: u64 = 10_000_000;

const CONNECT: &str = r#"{"msg":"connect","version":"1"}"#;

/// What the links of a network tell each other and the test. They are let go by the threads that serve them.
#[derive(Drop)]
pub(crate) struct Board {
    // How many links were let go, and how many of these met what they should.
    gone: AtomicU64,
    right: AtomicU64,
    // 1 once the first client has given its place back.
    free: AtomicU64,
}

impl Board {
    pub(crate) fn new() -> Board {
        Board {
            gone: AtomicU64::new(0),
            right: AtomicU64::new(0),
            free: AtomicU64::new(0),
        }
    }

    // Whether at least so many links were let go.
    fn are_gone(&self, links: u64) -> bool {
        self.gone.load(Ordering::SeqCst) >= links
    }

    /// Whether all links were let go, and each met what it should.
    pub(crate) fn is_right(&self) -> bool {
        self.are_gone(LINKS as u64) && self.right.load(Ordering::SeqCst) == LINKS as u64
    }

    // Whether the client with this number, which was handed so many texts, goes.
    fn may_go(&self, number: u32, handed: u32) -> bool {
        if number == 1 {
            self.are_gone(1)
        } else if number == LINKS {
            handed > 0
        } else {
            self.are_gone(3)
        }
    }

    // Waits until the first client has given its place back. Whether it has.
    fn is_free(&self) -> bool {
        for _ in 0..MOST {
            if self.free.load(Ordering::SeqCst) == 1 {
                return true;
            }
            thread::yield_now();
        }
        false
    }
}

/// The bell of a client. Its place has it as long as it is taken.
pub(crate) struct Seat {
    board: Arc<Board, Global>,
    number: u32,
}

impl Bell for Seat {
    fn ring(&self) {}
}

impl Drop for Seat {
    fn drop(self) {
        let Seat { board, number } = self;
        if number == 1 {
            board.free.store(1, Ordering::SeqCst);
        }
    }
}

/// A client, which says `connect`. The first one goes once one was let go that found no place; the last one goes once it was
/// handed a text, and the others once these three are gone.
pub(crate) struct Visitor {
    alloc: Global,
    board: Arc<Board, Global>,
    number: u32,
    polls: u64,
    // How many texts it was handed, and whether the first was `connected` with its own session.
    handed: u32,
    greeted: bool,
}

impl Visitor {
    // The number of its session: those alone that have a place are counted.
    fn session(&self) -> u32 {
        if self.number == LINKS {
            LEFT_OVER
        } else {
            self.number
        }
    }

    // Whether the text is `connected` with its own session.
    fn is_greeting(&self, text: &str) -> bool {
        let number = self.session();
        match format!(in self.alloc; "{{\"msg\":\"connected\",\"session\":\"S{number}\"}}") {
            Ok(wanted) => text == wanted.as_str(),
            Err(_) => false,
        }
    }
}

impl Drop for Visitor {
    fn drop(self) {
        let Visitor {
            alloc: _,
            board,
            number,
            polls,
            handed,
            greeted,
        } = self;
        let right = if number == LEFT_OVER {
            handed == 0 && polls == 0
        } else {
            handed == 1 && greeted && polls < MOST
        };
        if right {
            board.right.fetch_add(1, Ordering::SeqCst);
        }
        board.gone.fetch_add(1, Ordering::SeqCst);
    }
}

impl Link for Visitor {
    type Bell = Seat;

    ghost told = { λ _. None };

    ghost faults = { λ _. 0 };

    fn poll(&mut self) -> Polled {
        self.polls = self.polls.saturating_add(1);
        if self.polls == 1 {
            return match Text::from_str(self.alloc, CONNECT) {
                Ok(text) => Polled::Message(text),
                Err(_) => Polled::Memory,
            };
        }
        if self.polls >= MOST || self.board.may_go(self.number, self.handed) {
            return Polled::Closed;
        }
        thread::yield_now();
        Polled::Quiet
    }

    fn send(&mut self, text: Text) -> Result<(), (Text, SendFault)> {
        if self.handed == 0 {
            self.greeted = self.is_greeting(text.as_str());
        }
        self.handed = self.handed.saturating_add(1);
        Ok(())
    }

    fn bell(&self) -> Result<Seat, Mem> {
        Ok(Seat {
            board: Arc::try_clone(&self.board)?,
            number: self.number,
        })
    }
}

/// Gives the links of visitors, the last one once a place is free again.
#[derive(Drop)]
pub(crate) struct Visitors {
    alloc: Global,
    board: Arc<Board, Global>,
    given: u32,
}

impl Visitors {
    pub(crate) fn new(alloc: Global, board: Arc<Board, Global>) -> Visitors {
        Visitors {
            alloc,
            board,
            given: 0,
        }
    }

    // The link of the client with this number.
    fn visitor(&self, number: u32) -> Result<Visitor, Mem> {
        Ok(Visitor {
            alloc: self.alloc,
            board: Arc::try_clone(&self.board)?,
            number,
            polls: 0,
            handed: 0,
            greeted: false,
        })
    }
}

impl Network for Visitors {
    type Link = Visitor;

    ghost given = { λ n. n.given };

    ghost faults = { λ _. 0 };

    fn listen(&mut self, _port: u16) -> Result<(), NetFault> {
        Ok(())
    }

    fn accept(&mut self) -> Result<Visitor, NetFault> {
        let Some(number) = self.given.checked_add(1) else {
            return Err(NetFault::Memory);
        };
        if number == LINKS && !self.board.is_free() {
            return Err(NetFault::Memory);
        }
        match self.visitor(number) {
            Ok(visitor) => {
                self.given = number;
                Ok(visitor)
            }
            Err(_) => Err(NetFault::Memory),
        }
    }

    fn connect(&mut self, _port: u16) -> Result<Visitor, NetFault> {
        Err(NetFault::Memory)
    }
}
