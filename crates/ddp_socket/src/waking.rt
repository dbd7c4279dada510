ghost use Rattle.std.specs.Io.{ReadsAtMost};

use duct::Bell;
use ejson_value::Mem;
use mio::net::TcpStream;
use mio::{Events, Interest, Poll, Token, Waker};
use std::alloc::Global;
use std::io::{ErrorKind, Read, Write};
use std::net::Net;
use std::sync::Arc;
use std::sync::atomic::{AtomicU64, Ordering};
use std::time::Duration;
use std::{io, net};

// How many milliseconds a read or a write may wait.
const WAIT: u64 = 20;

// How many waits in a row that brought nothing make a stream silent, and how many milliseconds a wait of a silent stream may
// take: bytes end it at once, and so does the bell.
const SILENT: u32 = 50;

const LONG_WAIT: u64 = 100;

// What tells the events of the stream from those of its bell.
const STREAM: Token = Token(0);

const BELL: Token = Token(1);

// How many events one wait takes: those of the stream and of the bell.
const EVENTS: usize = 4;

// What wakes the thread of a link.
#[derive(Drop)]
struct Alarm {
    waker: Waker,
    // 1 while a wake would end a wait that hasn't been ended yet.
    listens: AtomicU64,
}

impl Alarm {
    fn listen(&self) {
        self.listens.store(1, Ordering::SeqCst);
    }

    fn ring(&self) {
        let listens = self.listens.load(Ordering::SeqCst) == 1;
        if listens && self.listens.swap(0, Ordering::SeqCst) == 1 {
            let _ = self.waker.wake();
        }
    }
}

/// The bell of a link over a socket. That of a link over another stream does nothing.
#[derive(Drop)]
pub struct SocketBell {
    alarm: Option<Arc<Alarm, Global>>,
}

impl SocketBell {
    // The bell of a stream that nothing wakes.
    pub(crate) fn silent() -> SocketBell {
        SocketBell { alarm: None }
    }

    // The same bell once more.
    pub(crate) fn copy(&self) -> Result<SocketBell, Mem> {
        let alarm = match &self.alarm {
            Some(alarm) => Some(Arc::try_clone(alarm)?),
            None => None,
        };
        Ok(SocketBell { alarm })
    }
}

impl Bell for SocketBell {
    fn ring(&self) {
        if let Some(alarm) = &self.alarm {
            alarm.ring();
        }
    }
}

// What ended a wait: the end of its time, the bell alone, or the stream.
#[derive(Clone, Copy, PartialEq, Eq)]
enum Came {
    Nothing,
    Bell,
    Stream,
}

// What waits for a stream and its bell. It takes two of the system's descriptors, and is there before the stream is.
#[derive(Drop)]
pub struct Watch {
    poll: Poll,
    events: Events,
    alarm: Arc<Alarm, Global>,
}

impl Watch {
    pub(crate) fn new<R: Net>(rt: &R, alloc: Global) -> io::Result<Watch> {
        let poll = Poll::new(rt)?;
        let waker = Waker::new(poll.registry(), BELL)?;
        let listens = AtomicU64::new(0);
        let Ok(alarm) = Arc::new(alloc, Alarm { waker, listens }) else {
            return Err(io::Error::from(ErrorKind::OutOfMemory));
        };
        let Ok(events) = Events::with_capacity(alloc, EVENTS) else {
            return Err(io::Error::from(ErrorKind::OutOfMemory));
        };
        Ok(Watch {
            poll,
            events,
            alarm,
        })
    }

    // From here on the events of the stream are heard of.
    fn register(&self, stream: &mut TcpStream) -> io::Result<()> {
        let both = Interest::READABLE | Interest::WRITABLE;
        self.poll.registry().register(stream, STREAM, both)
    }

    // Waits so many milliseconds at most.
    fn wait(&mut self, most: u64) -> io::Result<Came> {
        let limit = Some(Duration::from_millis(most));
        self.poll.poll(&mut self.events, limit)?;
        let mut came = Came::Nothing;
        for event in self.events.iter() {
            if event.token() == STREAM {
                return Ok(Came::Stream);
            }
            came = Came::Bell;
        }
        Ok(came)
    }
}

// No read and no write of it waits by itself, and what is written leaves at once.
fn prepare(tcp: &net::TcpStream) -> io::Result<()> {
    tcp.set_nonblocking(true)?;
    tcp.set_nodelay(true)
}

/// A TCP stream whose reads wait 20 ms for bytes, and whose writes wait as long for room; a read waits 100 ms where nothing
/// came for a second. Once it has written something, its bell ends a wait.
#[derive(Drop)]
pub struct WakingStream {
    stream: TcpStream,
    watch: Watch,
    // Before its first word a stream isn't woken: a peer has its whole time for a request.
    said: bool,
    // Whether a read may find something: no event tells again of what was there when one was told.
    ready: bool,
    // How many waits in a row brought nothing.
    quiet: u32,
}

impl WakingStream {
    // The stream over a connection, or the connection alone where the system takes it for no watch.
    pub(crate) fn new(watch: Watch, tcp: net::TcpStream) -> Result<WakingStream, TcpStream> {
        let prepared = prepare(&tcp);
        let mut stream = TcpStream::from_std(tcp);
        if prepared.is_err() || watch.register(&mut stream).is_err() {
            return Err(stream);
        }
        Ok(WakingStream {
            stream,
            watch,
            said: false,
            ready: true,
            quiet: 0,
        })
    }

    pub(crate) fn bell(&self) -> Result<SocketBell, Mem> {
        let alarm = Arc::try_clone(&self.watch.alarm)?;
        Ok(SocketBell { alarm: Some(alarm) })
    }

    // How many milliseconds the next wait may take.
    fn limit(&self) -> u64 {
        if self.said && self.quiet >= SILENT {
            LONG_WAIT
        } else {
            WAIT
        }
    }

    // Waits for bytes, for room or for the bell. A ring behind it ends the next wait. Whether the stream has something to
    // tell.
    fn wait(&mut self) -> io::Result<bool> {
        let most = self.limit();
        let came = self.watch.wait(most)?;
        if self.said {
            self.watch.alarm.listen();
        }
        self.quiet = match came {
            Came::Nothing => self.quiet.saturating_add(1),
            Came::Bell | Came::Stream => 0,
        };
        let told = came == Came::Stream;
        if told {
            self.ready = true;
        }
        Ok(told)
    }

    // Reads what is there. Once nothing was, the next read asks the system only after an event.
    fn try_read(&mut self, into: &mut [u8]) -> io::Result<usize>
        ensures { ReadsAtMost result into.new }
    {
        match self.stream.read(into) {
            Err(error) if error.kind() == ErrorKind::WouldBlock => {
                self.ready = false;
                Err(error)
            }
            done => done,
        }
    }
}

impl Read for WakingStream {
    fn read(&mut self, into: &mut [u8]) -> io::Result<usize> {
        if self.ready {
            match self.try_read(into) {
                Err(error) if error.kind() == ErrorKind::WouldBlock => {}
                done => return done,
            }
        }
        if self.wait()? {
            self.try_read(into)
        } else {
            Err(io::Error::from(ErrorKind::WouldBlock))
        }
    }
}

impl Write for WakingStream {
    fn write(&mut self, bytes: &[u8]) -> io::Result<usize> {
        if !self.said {
            self.said = true;
            self.watch.alarm.listen();
        }
        match self.stream.write(bytes) {
            Err(error) if error.kind() == ErrorKind::WouldBlock => {}
            done => return done,
        }
        if self.wait()? {
            self.stream.write(bytes)
        } else {
            Err(io::Error::from(ErrorKind::WouldBlock))
        }
    }

    fn flush(&mut self) -> io::Result<()> {
        Ok(())
    }
}
