ghost use Rattle.std.specs.Prelude.{◌≡◌};
ghost use Rattle.duct.specs.Told.{CountsFaults};
ghost use Rattle.duct.specs.Networks.{network_failed};

use crate::link::{SocketLink, accept_waking, connect, turn_away};
use crate::waking::{WakingStream, Watch};
use duct::{NetFault, Network};
use std::alloc::Global;
use std::net::{Ipv4Addr, Net, TcpListener, TcpStream};
use std::random::RandomSource;
use std::time::{Clock, Duration};
use std::{io, thread};

// How often a connection that broke off before it was accepted is passed over in one call.
const PASSED_OVER: u32 = 1000;

// How often one call waits for descriptors, buffers or memory of the system, and how many milliseconds each time.
const PAUSES: u32 = 100;

const PAUSE: u64 = 20;

// What the system says that is short of these, by Linux's numbers: ENOMEM, ENFILE, EMFILE, ENOBUFS.
const SHORT: [i32; 4] = [12, 23, 24, 105];

/// The links of 127.0.0.1. `rt` opens the sockets, gives the masks of clients, and waits where the system has no descriptor
/// for a connection.
#[derive(Drop)]
pub struct SocketNetwork<R> {
    rt: R,
    alloc: Global,
    listener: Option<TcpListener>,
    given: u64,
    faults: u64,
}

// Whether an accept failed for want of what others may give back.
fn is_short(error: &io::Error) -> bool {
    match error.raw_os_error() {
        Some(number) => SHORT.contains(&number),
        None => error.kind() == io::ErrorKind::OutOfMemory,
    }
}

// Whether an accept failed with the connection alone.
fn is_passed_over(error: &io::Error) -> bool {
    matches!(
        error.kind(),
        io::ErrorKind::Interrupted | io::ErrorKind::ConnectionAborted
    )
}

// The next connection. What waits for it is made before it is taken, so that a connection is left to the system as long as
// descriptors are short; one for which the system is short of something else all the same is told that there is no place.
fn accept_one<R: Net>(rt: &R, alloc: Global, listener: &TcpListener) -> io::Result<WakingStream> {
    let watch = Watch::new(rt, alloc)?;
    let (tcp, _from) = listener.accept()?;
    match WakingStream::new(watch, tcp) {
        Ok(stream) => Ok(stream),
        Err(stream) => {
            turn_away(stream);
            Err(io::Error::from(io::ErrorKind::ConnectionAborted))
        }
    }
}

// The next connection that hasn't broken off.
fn next_whole<R: Net>(rt: &R, alloc: Global, listener: &TcpListener) -> io::Result<WakingStream> {
    for _ in 0..PASSED_OVER {
        match accept_one(rt, alloc, listener) {
            Err(error) if is_passed_over(&error) => {}
            done => return done,
        }
    }
    Err(io::Error::from(io::ErrorKind::ConnectionAborted))
}

// The next connection, also where the system is short of something for a while.
fn next<R: Net + Clock>(rt: &R, alloc: Global, listener: &TcpListener) -> io::Result<WakingStream> {
    for _ in 0..PAUSES {
        match next_whole(rt, alloc, listener) {
            Err(error) if is_short(&error) => thread::sleep(rt, Duration::from_millis(PAUSE)),
            done => return done,
        }
    }
    next_whole(rt, alloc, listener)
}

impl<
    R: Net<Listener = TcpListener, Stream = TcpStream> + RandomSource + Clock + Copy,
> SocketNetwork<R> {
    /// A network that has given no link yet.
    pub fn new(rt: R, alloc: Global) -> SocketNetwork<R>
        ensures given { result.given ≡ 0 }
        ensures faults { result.faults ≡ 0 }
    {
        SocketNetwork {
            rt,
            alloc,
            listener: None,
            given: 0,
            faults: 0,
        }
    }

    // The network has failed; that is told as long as it can be counted.
    fn fail(&mut self) -> NetFault
        ensures faults { CountsFaults (network_failed result) self.old.faults self.new.faults }
        ensures given { self.new.given ≡ self.old.given }
    {
        match self.faults.checked_add(1) {
            Some(faults) => {
                self.faults = faults;
                NetFault::Failed
            }
            None => NetFault::Memory,
        }
    }

    fn reach(&self, port: u16) -> io::Result<WakingStream> {
        let watch = Watch::new(&self.rt, self.alloc)?;
        let tcp = TcpStream::connect(&self.rt, (Ipv4Addr::LOCALHOST, port))?;
        match WakingStream::new(watch, tcp) {
            Ok(stream) => Ok(stream),
            Err(_) => Err(io::Error::from(io::ErrorKind::ConnectionAborted)),
        }
    }
}

impl<
    R: Net<Listener = TcpListener, Stream = TcpStream> + RandomSource + Clock + Copy + Send,
> Network for SocketNetwork<R> {
    type Link = SocketLink<WakingStream, R>;

    ghost given = { λ n. n.given };

    ghost faults = { λ n. n.faults };

    fn listen(&mut self, port: u16) -> Result<(), NetFault> {
        match TcpListener::bind(&self.rt, (Ipv4Addr::LOCALHOST, port)) {
            Ok(listener) => {
                self.listener = Some(listener);
                Ok(())
            }
            Err(_) => Err(self.fail()),
        }
    }

    fn accept(&mut self) -> Result<SocketLink<WakingStream, R>, NetFault> {
        let Some(given) = self.given.checked_add(1) else {
            return Err(self.fail());
        };
        let accepted = match &self.listener {
            Some(listener) => next(&self.rt, self.alloc, listener),
            None => Err(io::Error::from(io::ErrorKind::NotConnected)),
        };
        match accepted {
            Ok(stream) => {
                self.given = given;
                Ok(accept_waking(self.alloc, stream))
            }
            Err(_) => Err(self.fail()),
        }
    }

    fn connect(&mut self, port: u16) -> Result<SocketLink<WakingStream, R>, NetFault> {
        let Some(given) = self.given.checked_add(1) else {
            return Err(self.fail());
        };
        let Ok(stream) = self.reach(port) else {
            return Err(self.fail());
        };
        match connect(self.rt, self.alloc, stream) {
            Ok(link) => {
                self.given = given;
                Ok(link)
            }
            Err(NetFault::Memory) => Err(NetFault::Memory),
            Err(NetFault::Failed) => Err(self.fail()),
        }
    }
}
