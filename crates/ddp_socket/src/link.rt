ghost use Rattle.std.specs.Prelude.{◌≡◌, IfErr, IfOk, OnOk, None};
ghost use Rattle.duct.specs.Told.{CountsFaults};
ghost use Rattle.duct.specs.Polls.{poll_failed};
ghost use Rattle.duct.specs.Sends.{send_failed};
ghost use Rattle.ddp_socket.specs.Turns.{Hears};
ghost use Rattle.ddp_socket.specs.Links.{fault_answer, fault_refusal, IsConnected, Settles, Greets, Listens, Says, Takes, Refuses, Makes};
ghost use Rattle.ddp_socket.specs.declared.link.State.TheVariants as At;

use crate::answers::NO_PLACE;
use crate::socket::{Socket, ask, part, serve};
use crate::turn::{Said, Turn, error_turn, message_turn};
use crate::waking::{SocketBell, WakingStream};
use duct::{Link, NetFault, Polled, SendFault};
use ejson_value::{Mem, Text};
use std::alloc::Global;
use std::io::{Read, Write};
use std::mem;
use std::random::RandomSource;
use tungstenite::{CloseCode, Message};

// How many bytes of a request are read that isn't taken.
const REQUEST: usize = 4096;

// How far a link is.
#[derive(Drop)]
pub enum State<S: Write + Drop, R> {
    // The server's handshake comes with the next poll.
    Fresh(S),
    Open(Socket<S, R>),
    Closed,
    Failed,
}

/// A link over a stream that carries WebSocket, one message of DDP a text frame. A link that is let go while it is open
/// tells its peer so, and one that was never polled says that no place is free.
pub struct SocketLink<S: Read + Write + Drop, R: RandomSource + Drop> {
    alloc: Global,
    state: State<S, R>,
    faults: u64,
    bell: SocketBell,
}

/// A server's link. Its first `poll` does the handshake.
pub fn accept<S: Read + Write + Drop, R: RandomSource + Drop>(
    alloc: Global,
    stream: S,
) -> SocketLink<S, R>
    ensures fresh { result.state ≡ At.Fresh stream }
    ensures faults { result.faults ≡ 0 }
{
    SocketLink {
        alloc,
        state: State::Fresh(stream),
        faults: 0,
        bell: SocketBell::silent(),
    }
}

// A server's link over a socket, whose bell ends the wait of a poll.
pub(crate) fn accept_waking<R: RandomSource + Drop>(
    alloc: Global,
    stream: WakingStream,
) -> SocketLink<WakingStream, R>
    ensures fresh { result.state ≡ At.Fresh stream }
    ensures faults { result.faults ≡ 0 }
{
    let bell = stream.bell();
    let mut link = accept(alloc, stream);
    if let Ok(bell) = bell {
        link.bell = bell;
    }
    link
}

/// A client's link, once its handshake is done. `rt` gives the masks of its frames.
pub fn connect<S: Read + Write + Drop, R: RandomSource + Drop>(
    rt: R,
    alloc: Global,
    stream: S,
) -> Result<SocketLink<S, R>, NetFault>
    ensures open { IfOk result (λ link. IsConnected link.state) }
    ensures faults { IfOk result (λ link. link.faults ≡ 0) }
{
    match ask(rt, alloc, stream) {
        Ok(socket) => Ok(SocketLink {
            alloc,
            state: State::Open(socket),
            faults: 0,
            bell: SocketBell::silent(),
        }),
        Err(fault) => Err(fault),
    }
}

// One read of a WebSocket.
fn listen<S: Read + Write + Drop, R: RandomSource + Drop>(
    alloc: Global,
    socket: &mut Socket<S, R>,
) -> Turn
    ensures { Hears (λ m. S.remaining m.stream) socket.old socket.new result }
{
    match socket.read() {
        Ok(message) => message_turn(alloc, message),
        Err(error) => error_turn(error),
    }
}

// Hands a text to a WebSocket, once all before it have left.
fn say<S: Read + Write + Drop, R: RandomSource + Drop>(
    alloc: Global,
    socket: &mut Socket<S, R>,
    text: &str,
) -> Said
    ensures { Says (λ m. S.contents m.stream) socket.old text.now result socket.new }
{
    if let Err(error) = socket.flush() {
        return match error_turn(error) {
            Turn::Nothing => Said::Waits,
            _ => Said::Broken,
        };
    }
    let Ok(message) = Message::text(alloc, text) else {
        return Said::NoMemory;
    };
    match socket.send(message) {
        Ok(()) => Said::Taken,
        Err(error) => match error_turn(error) {
            Turn::Nothing => Said::Taken,
            Turn::Memory => Said::NoMemory,
            _ => Said::Broken,
        },
    }
}

impl<S: Read + Write + Drop, R: RandomSource + Drop> SocketLink<S, R> {
    // The link has failed, once more where it had before.
    fn fail(&mut self) -> Polled
        ensures answer { result ≡ fault_answer self.old.faults }
        ensures state { self.new.state ≡ At.Failed }
        ensures faults { CountsFaults (poll_failed result) self.old.faults self.new.faults }
    {
        self.state = State::Failed;
        if self.faults == u64::MAX {
            return Polled::Memory;
        }
        self.faults += 1;
        Polled::Failed
    }

    // The link has failed at a send.
    fn refuse(&mut self) -> SendFault
        ensures answer { result ≡ fault_refusal self.old.faults }
        ensures state { self.new.state ≡ At.Failed }
        ensures faults { CountsFaults (send_failed result) self.old.faults self.new.faults }
    {
        match self.fail() {
            Polled::Failed => SendFault::Failed,
            _ => SendFault::Memory,
        }
    }

    // Takes a text, or says why not.
    fn offer(&mut self, text: &str) -> Result<(), SendFault>
        ensures taken { OnOk result (Takes S.contents self.old.state text.now self.new.state) }
        ensures refused { IfErr result (λ fault. Refuses S.contents self.old.state fault self.new.state) }
        ensures sound { OnOk result (self.new.faults ≡ self.old.faults) }
        ensures faults { IfErr result (λ fault. CountsFaults (send_failed fault) self.old.faults self.new.faults) }
    {
        match &mut self.state {
            State::Open(socket) => match say(self.alloc, socket, text) {
                Said::Taken => Ok(()),
                Said::Waits => Err(SendFault::Full),
                Said::NoMemory => Err(SendFault::Memory),
                Said::Broken => Err(self.refuse()),
            },
            State::Fresh(_) => Err(SendFault::Full),
            State::Closed => Err(SendFault::Closed),
            State::Failed => Err(self.refuse()),
        }
    }

    // The server's handshake, in a link that has not had it.
    fn greet(&mut self) -> Polled
        ensures answer { Greets self.old.faults result self.new.state }
        ensures faults { CountsFaults (poll_failed result) self.old.faults self.new.faults }
    {
        let State::Fresh(stream) = mem::replace(&mut self.state, State::Failed) else {
            return self.fail();
        };
        match serve(self.alloc, stream) {
            Ok(socket) => {
                self.state = State::Open(socket);
                Polled::Quiet
            }
            Err(NetFault::Memory) => Polled::Memory,
            Err(NetFault::Failed) => self.fail(),
        }
    }

    // Ends an open link, with this code.
    fn close(&mut self, code: CloseCode)
        ensures state { self.new.state ≡ At.Closed }
        ensures faults { self.new.faults ≡ self.old.faults }
    {
        if let State::Open(socket) = &mut self.state {
            part(socket, code);
        }
        self.state = State::Closed;
    }

    // What comes of what an open link heard.
    fn settle(&mut self, turn: Turn) -> Polled
        ensures answer { Settles self.old.faults self.old.state turn result self.new.state }
        ensures faults { CountsFaults (poll_failed result) self.old.faults self.new.faults }
    {
        match turn {
            Turn::Text(text) => Polled::Message(text),
            Turn::Nothing => Polled::Quiet,
            Turn::Memory => Polled::Memory,
            Turn::Binary => {
                self.close(CloseCode::Unsupported);
                Polled::Closed
            }
            Turn::Closed => {
                self.close(CloseCode::Normal);
                Polled::Closed
            }
            Turn::Lost => {
                self.state = State::Failed;
                Polled::Memory
            }
            Turn::Faulty(code) => {
                self.close(code);
                self.fail()
            }
            Turn::Broken => self.fail(),
        }
    }
}

impl<S: Read + Write + Drop, R: RandomSource + Drop> Link for SocketLink<S, R> {
    type Bell = SocketBell;

    ghost told = { λ _. None };

    ghost faults = { λ l. l.faults };

    ghost steps = { λ a call b. Makes S.remaining S.contents a.faults a.state call b.state };

    fn poll(&mut self) -> Polled
        ensures faults { CountsFaults (poll_failed result) self.old.faults self.new.faults }
        ensures listens { Listens S.remaining self.old.faults self.old.state result self.new.state }
    {
        match &mut self.state {
            State::Open(socket) => {
                let turn = listen(self.alloc, socket);
                self.settle(turn)
            }
            State::Fresh(_) => self.greet(),
            State::Closed => Polled::Closed,
            State::Failed => self.fail(),
        }
    }

    fn send(&mut self, text: Text) -> Result<(), (Text, SendFault)>
        ensures back { IfErr result (λ refused. refused.0 ≡ text) }
        ensures taken { OnOk result (Takes S.contents self.old.state text self.new.state) }
        ensures refused { IfErr result (λ refused. Refuses S.contents self.old.state refused.1 self.new.state) }
        ensures sound { OnOk result (self.new.faults ≡ self.old.faults) }
        ensures faults { IfErr result (λ refused. CountsFaults (send_failed refused.1) self.old.faults self.new.faults) }
    {
        match self.offer(text.as_str()) {
            Ok(()) => Ok(()),
            Err(fault) => Err((text, fault)),
        }
    }

    fn bell(&self) -> Result<SocketBell, Mem> {
        self.bell.copy()
    }
}

impl<S: Read + Write + Drop, R: RandomSource + Drop> Drop for SocketLink<S, R> {
    fn drop(self) {
        let SocketLink {
            alloc: _,
            state,
            faults: _,
            bell: _,
        } = self;
        match state {
            State::Open(mut socket) => part(&mut socket, CloseCode::Normal),
            State::Fresh(stream) => turn_away(stream),
            State::Closed | State::Failed => {}
        }
    }
}

// Tells a peer whose request nobody will take. What it has sent is read first: a connection that ends with bytes unread
// may take back what was written.
pub(crate) fn turn_away<S: Read + Write + Drop>(stream: S) {
    let mut stream = stream;
    let mut request = [0; REQUEST];
    let _ = stream.read(&mut request);
    let _ = stream.write(NO_PLACE);
}
