ghost use Rattle.std.specs.Prelude.{◌≡◌, None, false};
ghost use Rattle.heartbeat.specs.Beats.{IsTime};
ghost use Rattle.heartbeat.specs.Clocks.{Answers};
ghost use Rattle.heartbeat.specs.Pulse.{pulse_heard, pulse_beat};
ghost use Rattle.timed_link.specs.Watch.{ticked};
ghost use Rattle.timed_link.specs.Timed.{TimedStep, answered};
ghost use Rattle.timed_link.specs.Times.{IsFresh};

use duct::{Link, Polled, SendFault};
use ejson_value::{Mem, Text};
use heartbeat::{Beat, Clock, Heart};
use std::alloc::Global;
use std::marker::Model;

/// A link that a heart watches, with the clock that the heart goes by. The clock is asked once at the beginning, then once right
/// before each poll, and nowhere else. Behind a poll that gave a text the heart is told of it; behind one that gave a text, or none, it is
/// asked what to do. Where it asks for a `ping`, one is offered to the link, once. Where it gives the peer up, polls answer from then on
/// that the peer has closed.
#[derive(Drop)]
pub struct TimedLink<L, C> {
    alloc: Global,
    link: L,
    clock: C,
    heart: Heart,
    given_up: Option<(u64, u64)>,
}

impl<L, C> Model for TimedLink<L, C> {
    ghost use Rattle.std.specs.Prelude.{◌≡◌, ◌≤◌, is_some};
    ghost use Rattle.timed_link.specs.Timed.{Timed};

    ghost Value = { Timed L C };

    ghost view = { λ a. record { link = a.link; clock = a.clock; watch = record { heart = a.heart; given_up = a.given_up } } };

    ghost invariant = { λ a. (a.heart.is_over ≡ is_some a.given_up) × (1 ≤ a.heart.interval) };
}

impl<L: Link, C: Clock> TimedLink<L, C> {
    /// The link, watched from now on: a `ping` is offered once there was no text for `interval`, and the peer is given up once there was
    /// none for a further `timeout`, both in milliseconds.
    pub fn new(alloc: Global, link: L, clock: C, interval: u32, timeout: u32) -> TimedLink<L, C>
        requires interval { IsTime interval }
        requires timeout { IsTime timeout }
        ensures link { result.link ≡ link }
        ensures start { Answers (C.told clock) (C.told result.clock) result.watch.heart.latest }
        ensures interval { result.watch.heart.interval ≡ interval }
        ensures timeout { result.watch.heart.timeout ≡ timeout }
        ensures fresh { IsFresh result.watch }
    {
        let mut clock = clock;
        let start = clock.now();
        TimedLink {
            alloc,
            link,
            clock,
            heart: Heart::new(interval, timeout, start),
            given_up: None,
        }
    }

    /// Where the peer was given up: the moment of the `ping` that no text came behind, and the moment at which that was noticed.
    pub fn given_up(&self) -> Option<(u64, u64)>
        ensures { result ≡ self.now.watch.given_up }
    {
        self.given_up
    }

    /// The link itself.
    pub fn link(&self) -> &L
        ensures { result.now ≡ self.now.link }
    {
        &self.link
    }
}

// What a poll answers behind the offer of a `ping`. Where that was handed back, the link is full of texts or the peer has closed, as
// a poll will tell.
fn answered(sent: Result<(), (Text, SendFault)>) -> Polled
    ensures { result ≡ answered sent }
{
    match sent {
        Ok(()) | Err((_, SendFault::Full | SendFault::Closed)) => Polled::Quiet,
        Err((_, SendFault::Failed)) => Polled::Failed,
        Err((_, SendFault::Memory)) => Polled::Memory,
    }
}

// What a heart that goes on says is to be done.
fn ask(heart: &mut Heart, now: u64) -> Beat
    requires { heart.old.is_over ≡ false }
    ensures answer { result ≡ pulse_beat heart.old now }
    ensures ticked { heart.new ≡ ticked heart.old now }
{
    match heart.tick(now) {
        Some(beat) => beat,
        None => unreachable!(),
    }
}

// A heart that goes on hears of a text, and is asked.
fn hear(heart: &mut Heart, now: u64)
    requires { heart.old.is_over ≡ false }
    ensures { heart.new ≡ ticked (pulse_heard heart.old now) now }
{
    heart.heard(now);
    ask(heart, now);
}

impl<L: Link, C: Clock> Link for TimedLink<L, C> {
    type Bell = L::Bell;

    ghost told = { λ _. None };

    ghost faults = { λ t. L.faults t.link };

    ghost steps = { TimedStep L.steps C.told };

    fn poll(&mut self) -> Polled {
        if self.given_up.is_some() {
            return Polled::Closed;
        }
        // The text is there before the clock is asked, so that no `ping` that is asked for is without one.
        let Ok(text) = Text::from_str(self.alloc, "{\"msg\":\"ping\"}") else {
            return Polled::Memory;
        };
        let now = self.clock.now();
        match self.link.poll() {
            Polled::Message(heard) => {
                hear(&mut self.heart, now);
                Polled::Message(heard)
            }
            Polled::Quiet => match ask(&mut self.heart, now) {
                Beat::Nothing => Polled::Quiet,
                Beat::Ping => answered(self.link.send(text)),
                Beat::Close { pinged, now } => {
                    self.given_up = Some((pinged, now));
                    Polled::Closed
                }
            },
            Polled::Closed => Polled::Closed,
            Polled::Failed => Polled::Failed,
            Polled::Memory => Polled::Memory,
        }
    }

    fn send(&mut self, text: Text) -> Result<(), (Text, SendFault)> {
        self.link.send(text)
    }

    fn bell(&self) -> Result<L::Bell, Mem> {
        self.link.bell()
    }
}
