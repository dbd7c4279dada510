ghost use Rattle.std.specs.Prelude.{◌≡◌, ◌↔◌, ◌∷◌, [], ℕ, true, false, IsTrue, IfSome, IsNone};
ghost use Rattle.heartbeat.specs.Beats.{IsTime, Times, Event, History, heard, ticked, beat, beat_at, is_over};
ghost use Rattle.heartbeat.specs.Pulse.{pulse_of, pulse_heard, pulse_beat, pulse_ticked};

use std::marker::Model;

/// The longest time of a heart, in milliseconds.
pub const LONGEST: u32 = 86_400_000;

/// What is to be done at a moment.
#[derive(Clone, Copy, Debug, PartialEq, Eq)]
pub enum Beat {
    /// Nothing is to be done.
    Nothing,
    /// A `ping` is to be sent.
    Ping,
    /// The link is to end: nothing came behind the `ping` that was sent at the moment `pinged`.
    Close { pinged: u64, now: u64 },
}

/// Whether a time is one that a heart takes: a day at most, and not nothing.
pub fn is_time(time: u32) -> bool
    ensures { IsTrue result ↔ IsTime time }
{
    1 <= time && time <= LONGEST
}

// What is to be done now, where `pinged` is the moment of the outstanding `ping`, and the last text came at `since`.
fn beat_at(interval: u32, timeout: u32, pinged: Option<u64>, since: u64, now: u64) -> Beat
    ensures { result ≡ beat_at interval timeout pinged since now }
{
    match pinged {
        Some(pinged) if now.saturating_sub(pinged) >= u64::from(timeout) => {
            Beat::Close { pinged, now }
        }
        None if now.saturating_sub(since) >= u64::from(interval) => Beat::Ping,
        _ => Beat::Nothing,
    }
}

/// When an end of a link asks whether its peer is there, and when it gives the peer up.
#[derive(Debug, Drop)]
pub struct Heart {
    interval: u32,
    timeout: u32,
    latest: u64,
    since: u64,
    pinged: Option<u64>,
    over: bool,
}

impl Model for Heart {
    ghost use Rattle.heartbeat.specs.Pulse.{Pulse};

    ghost Value = { Pulse };

    ghost view = { λ a. record {
      interval = a.interval;
      timeout = a.timeout;
      latest = a.latest;
      since = a.since;
      pinged = a.pinged;
      is_over = a.over;
    } };
}

impl Heart {
    /// A heart that begins at the moment `start`: it asks for a `ping` once there was no text for `interval`, and for the
    /// end once there was none for a further `timeout`.
    pub fn new(interval: u32, timeout: u32, start: u64) -> Heart
        requires interval { IsTime interval }
        requires timeout { IsTime timeout }
        ensures { result ≡ pulse_of (record { interval = interval; timeout = timeout; start = start }) [] }
    {
        Heart {
            interval,
            timeout,
            latest: start,
            since: start,
            pinged: None,
            over: false,
        }
    }

    /// A text came at the moment `t`. The answer is false exactly where the heart is over, and changes nothing then.
    pub fn heard(&mut self, t: u64) -> bool
        ensures over { IsTrue result ↔ (self.old.is_over ≡ false) }
        ensures unchanged { self.old.is_over ≡ true → self.new ≡ self.old }
        ensures heard { self.old.is_over ≡ false → self.new ≡ pulse_heard self.old t }
    {
        if self.over {
            return false;
        }
        self.latest = t.max(self.latest);
        self.since = self.latest;
        self.pinged = None;
        true
    }

    /// What is to be done at the moment `t`. There is none exactly where the heart is over, and nothing changes then.
    pub fn tick(&mut self, t: u64) -> Option<Beat>
        ensures over { IsNone result ↔ (self.old.is_over ≡ true) }
        ensures unchanged { self.old.is_over ≡ true → self.new ≡ self.old }
        ensures answer { IfSome result (λ beat. beat ≡ pulse_beat self.old t) }
        ensures ticked { IfSome result (λ beat. self.new ≡ pulse_ticked self.old t beat) }
    {
        if self.over {
            return None;
        }
        let now = t.max(self.latest);
        let beat = beat_at(self.interval, self.timeout, self.pinged, self.since, now);
        self.latest = now;
        match beat {
            Beat::Nothing => {}
            Beat::Ping => self.pinged = Some(now),
            Beat::Close { .. } => self.over = true,
        }
        Some(beat)
    }
}

/// What a heart does is as its history says, whatever the calls were: what it keeps is what its history comes to.
pub fn hearts_know_their_history()
    ensures heard { (times : Times) (past : History) (t : ℕ) → pulse_heard (pulse_of times past) t ≡ pulse_of times (heard t ∷ past) }
    ensures answer { (times : Times) (past : History) (t : ℕ) → pulse_beat (pulse_of times past) t ≡ beat times past t }
    ensures ticked { (times : Times) (past : History) (t : ℕ) → is_over times past ≡ false →
        pulse_ticked (pulse_of times past) t (beat times past t) ≡ pulse_of times (ticked t ∷ past) }
{}
