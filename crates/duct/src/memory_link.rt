ghost use Rattle.std.specs.Prelude.{◌≡◌, ◌≤◌, ◌<◌, ◌+◌, ◌||◌, ◌∷◌, [], Some, None, drop, IfOk, IfErr, OnOk};
ghost use Rattle.io_edge.specs.Memory.{last_call};
ghost use Rattle.duct.specs.Told.{Told, CountsFaults};
ghost use Rattle.duct.specs.Calls.{heard, sending, Tells};
ghost use Rattle.duct.specs.Polls.{poll_failed, next_of, has_closed};
ghost use Rattle.duct.specs.Sends.{send_failed, with_sent};
ghost use Rattle.duct.specs.Lines.{Line, LineAnswers, new_line, line_polled};
ghost use Rattle.duct.specs.LineSends.{LineRefuses, RefusesFor, refusal_of, faults_after, line_sent};

use crate::link::{Link, NoBell, Polled, SendFault};
use crate::schedule::Schedule;
use ejson_value::{ListOf, Mem, Text};
use io_edge::Calls;
use std::alloc::Global;
use std::marker::Model;

/// Texts in order.
pub type Texts = ListOf<Text>;

/// A link whose texts are settled when it is made. Nobody takes what is sent on it.
#[derive(Drop)]
pub struct MemoryLink {
    texts: Texts,
    at: usize,
    closed: bool,
    ended: bool,
    sent: Texts,
    capacity: u32,
    blocked: bool,
    polls: Schedule,
    sends: Schedule,
    faults: u64,
}

impl Model for MemoryLink {
    ghost use Rattle.std.specs.Prelude.{◌≡◌, ◌≤◌, ◌-◌, length, drop};
    ghost use Rattle.duct.specs.Polls.{has_closed};
    ghost use Rattle.duct.specs.Lines.{Line, given, answers};

    ghost Value = { Line };

    ghost view = { λ a. record {
      told = record {
        waiting = drop a.at a.texts;
        closed = a.closed;
        polls = answers (record { texts = a.texts; closed = a.closed; failing = a.polls.failing }) a.polls.calls;
        sent = a.sent;
        room = a.capacity - length a.sent;
        blocked = a.blocked;
      };
      failing_polls = a.polls.failing;
      failing_sends = a.sends.failing;
      sends = a.sends.calls;
      faults = a.faults;
    } };

    ghost invariant = { λ a. (a.at ≤ a.polls.calls) × (a.at ≡ given (record { texts = a.texts; closed = a.closed; failing = a.polls.failing }) a.polls.calls)
        × (a.ended ≡ has_closed (answers (record { texts = a.texts; closed = a.closed; failing = a.polls.failing }) a.polls.calls)) };
}

impl MemoryLink {
    /// A link at which these texts wait, and behind them, where `closed` holds, the end. It takes `capacity` texts. The
    /// polls and the sends with the numbers in `polls` and in `sends`, each counted from 1, fail.
    pub fn new(
        alloc: Global,
        waiting: Texts,
        closed: bool,
        capacity: u32,
        polls: Calls,
        sends: Calls,
    ) -> MemoryLink
        ensures { result ≡ new_line waiting closed capacity polls sends }
    {
        MemoryLink {
            texts: waiting,
            at: 0,
            closed,
            ended: false,
            sent: Texts::new(alloc),
            capacity,
            blocked: false,
            polls: Schedule::new(polls),
            sends: Schedule::new(sends),
            faults: 0,
        }
    }

    /// The texts sent so far.
    pub fn sent(&self) -> &Texts
        ensures { result.now ≡ self.now.told.sent }
    {
        &self.sent
    }

    // Puts a copy of the text behind those sent, or says why not.
    fn take_in(&mut self, text: &Text) -> Result<(), SendFault>
        ensures free { OnOk result (refusal_of self.old ≡ None) }
        ensures ok { OnOk result (self.new ≡ record self.old { told = with_sent self.old.told text.now; sends = self.new.sends }) }
        ensures cause { IfErr result (λ fault. RefusesFor self.old fault) }
        ensures err { IfErr result (λ fault. self.new ≡ record self.old { sends = self.new.sends; faults = faults_after self.old.faults fault }) }
        ensures counted { self.old.sends < last_call → self.old.faults < last_call → self.new.sends ≡ self.old.sends + 1 }
    {
        let Some((call, fails)) = self.sends.next() else {
            return Err(SendFault::Memory);
        };
        let Some(faults) = self.faults.checked_add(1) else {
            return Err(SendFault::Memory);
        };
        self.sends.calls = call;
        if fails {
            self.faults = faults;
            return Err(SendFault::Failed);
        }
        if self.sent.len() as u64 >= self.capacity as u64 {
            return Err(SendFault::Full);
        }
        if self.closed {
            return Err(SendFault::Closed);
        }
        let Ok(copy) = text.copy() else {
            return Err(SendFault::Memory);
        };
        match self.sent.push(copy) {
            Ok(()) => Ok(()),
            Err(_) => Err(SendFault::Memory),
        }
    }
}

// What is next behind the first texts.
fn next_answer(texts: &Texts, at: usize, closed: bool) -> Result<Polled, Mem>
    ensures { IfOk result (λ answer. answer ≡ next_of (drop at texts.now) closed) }
{
    match texts.get(at) {
        Some(text) => Ok(Polled::Message(text.copy()?)),
        None if closed => Ok(Polled::Closed),
        None => Ok(Polled::Quiet),
    }
}

// Whether a poll has answered that the peer has closed, with one more answer.
fn ends(ended: bool, answer: &Polled) -> bool
    ensures { result ≡ (ended || has_closed (answer.now ∷ [])) }
{
    ended || matches!(answer, Polled::Closed)
}

impl Link for MemoryLink {
    type Bell = NoBell;

    ghost told = { λ l. Some l.told };

    ghost faults = { λ l. l.faults };

    ghost steps = { λ a call b. Tells a.told call b.told };

    fn poll(&mut self) -> Polled
        ensures made { Tells self.old.told (heard result) self.new.told }
        ensures faults { CountsFaults (poll_failed result) self.old.faults self.new.faults }
        ensures answer { LineAnswers self.old result }
        ensures after { self.new ≡ line_polled self.old result }
    {
        let Some((call, fails)) = self.polls.next() else {
            return Polled::Memory;
        };
        let Some(faults) = self.faults.checked_add(1) else {
            return Polled::Memory;
        };
        if fails {
            self.polls.calls = call;
            self.faults = faults;
            return Polled::Failed;
        }
        let Ok(answer) = next_answer(&self.texts, self.at, self.closed) else {
            return Polled::Memory;
        };
        self.polls.calls = call;
        self.at += 1;
        self.ended = ends(self.ended, &answer);
        answer
    }

    fn send(&mut self, text: Text) -> Result<(), (Text, SendFault)>
        ensures made { Tells self.old.told (sending text result) self.new.told }
        ensures back { IfErr result (λ refused. refused.0 ≡ text) }
        ensures sound { OnOk result (self.new.faults ≡ self.old.faults) }
        ensures faults { IfErr result (λ refused. CountsFaults (send_failed refused.1) self.old.faults self.new.faults) }
        ensures refusal { LineRefuses self.old result }
        ensures after { self.new ≡ line_sent self.old text result self.new.sends }
        ensures counted { self.old.sends < last_call → self.old.faults < last_call → self.new.sends ≡ self.old.sends + 1 }
    {
        match self.take_in(&text) {
            Ok(()) => Ok(()),
            Err(fault) => {
                self.blocked = self.blocked || !self.ended;
                Err((text, fault))
            }
        }
    }

    fn bell(&self) -> Result<NoBell, Mem> {
        Ok(NoBell)
    }
}
