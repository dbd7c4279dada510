ghost use Rattle.std.specs.Prelude.{◌≡◌, ◌≤◌, ◌-◌, ◌<◌, MatchBool, false, if◌then◌else◌, length, Some, None, IfOk, IfErr, OnOk};
ghost use Rattle.rtrb.specs.Ring.{known_free, ProducerLooked};
ghost use Rattle.duct.specs.Told.{CountsFaults};
ghost use Rattle.duct.specs.Polls.{poll_failed};
ghost use Rattle.duct.specs.Sends.{send_failed};
ghost use Rattle.duct.specs.Calls.{heard, sending};
ghost use Rattle.duct.specs.Rings.{RingEnd, AreEnds, SameWays, new_end, no_faults, RingMakes, Looks, with_mark, Beside};
ghost use Rattle.duct.specs.RingViews.{marks};

use crate::link::{Link, NoBell, Polled, SendFault};
use ejson_value::{Mem, Text};
use rtrb::{Consumer, Producer, RingBuffer};
use std::alloc::Global;
use std::marker::Model;

/// One end of a ring, which one thread holds. Neither `poll` nor `send` waits or takes memory.
#[derive(Drop)]
pub struct RingLink {
    // Texts, and behind the last one None, the mark.
    out: Producer<Option<Text>>,
    inn: Consumer<Option<Text>>,
    closed: bool,
    ended: bool,
}

impl Model for RingLink {
    ghost use Rattle.duct.specs.Rings.{RingEnd};
    ghost use Rattle.duct.specs.RingViews.{end_of, IsEnd};

    ghost Value = { RingEnd };

    ghost view = { λ a. end_of a.out a.inn a.closed a.ended };

    ghost invariant = { λ a. IsEnd a.out a.inn a.closed a.ended };
}

/// A ring that holds `capacity` texts each way, 1 to 4,096: its two ends.
pub fn ring(alloc: Global, capacity: u32) -> Result<(RingLink, RingLink), Mem>
    requires { (1 ≤ capacity) × (capacity ≤ 4096) }
    ensures ends { IfOk result (λ ends. AreEnds ends.0 ends.1) }
    ensures first { IfOk result (λ ends. ends.0 ≡ new_end ends.0.out ends.0.inn capacity) }
    ensures second { IfOk result (λ ends. ends.1 ≡ new_end ends.1.out ends.1.inn capacity) }
{
    let (there_out, there_in) = RingBuffer::new(alloc, capacity as usize + 1)?;
    let (back_out, back_in) = RingBuffer::new(alloc, capacity as usize + 1)?;
    let here = RingLink {
        out: there_out,
        inn: back_in,
        closed: false,
        ended: false,
    };
    let there = RingLink {
        out: back_out,
        inn: there_in,
        closed: false,
        ended: false,
    };
    Ok((here, there))
}

// Whether there is a place beside the one for the mark.
fn has_place(out: &mut Producer<Option<Text>>) -> bool
    ensures looked { ProducerLooked out.old out.new }
    ensures place { MatchBool result (2 ≤ known_free out.new) (known_free out.new < 2) }
{
    out.cached_slots() >= 2 || out.slots() >= 2
}

// How many of the items that wait are texts: none behind the mark that was taken, all but the mark that waits.
fn texts_among(items: u64, ended: bool, closed: bool) -> u64
    requires { ended ≡ false → marks closed ≤ items }
    ensures { result ≡ (if ended then 0 else items - marks closed) }
{
    if ended {
        0
    } else if closed {
        items - 1
    } else {
        items
    }
}

impl RingLink {
    /// How many places for texts of this end are known to be free.
    pub fn slots(&self) -> u32
        ensures { result ≡ self.now.slots }
    {
        if self.closed {
            return 0;
        }
        (self.out.cached_slots() - 1) as u32
    }

    /// Looks how many places for texts of this end are free now. A loop that waits for one calls it, since `slots` tells
    /// the same each time.
    pub fn look(&mut self) -> u32
        ensures value { result ≡ self.new.slots }
        ensures looks { Looks self.old self.new }
    {
        if self.closed {
            return 0;
        }
        (self.out.slots() - 1) as u32
    }

    /// Puts the mark behind the texts of this end: it sends none any more. A second call does nothing.
    pub fn close(&mut self)
        ensures { self.new ≡ with_mark self.old }
    {
        if self.closed {
            return;
        }
        self.out.push_reserved(None);
        self.closed = true;
    }

    /// How many texts this end has still to take. The thread that calls it holds both ends.
    pub fn beside(&mut self, other: &mut RingLink) -> u64
        requires { AreEnds self.old other.old }
        ensures count { result ≡ length self.new.known }
        ensures beside { Beside self.old self.new other.old other.new }
    {
        let items = self.inn.slots_beside(&mut other.out) as u64;
        texts_among(items, self.ended, other.closed)
    }
}

impl Link for RingLink {
    type Bell = NoBell;

    ghost told = { λ _. None };

    ghost faults = { no_faults };

    ghost steps = { RingMakes };

    /// Takes the oldest text. Quiet comes only where no text is known to wait, and closed where this end has taken the
    /// peer's mark.
    fn poll(&mut self) -> Polled
        ensures faults { CountsFaults (poll_failed result) (no_faults self.old) (no_faults self.new) }
        ensures made { RingMakes self.old (heard result) self.new }
        ensures ways { SameWays self.old self.new }
    {
        if self.ended {
            return Polled::Closed;
        }
        match self.inn.pop() {
            Ok(Some(text)) => Polled::Message(text),
            Ok(None) => {
                self.ended = true;
                Polled::Closed
            }
            Err(_) => Polled::Quiet,
        }
    }

    /// Sends the text, or hands it back as full, which never comes where a place is known to be free.
    fn send(&mut self, text: Text) -> Result<(), (Text, SendFault)>
        ensures back { IfErr result (λ refused. refused.0 ≡ text) }
        ensures sound { OnOk result (no_faults self.new ≡ no_faults self.old) }
        ensures faults { IfErr result (λ refused. CountsFaults (send_failed refused.1) (no_faults self.old) (no_faults self.new)) }
        ensures made { RingMakes self.old (sending text result) self.new }
        ensures ways { SameWays self.old self.new }
    {
        if self.closed {
            return Err((text, SendFault::Full));
        }
        if !has_place(&mut self.out) {
            return Err((text, SendFault::Full));
        }
        self.out.push_reserved(Some(text));
        Ok(())
    }

    fn bell(&self) -> Result<NoBell, Mem> {
        Ok(NoBell)
    }
}
