ghost use Rattle.std.specs.Prelude.{◌≡◌, ◌≤◌, ◌<◌, ◌+◌, ◌-◌, ◌^◌, ◌∷◌, ◌++◌, ℕ, List, [], Option, Some, length, take, drop, min, IfOk, IfSome, OnOk};
ghost use Rattle.std.specs.Prelude.{OnErr, IsTrue, IsErr, ◌↔◌, ◌==◌, slice_get};
ghost use Rattle.std.specs.List.{list_any};
ghost use Rattle.std.specs.Option.{option_copied};
ghost use Rattle.io_edge.specs.Outside.{TakesNext, Grows, CountsRead};
ghost use Rattle.io_edge.specs.Memory.{Supply, Held, with_call, is_to_fail, read_fails, read_length, after_read, reads_of, write_fails, after_write};
ghost use Rattle.io_edge.specs.Memory.{told_of, last_call};

use crate::sink::Sink;
use crate::source::{Failed, Source};
use ejson_value::{Bytes, ListOf, Mem};
use std::alloc::Global;
use std::marker::Model;

/// Numbers of calls, counted from 1.
pub type Calls = ListOf<u64>;

// Whether a call is among these.
fn is_among(calls: &Calls, call: u64) -> bool
    ensures { result ≡ list_any (λ n. n == call) calls.now }
{
    calls.as_slice().iter().any(|number| *number == call)
}

// Counts one more call, and answers whether it is one of those that are to fail.
fn count(calls: &mut u64, failing: &Calls) -> bool
    ensures counted { calls.new ≡ with_call calls.old }
    ensures fails { result ≡ is_to_fail calls.old failing.now }
{
    match calls.checked_add(1) {
        Some(call) => {
            *calls = call;
            is_among(failing, call)
        }
        None => false,
    }
}

/// A source that gives the bytes it was made with.
#[derive(Drop)]
pub struct MemorySource {
    bytes: Bytes,
    at: usize,
    failing: Calls,
    calls: u64,
    faults: u64,
}

impl Model for MemorySource {
    ghost use Rattle.std.specs.Prelude.{drop, length, ◌≤◌};
    ghost use Rattle.io_edge.specs.Memory.{Supply};

    ghost Value = { Supply };

    ghost view = { λ a. record {
      left = drop a.at a.bytes;
      failing = a.failing;
      calls = a.calls;
      faults = a.faults;
    } };

    ghost invariant = { λ a. (a.at ≤ length a.bytes) × (a.faults ≤ a.calls) };
}

impl MemorySource {
    /// A source of these bytes, whose calls of `read` with these numbers fail.
    pub fn new(bytes: Bytes, failing: Calls) -> MemorySource
        ensures { result ≡ record { left = bytes; failing = failing; calls = 0; faults = 0 } }
    {
        MemorySource {
            bytes,
            at: 0,
            failing,
            calls: 0,
            faults: 0,
        }
    }
}

impl Source for MemorySource {
    ghost left = { λ s. Some s.left };

    ghost faults = { λ s. s.faults };

    ghost reads = { reads_of };

    fn read(&mut self, into: &mut [u8]) -> Result<usize, Failed>
        ensures room { IfOk result (λ n. n ≤ length into.old) }
        ensures bytes { IfOk result (λ n. IfSome (Some self.old.left)
            (λ old. TakesNext (length into.old) n old into.new (Some self.new.left))) }
        ensures same { OnErr result (Some self.new.left ≡ Some self.old.left) }
        ensures sound { OnOk result (self.new.faults ≡ self.old.faults) }
        ensures failed { OnErr result (self.old.faults < self.new.faults) }
        ensures counted { CountsRead (reads_of self.old) (reads_of self.new) }
        ensures after { self.new ≡ after_read self.old (length into.old) }
        ensures fails { IsErr result ↔ IsTrue (read_fails self.old) }
        ensures length { IfOk result (λ n. n ≡ read_length self.old (length into.old)) }
    {
        if count(&mut self.calls, &self.failing) {
            self.faults += 1;
            return Err(Failed);
        }
        let left = &self.bytes.as_slice()[self.at..];
        let n = left.len().min(into.len());
        into[..n].copy_from_slice(&left[..n]);
        self.at += n;
        Ok(n)
    }
}

/// A sink that keeps the bytes written to it.
#[derive(Drop)]
pub struct MemorySink {
    bytes: Vec<u8>,
    room: u64,
    failing: Calls,
    calls: u64,
    faults: u64,
}

impl Model for MemorySink {
    ghost use Rattle.std.specs.Prelude.{length, ◌≤◌, ◌-◌, ◌+◌, vec_capacity, vec_len};
    ghost use Rattle.io_edge.specs.Memory.{Held};

    ghost Value = { Held };

    ghost view = { λ a. record {
      bytes = a.bytes.items;
      room = a.room;
      failing = a.failing;
      calls = a.calls;
      faults = a.faults;
    } };

    ghost invariant = { λ a. (vec_len a.bytes ≤ a.room) × (a.room ≤ vec_capacity a.bytes) × (a.faults ≤ a.calls) };
}

impl MemorySink {
    /// A sink with room for so many bytes, whose calls of `write` with these numbers fail. A write
    /// past the room fails too.
    pub fn new(alloc: Global, room: u64, failing: Calls) -> Result<MemorySink, Mem>
        ensures { IfOk result (λ sink. sink ≡ record { bytes = []; room = room; failing = failing; calls = 0; faults = 0 }) }
    {
        Ok(MemorySink {
            bytes: Vec::with_capacity(alloc, room as usize)?,
            room,
            failing,
            calls: 0,
            faults: 0,
        })
    }

    /// The bytes written so far.
    pub fn written(&self) -> &[u8]
        ensures { result.now ≡ self.now.bytes }
    {
        self.bytes.as_slice()
    }
}

impl Sink for MemorySink {
    ghost written = { told_of };

    ghost faults = { λ s. s.faults };

    fn write(&mut self, bytes: &[u8]) -> Result<usize, Failed>
        ensures within { IfOk result (λ n. n ≤ length bytes.now) }
        ensures progress { IfOk result (λ n. 0 < length bytes.now → 0 < n) }
        ensures bytes { IfOk result (λ n. Grows (told_of self.old) (told_of self.new) (take n bytes.now)) }
        ensures same { OnErr result (Grows (told_of self.old) (told_of self.new) []) }
        ensures sound { OnOk result (self.new.faults ≡ self.old.faults) }
        ensures failed { OnErr result (self.old.faults < self.new.faults) }
        ensures after { self.new ≡ after_write self.old bytes.now }
        ensures fails { self.old.calls < last_call → (IsErr result ↔ IsTrue (write_fails self.old (length bytes.now))) }
        ensures whole { IfOk result (λ n. n ≡ length bytes.now) }
    {
        if self.calls == u64::MAX {
            return Ok(bytes.len());
        }
        if count(&mut self.calls, &self.failing)
            || bytes.len() as u64 > self.room - self.bytes.len() as u64
        {
            self.faults += 1;
            return Err(Failed);
        }
        match self.bytes.extend_from_slice(bytes) {
            Ok(()) => Ok(bytes.len()),
            Err(_) => unreachable!(),
        }
    }
}
