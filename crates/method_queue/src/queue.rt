//! The queue.
ghost use Rattle.std.specs.Prelude.{◌≡◌, ◌↔◌, ◌⊎◌, true, false, Some, [], IsTrue, IsOk, IsSome, IsNone, IfErr, IfNone, OnOk, OnErr, OnSome};
ghost use Rattle.std.specs.Option.{option_map};
ghost use Rattle.std.specs.Bool.{OnTrue, OnFalse};
ghost use Rattle.ddp_messages.specs.ClientMessage.{client_view};
ghost use Rattle.method_queue.specs.Queue.{new_queue, next_message, pushed, taken, reserved, started, unblocked, ended, other_than, IsRunning};
ghost use Rattle.method_queue.specs.Queue.{IsFull, IsWithin};
ghost use Rattle.method_queue.specs.Faults.{IsCause};

use crate::fault::PushFault;
use ddp_messages::FromClient;
use ejson_value::Mem;
use std::alloc::Global;
use std::collections::{HashSet, VecDeque};
use std::marker::Model;

/// How many bytes the texts that wait may have together.
const MAX_BYTES: u64 = 4_194_304;

// A message that waits, and how many bytes its text has.
#[derive(Drop)]
struct Entry {
    message: FromClient,
    bytes: u32,
}

/// The messages of one session that wait to be handled, in the order in which they came, and its
/// methods that run, each by its number `k`. While a method blocks, nothing is handled: a method
/// blocks from its start until it unblocks or ends ("Remote Procedure Calls" of Meteor's DDP
/// specification, and `this.unblock()` of Meteor's methods). How much may wait is ours to say.
#[derive(Drop)]
pub struct MethodQueue {
    limit: u32,
    waiting: VecDeque<Entry>,
    // Those of all that wait.
    bytes: u32,
    running: HashSet<u64>,
    blocks: Option<u64>,
    // Whether `running` has room for a run that no `start` has used yet.
    has_room: bool,
}

impl Model for MethodQueue {
    ghost use Rattle.method_queue.specs.Queue.{Queue};

    ghost Value = { Queue };

    ghost use Rattle.std.specs.Coded.{codes, coded_ℕ};
    ghost use Rattle.std.specs.Ordering.{nat_cmp};
    ghost use Rattle.std.specs.FinSet as set;
    ghost use Rattle.value_model.specs.Coding.{val_code};

    ghost coded = { Prim.hlevel (codes, val_code, set.code {R = nat_cmp} coded_ℕ) };

    ghost use Rattle.method_queue.specs.Kept.{queue_of, IsKept};

    ghost view = { queue_of };

    ghost invariant = { IsKept };
}

// The method that blocks once `k` does not.
fn other_than(blocks: Option<u64>, k: u64) -> Option<u64>
    ensures { result ≡ other_than blocks k }
{
    match blocks {
        Some(j) if j != k => Some(j),
        _ => None,
    }
}

impl MethodQueue {
    /// Nothing waits and no method runs. At most `limit` messages may wait.
    pub fn new(alloc: Global, limit: u32) -> MethodQueue
        ensures { result ≡ new_queue limit }
    {
        MethodQueue {
            limit,
            waiting: VecDeque::new(alloc),
            bytes: 0,
            running: HashSet::new(alloc),
            blocks: None,
            has_room: false,
        }
    }

    /// What waits is within the limits, and a method that blocks runs.
    pub fn known(&self)
        ensures { IsWithin self.now }
    {
        let _ = &self.waiting;
    }

    // Whether a message of so many bytes may not be put into the queue.
    fn is_full(&self, bytes: u32) -> bool
        ensures { IsTrue result ↔ IsFull self.now bytes }
    {
        self.waiting.len() >= self.limit as usize
            || u64::from(self.bytes) + u64::from(bytes) > MAX_BYTES
    }

    /// Puts a message behind those that wait. `bytes` is the length of its text. A message that is
    /// refused is handed back.
    pub fn push(&mut self, m: FromClient, bytes: u32) -> Result<(), (FromClient, PushFault)>
        ensures ok { OnOk result (self.new ≡ pushed self.old (client_view m) bytes) }
        ensures not_full { OnOk result (¬ IsFull self.old bytes) }
        ensures cause { IfErr result (λ e. IsCause self.old bytes e.1) }
        ensures handed_back { IfErr result (λ e. e.0 ≡ m) }
        ensures err { OnErr result (self.new ≡ self.old) }
    {
        if self.is_full(bytes) {
            return Err((m, PushFault::Full { limit: self.limit }));
        }
        match self.waiting.push_back(Entry { message: m, bytes }) {
            Ok(()) => {
                self.bytes += bytes;
                Ok(())
            }
            Err(failed) => Err((failed.value.message, PushFault::Memory)),
        }
    }

    /// The message that `next` would give.
    pub fn peek(&self) -> Option<&FromClient>
        ensures message { option_map (λ m. client_view m.now) result ≡ next_message self.now }
        ensures none { IsNone result ↔ ((self.now.waiting ≡ []) ⊎ IsSome self.now.blocks) }
    {
        match self.blocks {
            Some(_) => None,
            None => Some(&self.waiting.front()?.message),
        }
    }

    /// Makes room for one run: until a `start` has answered `Ok`, `start` is not refused.
    pub fn reserve(&mut self) -> Result<(), Mem>
        ensures ok { OnOk result (self.new ≡ reserved self.old) }
        ensures err { OnErr result (self.new ≡ self.old) }
        ensures again { IsTrue self.old.has_room → IsOk result }
    {
        self.running.reserve(1)?;
        self.has_room = true;
        Ok(())
    }

    /// Takes out the message that came first, unless a method blocks.
    pub fn next(&mut self) -> Option<FromClient>
        ensures message { option_map client_view result ≡ next_message self.old }
        ensures none { IsNone result ↔ ((self.old.waiting ≡ []) ⊎ IsSome self.old.blocks) }
        ensures taken { OnSome result (self.new ≡ taken self.old) }
        ensures unchanged { IfNone result (self.new ≡ self.old) }
    {
        if self.blocks.is_some() {
            return None;
        }
        let first = self.waiting.pop_front()?;
        self.bytes -= first.bytes;
        Some(first.message)
    }

    /// Method `k` runs, and is the one that blocks from now on. (One that runs already is not started
    /// again: it blocks again.)
    pub fn start(&mut self, k: u64) -> Result<(), Mem>
        ensures ok { OnOk result (self.new ≡ started self.old k) }
        ensures err { OnErr result (self.new ≡ self.old) }
        ensures reserved { IsTrue self.old.has_room → IsOk result }
    {
        self.running.insert(k)?;
        self.blocks = Some(k);
        self.has_room = false;
        Ok(())
    }

    /// Method `k` blocks no longer. Whether it did.
    pub fn unblock(&mut self, k: u64) -> bool
        ensures blocked { IsTrue result ↔ (self.old.blocks ≡ Some k) }
        ensures done { OnTrue result (self.new ≡ unblocked self.old) }
        ensures unchanged { OnFalse result (self.new ≡ self.old) }
    {
        if self.blocks != Some(k) {
            return false;
        }
        self.blocks = None;
        true
    }

    /// Method `k` has ended: it neither runs nor blocks. Whether it ran.
    pub fn end(&mut self, k: u64) -> bool
        ensures ran { IsTrue result ↔ IsRunning self.old k }
        ensures done { OnTrue result (self.new ≡ ended self.old k) }
        ensures unchanged { OnFalse result (self.new ≡ self.old) }
    {
        let ran = self.running.remove(&k);
        let blocks = other_than(self.blocks, k);
        self.blocks = blocks;
        ran
    }
}
