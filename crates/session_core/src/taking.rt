//! Texts that are taken.
ghost use Rattle.std.specs.Prelude.{◌≡◌, ◌<◌, ◌≤◌, length, false, IfErr, OnOk, OnErr};
ghost use Rattle.std.specs.VecDeque.{deque_len, deque_capacity};
ghost use Rattle.ddp_messages.specs.ClientMessage.{client_view};
ghost use Rattle.method_queue.specs.Queue.{pushed, IsFull};
ghost use Rattle.session_core.specs.session_model.Taking.{to_queue, taken_text};
ghost use Rattle.session_core.specs.session_texts.Taking.{as_item};
ghost use Rattle.session_core.specs.session_laws.Storing.{kept_as};
ghost use Rattle.session_core.specs.session_laws.Session.{is_full, is_at_work, HadRoom};
ghost use Rattle.session_core.specs.session_laws.Events.{IsAnswered, IsTakenAs, IsTakeCause, IsPutCause, Takes};
ghost use Rattle.session_core.specs.Kept.{seen, IsKept};
ghost use Rattle.session_core.specs.Adding.{step_by, fault_of, IsPushCause};

use crate::inner::{Inner, add, is_at_work, test};
use crate::session_journal_laws::Stored;
use crate::session_laws::EventFault;
use crate::session_state::Step;
use crate::session_texts::{Answer, Taken, answer_texts, taken_from};
use crate::{Addition, News, Session};
use ddp_messages::FromClient;
use ejson_value::{Mem, Text};
use method_queue::{MethodQueue, PushFault};
use std::alloc::Global;
use std::collections::VecDeque;

// The item of what is answered at once; the text has this place.
fn item_of(answer: &Answer, text: u64) -> Stored
    ensures { result ≡ kept_as text (as_item answer.now) }
{
    match answer {
        Answer::Connect => Stored::Connect,
        Answer::Fail => Stored::Fail,
        Answer::Ping { .. } => Stored::Ping { text },
        Answer::Pong => Stored::Pong,
        Answer::Bad { .. } => Stored::Bad { text },
    }
}

// What an answer does to the session.
fn step_of(answer: &Answer) -> Step
    ensures { result ≡ step_by answer.now }
{
    match answer {
        Answer::Connect => Step::Connect,
        Answer::Fail => Step::Fail,
        Answer::Ping { .. } | Answer::Pong | Answer::Bad { .. } => Step::Stay,
    }
}

// Answers a text at once.
fn answer(inner: &mut Inner, answer: Answer) -> Result<(), Mem>
    requires kept { IsKept inner.old }
    requires room { is_full (seen inner.old) ≡ false }
    ensures answered { OnOk result (IsAnswered (as_item answer) (seen inner.old) (seen inner.new)) }
    ensures same { OnErr result (seen inner.new ≡ seen inner.old) }
    ensures kept { IsKept inner.new }
{
    inner.queue.known();
    let words = answer_texts(inner.alloc, inner.number, &answer)?;
    let addition = Addition {
        item: item_of(&answer, inner.taken),
        id: None,
        step: step_of(&answer),
        words,
    };
    add(inner, addition, &News::Nothing)?;
    inner.taken += 1;
    Ok(())
}

// Makes room for one more place.
fn make_place(places: &mut VecDeque<u64>) -> Result<(), Mem>
    ensures same { places.new.items ≡ places.old.items }
    ensures room { OnOk result (deque_len places.new < deque_capacity places.new) }
{
    places.reserve(1)?;
    Ok(())
}

// Why a message can't wait.
fn fault_of(fault: PushFault) -> EventFault
    ensures { result ≡ fault_of fault }
{
    match fault {
        PushFault::Full { .. } => EventFault::QueueFull,
        PushFault::Memory => EventFault::Memory,
    }
}

// Puts a message behind those that wait.
fn push(queue: &mut MethodQueue, message: FromClient, bytes: u32) -> Result<(), EventFault>
    ensures pushed { OnOk result (queue.new ≡ pushed queue.old (client_view message) bytes) }
    ensures free { OnOk result (¬ IsFull queue.old bytes) }
    ensures cause { IfErr result (IsPushCause queue.old bytes) }
    ensures same { OnErr result (queue.new ≡ queue.old) }
{
    match queue.push(message, bytes) {
        Ok(()) => Ok(()),
        Err((_, fault)) => Err(fault_of(fault)),
    }
}

// Lets a message wait.
fn put(inner: &mut Inner, message: FromClient, bytes: u32) -> Result<(), EventFault>
    requires { IsKept inner.old }
    ensures queued { OnOk result (IsTakenAs (to_queue (client_view message)) bytes (seen inner.old) (seen inner.new)) }
    ensures cause { IfErr result (IsPutCause bytes (seen inner.old)) }
    ensures same { OnErr result (seen inner.new ≡ seen inner.old) }
    ensures kept { IsKept inner.new }
{
    inner.queue.known();
    make_place(&mut inner.places)?;
    push(&mut inner.queue, message, bytes)?;
    inner.places.push_back(inner.taken).unwrap();
    inner.taken += 1;
    Ok(())
}

// What comes of a text, once the event is enabled.
fn taken(inner: &mut Inner, text: &Text) -> Result<(), EventFault>
    requires kept { IsKept inner.old }
    requires room { HadRoom (is_at_work (seen inner.old)) (seen inner.old) }
    ensures taken { OnOk result (IsTakenAs (taken_text (seen inner.old).carried.own.connected text.now) (length text.now) (seen inner.old) (seen inner.new)) }
    ensures cause { IfErr result (IsTakeCause text.now (seen inner.old)) }
    ensures same { OnErr result (seen inner.new ≡ seen inner.old) }
    ensures kept { IsKept inner.new }
{
    let connected = inner.parts.own.connected;
    let taken = taken_from(inner.alloc, connected, text, &mut inner.scratch)?;
    match taken {
        Taken::AtOnce(answered) => Ok(answer(inner, answered)?),
        Taken::ToQueue(message) => put(inner, message, text.len() as u32),
    }
}

impl Session {
    /// Takes a text of the client: most are answered at once; a `sub`, an `unsub` or a `method` waits
    /// in the queue.
    pub fn take(&mut self, text: &Text) -> Result<(), EventFault>
        ensures { Takes text.now self.old self.new result }
    {
        test(&self.inner, is_at_work(&self.inner))?;
        taken(&mut self.inner, text)
    }
}
