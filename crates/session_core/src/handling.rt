//! Messages that are handled.
ghost use Rattle.std.specs.Prelude.{◌≡◌, ◌==◌, ◌&&◌, not, is_none, length, true, drop, IfOk, IsTrue, OnOk, OnErr, None, Some};
ghost use Rattle.ddp_messages.specs.ClientMessage.{client_view};
ghost use Rattle.session_core.specs.Additions.{call_by};
ghost use Rattle.session_core.specs.session_laws.Session.{can_handle, HadRoom};
ghost use Rattle.session_core.specs.session_laws.Events.{HasHandled, Handles};
ghost use Rattle.session_core.specs.Kept.{seen, IsKept};
ghost use Rattle.session_core.specs.Handling.{IsNextBy, IsNext, gone_by, passed};

use crate::inner::{Inner, add, is_at_work, test};
use crate::session_laws::EventFault;
use crate::session_state::Step;
use crate::{Addition, Asked, News, Session};
use ddp_messages::FromClient;
use ejson_value::Mem;
use method_queue::MethodQueue;
use std::collections::VecDeque;

// Whether a message waits and no call blocks.
fn has_next(inner: &Inner) -> bool
    requires { IsKept inner.now }
    ensures { result ≡ (not (length (seen inner.now).carried.waiting == 0) && is_none (seen inner.now).carried.own.blocking) }
{
    inner.queue.peek().is_some()
}

// Whether the session takes events, a message waits, and no call blocks.
fn can_handle(inner: &Inner) -> bool
    requires { IsKept inner.now }
    ensures { result ≡ can_handle (seen inner.now) }
{
    is_at_work(inner) && has_next(inner)
}

// What becomes of a message whose text has this place.
fn addition_for(inner: &Inner, text: u64, message: &FromClient) -> Result<Addition, Mem>
    ensures { IfOk result (λ a. IsNextBy text (client_view message.now) (seen inner.now) a) }
{
    let asked = Asked {
        alloc: inner.alloc,
        app: &inner.app,
        number: inner.number,
        own: &inner.parts.own,
        text,
    };
    asked.handling(message)
}

// What becomes of the message that is handled next.
fn next_addition(inner: &Inner) -> Result<Option<Addition>, Mem>
    requires kept { IsKept inner.now }
    requires can { can_handle (seen inner.now) ≡ true }
    ensures { IfOk result (λ next. IsNext (seen inner.now).places (seen inner.now).carried.waiting (seen inner.now) next) }
{
    let Some(message) = inner.queue.peek() else {
        return Ok(None);
    };
    let Some(text) = inner.places.front() else {
        return Ok(None);
    };
    Ok(Some(addition_for(inner, *text, message)?))
}

// What the merge box is to do with the item.
fn news_of(step: &Step) -> News<'static>
    ensures { call_by result ≡ gone_by step.now }
{
    match step {
        Step::Close { sub } => News::Gone { sub: *sub },
        _ => News::Nothing,
    }
}

// The message waits no longer, and if it is a call, that call blocks.
fn pass(queue: &mut MethodQueue, places: &mut VecDeque<u64>, started: Option<u64>)
    requires free { queue.old.blocks ≡ None }
    requires room { IsTrue queue.old.has_room }
    ensures queue { queue.new ≡ passed started queue.old }
    ensures places { places.new.items ≡ drop 1 places.old.items }
{
    drop(queue.next());
    let _place = places.pop_front();
    if let Some(k) = started {
        queue.start(k).unwrap();
    }
}

// Adds the item of the message that is handled.
fn handle_as(inner: &mut Inner, addition: Addition) -> Result<(), Mem>
    requires kept { IsKept inner.old }
    requires can { HadRoom (can_handle (seen inner.old)) (seen inner.old) }
    requires next { IsNext (seen inner.old).places (seen inner.old).carried.waiting (seen inner.old) (Some addition) }
    ensures handled { OnOk result (HasHandled (seen inner.old).places (seen inner.old).carried.waiting (seen inner.old) (seen inner.new)) }
    ensures same { OnErr result (seen inner.new ≡ seen inner.old) }
    ensures kept { IsKept inner.new }
{
    let started = addition.step.started();
    let news = news_of(&addition.step);
    inner.queue.reserve()?;
    add(inner, addition, &news)?;
    pass(&mut inner.queue, &mut inner.places, started);
    Ok(())
}

// Handles the message that came first.
fn handle_next(inner: &mut Inner) -> Result<(), Mem>
    requires kept { IsKept inner.old }
    requires can { HadRoom (can_handle (seen inner.old)) (seen inner.old) }
    ensures handled { OnOk result (HasHandled (seen inner.old).places (seen inner.old).carried.waiting (seen inner.old) (seen inner.new)) }
    ensures same { OnErr result (seen inner.new ≡ seen inner.old) }
    ensures kept { IsKept inner.new }
{
    match next_addition(inner)? {
        Some(addition) => handle_as(inner, addition),
        None => Ok(()),
    }
}

impl Session {
    /// Handles the message that came first, unless a call blocks.
    pub fn handle(&mut self) -> Result<(), EventFault>
        ensures { Handles self.old self.new result }
    {
        test(&self.inner, can_handle(&self.inner))?;
        handle_next(&mut self.inner)?;
        Ok(())
    }
}
