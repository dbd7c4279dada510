//! What is learnt of calls.
ghost use Rattle.std.specs.Prelude.{◌≡◌, false, true, Some, None, OnOk, OnErr};
ghost use Rattle.method_queue.specs.Queue.{other_than};
ghost use Rattle.session_core.specs.session_model.Methods.{is_blocked_by, phase_at, running};
ghost use Rattle.session_core.specs.session_laws.Session.{is_full, is_running, has_news, can_learn, can_refuse, HadRoom};
ghost use Rattle.session_core.specs.session_laws.Events.{IsLearnt, HasRefused, Learns, Refuses};
ghost use Rattle.session_core.specs.Kept.{seen, IsKept};

use crate::inner::{Inner, add, is_at_work, is_blocked_by, test};
use crate::session_journal_laws::Stored;
use crate::session_laws::EventFault;
use crate::session_state::{Phase, Step, id_at, phase_at};
use crate::session_texts::{Texts, refused_texts, result_text};
use crate::{Addition, News, Session};
use ejson_value::Mem;
use method_queue::MethodQueue;
use program_steps::{End, Status};

// The number of the call that the status has news of for a session.
fn has_news(status: &Status, is_blocking: bool) -> bool
    ensures { result ≡ has_news status.now is_blocking }
{
    status.ended.is_some() || (status.unblocked && is_blocking)
}

// The call runs no longer.
fn stop(queue: &mut MethodQueue, k: u64)
    ensures limit { queue.new.limit ≡ queue.old.limit }
    ensures waiting { queue.new.waiting ≡ queue.old.waiting }
    ensures blocks { queue.new.blocks ≡ other_than queue.old.blocks k }
{
    queue.known();
    let _ran = queue.end(k);
}

// The call blocks no longer.
fn free(queue: &mut MethodQueue, k: u64)
    ensures limit { queue.new.limit ≡ queue.old.limit }
    ensures waiting { queue.new.waiting ≡ queue.old.waiting }
    ensures blocks { queue.new.blocks ≡ other_than queue.old.blocks k }
{
    let _did = queue.unblock(k);
}

// The end of the run of a call.
fn finish(inner: &mut Inner, k: u64, end: &End) -> Result<(), Mem>
    requires kept { IsKept inner.old }
    requires runs { phase_at k (seen inner.old).carried.own.methods ≡ Some running }
    requires room { is_full (seen inner.old) ≡ false }
    ensures learnt { OnOk result (IsLearnt k (Some end.now) (seen inner.old) (seen inner.new)) }
    ensures same { OnErr result (seen inner.new ≡ seen inner.old) }
    ensures kept { IsKept inner.new }
{
    let Some(id) = id_at(inner.parts.own.methods.as_slice(), k) else {
        return Ok(());
    };
    let text = result_text(inner.alloc, id, &end.outcome)?;
    let mut words = Texts::new(inner.alloc);
    words.push_back(text)?;
    let addition = Addition {
        item: Stored::Finished { k, at: end.at },
        id: None,
        step: Step::Finish { k, at: end.at },
        words,
    };
    add(inner, addition, &News::Nothing)?;
    stop(&mut inner.queue, k);
    Ok(())
}

// The call lets the next message be handled.
fn unblock(inner: &mut Inner, k: u64) -> Result<(), Mem>
    requires kept { IsKept inner.old }
    requires blocks { is_blocked_by k (seen inner.old).carried.own.blocking ≡ true }
    requires room { is_full (seen inner.old) ≡ false }
    ensures learnt { OnOk result (IsLearnt k None (seen inner.old) (seen inner.new)) }
    ensures same { OnErr result (seen inner.new ≡ seen inner.old) }
    ensures kept { IsKept inner.new }
{
    let addition = Addition {
        item: Stored::Unblocked { k },
        id: None,
        step: Step::Unblock { k },
        words: Texts::new(inner.alloc),
    };
    add(inner, addition, &News::Nothing)?;
    free(&mut inner.queue, k);
    Ok(())
}

// Whether the call runs.
fn is_running(inner: &Inner, k: u64) -> bool
    ensures { result ≡ is_running (phase_at k (seen inner.now).carried.own.methods) }
{
    matches!(
        phase_at(inner.parts.own.methods.as_slice(), k),
        Some(Phase::Running)
    )
}

// Whether the status has news of the call.
fn can_learn(inner: &Inner, k: u64, status: &Status) -> bool
    ensures { result ≡ can_learn k status.now (seen inner.now) }
{
    is_at_work(inner) && is_running(inner, k) && has_news(status, is_blocked_by(inner, k))
}

// What the status says of the call.
fn told_of(inner: &mut Inner, k: u64, status: &Status) -> Result<(), Mem>
    requires kept { IsKept inner.old }
    requires can { HadRoom (can_learn k status.now (seen inner.old)) (seen inner.old) }
    ensures learnt { OnOk result (IsLearnt k status.now.ended (seen inner.old) (seen inner.new)) }
    ensures same { OnErr result (seen inner.new ≡ seen inner.old) }
    ensures kept { IsKept inner.new }
{
    match &status.ended {
        Some(end) => finish(inner, k, end),
        None => unblock(inner, k),
    }
}

// The call isn't run.
fn turn_down(inner: &mut Inner, k: u64, at: u64) -> Result<(), Mem>
    requires kept { IsKept inner.old }
    requires can { HadRoom (can_refuse k (seen inner.old)) (seen inner.old) }
    ensures refused { OnOk result (HasRefused k at (seen inner.old) (seen inner.new)) }
    ensures same { OnErr result (seen inner.new ≡ seen inner.old) }
    ensures kept { IsKept inner.new }
{
    let Some(id) = id_at(inner.parts.own.methods.as_slice(), k) else {
        return Ok(());
    };
    let words = refused_texts(inner.alloc, id)?;
    let addition = Addition {
        item: Stored::Refused { k, at },
        id: None,
        step: Step::Refuse { k },
        words,
    };
    add(inner, addition, &News::Nothing)?;
    stop(&mut inner.queue, k);
    Ok(())
}

// Whether the call blocks.
fn can_refuse(inner: &Inner, k: u64) -> bool
    ensures { result ≡ can_refuse k (seen inner.now) }
{
    is_at_work(inner) && is_blocked_by(inner, k)
}

impl Session {
    /// The run of the call of this number has this status at some moment of the store.
    pub fn learn(&mut self, k: u64, status: &Status) -> Result<(), EventFault>
        ensures { Learns k status.now self.old self.new result }
    {
        test(&self.inner, can_learn(&self.inner, k, status))?;
        told_of(&mut self.inner, k, status)?;
        Ok(())
    }

    /// The history, when it had `at` entries, had no room for the call of this number.
    pub fn refuse(&mut self, k: u64, at: u64) -> Result<(), EventFault>
        ensures { Refuses k at self.old self.new result }
    {
        test(&self.inner, can_refuse(&self.inner, k))?;
        turn_down(&mut self.inner, k, at)?;
        Ok(())
    }
}
