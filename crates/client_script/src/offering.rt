//! Handing texts to a link.
ghost use Rattle.std.specs.Prelude.{◌≡◌, [], None};
ghost use Rattle.duct.specs.Told.{CountsFaults};
ghost use Rattle.client_script.specs.declared.offering.Offered.TheVariants as offered;
ghost use Rattle.client_script.specs.Moving.{Offers, Fetches, Moves, offer_failed};

use crate::speaker::Speaker;
use duct::{Link, SendFault};
use ejson_value::Text;
use std::sync::Wait;

/// What came of the text that goes next.
#[derive(Clone, Copy, Debug, PartialEq, Eq)]
pub(crate) enum Offered {
    /// There is none.
    Nothing,
    /// The link took it.
    Taken,
    /// The link handed it back: it has no room now, or its peer has closed, as a poll will tell.
    Waits,
    /// The link failed.
    Failed,
    /// There was no memory.
    Memory,
}

// Keeps the speaker's next text, where none is kept.
fn fetch<S: Speaker>(speaker: &mut S, kept: &mut Option<Text>)
    ensures { Fetches S.look S.does speaker.old kept.old speaker.new kept.new }
{
    if kept.is_none() {
        *kept = speaker.say();
    }
}

// Hands the text that is kept to the link.
fn offer<L: Link>(kept: &mut Option<Text>, link: &mut L) -> Offered
    ensures offers { Offers L.steps link.old kept.old link.new kept.new result }
    ensures faults { CountsFaults (offer_failed result) (L.faults link.old) (L.faults link.new) }
{
    let Some(text) = kept.take() else {
        return Offered::Nothing;
    };
    match link.send(text) {
        Ok(()) => Offered::Taken,
        Err((text, fault)) => {
            *kept = Some(text);
            match fault {
                SendFault::Full | SendFault::Closed => Offered::Waits,
                SendFault::Failed => Offered::Failed,
                SendFault::Memory => Offered::Memory,
            }
        }
    }
}

/// Hands texts to the link as long as it takes them.
pub(crate) fn offer_all<R: Wait, S: Speaker, L: Link>(
    rt: &R,
    speaker: &mut S,
    kept: &mut Option<Text>,
    link: &mut L,
) -> Offered
    ensures moves { Moves S.look S.does L.steps speaker.old link.old kept.old speaker.new link.new kept.new [] [] }
    ensures nothing { result ≡ offered.Nothing → ((S.look speaker.new).waiting ≡ []) × (kept.new ≡ None) }
    ensures faults { CountsFaults (offer_failed result) (L.faults link.old) (L.faults link.new) }
{
    for _ in rt.forever() {
        fetch(speaker, kept);
        match offer(kept, link) {
            Offered::Taken => {}
            other => return other,
        }
    }
    unreachable!()
}
