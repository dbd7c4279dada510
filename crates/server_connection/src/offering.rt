//! Texts on their way to the link.
ghost use Rattle.std.specs.Prelude.{◌≡◌, ◌<◌, ◌≤◌, [], None, true, false, IfSome, IfNone, IfOk, Err, IfErr};
ghost use Rattle.shared_session.specs.Held.{StandsFor};
ghost use Rattle.server_connection.specs.Serving.{Keeps, Closes, GoesNext};
ghost use Rattle.server_connection.specs.AtRest.{IsAtRest};
ghost use Rattle.server_connection.specs.Looks.{Stays, StopsOffer};
ghost use Rattle.server_connection.specs.declared.offering.Said.TheVariants as said;
ghost use Rattle.server_connection.specs.declared.ended.Ended.TheVariants as ended;

use crate::desk::Desk;
use crate::ended::Ended;
use duct::{Link, SendFault};
use ejson_value::Text;
use shared_session::HeldSession;
use std::sync::Wait;
use store_name::StoreName;

// What came of the text that goes next.
#[derive(Clone, Copy, Debug, PartialEq, Eq)]
pub(crate) enum Said {
    Nothing,
    Taken,
    Waits,
    Gone,
    Broken,
    Memory,
}

// The text that goes next: the one that the link handed back, or the session's.
fn next<N: StoreName>(session: &mut HeldSession<N>, desk: &mut Desk) -> Option<Text>
    requires { session.old.session.dropped ≡ false }
    ensures some { IfSome result (λ text. GoesNext StandsFor text session.old session.new desk.old desk.new) }
    ensures none { IfNone result ((session.new.session.carried.outbox ≡ []) × (session.new ≡ session.old) × (desk.new.back ≡ None) × (desk.new ≡ desk.old)) }
    ensures stays { Stays session.old session.new }
{
    match desk.back.take() {
        Some(text) => Some(text),
        None => session.send(),
    }
}

// Hands the next text to the link. Where the peer has closed, the rest of its texts are polled for first, unless the session
// has no room for them.
fn offer<N: StoreName, L: Link>(session: &mut HeldSession<N>, desk: &mut Desk, link: &mut L) -> Said
    requires { session.old.session.dropped ≡ false }
    ensures keeps { Keeps StandsFor IsAtRest L.steps L.faults link.old session.old desk.old link.new session.new desk.new }
    ensures stays { Stays session.old session.new }
    ensures nothing { result ≡ said.Nothing → (desk.new.back ≡ None) × (session.new.session.carried.outbox ≡ []) }
    ensures waits { result ≡ said.Waits → desk.new.refused ≡ true }
    ensures gone { result ≡ said.Gone →
        (desk.new.refused ≡ true) × Closes StandsFor IsAtRest L.steps L.faults link.old session.old desk.old link.new session.new desk.new }
    ensures broken { result ≡ said.Broken → L.faults link.old < L.faults link.new }
    ensures grows { L.faults link.old ≤ L.faults link.new }
{
    let Some(text) = next(session, desk) else {
        return Said::Nothing;
    };
    match link.send(text) {
        Ok(()) => Said::Taken,
        Err((text, fault)) => {
            desk.back = Some(text);
            desk.refused = true;
            match fault {
                SendFault::Closed if desk.held.is_some() => Said::Gone,
                SendFault::Full | SendFault::Closed => Said::Waits,
                SendFault::Failed => Said::Broken,
                SendFault::Memory => Said::Memory,
            }
        }
    }
}

/// Hands texts to the link as long as it takes them. Whether all went.
pub(crate) fn offer_all<R: Wait, N: StoreName, L: Link>(
    rt: &R,
    session: &mut HeldSession<N>,
    desk: &mut Desk,
    link: &mut L,
) -> Result<bool, Ended>
    requires { session.old.session.dropped ≡ false }
    ensures keeps { Keeps StandsFor IsAtRest L.steps L.faults link.old session.old desk.old link.new session.new desk.new }
    ensures stays { Stays session.old session.new }
    ensures all { IfOk result (λ all. all ≡ true → (desk.new.back ≡ None) × (session.new.session.carried.outbox ≡ [])) }
    ensures waits { IfOk result (λ all. all ≡ false → desk.new.refused ≡ true) }
    ensures closed { result ≡ Err ended.PeerClosed →
        (desk.new.refused ≡ true) × Closes StandsFor IsAtRest L.steps L.faults link.old session.old desk.old link.new session.new desk.new }
    ensures grows { L.faults link.old ≤ L.faults link.new }
    ensures cause { IfErr result (StopsOffer (L.faults link.old) (L.faults link.new)) }
{
    for _ in rt.forever() {
        match offer(session, desk, link) {
            Said::Taken => {}
            Said::Nothing => return Ok(true),
            Said::Waits => return Ok(false),
            Said::Gone => return Err(Ended::PeerClosed),
            Said::Broken => return Err(Ended::LinkFault),
            Said::Memory => return Err(Ended::Memory),
        }
    }
    unreachable!()
}
