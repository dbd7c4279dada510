//! One poll of the link.
ghost use Rattle.std.specs.Prelude.{◌≡◌, ◌⊎◌, ◌≤◌, ℕ, List, None, true, Err, IfErr};
ghost use Rattle.shared_session.specs.Held.{StandsFor};
ghost use Rattle.server_connection.specs.Serving.{Keeps, Closes};
ghost use Rattle.server_connection.specs.AtRest.{IsAtRest};
ghost use Rattle.server_connection.specs.Looks.{Stays, StopsPoll, IsDue};
ghost use Rattle.server_connection.specs.declared.ended.Ended.TheVariants as ended;

use crate::desk::Desk;
use crate::ended::Ended;
use crate::taking::take_in;
use duct::{Link, Polled};
use shared_session::HeldSession;
use store_name::StoreName;

/// Polls the link once, and the session takes what it gives.
pub(crate) fn poll_once<N: StoreName, L: Link>(
    session: &mut HeldSession<N>,
    desk: &mut Desk,
    link: &mut L,
) -> Result<(), Ended>
    requires { IsDue session.old desk.old }
    ensures keeps { Keeps StandsFor IsAtRest L.steps L.faults link.old session.old desk.old link.new session.new desk.new }
    ensures stays { Stays session.old session.new }
    ensures closed { result ≡ Err ended.PeerClosed → Closes StandsFor IsAtRest L.steps L.faults link.old session.old desk.old link.new session.new desk.new }
    ensures rest { result ≡ Err ended.PeerClosed → IsDue session.new desk.new }
    ensures cause { IfErr result (StopsPoll (L.faults link.old) (L.faults link.new) session.new.session) }
    ensures grows { L.faults link.old ≤ L.faults link.new }
{
    match link.poll() {
        Polled::Message(text) => take_in(session, desk, text),
        Polled::Quiet => Ok(()),
        Polled::Closed => Err(Ended::PeerClosed),
        Polled::Failed => Err(Ended::LinkFault),
        Polled::Memory => Err(Ended::Memory),
    }
}
