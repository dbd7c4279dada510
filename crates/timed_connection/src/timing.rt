//! Serving over a link that a heart watches.
ghost use Rattle.std.specs.Prelude.{◌≡◌};
ghost use Rattle.timed_link.specs.Times.{IsFresh};
ghost use Rattle.server_connection.specs.Ends.{IsNew, GoesOn};
ghost use Rattle.timed_connection.specs.Timing.{comes_to, IsLeft, ServesTimed};

use duct::Link;
use server_connection::{Ended, Wakes, serve_connection};
use shared_multiplexer::SharedMultiplexer;
use shared_session::HeldSession;
use shared_store::{Caller, SharedStore};
use std::sync::Wait;
use store_name::{StoreName, StorePass};
use timed_link::{Clock, TimedLink};

/// Why a connection over a link that a heart watches is served no longer.
#[derive(Clone, Copy, Debug, PartialEq, Eq)]
pub enum TimedEnd {
    /// It ended as it may without a heart.
    Ended(Ended),
    /// No text came behind the `ping` of the moment `pinged`, up to the moment `now`.
    Timeout { pinged: u64, now: u64 },
}

// What an end of serving comes to.
#[tactic(auto, using(crate::proofs::Watched::comes_to_timeout))]
fn comes_to(end: Ended, given_up: Option<(u64, u64)>) -> TimedEnd
    ensures { result ≡ comes_to end given_up }
{
    match given_up {
        None => TimedEnd::Ended(end),
        Some((pinged, now)) => match end {
            Ended::Memory => TimedEnd::Ended(Ended::Memory),
            _ => TimedEnd::Timeout { pinged, now },
        },
    }
}

// The session is closed at a timeout.
fn leave<N: StoreName>(session: &mut HeldSession<N>, end: TimedEnd)
    ensures { IsLeft end session.old session.new }
{
    match end {
        TimedEnd::Ended(_) => {}
        TimedEnd::Timeout { .. } => session.close(),
    }
}

/// Serves a link that a heart watches, as `serve_connection` serves any link. Where the heart gives the peer up, that is the end, and the
/// session is closed.
pub fn serve_connection_timed<R: Wait, N: StoreName, L: Link, C: Clock, W: Wakes>(
    rt: &R,
    store: &SharedStore<N>,
    multiplexer: &SharedMultiplexer<N>,
    wake: &W,
    pass: &mut StorePass<N>,
    caller: &mut Caller<N>,
    session: &mut HeldSession<N>,
    link: &mut TimedLink<L, C>,
) -> TimedEnd
    requires new { IsNew N.app caller.old session.old }
    requires fresh { IsFresh link.old.watch }
    ensures serves { ServesTimed L.steps C.told L.faults N.app link.old link.new caller.new pass.new session.new result }
    ensures goes_on { GoesOn caller.old caller.new pass.old pass.new }
{
    let end = serve_connection(rt, store, multiplexer, wake, pass, caller, session, link);
    let timed = comes_to(end, link.given_up());
    leave(session, timed);
    timed
}
