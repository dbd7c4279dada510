//! Whether anything is left to be done.
ghost use Rattle.std.specs.Prelude.{◌≡◌, true, map, IfOk};
ghost use Rattle.session_state.specs.Subs.{as_live};
ghost use Rattle.server_connection.specs.AtRest.{is_at, are_at, IsIdle};

use ejson_value::Mem;
use session_state::Sub;
use shared_session::HeldSession;
use store_name::StoreName;

fn is_at(cursor: Option<u64>, place: u64) -> bool
    ensures { result ≡ is_at place cursor }
{
    match cursor {
        Some(cursor) => cursor == place,
        None => false,
    }
}

// Whether each subscription shows this place.
fn are_at(subs: &[Sub], place: u64) -> bool
    ensures { result ≡ are_at place (map as_live subs.now) }
{
    for sub in subs {
        if !is_at(sub.cursor, place) {
            return false;
        }
    }
    true
}

/// Whether nothing is left to be done for the session, whose subscriptions show this place.
pub(crate) fn is_idle<N: StoreName>(session: &HeldSession<N>, place: u64) -> Result<bool, Mem>
    ensures { IfOk result (λ idle. idle ≡ true → IsIdle place session.now.session) }
{
    if session.waiting() > 0 || session.blocking().is_some() {
        return Ok(false);
    }
    let running = session.running()?;
    Ok(running.is_empty() && are_at(session.subs(), place))
}
