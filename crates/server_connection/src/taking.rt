//! Texts on their way to the session.
ghost use Rattle.std.specs.Prelude.{◌≡◌, None, IfErr};
ghost use Rattle.shared_session.specs.Held.{StandsFor};
ghost use Rattle.shared_session.specs.Events.{Keeps};
ghost use Rattle.server_connection.specs.Serving.{TakesIn, TakesAgain};
ghost use Rattle.server_connection.specs.Looks.{Stays, StopsEvent, end_by};

use crate::desk::Desk;
use crate::ended::Ended;
use ejson_value::Text;
use session_laws::EventFault;
use shared_session::HeldSession;
use store_name::StoreName;

/// What comes of an event of the session: one that was refused for another cause is made again later.
pub(crate) fn done(outcome: Result<(), EventFault>) -> Result<(), Ended>
    ensures { result ≡ end_by outcome }
{
    match outcome {
        Ok(()) | Err(EventFault::Idle | EventFault::QueueFull) => Ok(()),
        Err(EventFault::JournalFull) => Err(Ended::JournalFull),
        Err(EventFault::Memory) => Err(Ended::Memory),
    }
}

/// The session takes the text, or it is held.
pub(crate) fn take_in<N: StoreName>(
    session: &mut HeldSession<N>,
    desk: &mut Desk,
    text: Text,
) -> Result<(), Ended>
    requires { desk.old.held ≡ None }
    ensures takes { TakesIn StandsFor text session.old session.new desk.new.held }
    ensures same { desk.new ≡ record desk.old { held = desk.new.held } }
    ensures stays { Stays session.old session.new }
    ensures cause { IfErr result (StopsEvent session.new.session) }
{
    match session.take(&text) {
        Ok(()) => Ok(()),
        Err(fault) => {
            desk.held = Some(text);
            done(Err(fault))
        }
    }
}

/// The session takes the text that is held, or it is held still.
pub(crate) fn take_held<N: StoreName>(
    session: &mut HeldSession<N>,
    desk: &mut Desk,
) -> Result<(), Ended>
    ensures takes { TakesAgain StandsFor desk.old.held session.old session.new desk.new.held }
    ensures same { desk.new ≡ record desk.old { held = desk.new.held } }
    ensures stays { Stays session.old session.new }
    ensures cause { IfErr result (StopsEvent session.new.session) }
{
    match desk.held.take() {
        Some(text) => take_in(session, desk, text),
        None => Ok(()),
    }
}

/// The session handles the message that came first, unless a call blocks.
pub(crate) fn handle<N: StoreName>(session: &mut HeldSession<N>) -> Result<(), Ended>
    ensures keeps { Keeps session.old session.new }
    ensures stays { Stays session.old session.new }
    ensures cause { IfErr result (StopsEvent session.new.session) }
{
    done(session.handle())
}
