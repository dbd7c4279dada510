//! One look at what is to be done.
ghost use Rattle.std.specs.Prelude.{◌≡◌, IfErr};
ghost use Rattle.server_connection.specs.Looks.{IsServed, Works, StopsLook};

use crate::ended::Ended;
use crate::running::run;
use crate::showing::show;
use crate::taking::handle;
use crate::wakes::Wakes;
use shared_multiplexer::SharedMultiplexer;
use shared_session::HeldSession;
use shared_store::{Caller, SharedStore};
use std::sync::Wait;
use store_name::{StoreName, StorePass};

/// Handles a message, makes a step of each call that runs, and where the link takes texts, shows the subscriptions more.
pub(crate) fn look<R: Wait, N: StoreName, W: Wakes>(
    rt: &R,
    store: &SharedStore<N>,
    multiplexer: &SharedMultiplexer<N>,
    wake: &W,
    pass: &mut StorePass<N>,
    caller: &mut Caller<N>,
    session: &mut HeldSession<N>,
    shows: bool,
) -> Result<(), Ended>
    requires { IsServed N.app caller.old pass.old session.old }
    ensures works { Works N.app caller.old caller.new pass.old pass.new session.old session.new }
    ensures cause { IfErr result (StopsLook caller.new pass.new session.new) }
{
    handle(session)?;
    run(rt, store, wake, pass, caller, session)?;
    if shows {
        show(rt, store, multiplexer, pass, caller, session)?;
    }
    Ok(())
}
