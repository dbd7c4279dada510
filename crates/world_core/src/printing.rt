//! What is printed of a world.
ghost use Rattle.std.specs.Prelude.{◌≡◌, IfOk};
ghost use Rattle.world_core.specs.world_model.declared.events.Event.TheVariants as event;
ghost use Rattle.world_core.specs.world_model.Lines.{lines_of};
ghost use Rattle.world_laws.specs.World.{as_world, IsWorld};
ghost use Rattle.world_core.specs.Kept.{seen};

use crate::inside::Inside;
use crate::{Hands, Printed};
use ejson_value::{Mem, Text};
use lanes::Lanes;

/// What the client has.
pub(crate) fn show(inside: &Inside, client: &Text) -> Result<Printed, Mem>
    requires { IsWorld (seen inside.now) }
    ensures { IfOk result (λ printed. printed ≡ lines_of (as_world (seen inside.now)) (event.Show client.now)) }
{
    match inside.conns.get(client) {
        Some(connection) => Ok(Printed::of(connection.show_lines()?)),
        None => Ok(Printed::asked(false)),
    }
}

/// What the client's session did.
pub(crate) fn journal(inside: &Inside, client: &Text) -> Result<Printed, Mem>
    requires { IsWorld (seen inside.now) }
    ensures { IfOk result (λ printed. printed ≡ lines_of (as_world (seen inside.now)) (event.Journal client.now)) }
{
    match inside.conns.get(client) {
        Some(connection) => Ok(Printed::of(connection.journal_lines()?)),
        None => Ok(Printed::asked(false)),
    }
}

/// The documents of the store.
pub(crate) fn store<H: Hands>(hands: &H, inside: &Inside) -> Result<Printed, Mem>
    requires { H.ready }
    ensures { IfOk result (λ printed. printed ≡ lines_of (as_world (seen inside.now)) event.Store) }
{
    Ok(Printed::of(hands.store_lines(inside.alloc, &inside.machine)?))
}

/// The entries of its history.
pub(crate) fn history(inside: &Inside) -> Result<Printed, Mem>
    ensures { IfOk result (λ printed. printed ≡ lines_of (as_world (seen inside.now)) event.History) }
{
    Ok(Printed::of(inside.machine.history_lines()?))
}
