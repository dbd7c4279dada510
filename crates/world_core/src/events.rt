//! What happens.
ghost use Rattle.std.specs.Prelude.{◌≡◌, Some};
ghost use Rattle.world_core.specs.world_model.declared.events.Event.TheVariants as happening;
ghost use Rattle.world_core.specs.world_model.Events.{act_by, IsEvent};
ghost use Rattle.world_core.specs.history_model.Operations.{operation_in};
ghost use Rattle.world_core.specs.history_log.Entries.{told_operation};
ghost use Rattle.world_laws.specs.World.{as_world, IsWorld};
ghost use Rattle.world_core.specs.Kept.{seen};
ghost use Rattle.world_core.specs.Happening.{Happens, actor, asked_one};

use crate::inside::Inside;
use crate::opening::open;
use crate::printing::{history, journal, show, store};
use crate::rounds::settle;
use crate::store_machine::AdminFault;
use crate::world_model::{Act, Event};
use crate::{Hands, Printed};
use collection_store::Op;
use ejson_value::{Items, Mem, Text};
use lanes::Lanes;

// The act of the client that the event names, if it names one.
fn act_named(inside: &Inside, client: &Text, event: &Event) -> Option<Act>
    requires { IsWorld (seen inside.now) }
    ensures { result ≡ act_by (as_world (seen inside.now)) client.now event.now }
{
    let length = inside.machine.length();
    match inside.conns.get(client) {
        Some(connection) => connection.named(length, event),
        None => None,
    }
}

// The client makes the act that the event names.
fn act(inside: &mut Inside, client: &Text, event: &Event) -> Result<Printed, Mem>
    requires world { IsWorld (seen inside.old) }
    requires acts { actor event.now ≡ Some client.now }
    ensures { Happens (seen inside.old) event.now (seen inside.new) result }
{
    let Some(act) = act_named(inside, client, event) else {
        return Ok(Printed::asked(false));
    };
    inside.busy.put(client)?;
    match inside.conns.get_mut(client) {
        Some(connection) => {
            let (answer, refusal) = connection.act(&mut inside.machine, &mut inside.heard, act)?;
            Ok(Printed::told(answer, refusal))
        }
        None => Ok(Printed::asked(false)),
    }
}

// The client is asked for what the event says.
fn ask(inside: &mut Inside, client: &Text, event: &Event) -> Result<Printed, Mem>
    requires world { IsWorld (seen inside.old) }
    requires good { IsEvent event.now }
    requires asks { asked_one event.now ≡ Some client.now }
    ensures { Happens (seen inside.old) event.now (seen inside.new) result }
{
    inside.busy.put(client)?;
    match inside.conns.get_mut(client) {
        Some(connection) => {
            let done = connection.ask(event)?;
            Ok(Printed::asked(done))
        }
        None => Ok(Printed::asked(false)),
    }
}

// The client is gone.
fn leave(inside: &mut Inside, client: &Text, event: &Event) -> Result<Printed, Mem>
    requires world { IsWorld (seen inside.old) }
    requires drops { event.now ≡ happening.Drop client.now }
    ensures { Happens (seen inside.old) event.now (seen inside.new) result }
{
    inside.busy.put(client)?;
    let Some(connection) = inside.conns.get_mut(client) else {
        return Ok(Printed::asked(false));
    };
    let done = connection.ask(event)?;
    if !done {
        return Ok(Printed::asked(false));
    }
    inside.present.remove(client);
    Ok(Printed::asked(true))
}

// An administrator's operation is made, or refused.
fn admin(inside: &mut Inside, op: &Items) -> Result<Printed, Mem>
    requires world { IsWorld (seen inside.old) }
    requires good { IsEvent (happening.Admin op.now) }
    ensures { Happens (seen inside.old) (happening.Admin op.now) (seen inside.new) result }
{
    match inside.machine.admin(op) {
        Ok(()) => Ok(Printed::asked(true)),
        Err(AdminFault::Refused { code }) => Ok(Printed::refused(code)),
        Err(AdminFault::Memory) => Err(Mem),
    }
}

/// The administrator's operation that the text tells of is made, or refused.
pub(crate) fn admin_told(inside: &mut Inside, text: &Text, operation: &Op) -> Result<Printed, Mem>
    requires world { IsWorld (seen inside.old) }
    requires reads { operation_in (told_operation text.now) ≡ Some operation.now }
    requires good { IsEvent (happening.Admin (told_operation text.now)) }
    ensures { Happens (seen inside.old) (happening.Admin (told_operation text.now)) (seen inside.new) result }
{
    match inside.machine.admin_told(text, operation) {
        Ok(()) => Ok(Printed::asked(true)),
        Err(AdminFault::Refused { code, .. }) => Ok(Printed::refused(code)),
        Err(AdminFault::Memory) => Err(Mem),
    }
}

// The world settles.
fn settle_unprinted<H: Hands>(hands: &H, inside: &mut Inside) -> Result<Printed, Mem>
    requires ready { H.ready }
    requires world { IsWorld (seen inside.old) }
    ensures { Happens (seen inside.old) happening.Settle (seen inside.new) result }
{
    settle(hands, inside)?;
    Ok(Printed::asked(true))
}

/// The event happens.
pub(crate) fn happen<H: Hands>(
    hands: &H,
    inside: &mut Inside,
    event: &Event,
) -> Result<Printed, Mem>
    requires ready { H.ready }
    requires world { IsWorld (seen inside.old) }
    requires good { IsEvent event.now }
    ensures { Happens (seen inside.old) event.now (seen inside.new) result }
{
    match event {
        Event::Client { name } => open(inside, name),
        Event::Sub { client, .. } => ask(inside, client, event),
        Event::Unsub { client, .. } => ask(inside, client, event),
        Event::Call { client, .. } => ask(inside, client, event),
        Event::Raw { client, .. } => ask(inside, client, event),
        Event::Drop { client } => leave(inside, client, event),
        Event::Do { client, .. } => act(inside, client, event),
        Event::Step { client, .. } => act(inside, client, event),
        Event::Learn { client, .. } => act(inside, client, event),
        Event::Load { client, .. } => act(inside, client, event),
        Event::Advance { client, .. } => act(inside, client, event),
        Event::Admin { op } => admin(inside, op),
        Event::Settle => settle_unprinted(hands, inside),
        Event::Show { client } => show(inside, client),
        Event::Journal { client } => journal(inside, client),
        Event::Store => store(hands, inside),
        Event::History => history(inside),
    }
}
