//! Clients that begin.
ghost use Rattle.std.specs.Prelude.{◌≡◌, OnOk, OnErr, None, is_some};
ghost use Rattle.std.specs.BTreeMap.{insert_entry};
ghost use Rattle.map_model.specs.Maps.{at};
ghost use Rattle.value_model.specs.Order.{text_cmp};
ghost use Rattle.world_core.specs.world_model.declared.events.Event.TheVariants as event;
ghost use Rattle.world_core.specs.world_model.World.{can_open};
ghost use Rattle.world_laws.specs.World.{as_world, connection_of, IsWorld};
ghost use Rattle.world_core.specs.connection_laws.Connection.{new_connection};
ghost use Rattle.world_core.specs.Kept.{seen};
ghost use Rattle.world_core.specs.Happening.{Happens, Begins};

use crate::inside::Inside;
use crate::store_machine::Machine;
use crate::{Clients, Connection, Printed};
use ejson_value::{Mem, Text};
use lanes::Lanes;
use std::alloc::Global;

/// How many clients may be there at once.
const CLIENT_LIMIT: usize = 128;

// Whether there is or was a client of this name.
fn is_there(inside: &Inside, name: &Text) -> bool
    ensures { result ≡ is_some (connection_of (seen inside.now) name.now) }
{
    match inside.conns.get(name) {
        Some(_) => true,
        None => false,
    }
}

// Whether a client of this name may begin.
fn can_open(inside: &Inside, name: &Text) -> bool
    requires { IsWorld (seen inside.now) }
    ensures { result ≡ can_open (as_world (seen inside.now)) name.now }
{
    !is_there(inside, name) && inside.present.len() < CLIENT_LIMIT
}

// A client at its beginning, with this number, stands among the others.
fn add(
    alloc: Global,
    machine: &Machine,
    conns: &mut Clients,
    name: &Text,
    number: u32,
) -> Result<(), Mem>
    requires { at text_cmp conns.old name.now ≡ None }
    ensures ok { OnOk result (conns.new ≡ insert_entry text_cmp conns.old name.now (new_connection machine.now.app name.now number)) }
    ensures err { OnErr result (conns.new ≡ conns.old) }
{
    let key = name.copy()?;
    let connection = Connection::new(alloc, machine.app(), name, number)?;
    conns.put(key, connection)
}

// The client begins, with the next number, and has something to do. Where memory runs out, none is there
// that wasn't.
fn begin(inside: &mut Inside, name: &Text, number: u32) -> Result<(), Mem>
    requires world { IsWorld (seen inside.old) }
    requires none { connection_of (seen inside.old) name.now ≡ None }
    ensures { Begins (seen inside.old) name.now number (seen inside.new) result }
{
    inside.busy.put(name)?;
    inside.present.put(name)?;
    match add(
        inside.alloc,
        &inside.machine,
        &mut inside.conns,
        name,
        number,
    ) {
        Ok(()) => {
            inside.opened = number;
            Ok(())
        }
        Err(mem) => {
            inside.present.remove(name);
            Err(mem)
        }
    }
}

/// A client of this name begins, if one may.
pub(crate) fn open(inside: &mut Inside, name: &Text) -> Result<Printed, Mem>
    requires { IsWorld (seen inside.old) }
    ensures { Happens (seen inside.old) (event.Client name.now) (seen inside.new) result }
{
    if !can_open(inside, name) {
        return Ok(Printed::asked(false));
    }
    let Some(number) = inside.opened.checked_add(1) else {
        return Err(Mem);
    };
    begin(inside, name, number)?;
    Ok(Printed::asked(true))
}
