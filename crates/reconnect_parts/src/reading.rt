//! Reading texts.
ghost use Rattle.reconnect_parts.specs.Taking.{IsRead};
ghost use Rattle.std.specs.Prelude.{IfOk};
ghost use Rattle.reconnect_parts.specs.Asking.{IsAskedFor};

use crate::fault::HeardFault;
use ddp_messages::{FromClient, FromServer, MsgFault};
use ejson_value::{Mem, Text};
use json::Scratch;
use std::alloc::Global;

/// How many bytes a text of a server may have.
const MAX_SERVER_TEXT: usize = 4_194_304;

/// What the server's text reads as.
pub fn from_server(
    alloc: Global,
    text: &Text,
    scratch: &mut Scratch,
) -> Result<FromServer, HeardFault>
    ensures { IsRead text.now result }
{
    if text.len() > MAX_SERVER_TEXT {
        return Err(HeardFault::ServerSent(1));
    }
    match FromServer::read_in(alloc, text, scratch) {
        Ok(message) => Ok(message),
        Err(MsgFault::Parse) => Err(HeardFault::ServerSent(1)),
        Err(MsgFault::BadRequest { .. }) => Err(HeardFault::ServerSent(2)),
        Err(MsgFault::Memory) => Err(HeardFault::Memory),
    }
}

/// What the client's text reads as, None where it is no message.
pub fn from_client(
    alloc: Global,
    text: &Text,
    scratch: &mut Scratch,
) -> Result<Option<FromClient>, Mem>
    ensures { IfOk result (IsAskedFor text.now) }
{
    match FromClient::read_in(alloc, text, scratch) {
        Ok(message) => Ok(Some(message)),
        Err(MsgFault::Memory) => Err(Mem),
        Err(MsgFault::Parse | MsgFault::BadRequest { .. }) => Ok(None),
    }
}
