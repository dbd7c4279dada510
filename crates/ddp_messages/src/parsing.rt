//! From a text to its JSON tree, and a refused tree's fault.
ghost use Rattle.std.specs.Prelude.{◌≡◌, IfOk};
ghost use Rattle.serde_json.specs.Read as json;
ghost use Rattle.serde_json.specs.View.{view as json_view};
ghost use Rattle.ddp_messages.specs.Answers.{GivesMessage, tree_answer};
ghost use Rattle.ddp_messages.specs.Fields.{name_of};
ghost use Rattle.ddp_messages.specs.declared.fault.MsgFault.TheVariants.{BadRequest};

use crate::fault::MsgFault;
use crate::fields::name;
use ejson_value::{Mem, Text};
use serde_json::Value as Json;
use std::alloc::Global;

/// The tree of a text.
pub(crate) fn parsed(alloc: Global, text: &Text) -> Result<Json, MsgFault>
    ensures { GivesMessage json_view result (tree_answer (json.read text.now)) }
{
    match Json::from_str(alloc, text.as_str()) {
        Ok(tree) => Ok(tree),
        Err(error) if error.is_memory() => Err(MsgFault::Memory),
        Err(_) => Err(MsgFault::Parse),
    }
}

/// The fault of a tree that is no message.
pub(crate) fn refusal(alloc: Global, tree: &Json) -> Result<MsgFault, Mem>
    ensures { IfOk result (λ fault. fault ≡ BadRequest (name_of (json_view tree.now))) }
{
    let msg = match name(tree) {
        Some(name) => Some(Text::from_str(alloc, name)?),
        None => None,
    };
    Ok(MsgFault::BadRequest { msg })
}
