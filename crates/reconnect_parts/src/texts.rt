//! Texts that are said and given.
ghost use Rattle.std.specs.Prelude.{◌≡◌, ◌++◌, ◌∷◌, [], None, IfOk, OnOk};
ghost use Rattle.ddp_messages.specs.ServerMessage as server;
ghost use Rattle.ddp_messages.specs.ServerMessage.{server_view};
ghost use Rattle.ddp_messages.specs.Texts.{server_text};

use ddp_messages::FromServer;
use ejson_value::{ListOf, Mem, Names, Text};
use std::alloc::Global;

/// Texts in order.
pub type Texts = ListOf<Text>;

// The text of the message. It takes the message, so that no caller has to drop one.
fn text_of(alloc: Global, message: FromServer) -> Result<Text, Mem>
    ensures { IfOk result (λ text. text ≡ server_text (server_view message)) }
{
    let text = message.text(alloc);
    drop(message);
    text
}

/// An `updated` that names these methods.
pub fn updated(alloc: Global, methods: Names) -> Result<Text, Mem>
    ensures { IfOk result (λ text. text ≡ server_text (server.updated methods)) }
{
    text_of(alloc, FromServer::Updated { methods })
}

/// The names of this id alone.
pub fn only(alloc: Global, id: &Text) -> Result<Names, Mem>
    ensures { IfOk result (λ ids. ids ≡ id.now ∷ []) }
{
    let mut ids = Names::new(alloc);
    ids.push(id.copy()?)?;
    Ok(ids)
}

/// A `nosub` without an error.
pub fn nosub(alloc: Global, id: &Text) -> Result<Text, Mem>
    ensures { IfOk result (λ text. text ≡ server_text (server.nosub id.now None)) }
{
    let id = id.copy()?;
    text_of(alloc, FromServer::Nosub { id, error: None })
}

/// Puts a copy of the text behind the others.
pub fn push_copy(texts: &mut Texts, text: &Text) -> Result<(), Mem>
    ensures { OnOk result (texts.new ≡ texts.old ++ text.now ∷ []) }
{
    texts.push(text.copy()?)
}
