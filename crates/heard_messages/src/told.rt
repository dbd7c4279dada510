//! A text with what it tells.
ghost use Rattle.std.specs.Prelude.{◌≡◌, ◌↔◌, ◌≤◌, length, Ok, IfOk, IsTrue};
ghost use Rattle.ddp_messages.specs.ServerMessage.{about, server_view};
ghost use Rattle.ddp_messages.specs.Answers.{server_answer};

use ddp_messages::FromServer;
use ejson_value::{DataMsg, Mem, Text};
use std::marker::Model;

/// How many bytes a text may have that is kept.
pub(crate) const MAX_BYTES: usize = 4_096;

/// A text of a server and the message about a document that it reads as. A contract sees the text.
#[derive(Drop)]
pub(crate) struct Told {
    text: Text,
    message: DataMsg,
}

impl Model for Told {
    ghost use Rattle.std.specs.Prelude.{◌≡◌, ◌≤◌, List, ℕ, length, Ok};
    ghost use Rattle.ddp_messages.specs.ServerMessage.{about};
    ghost use Rattle.ddp_messages.specs.Answers.{server_answer};
    ghost use Rattle.heard_messages.specs.declared.told.TheConstants.{MAX_BYTES};

    ghost Value = { List ℕ };

    ghost view = { λ a. a.text };

    ghost invariant = { λ a. (length a.text ≤ MAX_BYTES) × (server_answer a.text ≡ Ok (about a.message)) };
}

impl Told {
    pub(crate) fn of(text: &Text, message: &DataMsg) -> Result<Told, Mem>
        requires short { length text.now ≤ MAX_BYTES }
        requires reads { server_answer text.now ≡ Ok (about message.now) }
        ensures { IfOk result (λ told. told ≡ text.now) }
    {
        let text = text.copy()?;
        Ok(Told {
            text,
            message: message.copy()?,
        })
    }

    pub(crate) fn is_of(&self, text: &Text) -> bool
        ensures { IsTrue result ↔ (self.now ≡ text.now) }
    {
        self.text == *text
    }

    /// What the text reads as.
    pub(crate) fn message(&self) -> Result<FromServer, Mem>
        ensures { IfOk result (λ message. server_answer self.now ≡ Ok (server_view message)) }
    {
        Ok(FromServer::Data(self.message.copy()?))
    }
}
