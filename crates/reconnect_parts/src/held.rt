//! Texts that are held.
ghost use Rattle.std.specs.Prelude.{◌≡◌, Ok};
ghost use Rattle.ddp_messages.specs.ServerMessage.{server_view};
ghost use Rattle.ddp_messages.specs.Answers.{server_answer};

use ddp_messages::FromServer;
use ejson_value::Text;
use std::marker::Model;

/// A text of a server, with the message that it reads as. A contract sees the text.
#[derive(Drop)]
pub struct HeldText {
    text: Text,
    message: FromServer,
}

impl Model for HeldText {
    ghost use Rattle.std.specs.Prelude.{◌≡◌, List, ℕ, Ok};
    ghost use Rattle.ddp_messages.specs.ServerMessage.{server_view};
    ghost use Rattle.ddp_messages.specs.Answers.{server_answer};

    ghost Value = { List ℕ };

    ghost view = { λ a. a.text };

    ghost invariant = { λ a. server_answer a.text ≡ Ok (server_view a.message) };
}

impl HeldText {
    pub fn of(text: Text, message: FromServer) -> HeldText
        requires { server_answer text ≡ Ok (server_view message) }
        ensures { result ≡ text }
    {
        HeldText { text, message }
    }

    pub fn text(&self) -> &Text
        ensures { result.now ≡ self.now }
    {
        &self.text
    }

    /// What the text reads as.
    pub fn message(&self) -> &FromServer
        ensures { server_answer self.now ≡ Ok (server_view result.now) }
    {
        &self.message
    }
}
