//! Whoever speaks for a client.
ghost use Rattle.std.specs.Prelude.{◌≡◌, true, IfOk};
ghost use Rattle.client_script.specs.Speaking.{Look, Deed, goes_on, Asks, Hears, Says};

use crate::line::Ask;
use ejson_codec::Lines;
use ejson_value::{Mem, Text};

/// What came of a text of the server that was heard.
#[derive(Clone, Copy, Debug, PartialEq, Eq)]
pub enum Heard {
    /// It was taken, and the client goes on.
    Taken,
    /// It was taken, and says that the server doesn't speak the client's version.
    Failed,
    /// It was refused, by the rule of this number.
    Refused(u8),
}

/// Whoever speaks for a client with its server: the client by itself, or one that lives through several links.
pub trait Speaker {
    // What is seen of it.
    ghost look: { Self → Look };

    // What a deed makes of it.
    ghost does: { Self → Deed → Self → Type 0 };

    /// Whether the client is connected.
    fn connected(&self) -> bool
        ensures { result ≡ (look self.now).is_connected };

    /// Whether no subscription and no call of the client waits.
    fn settled(&self) -> bool
        ensures { result ≡ (look self.now).is_settled };

    /// What the client has, in lines.
    fn show_lines(&self) -> Result<Lines, Mem>
        ensures { IfOk result (λ lines. lines ≡ (look self.now).lines) };

    /// Asks for something, and answers whether that could be done.
    fn ask(&mut self, ask: &Ask) -> Result<bool, Mem>
        ensures { Asks look does self.old ask.now self.new result };

    /// Takes a text of the server, or refuses it.
    fn hear(&mut self, text: &Text) -> Result<Heard, Mem>
        requires { goes_on (look self.old) ≡ true }
        ensures { Hears look does self.old text.now self.new result };

    /// Gives the next text that is to be sent, where one waits.
    fn say(&mut self) -> Option<Text>
        ensures { Says look does self.old self.new result };
}
