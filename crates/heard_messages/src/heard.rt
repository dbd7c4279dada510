//! What was heard.
ghost use Rattle.std.specs.Prelude.{◌≡◌, ◌≤◌, length, Ok, IfOk, IfSome};
ghost use Rattle.ddp_messages.specs.ServerMessage.{ServerMessage, about, server_view};
ghost use Rattle.ddp_messages.specs.Answers.{IsServerText, server_answer, GivesMessage};

use crate::places::{make_places, place_of, put};
use crate::told::{MAX_BYTES, Told};
use ddp_messages::{FromServer, MsgFault};
use ejson_value::{DataMsg, Mem, Text};
use json::Scratch;
use std::alloc::Global;
use std::marker::Model;

/// Texts of servers that were read, each with the message about a document that it is: the last ones,
/// 1,024 at most, of at most 4,096 bytes each. A contract sees nothing of it: whatever was read, a text
/// reads as what it is.
pub struct Heard {
    alloc: Global,
    // A text stands at its place, until another comes there.
    places: Vec<Option<Told>>,
}

// A `derive` would have each crate that lets one go prove anew how all that it holds is let go.
impl Drop for Heard {
    fn drop(self) {
        let Heard { alloc: _, places } = self;
        drop(places);
    }
}

impl Model for Heard {
    ghost use Rattle.std.specs.Prelude.{◌≤◌, vec_len};
    ghost use Rattle.heard_messages.specs.declared.places.TheConstants.{PLACES};

    ghost Value = { Unit {0} };

    ghost view = { λ a. tt };

    ghost invariant = { λ a. vec_len a.places ≤ PLACES };
}

impl Heard {
    /// Nothing was read yet.
    pub fn new(alloc: Global) -> Heard {
        Heard {
            alloc,
            places: Vec::new(alloc),
        }
    }

    // What the text reads as, where it stands at this place.
    fn told(&self, place: usize, text: &Text) -> Result<Option<FromServer>, Mem>
        ensures { IfOk result (λ found. IfSome found (λ message. server_answer text.now ≡ Ok (server_view message))) }
    {
        match self.places.get(place) {
            Some(Some(told)) if told.is_of(text) => Ok(Some(told.message()?)),
            _ => Ok(None),
        }
    }

    // Puts the text at this place, with the message that it reads as.
    fn keep(&mut self, place: usize, text: &Text, message: &DataMsg) -> Result<(), Mem>
        requires short { length text.now ≤ MAX_BYTES }
        requires reads { server_answer text.now ≡ Ok (about message.now) }
    {
        make_places(&mut self.places)?;
        let told = Told::of(text, message)?;
        put(&mut self.places, place, told);
        Ok(())
    }

    // Keeps what the text was read as, where it is about a document and there is memory for it.
    fn keep_message(&mut self, place: usize, text: &Text, message: &FromServer)
        requires short { length text.now ≤ MAX_BYTES }
        requires reads { server_answer text.now ≡ Ok (server_view message.now) }
    {
        if let FromServer::Data(message) = message {
            drop(self.keep(place, text, message));
        }
    }

    // Reads the text, and keeps what it is read as.
    fn read_anew(
        &mut self,
        place: usize,
        text: &Text,
        scratch: &mut Scratch,
    ) -> Result<FromServer, MsgFault>
        requires { length text.now ≤ MAX_BYTES }
        ensures { GivesMessage server_view result (server_answer text.now) }
    {
        let message = FromServer::read_in(self.alloc, text, scratch)?;
        self.keep_message(place, text, &message);
        Ok(message)
    }

    // What the text reads as, read now or before.
    fn answer(&mut self, text: &Text, scratch: &mut Scratch) -> Result<FromServer, MsgFault>
        ensures { GivesMessage server_view result (server_answer text.now) }
    {
        if text.len() > MAX_BYTES {
            return FromServer::read_in(self.alloc, text, scratch);
        }
        let place = place_of(text.as_bytes());
        match self.told(place, text)? {
            Some(message) => Ok(message),
            None => self.read_anew(place, text, scratch),
        }
    }

    /// What `FromServer::read_in` reads. A text that is kept is not read again.
    pub fn read(&mut self, text: &Text, scratch: &mut Scratch) -> Result<FromServer, MsgFault>
        ensures found { IfOk result (λ message. IsServerText text.now (server_view message)) }
        ensures only { (message : ServerMessage) → IsServerText text.now message → GivesMessage server_view result (Ok message) }
        ensures exact { GivesMessage server_view result (server_answer text.now) }
    {
        self.answer(text, scratch)
    }
}
