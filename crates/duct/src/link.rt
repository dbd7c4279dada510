ghost use Rattle.std.specs.Prelude.{◌≡◌, ℕ, Option, IfSome, IfErr, OnOk, ⊤};
ghost use Rattle.duct.specs.Calls.{Call, heard, sending};
ghost use Rattle.duct.specs.Told.{Told, CountsFaults};
ghost use Rattle.duct.specs.Polls.{Polls, poll_failed};
ghost use Rattle.duct.specs.Sends.{Sends, send_failed};

use ejson_value::{Mem, Text};
use thiserror::Error;

/// What one poll of a link gives.
#[derive(Debug, Drop)]
pub enum Polled {
    /// The oldest text that waited.
    Message(Text),
    /// No text waits now; one may come later.
    Quiet,
    /// No text waits, and none will come.
    Closed,
    /// The call failed.
    Failed,
    /// Memory was refused, and the link is as it was.
    Memory,
}

/// Why a text wasn't sent.
#[derive(Clone, Copy, Debug, PartialEq, Eq, Error)]
pub enum SendFault {
    #[error("too many texts wait to be taken")]
    Full,
    #[error("the peer has closed")]
    Closed,
    #[error("the call failed")]
    Failed,
    #[error("out of memory")]
    Memory,
}

/// By which another thread can end the wait of a link's `poll`. Nothing is promised of it: a `poll` ends without it too.
pub trait Bell {
    fn ring(&self);
}

/// The bell of a link whose `poll` never waits.
#[derive(Clone, Copy, Debug, Drop)]
pub struct NoBell;

impl Bell for NoBell {
    fn ring(&self) {}
}

/// One end of what carries texts between two peers, in order, each way.
pub trait Link {
    type Bell: Bell + Send + Drop + 'static;

    // What is known of the link, if it tells.
    ghost told: { Self → Option Told };

    // How many calls have failed.
    ghost faults: { Self → ℕ };

    // What one call makes of it; a link may say nothing here.
    ghost steps: { Self → Call → Self → Type 0 } = { λ _ _ _. ⊤ };

    /// Takes the oldest text that waits. It never waits long for one.
    fn poll(&mut self) -> Polled
        ensures told { IfSome (told self.old) (λ before. Polls before result (told self.new)) }
        ensures made { steps self.old (heard result) self.new }
        ensures faults { CountsFaults (poll_failed result) (faults self.old) (faults self.new) };

    /// Sends a text, or hands it back. It never waits long for a place.
    fn send(&mut self, text: Text) -> Result<(), (Text, SendFault)>
        ensures told { IfSome (told self.old) (λ before. Sends before text result (told self.new)) }
        ensures made { steps self.old (sending text result) self.new }
        ensures back { IfErr result (λ refused. refused.0 ≡ text) }
        ensures sound { OnOk result (faults self.new ≡ faults self.old) }
        ensures faults { IfErr result (λ refused. CountsFaults (send_failed refused.1) (faults self.old) (faults self.new)) };

    /// A bell of this link, for another thread.
    fn bell(&self) -> Result<Self::Bell, Mem>;
}
