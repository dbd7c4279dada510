//! A client that goes on with a new session when its link was lost: what it says again, what it holds back until the new session
//! has answered all of it, and what its client is given then.
#![tactic(auto)]

ghost use Rattle.std.specs.Prelude.{◌≡◌, ◌++◌};
ghost use Rattle.reconnect_model.specs.History.{History, revival_of, said_in, to_say};
ghost use Rattle.reconnect.specs.HistoryLaws.{said_and_waiting};

mod reviver;

pub use reconnect_parts::fault::HeardFault;
pub use reconnect_parts::texts::Texts;
pub use reviver::Reviver;

/// What was said since the last loss, and what waits, are the texts that were to be said since then.
pub fn revivers_say_what_is_to_be_said()
    ensures { (past : History) → said_in past ++ (revival_of past).waiting ≡ to_say past }
{}
