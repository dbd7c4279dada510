//! A client that goes on with a new session when its link was lost, as contracts see it: what it says again, what it holds back,
//! and what its client is given.
//!
//! There is no code here: each function is a law of the definitions, which its contract states.
#![tactic(auto)]

ghost use Rattle.std.specs.Prelude.{ℕ, List};
ghost use Rattle.reconnect_model.specs.Revival.{Revival, new_revival};
ghost use Rattle.reconnect_model.specs.Saying.{queues, loses, says};
ghost use Rattle.reconnect_model.specs.Giving.{hears};
ghost use Rattle.reconnect_model.specs.RevivalLaws.{IsShown};

/// Whatever a client queues, says, hears and loses: while its epoch is revived, the documents that it was given are those that the
/// present session sent.
pub fn revived_clients_have_what_the_session_sent()
    ensures new { IsShown new_revival }
    ensures queues { (r : Revival) (text : List ℕ) → IsShown r → IsShown (queues r text) }
    ensures says { (r : Revival) → IsShown r → IsShown (says r) }
    ensures loses { (r : Revival) → IsShown r → IsShown (loses r) }
    ensures hears { (r : Revival) (text : List ℕ) → IsShown r → IsShown (hears r text).revival }
{}
