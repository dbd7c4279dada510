//! What a client has that comes back after a lost link: while its epoch is revived, the documents that the present session sent.
//!
//! There is no code here: each function is a law of the definitions, which its contract states.
#![tactic(auto)]

ghost use Rattle.std.specs.Prelude.{◌≡◌, ◌≤◌, ℕ, List, true, None};
ghost use Rattle.client_model.specs.Client.{Client, new_client};
ghost use Rattle.client_model.specs.Asking.{can_take};
ghost use Rattle.reconnect_model.specs.Revival.{Revival, new_revival};
ghost use Rattle.reconnect_model.specs.Saying.{queues, says, loses};
ghost use Rattle.reconnect_model.specs.Giving.{hears};
ghost use Rattle.reconnect_model.specs.History.{History, to_say};
ghost use Rattle.reconnect_laws.specs.Given.{all_given};
ghost use Rattle.reconnect_laws.specs.Kept.{IsFaithful};
ghost use Rattle.reconnect_laws.specs.Once.{calls_in, queued_in};

/// A client that is given the texts of a revival one by one is faithful to it, whatever it queues, says, hears and loses and
/// whatever else it does that leaves its copy of the server's documents, as long as it refuses none of the texts.
pub fn revived_clients_are_faithful()
    ensures new { IsFaithful new_client new_revival }
    ensures same { (c d : Client) (r : Revival) → d.documents.server ≡ c.documents.server → IsFaithful c r → IsFaithful d r }
    ensures queues { (c : Client) (r : Revival) (text : List ℕ) → IsFaithful c r → IsFaithful c (queues r text) }
    ensures says { (c : Client) (r : Revival) → IsFaithful c r → IsFaithful c (says r) }
    ensures loses { (c : Client) (r : Revival) → IsFaithful c r → IsFaithful c (loses r) }
    ensures hears { (c : Client) (r : Revival) (text : List ℕ) → can_take c ≡ true → (all_given (hears r text).texts c).broken ≡ None →
        IsFaithful c r → IsFaithful (all_given (hears r text).texts c) (hears r text).revival }
{}

/// While its epoch is revived, a faithful client's copy of the server's documents is what the present session sent.
pub fn faithful_clients_have_what_the_session_sent()
    ensures { (c : Client) (r : Revival) → IsFaithful c r → r.is_revived ≡ true → c.documents.server ≡ r.copy }
{}

/// What is to be said since the last loss calls no method more often than the client queued it: so a new session is told each method
/// once, that was queued once.
pub fn methods_are_said_again_once()
    ensures { (past : History) (id : List ℕ) → calls_in id (to_say past) ≤ queued_in id past }
{}
