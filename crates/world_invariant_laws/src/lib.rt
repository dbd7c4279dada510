//! Laws of the whole world: what is so of each client with its session, and of the store's history, in every world that
//! events lead to. There is no code here: each function is a law of the definitions of `world_model`, which its contract
//! states.
#![tactic(auto)]

ghost use Rattle.std.specs.Prelude.{◌≡◌, ℕ, ◌≤◌, ◌++◌, List, length, Some, IfSome};
ghost use Rattle.program_steps.specs.declared.outcome.Status.{Status};
ghost use Rattle.program_steps.specs.Runs.{End};
ghost use Rattle.app_model.specs.App.{App};
ghost use Rattle.world_model.specs.history_model.declared.entry.Entry.{Entry};
ghost use Rattle.world_model.specs.history_model.History.{Programs, status_at, IsLegal};
ghost use Rattle.world_model.specs.session_model.Kept.{AreKept};
ghost use Rattle.world_model.specs.declared.events.Event.{Event};
ghost use Rattle.world_model.specs.Store.{programs, moments};
ghost use Rattle.world_model.specs.Conn.{Conn};
ghost use Rattle.world_model.specs.World.{start, conn_of};
ghost use Rattle.world_model.specs.Events.{run, AreEvents};
ghost use Rattle.world_model.specs.Headline.{IsTrueSession, IsQuiescent, IsWhole};
ghost use Rattle.world_invariant_laws.specs.Links.{IsLinked};

pub use world_model;

/// The store's history is legal in every world that events lead to.
pub fn histories_of_worlds_are_legal()
    ensures { (app : App) (events : List Event) → AreEvents events →
        IsLegal (programs (run (start app) events).app) (run (start app) events).history }
{}

/// In every such world each session's journal fits the history and answers the texts that it took, its texts are on their
/// way in order, its calls are those that the history begins, and its client has what the texts that it took say.
pub fn clients_are_linked_with_their_sessions()
    ensures { (app : App) (events : List Event) → AreEvents events → (name : List ℕ) →
        IfSome (conn_of (run (start app) events) name) (IsLinked (run (start app) events).app (run (start app) events).history) }
{}

/// Each session is true to the history: its calls are begun once, its requests have the answers that are due so far, and its
/// journal is short.
pub fn sessions_are_true()
    ensures { (app : App) (history : List Entry) (c : Conn) → IsLinked app history c → IsTrueSession app history c }
{}

/// A quiescent session is whole, where the store has what messages can say.
pub fn quiescent_sessions_are_whole()
    ensures { (app : App) (history : List Entry) (c : Conn) → IsLinked app history c → IsQuiescent history c → AreKept (moments app c.number history) →
        IsWhole app history c }
{}

/// A run that has ended at some place of a history had done so, and so, at the place that its end names.
pub fn runs_end_where_they_say()
    ensures { (app : Programs) (history : List Entry) (place session k : ℕ) (status : Status) (end : End) →
        status_at app history place session k ≡ Some status →
        status.ended ≡ Some end → (end.at ≤ length history) × (status_at app history end.at session k ≡ Some status) }
{}
