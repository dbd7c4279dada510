//! What is kept of a client, and its lines.
ghost use Rattle.std.specs.Prelude.{◌≡◌, ℕ, List, ◌++◌};
ghost use Rattle.ejson_value.specs.declared.value.Value.{Value as AValue};
ghost use Rattle.ejson_value.specs.View.{view};
ghost use Rattle.app_model.specs.App.{App};
ghost use Rattle.world_invariant_laws.specs.history_model.declared.entry.Entry.{Entry};
ghost use Rattle.client_model.specs.Lines.{line_texts};
ghost use Rattle.client_core.specs.State.{show_lines};
ghost use Rattle.world_invariant_laws.specs.world_model.Store.{value_of};
ghost use Rattle.world_invariant_laws.specs.world_model.Conn.{new_conn, state_in};
ghost use Rattle.world_invariant_laws.specs.world_model.Lines.{show_values, journal_lines, texts_of};
ghost use Rattle.connection_laws.specs.Connection.{AConnection, new_connection, as_conn, IsConnection};
ghost use Rattle.connection_laws.specs.Printing.{kept_journal};

/// What is kept of a client that begins is the world's new client.
pub fn new_clients_are_kept()
    ensures is { (app : App) (name : List ℕ) (number : ℕ) → as_conn (new_connection app name number) ≡ new_conn number }
    ensures stays { (app : App) (name : List ℕ) (number : ℕ) (history : List Entry) → IsConnection app name history (new_connection app name number) }
{}

/// Later entries of the history keep it.
pub fn later_entries_keep_it()
    ensures { (app : App) (name : List ℕ) (history more : List Entry) (x : AConnection) → IsConnection app name history x →
        IsConnection app name (history ++ more) x }
{}

/// A session's subscriptions and calls are those of its journal.
pub fn sessions_are_seen_as_they_are()
    ensures { (app : App) (name : List ℕ) (history : List Entry) (x : AConnection) → IsConnection app name history x →
        state_in (as_conn x) ≡ x.session.carried.own }
{}

/// A value is made again of what contracts see of it.
pub fn values_are_made_again()
    ensures { (v : AValue) → value_of (view v) ≡ v }
{}

/// A journal's lines are printed from the items, ids and counts that the session keeps, and from the texts that were sent and
/// those that are to be.
pub fn journals_are_printed()
    ensures { (app : App) (name : List ℕ) (history : List Entry) (x : AConnection) → IsConnection app name history x →
        kept_journal x ≡ journal_lines app history (as_conn x) }
{}

/// The lines that a client prints are the world's.
pub fn clients_are_printed()
    ensures { (app : App) (name : List ℕ) (history : List Entry) (x : AConnection) → IsConnection app name history x →
        line_texts (show_lines x.own) ≡ texts_of (show_values name (as_conn x).client) }
{}
