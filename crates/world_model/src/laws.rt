//! The laws of the world's definitions.
ghost use Rattle.std.specs.Prelude.{◌≡◌, ℕ, suc, ◌≤◌, ◌<◌, ◌++◌, List, length, Some, None, false};
ghost use Rattle.app_model.specs.App.{App};
ghost use Rattle.ejson_value.specs.View.{view};
ghost use Rattle.value_model.specs.Val.{Val};
ghost use Rattle.history_model.specs.declared.entry.Entry.{Entry};
ghost use Rattle.history_model.specs.History.{held_at};
ghost use Rattle.session_model.specs.Moments.{moment_at};
ghost use Rattle.session_model.specs.Out.{out_texts};
ghost use Rattle.world_model.specs.declared.events.Act.{Act as AnAct};
ghost use Rattle.world_model.specs.Store.{programs, held_in, moment_of, moments, value_of};
ghost use Rattle.world_model.specs.StoreLaws.{later_moments};
ghost use Rattle.world_model.specs.Conn.{Conn};
ghost use Rattle.world_model.specs.Asks.{Ask};
ghost use Rattle.world_model.specs.World.{World, conn_of, done, can_in, asked_in, can_ask_by};
ghost use Rattle.world_model.specs.Lines.{journal_lines, texts_among};

/// What a session sees of the store: at each place of the history what the entries up to there lead to, and nothing behind
/// its end.
pub fn moments_are_those_of_the_history()
    ensures many { (app : App) (number : ℕ) (history : List Entry) → length (moments app number history) ≡ suc (length history) }
    ensures within { (app : App) (number : ℕ) (history : List Entry) (place : ℕ) → place ≤ length history →
        moment_at (moments app number history) place ≡ Some (moment_of app number (held_at (programs app) history place)) }
    ensures past { (app : App) (number : ℕ) (history : List Entry) (place : ℕ) → length history < place → moment_at (moments app number history) place ≡ None }
{}

/// A longer history has the moments of the shorter one first.
pub fn longer_histories_keep_earlier_moments()
    ensures { (app : App) (number : ℕ) (history more : List Entry) →
        moments app number (history ++ more) ≡ moments app number history ++ later_moments app number (held_in app history) more }
{}

/// Each value is what contracts see of the one that an entry holds.
pub fn values_are_seen_as_they_are()
    ensures { (v : Val) → view (value_of v) ≡ v }
{}

/// An act that isn't enabled, or that a full journal or queue refuses, leaves the world.
pub fn acts_that_are_not_made_leave_the_world()
    ensures { (w : World) (name : List ℕ) (a : AnAct) → can_in w (name, a) ≡ false → done (name, a) w ≡ w }
{}

/// So does what is asked of a client that doesn't do it.
pub fn what_no_client_does_leaves_the_world()
    ensures { (w : World) (name : List ℕ) (a : Ask) → can_ask_by a (conn_of w name) ≡ false → asked_in name a w ≡ w }
{}

/// The texts in the lines of a journal are those of the session, in order, sent or not.
pub fn journals_show_the_texts()
    ensures { (app : App) (history : List Entry) (c : Conn) →
        texts_among (journal_lines app history c) ≡ out_texts (moments app c.number history) c.number c.items }
{}
