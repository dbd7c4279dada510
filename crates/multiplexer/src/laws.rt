//! Laws, each by a function that does nothing.
ghost use Rattle.std.specs.Prelude.{ℕ, ◌≤◌, List, ◌++◌, length};
ghost use Rattle.history_model.specs.declared.entry.Entry.{Entry};
ghost use Rattle.session_state.specs.declared.subs.Sub.{Sub as ASub};
ghost use Rattle.store_machine.specs.State.{MachineState};
ghost use Rattle.multiplexer.specs.declared.news.Lent.{Lent as ALent};
ghost use Rattle.multiplexer.specs.Spans.{IsLent};
ghost use Rattle.multiplexer.specs.Telling.{CursorsAt, ANews, nothing_told, AreTold};

/// Nothing is told at first, and what is told of a history is told of every longer one.
pub fn longer_histories_keep_what_is_told()
    ensures first { (cursors_at : CursorsAt) (m : MachineState) → AreTold cursors_at m nothing_told }
    ensures longer { (cursors_at : CursorsAt) (m : MachineState) (es : List Entry) (news : ANews) → AreTold cursors_at m news →
        AreTold cursors_at (record m { history = m.history ++ es }) news }
{}

/// What is lent of a history is lent of every longer one, and of a shorter one that has its entries.
pub fn longer_histories_keep_what_is_lent()
    ensures longer { (m : MachineState) (es : List Entry) (sub : ASub) (from until : ℕ) (lent : ALent) → IsLent m sub from until lent →
        IsLent (record m { history = m.history ++ es }) sub from until lent }
    ensures shorter { (m : MachineState) (es : List Entry) (sub : ASub) (from until : ℕ) (lent : ALent) → until ≤ length m.history →
        IsLent (record m { history = m.history ++ es }) sub from until lent → IsLent m sub from until lent }
{}
