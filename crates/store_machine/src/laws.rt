//! The laws.
ghost use Rattle.std.specs.Prelude.{◌≡◌, ℕ, suc, ◌≤◌, ◌∷◌, [], ◌++◌, List, length, option_and_then, Some};
ghost use Rattle.map_model.specs.Maps.{set};
ghost use Rattle.ejson_value.specs.declared.change.Change.{Change as AChange};
ghost use Rattle.history_model.specs.declared.entry.Entry.{Entry as AnEntry};
ghost use Rattle.history_model.specs.History.{Programs, RunKey, run_cmp, held, held_at, changes_by, changes_between, status_at};
ghost use Rattle.history_log.specs.Log.{entries_in, changes_behind, rows_after, settled};
ghost use Rattle.store_machine.specs.LogOf.{log_of};
ghost use Rattle.store_machine.specs.Places.{Life, Lives, IsLife, AreLives, status_by, put};

/// The entries of a history's log are the history.
pub fn logs_stand_for_their_histories()
    ensures { (app : Programs) (history : List AnEntry) → entries_in (log_of app history) ≡ history }
{}

/// The changes in a log behind a place are those that the entries made there.
pub fn batches_are_the_changes_between_places()
    ensures { (app : Programs) (history : List AnEntry) (place count : ℕ) →
        changes_behind (log_of app history) place count ≡ changes_between app history place count }
{}

/// The changes of the first entries lead to the documents after these.
pub fn logs_lead_to_the_documents_of_each_place()
    ensures { (app : Programs) (history : List AnEntry) (place : ℕ) →
        rows_after (log_of app history) place ≡ (held_at app history place).rows }
{}

/// An entry that is put behind a log, whose changes are then set to what it makes, leaves the log of
/// the longer history.
pub fn logs_grow_by_what_an_entry_makes()
    ensures { (app : Programs) (history : List AnEntry) (entry : AnEntry) (before changes : List AChange) → changes ≡ changes_by app (held app history) entry →
        settled (log_of app history ++ record { entry = entry; changes = before } ∷ []) changes ≡ log_of app (history ++ entry ∷ []) }
{}

/// What is told by the lives of runs is how far they were at each place.
pub fn runs_are_told_of_at_each_place()
    ensures { (app : Programs) (history : List AnEntry) (lives : Lives) (place session k : ℕ) → AreLives app history lives → place ≤ length history →
        option_and_then (status_by place) (lives (session, k)) ≡ status_at app history place session k }
{}

/// An entry that puts a run leaves the lives of runs, with that run's in its place, if this tells of
/// earlier places what was told of them.
pub fn earlier_places_keep_what_is_told()
    ensures { (app : Programs) (history : List AnEntry) (entry : AnEntry) (lives : Lives) (key : RunKey) (life : Life) → AreLives app history lives →
        IsLife (suc (length history)) life →
        (held app (history ++ entry ∷ [])).runs ≡ set run_cmp (held app history).runs key (Some life.now) →
        ((place : ℕ) → place ≤ length history → status_by place life ≡ option_and_then (status_by place) (lives key)) →
        AreLives app (history ++ entry ∷ []) (put lives key life) }
{}
