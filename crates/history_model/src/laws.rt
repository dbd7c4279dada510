//! The laws of histories.
ghost use Rattle.std.specs.Prelude.{◌≡◌, ℕ, ◌+◌, ◌≤◌, ◌∷◌, [], ◌++◌, List, length, true, is_some, Some, IfSome, IsTrue};
ghost use Rattle.std.specs.List.{list_any};
ghost use Rattle.map_model.specs.Maps.{IsSorted};
ghost use Rattle.map_model.specs.Changes.{Leads};
ghost use Rattle.ejson_value.specs.Key.{key_cmp};
ghost use Rattle.ejson_value.specs.Changes.{changes_of};
ghost use Rattle.program_steps.specs.declared.outcome.Status.{Status};
ghost use Rattle.program_steps.specs.Runs.{End};
ghost use Rattle.history_model.specs.declared.entry.Entry.{Entry as AnEntry};
ghost use Rattle.history_model.specs.History.{Programs, carried, held, held_at, status_in, changes_between, can_follow, IsLegal, begins, calls_of, Rise};
ghost use Rattle.history_model.specs.Bounds.{IsHeld, IsWithin, AreStored};

/// One entry more carries what is held one entry further.
pub fn entries_are_carried_one_by_one()
    ensures { (app : Programs) (history : List AnEntry) (entry : AnEntry) → held app (history ++ entry ∷ []) ≡ carried app (held app history) entry }
{}

/// A longer history leaves the documents and the runs at its earlier places.
pub fn longer_histories_leave_earlier_places()
    ensures { (app : Programs) (history more : List AnEntry) (place : ℕ) → place ≤ length history →
        held_at app (history ++ more) place ≡ held_at app history place }
{}

/// What a history leads to: documents by rising key, and runs that have come to something exactly where
/// they have no step left.
pub fn documents_and_runs_are_well_formed()
    ensures { (app : Programs) (history : List AnEntry) → IsHeld (held app history) }
{}

/// The changes of some entries lead from the documents before them to the documents after them.
pub fn changes_lead_from_place_to_place()
    ensures { (app : Programs) (history : List AnEntry) (place count : ℕ) →
        Leads key_cmp (changes_of (changes_between app history place count)) (held_at app history place).rows (held_at app history (place + count)).rows }
{}

/// A legal history stays legal with an entry more that can be made at its end.
pub fn entries_that_can_follow_are_legal()
    ensures { (app : Programs) (history : List AnEntry) (entry : AnEntry) → IsLegal app history → IsTrue (can_follow app (held app history) entry) →
        IsLegal app (history ++ entry ∷ []) }
{}

/// What a legal history begins with is legal.
pub fn legal_histories_begin_legally()
    ensures { (app : Programs) (history more : List AnEntry) → IsLegal app (history ++ more) → IsLegal app history }
{}

/// A legal history keeps at most 134,217,728 bytes, and has at most 1,048,576 entries, those counted
/// that its runs have still to make.
pub fn legal_histories_keep_to_their_limits()
    ensures { (app : Programs) (history : List AnEntry) → IsLegal app history → IsWithin (held app history) }
{}

/// A run that has ended stays as it is, however the history goes on.
pub fn ended_runs_stay()
    ensures { (app : Programs) (history more : List AnEntry) (session k : ℕ) (status : Status) → status_in (held app history) session k ≡ Some status →
        is_some status.ended ≡ true → status_in (held app (history ++ more)) session k ≡ Some status }
{}

/// A run that let the next message be handled stays so, however the history goes on.
pub fn unblocked_runs_stay_unblocked()
    ensures { (app : Programs) (history more : List AnEntry) (session k : ℕ) (status : Status) → status_in (held app history) session k ≡ Some status →
        status.unblocked ≡ true → (later : Status) × (status_in (held app (history ++ more)) session k ≡ Some later) × (later.unblocked ≡ true) }
{}

/// A run that has ended did so within its history.
pub fn runs_end_within_their_history()
    ensures { (app : Programs) (history : List AnEntry) (session k : ℕ) (status : Status) → status_in (held app history) session k ≡ Some status →
        IfSome status.ended (λ (e : End). e.at ≤ length history) }
{}

/// Each document of a history has an id of 1 to 256 bytes, and is within the limits of a document.
pub fn documents_keep_to_their_limits()
    ensures { (app : Programs) (history : List AnEntry) → AreStored (held app history).rows }
{}

/// A call has a run exactly where the history begins it.
pub fn runs_are_those_that_were_begun()
    ensures { (app : Programs) (history : List AnEntry) (session k : ℕ) →
        is_some (status_in (held app history) session k) ≡ list_any (begins (session, k)) history }
{}

/// In a legal history the numbers of a session's calls rise, so that none is begun twice.
pub fn calls_of_a_session_rise()
    ensures { (app : Programs) (history : List AnEntry) (session : ℕ) → IsLegal app history → Rise (calls_of session history) }
{}
