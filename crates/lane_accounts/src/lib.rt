//! What becomes of the account that a lane keeps of its session's calls: it stays true, whatever event the session takes.
//!
//! There is no code here: each function is a law of the definitions, which its contract states.
#![tactic(auto)]

ghost use Rattle.std.specs.Prelude.{◌≡◌, ◌++◌, ◌∷◌, [], ℕ, List, Bool, true, false, Option, Some, Ok};
ghost use mathlib.Core.List.{IsPrefix};
ghost use Rattle.ejson_value.specs.declared.change.Change.{Change};
ghost use Rattle.ejson_value.specs.declared.change.Publish.{Publish};
ghost use Rattle.ejson_value.specs.Rows.{Rows};
ghost use Rattle.program_steps.specs.declared.outcome.Status.{Status};
ghost use Rattle.history_model.specs.declared.entry.Entry.{Entry};
ghost use Rattle.history_model.specs.History.{Programs, IsLegal};
ghost use Rattle.session_model.specs.Methods.{Blocking, is_blocked_by};
ghost use Rattle.session_model.specs.Moments.{Moment};
ghost use Rattle.session_journal_laws.specs.Stands.{items_of};
ghost use Rattle.session_laws.specs.Session.{ASession};
ghost use Rattle.session_laws.specs.Meaning.{Means};
ghost use Rattle.session_laws.specs.Events.{Takes, Handles, Loads, Advances, Feeds, Learns, Refuses, Sends};
ghost use Rattle.world_model.specs.Headline.{standing, begun_in};
ghost use Rattle.lane_model.specs.Account.{AreInOrder};
ghost use Rattle.lane_accounts.specs.Accounts.{Follows};
ghost use Rattle.lane_accounts.specs.StandingLaws.{StandsLast};

/// An account follows its session. A message that is handled is one that the lane has not begun, if it is a call. What is learnt is
/// learnt of a call that doesn't block, or of one that the lane has begun; and one that is refused the lane has not begun.
pub fn accounts_follow_sessions()
    ensures takes { (taken : List (List ℕ)) (C : List Moment) (sent : List (List ℕ)) (old new : ASession) (has_begun : Bool) (t : List ℕ) →
        Means taken C sent old → Takes t old new (Ok tt) → Follows has_begun taken old.carried has_begun (taken ++ t ∷ []) new.carried }
    ensures handles { (taken : List (List ℕ)) (C : List Moment) (sent : List (List ℕ)) (old new : ASession) (has_begun : Bool) →
        Means taken C sent old → Handles old new (Ok tt) → Follows has_begun taken old.carried false taken new.carried }
    ensures loads { (taken : List (List ℕ)) (C : List Moment) (sent : List (List ℕ)) (old new : ASession) (has_begun : Bool) (sub place : ℕ) (rows : Rows) →
        Means taken C sent old → Loads sub place rows old new (Ok tt) → Follows has_begun taken old.carried has_begun taken new.carried }
    ensures advances { (taken : List (List ℕ)) (C : List Moment) (sent : List (List ℕ)) (old new : ASession) (has_begun : Bool) (sub from count : ℕ)
        (changes : List Change) → Means taken C sent old → Advances sub from count changes old new (Ok tt) →
        Follows has_begun taken old.carried has_begun taken new.carried }
    ensures feeds { (taken : List (List ℕ)) (C : List Moment) (sent : List (List ℕ)) (old new : ASession) (has_begun : Bool) (sub count : ℕ)
        (news : List Publish) → Means taken C sent old → Feeds sub count news old new (Ok tt) →
        Follows has_begun taken old.carried has_begun taken new.carried }
    ensures learns { (taken : List (List ℕ)) (C : List Moment) (sent : List (List ℕ)) (old new : ASession) (has_begun : Bool) (k : ℕ) (status : Status) →
        Means taken C sent old → Learns k status old new (Ok tt) → (is_blocked_by k old.carried.own.blocking ≡ true → has_begun ≡ true) →
        Follows has_begun taken old.carried has_begun taken new.carried }
    ensures refuses { (taken : List (List ℕ)) (C : List Moment) (sent : List (List ℕ)) (old new : ASession) (k place : ℕ) →
        Means taken C sent old → Refuses k place old new (Ok tt) → Follows false taken old.carried false taken new.carried }
    ensures sends { (taken : List (List ℕ)) (C : List Moment) (sent : List (List ℕ)) (old new : ASession) (has_begun : Bool) (o : Option (List ℕ)) →
        Means taken C sent old → Sends old new o → Follows has_begun taken old.carried has_begun taken new.carried }
{}

/// The calls of a session that stand do so by rising number, and the one that blocks is the last of them. So do those that a legal
/// history begins, of which a longer history has those of a shorter one first.
pub fn calls_stand_by_number()
    ensures standing { (taken : List (List ℕ)) (C : List Moment) (sent : List (List ℕ)) (s : ASession) → Means taken C sent s →
        AreInOrder (standing (items_of taken s.carried)) }
    ensures blocking { (taken : List (List ℕ)) (C : List Moment) (sent : List (List ℕ)) (s : ASession) (b : Blocking) → Means taken C sent s →
        s.carried.own.blocking ≡ Some b → StandsLast b (standing (items_of taken s.carried)) }
    ensures begun { (app : Programs) (number : ℕ) (history : List Entry) → IsLegal app history → AreInOrder (begun_in number history) }
    ensures longer { (number : ℕ) (history more : List Entry) → IsPrefix history more → IsPrefix (begun_in number history) (begun_in number more) }
{}
