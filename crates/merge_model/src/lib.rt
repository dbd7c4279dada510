//! The merge of what several subscriptions publish, field by field, and what a merge box keeps to answer it.
//!
//! There is no code here: each function is a law of these definitions, which its contract states.
#![tactic(auto)]

ghost use Rattle.std.specs.Prelude.{◌≡◌, ◌≢◌, ℕ, Bool, true, List, [], ◌∷◌, IsSome, is_some};
ghost use Rattle.std.specs.FinMap.{IsAntisymmetric};
ghost use Rattle.merge_model.specs.Merge.{since, field, IsMerge};
ghost use Rattle.merge_model.specs.Publishing.{Call, apply, shown, shown_since, IsLeast};
ghost use Rattle.merge_model.specs.Kept.{Kept, merged, IsInOrder, Stands, IsAfter};
ghost use Rattle.merge_model.specs.Box.{merge_of};

/// What each subscription shows and since when has one merge.
pub fn one_merge<K: Ord, N: Ord, V>()
    requires keys { IsAntisymmetric K.cmp }
    requires names { IsAntisymmetric N.cmp }
    ensures { (shown : ℕ → List (K × List (N × V))) (since : ℕ → K → N → ℕ) (m n : List (K × List (N × V))) →
        IsMerge K.cmp N.cmp shown since m → IsMerge K.cmp N.cmp shown since n → m ≡ n }
{}

/// Of a fact that holds now, `since` is the least number such that the fact holds at each moment from it on.
pub fn since_is_least<C>()
    ensures { (holds : List C → Bool) (past : List C) → holds past ≡ true →
        IsLeast holds (since holds past) past }
{}

/// No two subscriptions that publish a field began to do so at one call.
pub fn no_tie<K: Ord, N: Ord, V>()
    requires { IsAntisymmetric K.cmp }
    ensures { (past : List (Call K (List (N × V)))) (s r : ℕ) (k : K) (f : N) → s ≢ r →
        IsSome (field K.cmp N.cmp (shown K.cmp past s) k f) →
        IsSome (field K.cmp N.cmp (shown K.cmp past r) k f) →
        shown_since K.cmp N.cmp past s k f ≢ shown_since K.cmp N.cmp past r k f }
{}

/// What a client sees of a box that stands for what is shown is the merge.
pub fn merged_is_merge<K: Ord, N: Ord, V>()
    requires keys { IsAntisymmetric K.cmp }
    requires names { IsAntisymmetric N.cmp }
    ensures { (shown : ℕ → List (K × List (N × V))) (since : ℕ → K → N → ℕ) (kept : List (K × Kept N V)) →
        Stands K.cmp N.cmp shown since kept → IsMerge K.cmp N.cmp shown since (merged kept) }
{}

/// A box that stands for a list of calls, changed as one more call says, stands for the list with that call.
pub fn stands_after<K: Ord, N: Ord, V>()
    requires keys { IsAntisymmetric K.cmp }
    requires names { IsAntisymmetric N.cmp }
    ensures { (call : Call K (List (N × V))) (past : List (Call K (List (N × V)))) (old new : List (K × Kept N V)) →
        Stands K.cmp N.cmp (shown K.cmp past) (shown_since K.cmp N.cmp past) old →
        IsAfter K.cmp N.cmp call old new → IsInOrder K.cmp N.cmp new →
        Stands K.cmp N.cmp (shown K.cmp (call ∷ past)) (shown_since K.cmp N.cmp (call ∷ past)) new }
{}

/// A call that hands in nothing leaves the box as it is.
pub fn stands_idle<K: Ord, N: Ord, V>()
    requires keys { IsAntisymmetric K.cmp }
    requires names { IsAntisymmetric N.cmp }
    ensures { (r : ℕ) (past : List (Call K (List (N × V)))) (kept : List (K × Kept N V)) →
        Stands K.cmp N.cmp (shown K.cmp past) (shown_since K.cmp N.cmp past) kept →
        Stands K.cmp N.cmp (shown K.cmp (apply r [] ∷ past)) (shown_since K.cmp N.cmp (apply r [] ∷ past)) kept }
{}

/// `merge_of`, the merge as a function of the calls, is the merge that looks back over them.
pub fn merge_looks_back<K: Ord, N: Ord, V>()
    requires keys { IsAntisymmetric K.cmp }
    requires names { IsAntisymmetric N.cmp }
    ensures { (past : List (Call K (List (N × V)))) →
        IsMerge K.cmp N.cmp (shown K.cmp past) (shown_since K.cmp N.cmp past) (merge_of K.cmp N.cmp past) }
{}
