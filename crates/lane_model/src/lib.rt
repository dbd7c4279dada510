//! Which calls of its session a lane has begun, by an account that it keeps, and what a whole history says of it.
//!
//! There is no code here: each function is a law of the definitions, which its contract states.
#![tactic(auto)]

ghost use Rattle.std.specs.Prelude.{◌≡◌, ◌≤◌, [], List, Contains, length, true, false, None, Some};
ghost use mathlib.Core.List.{IsPrefix};
ghost use Rattle.session_model.specs.Methods.{Blocking};
ghost use Rattle.lane_model.specs.Among.{AllBelow};
ghost use Rattle.lane_model.specs.Account.{number_of, AreInOrder, IsLast, Account, IsTrueTo, new_account, handled, freed, refused, begins, marks, IsSettled};

/// An account stays true to the calls of its session that the history begins, whatever becomes of the session: the history goes
/// on; a call is handled; the one that blocks no longer does, is refused, or is begun by the lane; or the history begins it, or a
/// later one, which the lane didn't.
pub fn accounts_stay_true()
    ensures new { IsTrueTo [] new_account }
    ensures longer { (begun begun' : List Blocking) (a : Account) → IsPrefix begun begun' → IsTrueTo begun a → IsTrueTo begun' a }
    ensures handled { (begun : List Blocking) (a : Account) (b : Blocking) → a.blocking ≡ None → AllBelow number_of b.k a.standing →
        IsTrueTo begun a → IsTrueTo begun (handled b a) }
    ensures free { (begun : List Blocking) (a : Account) → a.blocking ≡ None → IsTrueTo begun a → IsTrueTo begun (record a { has_begun = false }) }
    ensures freed { (begun : List Blocking) (a : Account) → a.has_begun ≡ true → IsTrueTo begun a → IsTrueTo begun (freed a) }
    ensures refused { (begun : List Blocking) (a : Account) (b : Blocking) (others : List Blocking) → a.has_begun ≡ false → a.blocking ≡ Some b →
        IsLast b others a.standing → IsTrueTo begun a → IsTrueTo begun (refused others a) }
    ensures begins { (begun begun' : List Blocking) (a : Account) (b : Blocking) (others : List Blocking) → a.has_begun ≡ false →
        a.marked ≡ false → a.blocking ≡ Some b → IsLast b others a.standing → IsPrefix begun begun' → Contains begun' b → IsTrueTo begun a →
        IsTrueTo begun' (begins a) }
    ensures marks { (begun begun' : List Blocking) (a : Account) (b found : Blocking) (others : List Blocking) → a.has_begun ≡ false →
        a.blocking ≡ Some b → IsLast b others a.standing → AreInOrder a.standing → AreInOrder begun' → IsPrefix begun begun' →
        Contains begun' found → b.k ≤ found.k → IsTrueTo begun a → IsTrueTo begun' (marks a) }
{}

/// Where a history has just as many calls of the session as the lane's caller made, the lane isn't marked, and these are the calls
/// that it has begun, in their order.
pub fn whole_histories_settle_accounts()
    ensures { (begun all : List Blocking) (a : Account) → AreInOrder a.standing → AreInOrder all → IsPrefix begun all → length all ≡ a.made →
        IsTrueTo begun a → IsSettled a all }
{}
