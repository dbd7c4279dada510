//! Finite maps as lists of entries in the order of their keys, the changes that lead from one map to another,
//! and the difference of two maps of documents as one message per key.
//!
//! There is no code here: each function is a law of these definitions, which its contract states.
#![tactic(auto)]

ghost use Rattle.std.specs.Prelude.{◌≡◌, true, List, [], ◌++◌, Option, IsTrue, unwrap_or};
ghost use Rattle.std.specs.FinMap.{IsAntisymmetric};
ghost use Rattle.map_model.specs.Maps.{at, IsSorted};
ghost use Rattle.map_model.specs.Changes.{Change, changed, Leads, last_at};
ghost use Rattle.map_model.specs.Differences.{Step, AreDocs, all_taken, diff, IsDiff};

/// Two maps that have the same at each key are one list of entries.
pub fn same_maps<K: Ord, X>()
    requires { IsAntisymmetric K.cmp }
    ensures { (a b : List (K × X)) → IsSorted K.cmp a → IsSorted K.cmp b →
        ((k : K) → at K.cmp a k ≡ at K.cmp b k) → a ≡ b }
{}

/// Changes that lead from one map to a second, and then changes that lead from there to a third, lead from the first to the third.
pub fn changes_append<K: Ord, X>()
    ensures { (cs ds : List (Change K X)) (a b c : List (K × X)) →
        Leads K.cmp cs a b → Leads K.cmp ds b c → Leads K.cmp (cs ++ ds) a c }
{}

/// After a list of changes a key has what its last change leaves there, and what it had where there is none.
pub fn last_change_decides<K: Ord, X>()
    requires { IsAntisymmetric K.cmp }
    ensures { (a : List (K × X)) (cs : List (Change K X)) (k : K) → IsSorted K.cmp a →
        at K.cmp (changed K.cmp a cs) k ≡ unwrap_or (last_at K.cmp k cs) (at K.cmp a k) }
{}

/// The difference of two maps is one list of messages.
pub fn one_difference<K: Ord, N: Ord, V: Eq>()
    requires { IsAntisymmetric K.cmp }
    ensures { (a b : List (K × List (N × V))) (messages : List (K × Step N V)) → IsSorted K.cmp b →
        IsDiff N.cmp V.eq K.cmp a b messages → messages ≡ diff N.cmp V.eq K.cmp a b }
{}

/// A reader of the first map that takes the difference message by message has the second.
pub fn difference_taken<K: Ord, N: Ord, V: Eq>()
    requires keys { IsAntisymmetric K.cmp }
    requires names { IsAntisymmetric N.cmp }
    requires values { (v w : V) → IsTrue (V.eq v w) → v ≡ w }
    ensures { (a b : List (K × List (N × V))) → IsSorted K.cmp a → IsSorted K.cmp b →
        AreDocs N.cmp K.cmp a → AreDocs N.cmp K.cmp b →
        all_taken N.cmp K.cmp a (diff N.cmp V.eq K.cmp a b) ≡ b }
{}

/// A map does not differ from itself: there is no message.
pub fn no_difference<K: Ord, N: Ord, V: Eq>()
    requires keys { IsAntisymmetric K.cmp }
    requires names { IsAntisymmetric N.cmp }
    ensures { (a : List (K × List (N × V))) → IsSorted K.cmp a → AreDocs N.cmp K.cmp a →
        diff N.cmp V.eq K.cmp a a ≡ [] }
{}
