//! A client's documents while simulations are open: the server's copy, the view, and which simulations hold which documents
//! (Meteor's guide, "Methods", "Optimistic UI").
//!
//! There is no code here: each function is a law of these definitions, which its contract states.
#![tactic(auto)]

ghost use Rattle.std.specs.Prelude.{◌≡◌, ℕ, false, List, [], Option};
ghost use Rattle.std.specs.FinMap.{IsAntisymmetric};
ghost use Rattle.std.specs.List.{list_any};
ghost use Rattle.std.specs.Ordering.{eq_by_cmp};
ghost use Rattle.map_model.specs.Maps.{at, IsSorted};
ghost use Rattle.view_model.specs.Views.{View, no_documents, told, simulated, released, IsView};

/// Before the first document there is nothing to differ.
pub fn no_documents_are_a_view<K: Ord, D>()
    ensures { IsView K.cmp (no_documents {K = K} {D = D}) }
{}

/// What the server says of a document leaves the view the server's where no simulation holds it.
pub fn told_views_are_views<K: Ord, D>()
    requires { IsAntisymmetric K.cmp }
    ensures { (k : K) (d : Option D) (s : View K D) → IsView K.cmp s → IsView K.cmp (told K.cmp k d s) }
{}

/// A simulation that changes no document but those that it touches leaves the others the server's.
pub fn simulated_views_are_views<K: Ord, D>()
    requires { IsAntisymmetric K.cmp }
    ensures { (n : ℕ) (view : List (K × D)) (keys : List K) (s : View K D) → IsSorted K.cmp view →
        ((q : K) → list_any (eq_by_cmp K.cmp q) keys ≡ false → at K.cmp view q ≡ at K.cmp s.view q) →
        IsView K.cmp s → IsView K.cmp (simulated K.cmp n view keys s) }
{}

/// Where simulations end, the documents that no other one holds are the server's again.
pub fn released_views_are_views<K: Ord, D>()
    requires { IsAntisymmetric K.cmp }
    ensures { (ns : List ℕ) (s : View K D) → IsView K.cmp s → IsView K.cmp (released K.cmp ns s) }
{}

/// With no open simulation the view is the server's copy.
pub fn views_at_rest_are_the_servers<K: Ord, D>()
    requires { IsAntisymmetric K.cmp }
    ensures { (s : View K D) → IsView K.cmp s → s.pending ≡ [] → s.view ≡ s.server }
{}
