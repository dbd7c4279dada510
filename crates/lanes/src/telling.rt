//! Lanes that are told at once. There is no code here: the function is a law of the definitions, which its contract states.
ghost use Rattle.std.specs.Prelude.{ℕ, List, Bool, Result};
ghost use Rattle.map_model.specs.Maps.{union};
ghost use Rattle.value_model.specs.Order.{text_cmp};
ghost use Rattle.lanes.specs.Lanes.{Named, AreTold, either, AreLanes};

/// What becomes of a value that is told.
pub trait Tells<V> {
    /// All that there is to tell is told; whether there was anything.
    ghost tells: { Self → V → V → Bool → Type 0 };

    /// What want of memory leaves: some of it was told.
    ghost leads: { Self → V → V → Type 0 };

    /// What was told, was told in part.
    ghost tells_leads: { (t : Self) (x y : V) (flag : Bool) → tells t x y flag → leads t x y };
}

/// Where two lanes are told, each by itself, the values of both are told one after another, in the order of the names; and where
/// memory runs out in either, some values were led on.
pub fn lanes_are_told_as_one<V, T: Tells<V>, E>()
    ensures { (t : T) (names : List (List ℕ)) (a b a' b' : Named V) (r s : Result Bool E) →
        AreTold (T.tells t) (T.leads t) names a a' r → AreTold (T.tells t) (T.leads t) names b b' s → AreLanes a b →
        AreTold (T.tells t) (T.leads t) names (union text_cmp a b) (union text_cmp a' b') (either r s) }
{}
