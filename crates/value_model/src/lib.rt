//! EJSON values as contracts see them: definitions, and the laws over them.
#![tactic(auto)]

ghost use Rattle.std.specs.Prelude.{◌≡◌, ◌↔◌, IsTrue};
ghost use Rattle.std.specs.Ordering.{is_eq, ordering_reverse};
ghost use Rattle.std.specs.Cmp.{IsTotalOrder};
ghost use Rattle.value_model.specs.Val.{Val};
ghost use Rattle.value_model.specs.Order.{compare};

/// Two values tie in the order exactly where they are equal.
pub fn only_equal_values_tie()
    ensures { (a b : Val) → IsTrue (is_eq (compare a b)) ↔ (a ≡ b) }
{}

/// Compared the other way round, two values answer the reverse.
pub fn comparing_is_antisymmetric()
    ensures { (a b : Val) → compare a b ≡ ordering_reverse (compare b a) }
{}

/// Values are totally ordered: of two different ones exactly one comes first, and what comes before
/// a value comes before all that follow it.
pub fn comparing_is_total()
    ensures { IsTotalOrder compare }
{}
