//! Laws of the operations, each of which its function's contract states.
ghost use Rattle.std.specs.Prelude.{◌≡◌, ℕ, List, Ok};
ghost use Rattle.map_model.specs.Maps.{IsSorted};
ghost use Rattle.ejson_value.specs.Key.{key_cmp};
ghost use Rattle.ejson_value.specs.Rows.{Rows};
ghost use Rattle.collection_store.specs.declared.operation.Op.{Op as AnOp};
ghost use Rattle.collection_store.specs.Applied.{Applied, applied};
ghost use Rattle.collection_store.specs.Answered.{Does};

/// The changes that an operation answers lead from the rows before it to those that it leaves. Each is
/// of another document, whose key is among those that the operation touches.
pub fn answered_changes_lead_on()
    ensures { (names : List (List ℕ)) (rows : Rows) (op : AnOp) (room : ℕ) (done : Applied) → IsSorted key_cmp rows →
        applied names rows op room ≡ Ok done → Does rows room done }
{}
