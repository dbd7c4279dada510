//! What is kept as entries are made.
ghost use Rattle.std.specs.Prelude.{◌≡◌, ◌+◌, ◌≤◌, ℕ, ◌∷◌, [], ◌++◌, List, length, true, false, is_some, None, Some, Ok};
ghost use Rattle.map_model.specs.Maps.{at, set, IsSorted};
ghost use Rattle.value_model.specs.Val.{Val};
ghost use Rattle.ejson_value.specs.View.{view};
ghost use Rattle.ejson_value.specs.declared.value.Value.{Value as AValue};
ghost use Rattle.collection_store.specs.Limits.{new_bytes};
ghost use Rattle.collection_store.specs.Applied.{Applied, applied};
ghost use Rattle.collection_store.specs.declared.operation.Op.{Op as AnOp};
ghost use Rattle.program_model.specs.Run.{Run as ARun};
ghost use Rattle.program_model.specs.Steps.{stepped};
ghost use Rattle.history_model.specs.declared.entry.Entry.{Entry as AnEntry};
ghost use Rattle.history_model.specs.declared.entry.Entry.TheVariants.{Begin, Step, Admin};
ghost use Rattle.history_model.specs.Operations.{operation_in};
ghost use Rattle.history_model.specs.History.{Programs, RunKey, run_cmp, Begun, Runs, held, no_steps, is_full, is_full_for_operation, is_next};
ghost use Rattle.history_model.specs.History.{max_kept, reserved};
ghost use Rattle.history_model.specs.LimitLaws.{left_of};
ghost use Rattle.store_machine.specs.Places.{Life};
ghost use Rattle.store_machine.specs.Keeping.{Kept, Keeps, no_entries, room_by, setting_with, with_begun, with_step_made, with_operation_made};

/// Nothing is kept before the first entry.
pub fn nothing_is_kept_at_first()
    ensures { (app : Programs) → Keeps app [] no_entries }
{}

/// A call that can be begun leaves what the longer history leads to.
pub fn begun_calls_are_kept()
    ensures { (app : Programs) (history : List AnEntry) (m : Kept) (session k : ℕ) (name : List ℕ) (params : List Val) (seed : AValue) →
        Keeps app history m → m.lives (session, k) ≡ None → is_some (app.method name) ≡ true
        → is_next session k (held app history).runs ≡ true → is_full app (held app history) name params (view seed) ≡ false →
        Keeps app (history ++ Begin session k name params seed ∷ []) (with_begun app m session k name params seed) }
{}

/// So does a step of a run that goes on, made over what is kept.
pub fn made_steps_are_kept()
    ensures { (app : Programs) (history : List AnEntry) (m : Kept) (session k : ℕ) (old : Life) → Keeps app history m →
        m.lives (session, k) ≡ Some old → no_steps old.now.run.left ≡ false
        → Keeps app (history ++ Step session k ∷ []) (with_step_made m session k old (stepped (setting_with app (room_by m)) m.rows old.now.run)) }
{}

/// The documents of a step have room.
pub fn made_steps_have_room()
    ensures { (app : Programs) (history : List AnEntry) (m : Kept) (run : ARun) → Keeps app history m →
        m.bytes + new_bytes (stepped (setting_with app (room_by m)) m.rows run).changes ≤ max_kept }
{}

/// So does an operation that is not refused.
pub fn made_operations_are_kept()
    ensures { (app : Programs) (history : List AnEntry) (m : Kept) (op : List Val) (o : AnOp) (a : Applied) → Keeps app history m →
        operation_in op ≡ Some o → applied app.collections m.rows o (room_by m) ≡ Ok a → is_full_for_operation (held app history) ≡ false
        → Keeps app (history ++ Admin op ∷ []) (with_operation_made m op a) }
{}

/// A run that is put in the place of one brings its steps for those of that.
pub fn a_run_brings_its_steps()
    ensures { (runs : Runs) (key : RunKey) (b : Begun) → IsSorted run_cmp runs →
        reserved (set run_cmp runs key (Some b)) + left_of (at run_cmp runs key) ≡ reserved runs + length b.run.left }
{}
