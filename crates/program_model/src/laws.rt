//! The laws of runs.
ghost use Rattle.std.specs.Prelude.{◌≡◌, ℕ, ◌+◌, ◌≤◌, List, length, false, Option, Some};
ghost use Rattle.map_model.specs.Maps.{IsSorted};
ghost use Rattle.value_model.specs.Val.{Val, Entries};
ghost use Rattle.ejson_value.specs.Key.{key_cmp};
ghost use Rattle.ejson_value.specs.Rows.{Rows};
ghost use Rattle.program_steps.specs.declared.rules.Action.{Action};
ghost use Rattle.program_steps.specs.declared.rules.Rules.{Rules};
ghost use Rattle.program_steps.specs.declared.step.Program.{Program};
ghost use Rattle.program_steps.specs.declared.step.ProgramStep.{ProgramStep};
ghost use Rattle.program_steps.specs.declared.step.ProgramStep.TheVariants.{Guarded};
ghost use Rattle.program_model.specs.declared.verdict.Verdict.TheVariants.{Denied};
ghost use Rattle.program_model.specs.Faults.{denied_by};
ghost use Rattle.program_model.specs.Guarded.{Write, judged_document, judged};
ghost use Rattle.program_model.specs.Run.{Run, begun, fails};
ghost use Rattle.program_model.specs.Steps.{Setting, done_step, stepped, whole_run, simulated, writing_in};
ghost use Rattle.program_model.specs.Kept.{LeadsOn, StepDoes, is_over, IsRun, Follows};
ghost use Rattle.program_model.specs.GuardLaws.{verdict_of, rows_by, IsFirstDenial};

/// The changes of a step lead from the documents before it to those after it, at keys that it touches,
/// and its new documents have room.
pub fn steps_lead_on()
    ensures { (s : Setting) (rows : Rows) (run : Run) → IsSorted key_cmp rows → StepDoes rows s.room (stepped s rows run) }
{}

/// A run that has begun has come to something exactly where it has no step left.
pub fn begun_runs_are_runs()
    ensures { (params : List Val) (seed : Val) (steps : List ProgramStep) → IsRun (begun params seed steps) }
{}

/// A step leaves a run with no more steps, no more than one id drawn, and what it was called with.
pub fn steps_carry_runs_on()
    ensures { (s : Setting) (rows : Rows) (run : Run) → IsRun run → Follows run (stepped s rows run).run }
{}

/// A run that goes on has fewer steps left after each of them.
pub fn each_step_leaves_fewer()
    ensures { (s : Setting) (rows : Rows) (run : Run) → IsRun run → is_over run.left ≡ false → length (stepped s rows run).run.left + 1 ≤ length run.left }
{}

/// A run draws no more ids than it has steps.
pub fn runs_draw_no_more_ids_than_steps()
    ensures { (s : Setting) (rows : Rows) (run : Run) → IsRun run →
        length (stepped s rows run).run.drawn + length (stepped s rows run).run.left ≤ length run.drawn + length run.left }
{}

/// The changes of a simulation lead from the view to what it shows, at keys that it touches.
pub fn simulations_lead_on()
    ensures { (collections : List (List ℕ)) (program : Option Program) (params : List Val) (seed : Val) (view : Rows) → IsSorted key_cmp view →
        LeadsOn view (simulated collections program params seed view) }
{}

/// A guarded step leaves what the store makes of its write where the rules allow it, and else the
/// documents as they were.
pub fn guarded_steps_write_what_rules_allow()
    ensures { (s : Setting) (rows : Rows) (run : Run) (collection : List ℕ) (a : Action) →
        (done_step s rows run (Guarded collection a)).rows
        ≡ rows_by s rows collection (writing_in collection run a run.params) (verdict_of s rows run collection a) }
{}

/// A denied write fails its run with the place of the rule.
pub fn denied_writes_fail_with_the_rule()
    ensures { (s : Setting) (rows : Rows) (run : Run) (collection : List ℕ) (a : Action) (place : ℕ) →
        verdict_of s rows run collection a ≡ Some (Denied place) →
        (done_step s rows run (Guarded collection a)).run ≡ fails (denied_by place) run }
{}

/// A denial names the first deny rule that holds.
pub fn denials_name_the_first_rule()
    ensures { (rules : Rules) (write : Write) (present : Option Entries) (place : ℕ) → judged rules write present ≡ Denied place →
        (doc : Entries) × (judged_document write present ≡ Some doc) × IsFirstDenial write doc rules.deny place }
{}
