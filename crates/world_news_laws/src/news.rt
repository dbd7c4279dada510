//! News beside a machine.
ghost use Rattle.std.specs.Prelude.{◌≡◌, ℕ, List, ◌++◌, Result, OnErr};
ghost use Rattle.value_model.specs.Val.{Val};
ghost use Rattle.ejson_value.specs.declared.value.Value.{Value as AValue};
ghost use Rattle.program_steps.specs.declared.outcome.Status.{Status};
ghost use Rattle.connection_laws.specs.history_model.declared.entry.Entry.{Entry};
ghost use Rattle.connection_laws.specs.store_machine.declared.fault.BeginFault.{BeginFault};
ghost use Rattle.connection_laws.specs.store_machine.declared.fault.AdminFault.{AdminFault};
ghost use Rattle.connection_laws.specs.store_machine.State.{MachineState, begin_answer, step_state, admin_answer, BeginGives, AdminGives};
ghost use Rattle.multiplexer.specs.Telling.{ANews, nothing_told};
ghost use Rattle.world_news_laws.specs.News.{AreNews, GoesOn};

/// Nothing is told beside a new machine, or once all answers are forgotten; what is told stays so while the machine goes on.
pub fn news_go_on()
    ensures nothing { (m : MachineState) → AreNews m nothing_told }
    ensures stays { (old new : MachineState) (news : ANews) → GoesOn old new → AreNews old news → AreNews new news }
{}

/// A machine goes on by entries, one after another or none.
pub fn histories_go_on()
    ensures same { (m : MachineState) → GoesOn m m }
    ensures longer { (m : MachineState) (es : List Entry) → GoesOn m (record m { history = m.history ++ es }) }
    ensures further { (a b c : MachineState) → GoesOn a b → GoesOn b c → GoesOn a c }
{}

/// It goes on by each thing that it does.
pub fn machines_answer()
    ensures begins { (m next : MachineState) (session k : ℕ) (name : List ℕ) (params : List Val) (seed : AValue) (result : Result Status BeginFault) →
        BeginGives (λ status. next) result (begin_answer m session k name params seed) → OnErr result (next ≡ m) → GoesOn m next }
    ensures steps { (m : MachineState) (session k : ℕ) → GoesOn m (step_state m session k) }
    ensures operates { (m next : MachineState) (op : List Val) (result : Result (Unit {0}) AdminFault) →
        AdminGives (λ u. next) result (admin_answer m op) → OnErr result (next ≡ m) → GoesOn m next }
{}
