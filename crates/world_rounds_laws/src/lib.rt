//! Laws of the phases of a client's round, by what is kept of the client: which calls have the runs that go on, which acts may
//! be left out, and that acts leave a client linked with its session. There is no code here: each function is a law, which
//! its contract states.
#![tactic(auto)]

ghost use Rattle.world_model.specs.declared.events.Act.TheVariants as act;
ghost use Rattle.world_invariant_laws.specs.world_model.declared.events.Act.TheVariants as act;
ghost use Rattle.std.specs.Prelude.{◌≡◌, ℕ, List, ◌<◌, true, false, Some, ◌==◌, [], length};
ghost use Rattle.std.specs.Map.{keys_of};
ghost use Rattle.map_model.specs.Maps.{IsSorted};
ghost use Rattle.value_model.specs.Order.{text_cmp};
ghost use Rattle.app_model.specs.App.{App};
ghost use Rattle.world_model.specs.history_model.History.{Rise};
ghost use Rattle.rounds_model.specs.Rounds.{made, none_of};
ghost use Rattle.world_model.specs.declared.events.Act.{Act as AnAct};
ghost use Rattle.world_model.specs.Store.{held_in};
ghost use Rattle.world_model.specs.Conn.{Conn};
ghost use Rattle.world_model.specs.World.{World, conn_of};
ghost use Rattle.world_model.specs.Settle.{ups, recvs, handles, steps, sendings, takings, round};
ghost use Rattle.world_rounds_laws.specs.Visits.{Side, can_on, act_on, phase_on, visited, visits, all_visited, is_idle};
ghost use Rattle.world_rounds_laws.specs.Steps.{left_in, all_stepped, Covers};
ghost use Rattle.world_rounds_laws.specs.Loops.{waiting_in, upward_in, queue_in, outbox_in, downward_in, IsLoop};
ghost use Rattle.std.specs.List.{list_any};
ghost use Rattle.world_invariant_laws.specs.history_model.declared.entry.Entry.{Entry};
ghost use Rattle.world_invariant_laws.specs.history_model.History.{Rise};
ghost use Rattle.world_invariant_laws.specs.session_model.Subscriptions.{Live};
ghost use Rattle.world_invariant_laws.specs.session_model.Methods.{Method};
ghost use Rattle.world_invariant_laws.specs.world_model.declared.events.Act.{Act as AnAct};
ghost use Rattle.world_invariant_laws.specs.world_model.Store.{held_in};
ghost use Rattle.world_invariant_laws.specs.world_model.Conn.{Conn, state_in};
ghost use Rattle.world_invariant_laws.specs.world_model.Settle.{running_from, advances, steps};
ghost use Rattle.world_invariant_laws.specs.Session.{IsServed};
ghost use Rattle.world_invariant_laws.specs.Links.{IsLinked};
ghost use Rattle.world_rounds_laws.specs.Listing.{behind};

/// In a round each client goes through its phases, by name.
pub fn rounds_go_from_client_to_client()
    ensures round { (w : World) → IsSorted text_cmp w.conns → round w ≡ all_visited (keys_of w.conns) w }
    ensures sorted { (w : World) (name : List ℕ) → IsSorted text_cmp w.conns → IsSorted text_cmp (visits name w).conns }
{}

/// A client for whom no act of a phase can be made may be left out.
pub fn idle_clients_are_left()
    ensures side { (app : App) (x : Side) → is_idle app x ≡ true → visited app x ≡ x }
    ensures world { (w : World) (name : List ℕ) (c : Conn) → IsSorted text_cmp w.conns → conn_of w name ≡ Some c →
        is_idle w.app (record { history = w.history; conn = c }) ≡ true → visits name w ≡ w }
{}

/// An act that is made leaves less for it to do.
pub fn acts_leave_less()
    ensures ups { (app : App) (x : Side) → can_on app x act.Up ≡ true → waiting_in (act_on app act.Up x) < waiting_in x }
    ensures recvs { (app : App) (x : Side) → can_on app x act.Recv ≡ true → upward_in (act_on app act.Recv x) < upward_in x }
    ensures handles { (app : App) (x : Side) → can_on app x act.Handle ≡ true → queue_in (act_on app act.Handle x) < queue_in x }
    ensures sends { (app : App) (x : Side) → can_on app x act.Send ≡ true → outbox_in (act_on app act.Send x) < outbox_in x }
    ensures takes { (app : App) (x : Side) → can_on app x act.Take ≡ true → downward_in (act_on app act.Take x) < downward_in x }
{}

/// An act is made again and again, each time with less to do.
pub fn acts_are_repeated()
    ensures begins { (app : App) (count : Side → ℕ) (a : AnAct) (x : Side) → IsLoop app count a x x }
    ensures goes_on { (app : App) (count : Side → ℕ) (a : AnAct) (first now : Side) → IsLoop app count a first now →
        count (act_on app a now) < count now → IsLoop app count a first (act_on app a now) }
{}

/// Once the act can't be made any more, its phase is over.
pub fn repeated_acts_are_phases()
    ensures ups { (app : App) (first now : Side) → IsLoop app waiting_in act.Up first now → can_on app now act.Up ≡ false →
        made (act_on app) (phase_on app ups first) first ≡ now }
    ensures recvs { (app : App) (first now : Side) → IsLoop app upward_in act.Recv first now → can_on app now act.Recv ≡ false →
        made (act_on app) (phase_on app recvs first) first ≡ now }
    ensures handles { (app : App) (first now : Side) → IsLoop app queue_in act.Handle first now → can_on app now act.Handle ≡ false →
        made (act_on app) (phase_on app handles first) first ≡ now }
    ensures sends { (app : App) (first now : Side) → IsLoop app outbox_in act.Send first now → can_on app now act.Send ≡ false →
        made (act_on app) (phase_on app sendings first) first ≡ now }
    ensures takes { (app : App) (first now : Side) → IsLoop app downward_in act.Take first now → can_on app now act.Take ≡ false →
        made (act_on app) (phase_on app takings first) first ≡ now }
{}

/// A step that is made leaves its run fewer steps to make.
pub fn steps_leave_less()
    ensures { (app : App) (x : Side) (k : ℕ) → can_on app x (act.Step k) ≡ true → left_in app k (act_on app (act.Step k) x) < left_in app k x }
{}

/// Calls whose numbers rise, each run that has steps left being of one of them: each makes its steps until it can make no more,
/// and that is the phase.
pub fn steps_make_up_the_phase()
    ensures { (app : App) (ks : List ℕ) (x : Side) → Rise ks → Covers x.conn.number ks (held_in app x.history).runs →
        all_stepped app ks x ≡ made (act_on app) (phase_on app steps x) x }
{}

/// The numbers of a session's calls that run rise, and each run of the session that has steps left is of one of them.
pub fn runs_that_go_on_are_of_calls_that_run()
    ensures rise { (k : ℕ) (calls : List Method) → Rise (running_from k calls) }
    ensures covers { (app : App) (history : List Entry) (c : Conn) → IsServed app history c →
        Covers c.number (running_from 0 (state_in c).methods) (held_in app history).runs }
{}

/// Where none of the calls goes on that have the session's runs, the phase of steps lists nothing.
pub fn runs_that_are_over_have_no_steps()
    ensures { (app : App) (ks : List ℕ) (x : Side) → Covers x.conn.number ks (held_in app x.history).runs →
        ((k : ℕ) → list_any (λ j. k == j) ks ≡ true → can_on app x (act.Step k) ≡ false) → phase_on app steps x ≡ [] }
{}

/// A subscription that shows the end of the history may be left out where subscriptions go on to it.
pub fn subscriptions_at_the_end_stay()
    ensures made { (app : App) (entries : ℕ) (subs : List Live) (x : Side) →
        made (act_on app) (advances entries subs) x ≡ made (act_on app) (behind entries subs) x }
    ensures none { (app : App) (entries : ℕ) (subs : List Live) (x : Side) →
        none_of (can_on app) (advances entries subs) x ≡ none_of (can_on app) (behind entries subs) x }
{}

/// An act of a client leaves it linked with its session.
pub fn acts_leave_clients_linked()
    ensures { (app : App) (a : AnAct) (x : Side) → IsLinked app x.history x.conn → IsLinked app (act_on app a x).history (act_on app a x).conn }
{}
