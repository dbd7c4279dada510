//! The acts of a client, its session and its runs.
ghost use Rattle.std.specs.Prelude.{◌≡◌, ℕ, ◌+◌, ◌<◌, ◌≤◌, List, [], ◌∷◌, length, true, false, nat_lt, nat_le, Option, None, Some, is_some, Result};
ghost use Rattle.std.specs.Prelude.{OnOk, IfOk, if◌then◌else◌};
ghost use Rattle.ejson_value.specs.declared.change.Change.{Change};
ghost use Rattle.ejson_value.specs.declared.change.Publish.{Publish};
ghost use Rattle.ejson_value.specs.declared.memory.Mem.{Mem};
ghost use Rattle.ejson_value.specs.declared.value.Value.{Value as AValue};
ghost use Rattle.ejson_value.specs.Changes.{news_of};
ghost use Rattle.ejson_value.specs.Rows.{Rows};
ghost use Rattle.world_invariant_laws.specs.publication.Published.{published};
ghost use Rattle.session_laws.specs.live_observer.Observing.{IsDifference, HaveNoLimit};
ghost use Rattle.ejson_value.specs.View.{view};
ghost use Rattle.program_steps.specs.declared.outcome.Status.{Status};
ghost use Rattle.app_model.specs.App.{App, method};
ghost use Rattle.world_invariant_laws.specs.history_model.declared.entry.Entry.{Entry};
ghost use Rattle.world_invariant_laws.specs.history_model.History.{held_at, status_in, status_at, changes_between, is_next};
ghost use Rattle.client_core.specs.declared.fault.TakeFault.{TakeFault};
ghost use Rattle.client_core.specs.State.{Own};
ghost use Rattle.client_core.specs.Asked.{IsSent};
ghost use Rattle.client_core.specs.Taken.{Takes as Hears};
ghost use Rattle.store_machine.specs.declared.fault.BeginFault.{BeginFault};
ghost use Rattle.store_machine.specs.State.{MachineState, held_by, begin_answer, is_running, step_state, BeginGives};
ghost use Rattle.world_invariant_laws.specs.session_model.Methods.{Blocking};
ghost use Rattle.world_invariant_laws.specs.session_model.Subscriptions.{cursor_of};
ghost use Rattle.session_laws.specs.Session.{ASession};
ghost use Rattle.session_laws.specs.Events.{Outcome, Takes, Handles, Loads, Advances, IsFeed, Feeds, Learns, Refuses, Sends, cursors_at};
ghost use Rattle.world_invariant_laws.specs.world_model.declared.events.Act.{Act as AnAct};
ghost use Rattle.world_invariant_laws.specs.world_model.declared.events.Act.TheVariants as act;
ghost use Rattle.world_invariant_laws.specs.world_model.declared.events.Answer.TheVariants as answer;
ghost use Rattle.world_invariant_laws.specs.world_model.Store.{programs, held_in, moments};
ghost use Rattle.world_invariant_laws.specs.world_model.Conn.{Refusal, link_limit};
ghost use Rattle.world_invariant_laws.specs.world_model.Acts.{is_kept, outcome};
ghost use Rattle.world_invariant_laws.specs.Session.{IsServed};
ghost use Rattle.connection_laws.specs.Connection.{AConnection, as_conn, IsConnection};
ghost use Rattle.connection_laws.specs.Acting.{with_session, gone_up, taken_in, refusal_learnt, sent_on, taken_off, IsDone, Makes};
ghost use Rattle.connection_laws.specs.Links.{MakesTaking, is_step};
ghost use Rattle.connection_laws.specs.Beginning.{machine, MakesStepping, MakesBeginning};

/// A text of the client goes onto the link to the server, where that has room.
pub fn texts_go_up()
    ensures moved { (app : App) (name : List ℕ) (history : List Entry) (old : AConnection) (own : Own) (t : List ℕ) →
        IsConnection app name history old → old.is_dropped ≡ false →
        nat_lt (length old.upward) link_limit ≡ true → IsSent old.own own (Some t) → IsDone app name history act.Up old (gone_up own t old) }
    ensures none { (app : App) (history : List Entry) (old : AConnection) (own : Own) → IsSent old.own own None →
        outcome app history (as_conn old) act.Up ≡ answer.Idle }
    ensures full { (app : App) (history : List Entry) (old : AConnection) → nat_lt (length old.upward) link_limit ≡ false →
        outcome app history (as_conn old) act.Up ≡ answer.Idle }
{}

/// The session takes a text off that link.
pub fn texts_are_taken_by_sessions()
    ensures taken { (app : App) (name : List ℕ) (history : List Entry) (old : AConnection) (t : List ℕ) (rest : List (List ℕ)) (s : ASession)
        (result : Outcome) → IsConnection app name history old →
        old.upward ≡ t ∷ rest → Takes t old.session s result → Makes app name history act.Recv old (taken_in t rest s old) result }
    ensures none { (app : App) (history : List Entry) (old : AConnection) → old.upward ≡ [] → outcome app history (as_conn old) act.Recv ≡ answer.Idle }
{}

/// The session handles the first message that waits.
pub fn messages_are_handled()
    ensures { (app : App) (name : List ℕ) (history : List Entry) (old : AConnection) (s : ASession) (result : Outcome) →
        IsConnection app name history old → Handles old.session s result →
        Makes app name history act.Handle old (with_session s old) result }
{}

/// The store begins the call that blocks, or has no room for it.
pub fn calls_begin()
    ensures begun { (app : App) (name : List ℕ) (history : List Entry) (old : AConnection) (b : Blocking) (seed : AValue) (next : MachineState)
        (result : Result Status BeginFault) → IsConnection app name history old →
        old.session.carried.own.blocking ≡ Some b → old.is_dropped ≡ false →
        is_some (status_in (held_in app history) old.session.carried.number b.k) ≡ false → is_kept b.k old.kept ≡ false → view seed ≡ b.seed →
        BeginGives (λ status. next) result (begin_answer (machine app history) old.session.carried.number b.k b.method b.params seed) →
        MakesBeginning app name history b old next result }
    ensures none { (app : App) (name : List ℕ) (history : List Entry) (old : AConnection) → IsConnection app name history old →
        old.session.carried.own.blocking ≡ None → outcome app history (as_conn old) act.Begin ≡ answer.Idle }
    ensures runs { (app : App) (name : List ℕ) (history : List Entry) (old : AConnection) (b : Blocking) → IsConnection app name history old →
        old.session.carried.own.blocking ≡ Some b →
        is_some (status_in (held_in app history) old.session.carried.number b.k) ≡ true → outcome app history (as_conn old) act.Begin ≡ answer.Idle }
    ensures refused { (app : App) (name : List ℕ) (history : List Entry) (old : AConnection) (b : Blocking) → IsConnection app name history old →
        old.session.carried.own.blocking ≡ Some b → is_kept b.k old.kept ≡ true →
        outcome app history (as_conn old) act.Begin ≡ answer.Idle }
    ensures now { (app : App) (history : List Entry) (session k : ℕ) →
        status_at (programs app) history (length history) session k ≡ status_in (held_in app history) session k }
{}

/// Such a call may be begun: the application has its method, and its number is above those of the session's calls.
pub fn calls_may_begin()
    ensures { (app : App) (name : List ℕ) (history : List Entry) (old : AConnection) (b : Blocking) → IsConnection app name history old →
        IsServed app history (as_conn old) → old.session.carried.own.blocking ≡ Some b →
        is_some (status_in (held_in app history) old.session.carried.number b.k) ≡ false →
        (is_some (method app b.method) ≡ true) × (is_next old.session.carried.number b.k (held_in app history).runs ≡ true) }
{}

/// The run of a call makes its next step.
pub fn runs_step()
    ensures { (app : App) (name : List ℕ) (history : List Entry) (old : AConnection) (k : ℕ) (next : MachineState)
        (result : Result (Option Status) Mem) → IsConnection app name history old →
        OnOk result (next ≡ step_state (machine app history) old.session.carried.number k) →
        IfOk result (λ status. status
        ≡ (if is_running (machine app history) old.session.carried.number k then status_in (held_by next) old.session.carried.number k else None)) →
        MakesStepping app name history k old next result }
{}

/// The session learns how far the run of its call was at a place of the history.
pub fn calls_are_learnt_of()
    ensures learnt { (app : App) (name : List ℕ) (history : List Entry) (old : AConnection) (k place : ℕ) (status : Status) (s : ASession)
        (result : Outcome) → IsConnection app name history old → is_kept k old.kept ≡ false →
        place ≤ length history → status_at (programs app) history place old.session.carried.number k ≡ Some status →
        Learns k status old.session s result → Makes app name history (act.Learn k place) old (with_session s old) result }
    ensures past { (app : App) (name : List ℕ) (history : List Entry) (old : AConnection) (k place : ℕ) → IsConnection app name history old →
        is_kept k old.kept ≡ false → nat_le place (length history) ≡ false →
        outcome app history (as_conn old) (act.Learn k place) ≡ answer.Idle }
    ensures none { (app : App) (name : List ℕ) (history : List Entry) (old : AConnection) (k place : ℕ) → IsConnection app name history old →
        is_kept k old.kept ≡ false →
        status_at (programs app) history place old.session.carried.number k ≡ None → outcome app history (as_conn old) (act.Learn k place) ≡ answer.Idle }
{}

/// The session learns of a refusal that is kept, which is of the call that blocks.
pub fn refusals_are_learnt_of()
    ensures { (app : App) (name : List ℕ) (history : List Entry) (old : AConnection) (k place : ℕ) (r : Refusal) (s : ASession) (result : Outcome) →
        IsConnection app name history old → old.kept ≡ Some r → is_kept k (Some r) ≡ true →
        IsServed app history (as_conn old) → Refuses k r.at old.session s result →
        Makes app name history (act.Learn k place) old (refusal_learnt s old) result }
{}

/// A subscription is loaded with the documents of a place of the history.
pub fn subscriptions_are_loaded()
    ensures loaded { (app : App) (name : List ℕ) (history : List Entry) (old : AConnection) (sub place : ℕ) (rows : Rows) (s : ASession)
        (result : Outcome) → IsConnection app name history old → place ≤ length history →
        rows ≡ (held_at (programs app) history place).rows → Loads sub place rows old.session s result →
        Makes app name history (act.Load sub place) old (with_session s old) result }
    ensures past { (app : App) (history : List Entry) (old : AConnection) (sub place : ℕ) → nat_le place (length history) ≡ false →
        outcome app history (as_conn old) (act.Load sub place) ≡ answer.Idle }
{}

/// A subscription goes on over the changes of the entries behind its cursor. A history has fewer than 2^64 entries.
pub fn subscriptions_go_on()
    ensures moved { (app : App) (name : List ℕ) (history : List Entry) (old : AConnection) (sub count start : ℕ) (changes : List Change)
        (s : ASession) (result : Outcome) → IsConnection app name history old →
        cursor_of sub old.session.carried.own.subs ≡ Some start → start + count ≤ length history → length history < 18446744073709551616 →
        changes ≡ changes_between (programs app) history start count →
        Advances sub start count changes old.session s result → Makes app name history (act.Advance sub count) old (with_session s old) result }
    ensures unloaded { (app : App) (name : List ℕ) (history : List Entry) (old : AConnection) (sub count : ℕ) → IsConnection app name history old →
        cursor_of sub old.session.carried.own.subs ≡ None →
        outcome app history (as_conn old) (act.Advance sub count) ≡ answer.Idle }
    ensures past { (app : App) (name : List ℕ) (history : List Entry) (old : AConnection) (sub count start : ℕ) → IsConnection app name history old →
        cursor_of sub old.session.carried.own.subs ≡ Some start →
        nat_le (start + count) (length history) ≡ false → outcome app history (as_conn old) (act.Advance sub count) ≡ answer.Idle }
{}

/// It shows a place of the history, and the difference of what its cursors publish there and later feeds it, where none of
/// them has a limit.
pub fn subscriptions_show_places()
    ensures within { (app : App) (name : List ℕ) (history : List Entry) (old : AConnection) (sub start : ℕ) → IsConnection app name history old →
        cursor_of sub old.session.carried.own.subs ≡ Some start → start ≤ length history }
    ensures feeds { (app : App) (name : List ℕ) (history : List Entry) (old : AConnection) (sub start count : ℕ) (news : List Publish) →
        IsConnection app name history old →
        cursor_of sub old.session.carried.own.subs ≡ Some start → start + count ≤ length history → HaveNoLimit (cursors_at sub old.session) →
        IsDifference (published (cursors_at sub old.session) (held_at (programs app) history start).rows)
        (published (cursors_at sub old.session) (held_at (programs app) history (start + count)).rows) (news_of news) →
        IsFeed (moments app old.session.carried.number history) sub count news old.session }
{}

/// A subscription that is fed goes on too.
pub fn subscriptions_are_fed()
    ensures { (app : App) (name : List ℕ) (history : List Entry) (old : AConnection) (sub count : ℕ) (news : List Publish) (s : ASession)
        (result : Outcome) → IsConnection app name history old →
        IsFeed (moments app old.session.carried.number history) sub count news old.session → length history < 18446744073709551616 →
        Feeds sub count news old.session s result →
        Makes app name history (act.Advance sub count) old (with_session s old) result }
{}

/// A text of the session goes onto the link to the client, where that has room.
pub fn texts_are_sent()
    ensures sent { (app : App) (name : List ℕ) (history : List Entry) (old : AConnection) (t : List ℕ) (s : ASession) →
        IsConnection app name history old → nat_lt (length old.downward) link_limit ≡ true →
        Sends old.session s (Some t) → IsDone app name history act.Send old (sent_on t s old) }
    ensures none { (app : App) (name : List ℕ) (history : List Entry) (old : AConnection) (s : ASession) → IsConnection app name history old →
        Sends old.session s None → outcome app history (as_conn old) act.Send ≡ answer.Idle }
    ensures full { (app : App) (history : List Entry) (old : AConnection) → nat_lt (length old.downward) link_limit ≡ false →
        outcome app history (as_conn old) act.Send ≡ answer.Idle }
{}

/// The client takes a text off that link, or refuses it and is broken.
pub fn texts_are_taken_by_clients()
    ensures taken { (app : App) (name : List ℕ) (history : List Entry) (old : AConnection) (own : Own) (t : List ℕ) (rest : List (List ℕ))
        (result : Result (Unit {0}) TakeFault) → IsConnection app name history old →
        old.is_dropped ≡ false → old.downward ≡ t ∷ rest → Hears t old.own own result → MakesTaking app name history old (taken_off own rest old) result }
    ensures none { (app : App) (history : List Entry) (old : AConnection) → old.downward ≡ [] → outcome app history (as_conn old) act.Take ≡ answer.Idle }
{}

/// A client that is gone makes no act, but for the steps of its runs.
pub fn gone_clients_are_idle()
    ensures { (app : App) (history : List Entry) (old : AConnection) (a : AnAct) → old.is_dropped ≡ true → is_step a ≡ false →
        outcome app history (as_conn old) a ≡ answer.Idle }
{}
