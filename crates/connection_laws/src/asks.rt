//! What a client is asked for.
ghost use Rattle.std.specs.Prelude.{◌≡◌, ℕ, List, Result, true, false};
ghost use Rattle.value_model.specs.Val.{Val};
ghost use Rattle.app_model.specs.App.{App};
ghost use Rattle.world_invariant_laws.specs.history_model.declared.entry.Entry.{Entry};
ghost use Rattle.client_model.specs.Asking.{can_sub, subscribed, can_unsub, unsubscribed, can_send, with_text};
ghost use Rattle.client_core.specs.declared.fault.ClientFault.{ClientFault};
ghost use Rattle.client_core.specs.State.{Own};
ghost use Rattle.client_core.specs.Asked.{Does, Calls};
ghost use Rattle.session_laws.specs.Session.{ASession};
ghost use Rattle.session_laws.specs.Events.{Closes};
ghost use Rattle.world_invariant_laws.specs.world_model.Asks.{Ask, can_ask};
ghost use Rattle.world_invariant_laws.specs.world_model.Asks as ask;
ghost use Rattle.connection_laws.specs.Connection.{AConnection, as_conn, IsConnection};
ghost use Rattle.connection_laws.specs.Acting.{with_own, with_raw, gone};
ghost use Rattle.connection_laws.specs.Asks.{IsAsked, MakesAsked};

/// A client asks for a publication.
pub fn subscriptions_are_asked_for()
    ensures { (app : App) (name : List ℕ) (history : List Entry) (old : AConnection) (own : Own) (id publication : List ℕ) (params : List Val)
        (result : Result (Unit {0}) ClientFault) →
        IsConnection app name history old → old.is_dropped ≡ false → Does (can_sub id old.own.client) (subscribed id publication params) old.own own result →
        MakesAsked app name history (ask.subscribe id publication params) old (with_own own old) result }
{}

/// A client asks for the end of a subscription.
pub fn subscriptions_are_ended()
    ensures { (app : App) (name : List ℕ) (history : List Entry) (old : AConnection) (own : Own) (id : List ℕ) (result : Result (Unit {0}) ClientFault) →
        IsConnection app name history old → old.is_dropped ≡ false → Does (can_unsub id old.own.client) (unsubscribed id) old.own own result →
        MakesAsked app name history (ask.unsubscribe id) old (with_own own old) result }
{}

/// A client calls a method.
pub fn calls_are_made()
    ensures { (app : App) (name : List ℕ) (history : List Entry) (old : AConnection) (own : Own) (method : List ℕ) (params : List Val)
        (result : Result ℕ ClientFault) →
        IsConnection app name history old → old.is_dropped ≡ false → Calls method params old.own own result →
        MakesAsked app name history (ask.call method params) old (with_own own old) result }
{}

/// A client queues a text of the caller's own.
pub fn texts_are_queued()
    ensures { (app : App) (name : List ℕ) (history : List Entry) (old : AConnection) (own : Own) (t : List ℕ) (result : Result (Unit {0}) ClientFault) →
        IsConnection app name history old → old.is_dropped ≡ false → Does (can_send old.own.client) (with_text t) old.own own result →
        MakesAsked app name history (ask.raw t) old (with_raw own old) result }
{}

/// A client and its session are gone.
pub fn clients_are_dropped()
    ensures { (app : App) (name : List ℕ) (history : List Entry) (old : AConnection) (s : ASession) → IsConnection app name history old →
        old.is_dropped ≡ false → Closes old.session s →
        IsAsked app name history ask.drop old (gone s old) }
{}

/// A client that is gone does nothing that it is asked for.
pub fn gone_clients_do_nothing()
    ensures { (old : AConnection) (a : Ask) → old.is_dropped ≡ true → can_ask (as_conn old) a ≡ false }
{}
