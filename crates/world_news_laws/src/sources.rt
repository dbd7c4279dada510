//! Live subscriptions.
ghost use Rattle.std.specs.Prelude.{◌≡◌, ℕ, ◌+◌, ◌≤◌, List, length, false, Some};
ghost use Rattle.std.specs.List.{All};
ghost use Rattle.ejson_value.specs.declared.change.Publish.{Publish};
ghost use Rattle.ejson_value.specs.Changes.{news_of};
ghost use Rattle.app_model.specs.App.{App};
ghost use Rattle.connection_laws.specs.history_model.declared.entry.Entry.{Entry};
ghost use Rattle.connection_laws.specs.publication.Cursors.{ACursors};
ghost use Rattle.connection_laws.specs.publication.Published.{published};
ghost use Rattle.connection_laws.specs.live_observer.Observing.{HaveNoLimit};
ghost use Rattle.connection_laws.specs.store_machine.State.{MachineState, held_after};
ghost use Rattle.connection_laws.specs.session_model.Items.{Item};
ghost use Rattle.connection_laws.specs.session_model.Subscriptions.{cursor_of};
ghost use Rattle.connection_laws.specs.session_model.State.{state_of};
ghost use Rattle.connection_laws.specs.session_model.Moments.{Moment};
ghost use Rattle.connection_laws.specs.session_model.Fits.{Fits};
ghost use Rattle.session_state.specs.declared.subs.Sub.{Sub as ASub};
ghost use Rattle.connection_laws.specs.session_laws.Events.{IsFeed, cursors_at};
ghost use Rattle.connection_laws.specs.world_model.Store.{moments};
ghost use Rattle.connection_laws.specs.Connection.{AConnection, IsConnection};
ghost use Rattle.multiplexer.specs.Leading.{IsLead};
ghost use Rattle.world_news_laws.specs.Sources.{AreMadeBy, has_limit, AreSubs, IsSub, IsSourceOf};

/// Each live subscription of a journal that fits has the cursors that its publication makes with its parameters.
pub fn live_subscriptions_have_their_cursors()
    ensures { (app : App) (number : ℕ) (C : List Moment) (items : List Item) → Fits app number C items → AreMadeBy app (state_of items).subs }
{}

/// Those of a session, and so the observer of each that is loaded: one whose cursors have no limit is a source of news. It has
/// the cursors and the place that its session says.
pub fn subscriptions_are_sources()
    ensures each { (app : App) (name : List ℕ) (history : List Entry) (x : AConnection) → IsConnection app name history x → (subs : List ASub) →
        AreSubs subs x.session → All (IsSourceOf app) subs }
    ensures source { (app : App) (name : List ℕ) (history : List Entry) (x : AConnection) → IsConnection app name history x →
        (number : ℕ) (sub : ASub) → IsSub number sub x.session → IsSourceOf app sub }
    ensures cursors { (app : App) (name : List ℕ) (history : List Entry) (x : AConnection) → IsConnection app name history x →
        (number : ℕ) (sub : ASub) → IsSub number sub x.session → cursors_at number x.session ≡ sub.cursors }
    ensures place { (app : App) (name : List ℕ) (history : List Entry) (x : AConnection) → IsConnection app name history x →
        (number : ℕ) (sub : ASub) → IsSub number sub x.session → cursor_of number x.session.carried.own.subs ≡ sub.cursor }
{}

/// A test of the cursors says whether one has a limit: such a subscription isn't asked for.
pub fn limits_are_tested()
    ensures passed { (cursors : ACursors) → has_limit cursors ≡ false → HaveNoLimit cursors }
    ensures all { (cursors : ACursors) → HaveNoLimit cursors → has_limit cursors ≡ false }
{}

/// What is told of a span of the history behind the place of such a subscription feeds it.
pub fn told_news_feed()
    ensures { (m : MachineState) (name : List ℕ) (x : AConnection) (number start count : ℕ) (sub : ASub) (told : List Publish) →
        IsConnection m.app name m.history x → IsSub number sub x.session → sub.cursor ≡ Some start →
        start + count ≤ length m.history → has_limit sub.cursors ≡ false →
        IsLead (published sub.cursors (held_after m start).rows) (published sub.cursors (held_after m (start + count)).rows) (news_of told) →
        IsFeed (moments m.app x.session.carried.number m.history) number count told x.session }
{}
