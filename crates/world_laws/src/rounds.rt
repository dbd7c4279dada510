//! A world that settles.
ghost use Rattle.std.specs.Prelude.{◌≡◌, ℕ, List, [], length, true, None, Some, IfSome};
ghost use Rattle.std.specs.Ordering.{is_le, is_lt};
ghost use Rattle.value_model.specs.Order.{text_cmp};
ghost use Rattle.headline.specs.history_model.declared.entry.Entry.{Entry};
ghost use Rattle.rounds_model.specs.Rounds.{made};
ghost use Rattle.headline.specs.world_model.declared.events.Act.{Act as AnAct};
ghost use Rattle.headline.specs.world_model.declared.events.Event.TheVariants as event;
ghost use Rattle.headline.specs.world_model.World.{World as TheWorld, conn_of};
ghost use Rattle.headline.specs.world_model.Settle.{round, is_stuck, settled};
ghost use Rattle.connection_laws.specs.Connection.{AConnection, as_conn, IsConnection};
ghost use Rattle.world_laws.specs.World.{AWorld, as_world, connection_of, IsIdle, IsWorld};
ghost use Rattle.world_rounds_laws.specs.Visits.{act_on, visited, visits};
ghost use Rattle.world_laws.specs.Names.{behind};
ghost use Rattle.world_laws.specs.Doing.{visits_from, IsPassed, IsIdleBefore, IsWorker, IsVisited, after_visit, at_rest, IsStep, ActsLead};

/// A round goes from name to name, and passes over those that aren't busy while the history is as it was when the world was
/// settled last, and those that are gone. Each of these has nothing to do, so it is the round of the definitions: what is left of it leads
/// where it led before, until nobody is left.
pub fn rounds_ask_those_that_may_act()
    ensures begins { (x : AWorld) → IsWorld x → visits_from [] (as_world x) ≡ round (as_world x) }
    ensures goes_on { (x : AWorld) → IsWorld x → (from name : List ℕ) → is_le (text_cmp from name) ≡ true →
        ((q : List ℕ) → is_le (text_cmp from q) ≡ true → is_lt (text_cmp q name) ≡ true → IsPassed x q) →
        visits_from (behind name) (visits name (as_world x)) ≡ visits_from from (as_world x) }
    ensures is_over { (x : AWorld) → IsWorld x → (from : List ℕ) → ((q : List ℕ) → is_le (text_cmp from q) ≡ true → IsPassed x q) →
        visits_from from (as_world x) ≡ as_world x }
    ensures idle { (x : AWorld) → IsWorld x → (q : List ℕ) → IsPassed x q → IfSome (conn_of (as_world x) q) (IsIdle x.app x.history) }
    ensures behind { (name q : List ℕ) → is_le (text_cmp (behind name) q) ≡ is_lt (text_cmp name q) }
{}

/// A round that makes nothing leaves a world in which nobody has anything to do: those that it asked haven't, nor have those
/// that it passed over.
pub fn rounds_may_make_nothing()
    ensures begins { (x : AWorld) → IsWorld x → IsIdleBefore x [] }
    ensures goes_on { (x : AWorld) → IsWorld x → (from name : List ℕ) → IsIdleBefore x from →
        ((q : List ℕ) → is_le (text_cmp from q) ≡ true → is_lt (text_cmp q name) ≡ true → IsPassed x q) →
        IfSome (conn_of (as_world x) name) (IsIdle x.app x.history) → IsIdleBefore x (behind name) }
    ensures ends { (x : AWorld) → IsWorld x → (from : List ℕ) → IsIdleBefore x from →
        ((q : List ℕ) → is_le (text_cmp from q) ≡ true → IsPassed x q) → is_stuck (as_world x) ≡ true }
{}

/// A client that goes through its phases over the history makes its part of the round.
pub fn visits_are_made()
    ensures made { (x : AWorld) → IsWorld x → (name : List ℕ) (old : AConnection) → connection_of x name ≡ Some old →
        (new : AConnection) (history : List Entry) →
        history ≡ (visited x.app (record { history = x.history; conn = as_conn old })).history →
        as_conn new ≡ (visited x.app (record { history = x.history; conn = as_conn old })).conn →
        IsConnection x.app name history new → IsWorker x name → IsVisited x name (after_visit x name new history) }
    ensures nobody { (x : AWorld) → IsWorld x → (name : List ℕ) → connection_of x name ≡ None → visits name (as_world x) ≡ as_world x }
{}

/// A client that makes some acts, and no more where memory runs out, makes these acts of the world. So is a visit, and acts
/// may go on behind others.
pub fn parts_of_rounds_are_acts()
    ensures part { (x : AWorld) → IsWorld x → (name : List ℕ) (old : AConnection) → connection_of x name ≡ Some old →
        (new : AConnection) (acts : List AnAct) (history : List Entry) →
        history ≡ (made (act_on x.app) acts (record { history = x.history; conn = as_conn old })).history →
        as_conn new ≡ (made (act_on x.app) acts (record { history = x.history; conn = as_conn old })).conn →
        IsConnection x.app name history new → IsWorker x name →
        IsWorld (after_visit x name new history) × ActsLead (as_world x) (as_world (after_visit x name new history)) }
    ensures visit { (x : AWorld) → IsWorld x → (name : List ℕ) → ActsLead (as_world x) (visits name (as_world x)) }
    ensures none { (w : TheWorld) → ActsLead w w }
    ensures more { (u v w : TheWorld) → ActsLead u v → ActsLead v w → ActsLead u w }
{}

/// A round leads where its world settles.
pub fn rounds_settle()
    ensures { (x : AWorld) → IsWorld x → settled (round (as_world x)) ≡ settled (as_world x) }
{}

/// Where nobody has anything to do, the world is settled.
pub fn idle_worlds_are_settled()
    ensures stuck { (w : TheWorld) → ((q : List ℕ) → IfSome (conn_of w q) (IsIdle w.app w.history)) → is_stuck w ≡ true }
    ensures settled { (x : AWorld) → IsWorld x → is_stuck (as_world x) ≡ true → settled (as_world x) ≡ as_world x }
{}

/// Nobody is busy then, and rounds that lead there make the event.
pub fn settled_worlds_are_kept()
    ensures rests { (x : AWorld) → IsWorld x → is_stuck (as_world x) ≡ true → IsWorld (at_rest x) }
    ensures made { (x y : AWorld) → IsWorld y → settled (as_world y) ≡ settled (as_world x) → is_stuck (as_world y) ≡ true → IsStep x event.Settle (at_rest y) }
{}
