//! The headline of the whole world, and what its worlds settle to. There is no code here: each function is a law of the
//! definitions of `world_model`, which its contract states.
#![tactic(auto)]

ghost use Rattle.std.specs.Prelude.{◌≡◌, ◌⊎◌, ℕ, List, true, false, not, Some, IfSome, suc, ◌<◌, ◌∷◌, [], ◌++◌, length, decimal, nat_lt, None};
ghost use Rattle.std.specs.List.{list_all};
ghost use Rattle.value_model.specs.Val.{Val, text, vals_of};
ghost use Rattle.value_model.specs.Valid.{AreValues};
ghost use Rattle.ddp_messages.specs.ClientMessage.{ClientMessage, sub, unsub, method};
ghost use Rattle.ddp_messages.specs.Limits.{AreShallow};
ghost use Rattle.ddp_messages.specs.ServerMessage.{ServerMessage};
ghost use Rattle.app_model.specs.App.{App};
ghost use Rattle.rounds_model.specs.Tower.{Below, often};
ghost use Rattle.client_model.specs.Asking.{can_take};
ghost use Rattle.ddp_messages.specs.Texts.{client_text};
ghost use Rattle.client_model.specs.Client.{Client};
ghost use Rattle.client_model.specs.Taking.{max_server_text, late_refusal, calls_in, told_message, told_text};
ghost use Rattle.world_model.specs.history_model.declared.entry.Entry.{Entry};
ghost use Rattle.world_model.specs.session_model.Fits.{Fits};
ghost use Rattle.world_invariant_laws.specs.session_model.Texts.{message_in};
ghost use Rattle.world_invariant_laws.specs.session_model.Items.{Item};
ghost use Rattle.world_invariant_laws.specs.session_model.Moments.{Moment};
ghost use Rattle.world_invariant_laws.specs.session_model.Out.{out};
ghost use Rattle.world_invariant_laws.specs.session_model.Kept.{AreKept};
ghost use Rattle.world_invariant_laws.specs.session_model.Answering.{Answers};
ghost use Rattle.world_model.specs.declared.events.Act.{Act as AnAct};
ghost use Rattle.world_model.specs.declared.events.Event.{Event as AnEvent};
ghost use Rattle.world_model.specs.Store.{programs, moments};
ghost use Rattle.world_model.specs.Conn.{Conn, state_in, is_full};
ghost use Rattle.world_model.specs.Acts.{can};
ghost use Rattle.world_model.specs.World.{World, start, conn_of, done, can_in};
ghost use Rattle.world_model.specs.Settle.{Phase, acts_of, round, is_stuck, measures, settled};
ghost use Rattle.world_model.specs.Events.{run, AreEvents};
ghost use Rattle.world_model.specs.Headline.{IsTrueWorld, AreAtRest, AreModestQuiescent, HaveLongAlone};
ghost use Rattle.world_values_laws.specs.Values.{HasValues};
ghost use Rattle.world_invariant_laws.specs.Links.{IsLinked};
ghost use Rattle.headline.specs.Lowering.{AreTidy};
ghost use Rattle.headline.specs.Rest.{IsResting};
ghost use Rattle.headline.specs.Resting.{RestsUnless};
ghost use Rattle.headline.specs.Fitting.{IsPlain, Accepts};
ghost use Rattle.headline.specs.Calls.{AreCounted};
ghost use Rattle.headline.specs.Known.{IsKnown, AreAsked, HasAsks};

/// Over every list of events, whenever a session is quiescent, what its client shows equals, field by field, the merge of
/// its live publications over the store, queried anew; the store is the fold of one legal history, which begins each method
/// that any session handled and that was not refused exactly once; and each request has its answers. At each time, too, a
/// method's `updated` comes after what it wrote is shown. The application's programs are made of values, as each that is
/// read is.
pub fn worlds_are_true()
    ensures { (app : App) (events : List AnEvent) → HasValues (programs app) → AreEvents events → IsTrueWorld (run (start app) events) }
{}

/// An act that isn't made leaves the world, and any other leaves less to be done: one of the measures is less, and all that
/// stand behind it are the same.
pub fn each_act_leaves_less()
    ensures { (e : List ℕ × AnAct) (w : World) → AreTidy w → ((can_in w e ≡ false) × (done e w ≡ w)) ⊎ ((can_in w e ≡ true) × Below measures (done e w) w) }
{}

/// In a world in which no act of a round is made, none of those is made that a client's phases list.
pub fn stuck_worlds_make_no_act()
    ensures { (w : World) (name : List ℕ) (c : Conn) → is_stuck w ≡ true → conn_of w name ≡ Some c → (p : Phase) →
        list_all (λ a. not (can w.app w.history c a)) (acts_of w.app w.history c p) ≡ true }
{}

/// A client and its session for whom no act of a round is made are at rest, where the journal has room, the client takes
/// texts and the session refused no version: nothing waits anywhere, each call has ended, and each live subscription is at
/// the end of the history.
pub fn idle_sessions_rest()
    ensures { (app : App) (history : List Entry) (c : Conn) → c.is_dropped ≡ false → is_full c ≡ false → can_take c.client ≡ true →
        (state_in c).failed ≡ false →
        ((p : Phase) → list_all (λ a. not (can app history c a)) (acts_of app history c p) ≡ true) →
        Fits app c.number (moments app c.number history) c.items → IsResting history c }
{}

/// A settled world that events lead to is stuck: no act of a round is made any more.
pub fn settled_worlds_are_stuck()
    ensures { (app : App) (events : List AnEvent) → HasValues (programs app) → AreEvents events → is_stuck (settled (run (start app) events)) ≡ true }
{}

/// However many rounds it takes until no act of a round is made, the world is then the settled one.
pub fn rounds_lead_to_the_settled_world()
    ensures { (app : App) (events : List AnEvent) → HasValues (programs app) → AreEvents events → (n : ℕ) →
        is_stuck (often n round (run (start app) events)) ≡ true → often n round (run (start app) events) ≡ settled (run (start app) events) }
{}

/// In a settled world nothing waits for a client or its session, each call has ended, and each live subscription is at the
/// end of the history, where the client is there and takes texts, its session refused no version, and its journal has room.
pub fn settled_sessions_rest()
    ensures { (app : App) (events : List AnEvent) → HasValues (programs app) → AreEvents events → (name : List ℕ) →
        IfSome (conn_of (settled (run (start app) events)) name) (RestsUnless (settled (run (start app) events))) }
{}

/// In a settled world each session whose client is there is quiescent, with its name taken and each call of its client
/// `updated`; or its client sent a text as it stands, or one of its texts was refused, or its client took one that is too
/// long, or its journal is full, which takes as many texts and as long a history.
pub fn settled_worlds_are_at_rest()
    ensures { (app : App) (events : List AnEvent) → HasValues (programs app) → AreEvents events → AreAtRest (settled (run (start app) events)) }
{}

/// In a settled world a client that is there is quiescent with its session where it sent no text as it stands, none of its
/// texts was refused, it took none that is too long, and three items for each of its texts and the history's length for each
/// subscription are less than a journal has room for.
pub fn modest_clients_are_quiescent()
    ensures settled { (app : App) (events : List AnEvent) → HasValues (programs app) → AreEvents events →
        AreModestQuiescent (settled (run (start app) events)) }
    ensures resting { (w : World) → HaveLongAlone w → AreAtRest w → AreModestQuiescent w }
{}

/// A further round leaves a settled world, and so does settling it again.
pub fn further_rounds_leave_the_settled_world()
    ensures round { (app : App) (events : List AnEvent) → HasValues (programs app) → AreEvents events →
        round (settled (run (start app) events)) ≡ settled (run (start app) events) }
    ensures settling { (app : App) (events : List AnEvent) → HasValues (programs app) → AreEvents events →
        settled (settled (run (start app) events)) ≡ settled (run (start app) events) }
{}

/// The messages of a session come in an order that its client accepts: an answer to `connect` comes first and once, each
/// message about a document fits the documents that those before it lead to, none is a `ping`, and each `updated` has one id.
pub fn messages_fit_their_client()
    ensures { (app : App) (number : ℕ) (C : List Moment) (items : List Item) → Fits app number C items → Accepts None [] (out C number items) }
{}

/// A client counts what it takes of its calls: each has its result, and its `updated`, as often as the messages say.
pub fn clients_count_what_they_take()
    ensures { (c : Client) (ms : List ServerMessage) (m : ServerMessage) → late_refusal c m ≡ None → IsPlain m → AreCounted c.calls ms →
        AreCounted (calls_in c.calls m) (ms ++ m ∷ []) }
{}

/// The next text on the link to a client that isn't too long is taken as its message, where no more methods of an id were
/// handled than the client has calls of it; and the client goes on to know what the texts that it took say.
pub fn next_texts_are_taken()
    ensures taken { (app : App) (history : List Entry) (c : Conn) (t : List ℕ) (ts : List (List ℕ)) → IsLinked app history c →
        IsKnown c.client c.sent c.downward → AreKept (moments app c.number history) →
        c.downward ≡ t ∷ ts → AreAsked c.items (length c.client.calls) → nat_lt max_server_text (length t) ≡ false →
        told_text c.client t ≡ told_message c.client (message_in t) }
    ensures known { (app : App) (history : List Entry) (c : Conn) (t : List ℕ) (ts : List (List ℕ)) → IsLinked app history c →
        IsKnown c.client c.sent c.downward → AreKept (moments app c.number history) →
        c.downward ≡ t ∷ ts → AreAsked c.items (length c.client.calls) → IsKnown (told_message c.client (message_in t)) c.sent ts }
{}

/// A session handles no more methods of an id than its client asked for: a call adds one text, with an id of its own, and
/// what else the client asks for adds none.
pub fn clients_ask_for_each_call_once()
    ensures handled { (app : App) (number : ℕ) (C : List Moment) (taken rest : List (List ℕ)) (items : List Item) (waiting : List ClientMessage)
        (calls : ℕ) → Fits app number C items →
        Answers taken items waiting → HasAsks (taken ++ rest) calls → AreAsked items calls }
    ensures calls { (texts : List (List ℕ)) (name : List ℕ) (params : List Val) (seed : List ℕ) (calls : ℕ) → calls < 65536 →
        AreValues (vals_of params) → AreShallow params → HasAsks texts calls →
        HasAsks (texts ++ client_text (method (decimal (suc calls)) name params (Some (text seed))) ∷ []) (suc calls) }
    ensures subs { (texts : List (List ℕ)) (id name : List ℕ) (params : List Val) (calls : ℕ) → AreValues (vals_of params) → AreShallow params →
        HasAsks texts calls →
        HasAsks (texts ++ client_text (sub id name params) ∷ []) calls }
    ensures unsubs { (texts : List (List ℕ)) (id : List ℕ) (calls : ℕ) → HasAsks texts calls → HasAsks (texts ++ client_text (unsub id) ∷ []) calls }
{}

/// Over every list of events, a client that sent no text but those that it is asked for refused a text as one that is too
/// long, where it took one, and else none.
pub fn clients_refuse_texts_for_their_length_alone()
    ensures { (app : App) (events : List AnEvent) → HasValues (programs app) → AreEvents events → HaveLongAlone (run (start app) events) }
{}
