//! Every event.
ghost use Rattle.std.specs.Prelude.{◌≡◌, ℕ, List, true, false, nat_lt, length, is_none, ◌&&◌, Option, None, Some};
ghost use Rattle.value_model.specs.Val.{Val, vals_of};
ghost use Rattle.value_model.specs.Valid.{AreValues};
ghost use Rattle.ddp_messages.specs.Limits.{AreShallow};
ghost use Rattle.headline.specs.world_model.declared.events.Act.{Act as AnAct};
ghost use Rattle.headline.specs.world_model.declared.events.Event.{Event as AnEvent};
ghost use Rattle.headline.specs.world_model.declared.events.Answer.TheVariants as answer;
ghost use Rattle.headline.specs.world_model.Acts.{outcome, is_done, entries};
ghost use Rattle.headline.specs.world_model.Conn.{client_limit};
ghost use Rattle.headline.specs.world_model.Asks.{Ask, can_ask};
ghost use Rattle.headline.specs.world_model.Asks as ask;
ghost use Rattle.headline.specs.world_model.World.{conn_of, done, outcome_by, opens, can_open, asked_in, can_ask_by};
ghost use Rattle.headline.specs.world_model.Events.{act_in, act_by, done_if, acts, step, refusal_of, administers};
ghost use Rattle.headline.specs.world_invariant_laws.Lift.{IsAsk};
ghost use Rattle.connection_laws.specs.Connection.{AConnection, as_conn};
ghost use Rattle.connection_laws.specs.Acting.{IsDone};
ghost use Rattle.connection_laws.specs.Asks.{IsAsked};
ghost use Rattle.world_laws.specs.World.{AWorld, as_world, connection_of, IsWorld};
ghost use Rattle.world_laws.specs.Doing.{IsActed, after_act, touched, IsAskedIn, after_ask, after_drop, is_drop, IsOpened, after_open};
ghost use Rattle.world_laws.specs.Doing.{IsAdministered, after_operation, IsStep};

/// An act of a client is the act of the world, which answers as the client's act does.
pub fn acts_are_made()
    ensures made { (x : AWorld) → IsWorld x → (name : List ℕ) (old : AConnection) → connection_of x name ≡ Some old →
        (a : AnAct) (new : AConnection) → IsDone x.app name x.history a old new →
        IsActed x name a (after_act x name new (entries x.app x.history (as_conn old) a)) }
    ensures answered { (x : AWorld) → IsWorld x → (name : List ℕ) (old : AConnection) → connection_of x name ≡ Some old → (a : AnAct) →
        outcome_by (as_world x) a (conn_of (as_world x) name) ≡ outcome x.app x.history (as_conn old) a }
    ensures not_made { (x : AWorld) → IsWorld x → (name : List ℕ) (old : AConnection) → connection_of x name ≡ Some old → (a : AnAct) →
        is_done (outcome x.app x.history (as_conn old) a) ≡ false → done (name, a) (as_world x) ≡ as_world x }
    ensures touched { (x : AWorld) → IsWorld x → (name : List ℕ) → IsWorld (touched x name) }
    ensures named { (x : AWorld) (name : List ℕ) (old : AConnection) (e : AnEvent) → connection_of x name ≡ Some old →
        acts (as_world x) name e ≡ done_if (as_world x) name (act_in x.history (as_conn old) e) }
{}

/// A client does what it is asked for, where it can.
pub fn clients_are_asked()
    ensures asked { (x : AWorld) → IsWorld x → (name : List ℕ) (old : AConnection) → connection_of x name ≡ Some old →
        (a : Ask) (new : AConnection) → IsAsked x.app name x.history a old new → IsAsk a → is_drop a ≡ false →
        IsAskedIn x name a (after_ask x name new) }
    ensures can { (x : AWorld) → IsWorld x → (name : List ℕ) (old : AConnection) → connection_of x name ≡ Some old → (a : Ask) →
        can_ask_by a (conn_of (as_world x) name) ≡ can_ask (as_conn old) a }
    ensures not_asked { (x : AWorld) → IsWorld x → (name : List ℕ) (old : AConnection) → connection_of x name ≡ Some old → (a : Ask) →
        can_ask (as_conn old) a ≡ false → asked_in name a (as_world x) ≡ as_world x }
{}

/// A client that is to be gone isn't among those that are there.
pub fn clients_leave()
    ensures { (x : AWorld) → IsWorld x → (name : List ℕ) (old : AConnection) → connection_of x name ≡ Some old → (a : Ask) (new : AConnection) →
        IsAsked x.app name x.history a old new → IsAsk a → new.is_dropped ≡ true →
        IsAskedIn x name a (after_drop x name new) }
{}

/// A client begins, where none has its name and there is room for it.
pub fn clients_begin()
    ensures opened { (x : AWorld) → IsWorld x → (name : List ℕ) → can_open (as_world x) name ≡ true → IsOpened x name (after_open x name) }
    ensures can { (x : AWorld) → IsWorld x → (name : List ℕ) →
        can_open (as_world x) name ≡ (is_none (connection_of x name) && nat_lt (length x.present) client_limit) }
    ensures not_opened { (x : AWorld) → IsWorld x → (name : List ℕ) → can_open (as_world x) name ≡ false → opens (as_world x) name ≡ as_world x }
{}

/// An administrator's operation that isn't refused is an entry.
pub fn operations_are_made()
    ensures made { (x : AWorld) → IsWorld x → (op : List Val) → AreValues (vals_of op) × AreShallow op → refusal_of (as_world x) op ≡ None →
        IsAdministered x op (after_operation x op) }
    ensures refused { (x : AWorld) (op : List Val) (code : ℕ) → refusal_of (as_world x) op ≡ Some code → administers (as_world x) op ≡ as_world x }
{}

/// Where there is no client of the name, nothing is done.
pub fn nobody_does_anything()
    ensures acts { (x : AWorld) (name : List ℕ) (a : AnAct) → connection_of x name ≡ None → done (name, a) (as_world x) ≡ as_world x }
    ensures answers { (x : AWorld) (name : List ℕ) (a : AnAct) → connection_of x name ≡ None →
        outcome_by (as_world x) a (conn_of (as_world x) name) ≡ answer.Idle }
    ensures named { (x : AWorld) (name : List ℕ) (e : AnEvent) → connection_of x name ≡ None → acts (as_world x) name e ≡ as_world x }
    ensures asks { (x : AWorld) (name : List ℕ) (a : Ask) → connection_of x name ≡ None → asked_in name a (as_world x) ≡ as_world x }
    ensures can { (x : AWorld) (name : List ℕ) (a : Ask) → connection_of x name ≡ None → can_ask_by a (conn_of (as_world x) name) ≡ false }
{}

/// An event that names an act of a client is this act, where it names one.
pub fn named_acts_are_events()
    ensures made { (x : AWorld) (name : List ℕ) (e : AnEvent) → step (as_world x) e ≡ acts (as_world x) name e → (a : AnAct) (y : AWorld) →
        act_by (as_world x) name e ≡ Some a → IsActed x name a y → IsStep x e y }
    ensures not_made { (x : AWorld) (name : List ℕ) (e : AnEvent) → step (as_world x) e ≡ acts (as_world x) name e → IsWorld x → (a : AnAct) →
        act_by (as_world x) name e ≡ Some a → done (name, a) (as_world x) ≡ as_world x →
        IsStep x e (touched x name) }
    ensures none { (x : AWorld) (name : List ℕ) (e : AnEvent) → step (as_world x) e ≡ acts (as_world x) name e → IsWorld x →
        act_by (as_world x) name e ≡ None → IsStep x e x }
{}
