//! What an event prints.
ghost use Rattle.std.specs.Prelude.{◌≡◌, ℕ, List, [], ◌∷◌, map, Option, None, Some, false};
ghost use Rattle.connection_laws.specs.client_core.State.{show_lines};
ghost use Rattle.client_model.specs.Lines.{line_texts};
ghost use Rattle.headline.specs.world_model.declared.events.Act.{Act as AnAct};
ghost use Rattle.headline.specs.world_model.declared.events.Act.TheVariants as act;
ghost use Rattle.headline.specs.world_model.declared.events.Answer.{Answer as AnAnswer};
ghost use Rattle.headline.specs.world_model.declared.events.Answer.TheVariants as answer;
ghost use Rattle.headline.specs.world_model.declared.events.Event.{Event as AnEvent};
ghost use Rattle.headline.specs.world_model.declared.events.Event.TheVariants as event;
ghost use Rattle.headline.specs.world_model.Acts.{outcome};
ghost use Rattle.headline.specs.world_model.Asks.{Ask, can_ask};
ghost use Rattle.headline.specs.world_model.Lines.{line_text, idle, idle_unless, answer_values, broken_values, act_values, ask_values, texts_of, lines_of};
ghost use Rattle.headline.specs.world_model.Events.{act_in, act_by};
ghost use Rattle.connection_laws.specs.Connection.{AConnection, as_conn};
ghost use Rattle.connection_laws.specs.Printing.{kept_journal};
ghost use Rattle.world_laws.specs.World.{AWorld, as_world, connection_of, IsWorld};
ghost use Rattle.world_laws.specs.Doing.{IsActed, is_take};

/// An event names the act that it names of its client, if there is one.
pub fn events_name_acts()
    ensures client { (x : AWorld) (name : List ℕ) (old : AConnection) (e : AnEvent) → connection_of x name ≡ Some old →
        act_by (as_world x) name e ≡ act_in x.history (as_conn old) e }
    ensures nobody { (x : AWorld) (name : List ℕ) (e : AnEvent) → connection_of x name ≡ None → act_by (as_world x) name e ≡ None }
{}

/// An act prints what is answered, but for a text that the client takes: it prints whether the client is broken then.
pub fn answers_are_printed()
    ensures answered { (x : AWorld) (name : List ℕ) (old : AConnection) → connection_of x name ≡ Some old → (a : AnAct) (o : AnAnswer) →
        outcome x.app x.history (as_conn old) a ≡ o → is_take a ≡ false →
        act_values (as_world x) name (Some a) ≡ answer_values o }
    ensures not_taken { (x : AWorld) (name : List ℕ) (old : AConnection) → connection_of x name ≡ Some old → (o : AnAnswer) →
        outcome x.app x.history (as_conn old) act.Take ≡ o → (o ≡ answer.Done → ⊥) →
        act_values (as_world x) name (Some act.Take) ≡ answer_values o }
    ensures taken { (x : AWorld) (name : List ℕ) (old : AConnection) → connection_of x name ≡ Some old → (y : AWorld) (new : AConnection) →
        outcome x.app x.history (as_conn old) act.Take ≡ answer.Done → IsActed x name act.Take y →
        connection_of y name ≡ Some new → act_values (as_world x) name (Some act.Take) ≡ broken_values new.own.client.broken }
    ensures asked { (x : AWorld) (name : List ℕ) (old : AConnection) (a : Ask) → connection_of x name ≡ Some old →
        ask_values (as_world x) name a ≡ idle_unless (can_ask (as_conn old) a) }
    ensures nobody { (x : AWorld) (name : List ℕ) (a : Ask) → connection_of x name ≡ None → ask_values (as_world x) name a ≡ idle ∷ [] }
{}

/// A client's lines, and those of its session's journal.
pub fn clients_are_printed()
    ensures show { (x : AWorld) → IsWorld x → (name : List ℕ) (c : AConnection) → connection_of x name ≡ Some c →
        lines_of (as_world x) (event.Show name) ≡ line_texts (show_lines c.own) }
    ensures no_show { (x : AWorld) (name : List ℕ) → connection_of x name ≡ None → lines_of (as_world x) (event.Show name) ≡ texts_of (idle ∷ []) }
    ensures journal { (x : AWorld) → IsWorld x → (name : List ℕ) (c : AConnection) → connection_of x name ≡ Some c →
        lines_of (as_world x) (event.Journal name) ≡ map line_text (kept_journal c) }
    ensures no_journal { (x : AWorld) (name : List ℕ) → connection_of x name ≡ None → lines_of (as_world x) (event.Journal name) ≡ texts_of (idle ∷ []) }
{}
