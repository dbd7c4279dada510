//! Texts that sessions share.
ghost use Rattle.std.specs.Prelude.{◌≡◌, ℕ, List, Option, Some};
ghost use Rattle.merge_model.specs.Kept.{merged_doc, kept_at, publishers_at, Stands};
ghost use Rattle.map_model.specs.Maps.{at};
ghost use Rattle.value_model.specs.Val.{Entries};
ghost use Rattle.value_model.specs.Order.{text_cmp};
ghost use Rattle.ejson_value.specs.declared.change.Publish.{Publish};
ghost use Rattle.ejson_value.specs.declared.key.Key.{Key as AKey};
ghost use Rattle.ejson_value.specs.Key.{key_cmp};
ghost use Rattle.ejson_value.specs.Rows.{Rows};
ghost use Rattle.ejson_value.specs.Changes.{news_of};
ghost use Rattle.known_texts.specs.Places.{Texts};
ghost use Rattle.kept_document.specs.Held.{IsAlone};
ghost use Rattle.merge_box.specs.State.{KeptDocs};
ghost use Rattle.connection_laws.specs.publication.Published.{published};
ghost use Rattle.connection_laws.specs.store_machine.State.{MachineState, held_after};
ghost use Rattle.session_state.specs.declared.subs.Sub.{Sub as ASub};
ghost use Rattle.session_core.specs.Known.{AreRight, AreLearnt};
ghost use Rattle.connection_laws.specs.Connection.{AConnection, IsConnection};
ghost use Rattle.multiplexer.specs.Known.{IsSeenAs, AreKnown};
ghost use Rattle.world_news_laws.specs.Sources.{IsSub};

/// Where no other subscription publishes a document, a client sees of it what the subscription shows, and there is one way of
/// seeing it so.
pub fn documents_of_one_are_seen_as_shown()
    ensures alone { (show : ℕ → Rows) (time : ℕ → AKey → List ℕ → ℕ) (box : KeptDocs) → Stands key_cmp text_cmp show time box →
        (sub : ℕ) (key : AKey) → IsAlone sub (publishers_at key_cmp box key) →
        IsSeenAs (merged_doc (kept_at key_cmp box key)) (at key_cmp (show sub) key) }
    ensures once { (one other shown : Option Entries) → IsSeenAs one shown → IsSeenAs other shown → one ≡ other }
{}

/// A text that is known of a publish is what the client of every session is told whose subscription shows the place from which
/// the publish leads, where no other of its subscriptions publishes the document; and what is learnt of one client is known for all.
pub fn known_texts_are_told()
    ensures right { (m : MachineState) (name : List ℕ) (x : AConnection) → IsConnection m.app name m.history x → (number start : ℕ) (sub : ASub) →
        IsSub number sub x.session → sub.cursor ≡ Some start → (news : List Publish) (texts : Texts) →
        AreKnown (published sub.cursors (held_after m start).rows) (news_of news) texts → AreRight number x.session.carried.box (news_of news) texts }
    ensures learnt { (m : MachineState) (name : List ℕ) (x : AConnection) → IsConnection m.app name m.history x → (number start : ℕ) (sub : ASub) →
        IsSub number sub x.session → sub.cursor ≡ Some start → (news : List Publish) (old new : Texts) →
        AreKnown (published sub.cursors (held_after m start).rows) (news_of news) old → AreLearnt number x.session.carried.box (news_of news) old new →
        AreKnown (published sub.cursors (held_after m start).rows) (news_of news) new }
{}
