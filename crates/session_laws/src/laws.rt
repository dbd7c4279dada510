//! Laws of what a session stands for.
ghost use Rattle.std.specs.Prelude.{◌≡◌, ◌∷◌, ◌++◌, [], ℕ, List, None, IfSome, false, true};
ghost use Rattle.ejson_value.specs.declared.change.Change.{Change};
ghost use Rattle.ejson_value.specs.declared.change.Publish.{Publish};
ghost use Rattle.ejson_value.specs.Key.{key_cmp};
ghost use Rattle.ejson_value.specs.Rows.{Rows};
ghost use Rattle.ddp_messages.specs.ClientMessage.{ClientMessage};
ghost use Rattle.program_steps.specs.declared.outcome.Status.{Status};
ghost use Rattle.app_model.specs.App.{App};
ghost use Rattle.merge_model.specs.Publishing.{shown};
ghost use Rattle.session_model.specs.Items.{Item};
ghost use Rattle.session_model.specs.State.{after, state_of};
ghost use Rattle.session_model.specs.Moments.{Moment};
ghost use Rattle.session_model.specs.Shown.{shown_in, calls_of};
ghost use Rattle.session_model.specs.Fits.{item_for};
ghost use Rattle.session_model.specs.Taking.{at_once, to_queue, taken_text};
ghost use Rattle.session_journal_laws.specs.Shows.{AreInOrder};
ghost use Rattle.session_journal_laws.specs.Resolved.{resolved, message_at};
ghost use Rattle.session_laws.specs.Session.{ASession, new_session, can_load, can_advance, can_learn, dropped};
ghost use Rattle.session_laws.specs.Storing.{kept_as};
ghost use Rattle.session_laws.specs.Meaning.{Means, is_request};
ghost use Rattle.session_laws.specs.Events.{HasHandled, IsAnswered, HasLoaded, HasAdvanced, HasFed, IsLearnt, HasRefused, queued, plain_call, observer_of};
ghost use Rattle.session_laws.specs.Events.{Keeps, KeepsTaking, KeepsLoading, KeepsAdvancing, KeepsFeeding, KeepsLearning, KeepsRefusing};
ghost use Rattle.session_laws.specs.Showing.{StandsAnywhere};

/// A session that has taken nothing stands for no texts.
pub fn new_sessions_mean_nothing()
    ensures { (app : App) (number : ℕ) (C : List Moment) → AreInOrder C → Means [] C [] (new_session app number) }
{}

/// Later moments of the store keep it.
pub fn later_moments_keep_it()
    ensures { (taken : List (List ℕ)) (C more : List Moment) (sent : List (List ℕ)) (s : ASession) → AreInOrder (C ++ more) →
        Means taken C sent s → Means taken (C ++ more) sent s }
{}

/// A text that is answered at once keeps it.
pub fn answered_texts_keep_it()
    ensures { (t : List ℕ) (i : Item) (old new : ASession) → old.carried.own.failed ≡ false →
        taken_text old.carried.own.connected t ≡ at_once i → IsAnswered i old new → KeepsTaking t old new }
{}

/// A text whose message waits keeps it.
pub fn queued_texts_keep_it()
    ensures { (t : List ℕ) (message : ClientMessage) (n : ℕ) (old : ASession) →
        taken_text old.carried.own.connected t ≡ to_queue message → KeepsTaking t old (queued message n old) }
{}

/// What is learnt of a call keeps it.
pub fn learning_keeps_it()
    ensures { (k : ℕ) (status : Status) (old new : ASession) → can_learn k status old ≡ true →
        IsLearnt k status.ended old new → KeepsLearning k status old new }
{}

/// A call that is refused keeps it.
pub fn refusing_keeps_it()
    ensures { (k place : ℕ) (old new : ASession) → HasRefused k place old new → KeepsRefusing k place old new }
{}

/// A text that is sent keeps it.
pub fn sending_keeps_it()
    ensures { (t : List ℕ) (rest : List (List ℕ)) (old : ASession) → old.carried.outbox ≡ t ∷ rest →
        (taken : List (List ℕ)) (C : List Moment) (sent : List (List ℕ)) → Means taken C sent old →
        Means taken C (sent ++ t ∷ []) (record old { carried = record old.carried { outbox = rest } }) }
{}

/// The end of a session keeps it.
pub fn closing_keeps_it()
    ensures { (old : ASession) → Keeps old (dropped old) }
{}

/// What is kept of a message that is handled reads as the item that is made of it.
pub fn handled_messages_read_back()
    ensures { (app : App) (number : ℕ) (taken : List (List ℕ)) (place : ℕ) (items : List Item) (m : ClientMessage) →
        is_request m ≡ true → message_at taken place ≡ m →
        resolved app number taken (kept_as place (item_for app number (state_of items) m)) ≡ item_for app number (state_of items) m }
{}

/// The call of the merge that the item of a message is leads to what the subscriptions show then.
pub fn handled_messages_lead_to_what_is_shown()
    ensures { (C : List Moment) (app : App) (number : ℕ) (items : List Item) (m : ClientMessage) → AreInOrder C → is_request m ≡ true →
        (r : ℕ) → shown key_cmp (plain_call (item_for app number (state_of items) m) ∷ calls_of C items) r
        ≡ shown_in C (after (state_of items) (item_for app number (state_of items) m)).subs r }
{}

/// A message that is handled keeps it.
pub fn handling_keeps_it()
    ensures { (old new : ASession) → old.carried.own.blocking ≡ None →
        HasHandled old.places old.carried.waiting old new → Keeps old new }
{}

/// A subscription that is loaded keeps it.
pub fn loading_keeps_it()
    ensures { (sub place : ℕ) (rows : Rows) (old new : ASession) → can_load sub place old ≡ true →
        HasLoaded sub place rows old new → KeepsLoading place rows old new }
{}

/// A subscription that goes on over a batch of entries keeps it.
pub fn advancing_keeps_it()
    ensures { (sub start count : ℕ) (changes : List Change) (old new : ASession) → can_advance sub count old ≡ true →
        HasAdvanced sub count changes old new → KeepsAdvancing sub start count changes old new }
{}

/// A subscription that is fed keeps it.
pub fn feeding_keeps_it()
    ensures { (sub count : ℕ) (news : List Publish) (old new : ASession) → can_advance sub count old ≡ true →
        IfSome (observer_of sub old) StandsAnywhere → HasFed sub count news old new → KeepsFeeding sub count news old new }
{}
