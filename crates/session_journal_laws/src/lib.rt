//! Laws of a session's journal. There is no code here: each function is a law of the definitions of `session_model`,
//! which its contract states.
#![tactic(auto)]

ghost use Rattle.std.specs.Prelude.{◌≡◌, ℕ, suc, ◌++◌, [], ◌∷◌, List, ◌↔◌, ◌≤◌, ◌+◌, ◌*◌, length, map, take, true, is_some};
ghost use Rattle.ddp_messages.specs.ClientMessage.{ClientMessage};
ghost use Rattle.app_model.specs.App.{App};
ghost use Rattle.session_model.specs.Moments.{Moment};
ghost use Rattle.session_model.specs.Taking.{to_queue, taken_text};
ghost use Rattle.session_journal_laws.specs.Stands.{Carried, Stands, new_session};
ghost use Rattle.map_model.specs.Maps.{IsSorted};
ghost use Rattle.map_model.specs.Differences.{all_taken};
ghost use Rattle.merge_model.specs.Merge.{IsMerge};
ghost use Rattle.merge_model.specs.Publishing.{shown_since};
ghost use Rattle.value_model.specs.Order.{text_cmp};
ghost use Rattle.ejson_value.specs.declared.change.Publish.{Publish};
ghost use Rattle.ejson_value.specs.Key.{key_cmp};
ghost use Rattle.ejson_value.specs.Rows.{Rows};
ghost use Rattle.ddp_messages.specs.ServerMessage.{ServerMessage};
ghost use Rattle.publication.specs.Cursors.{ACursors};
ghost use Rattle.publication.specs.Published.{publish_of, IsQuery};
ghost use Rattle.session_model.specs.Publication.{queried};
ghost use Rattle.session_model.specs.Texts.{messages_in};
ghost use Rattle.session_model.specs.Items.{Item};
ghost use Rattle.session_model.specs.Subscriptions.{cursor_of};
ghost use Rattle.session_model.specs.Methods.{phase_at};
ghost use Rattle.session_model.specs.State.{state_of};
ghost use Rattle.session_model.specs.Shown.{shown_in, calls_of, merged};
ghost use Rattle.session_model.specs.Data.{data_of};
ghost use Rattle.session_model.specs.Out.{out, out_texts};
ghost use Rattle.session_model.specs.Fits.{Fits};
ghost use Rattle.session_model.specs.Kept.{AreStored, AreKept};
ghost use Rattle.session_model.specs.Counting.{results, updateds, methods_handled, is_running, is_armed, number_in};
ghost use Rattle.session_model.specs.CaughtUp.{AreCaughtUp};
ghost use Rattle.session_model.specs.LooksBack.{cursor_in, opened_in, loaded_at, is_closed, WasFenceOpen, answers_of, answers_by_fate};
ghost use Rattle.session_model.specs.Answering.{Answers};
ghost use Rattle.session_model.specs.Replies.{replies, replies_due};
ghost use Rattle.session_model.specs.Reflected.{methods_reflected};
ghost use Rattle.session_journal_laws.specs.Shows.{AreInOrder};
ghost use Rattle.session_journal_laws.specs.Floors.{AreFloors};
ghost use Rattle.session_journal_laws.specs.Told.{is_told};

pub mod stored;

pub use stored::Stored;

/// A session that has taken nothing stands for no texts, over every store.
pub fn new_sessions_stand()
    ensures { (app : App) (number : ℕ) (C : List Moment) → Stands [] C [] (new_session app number) }
{}

/// Later moments of the store keep what a session stands for.
pub fn longer_stores_keep_it()
    ensures { (taken : List (List ℕ)) (C more : List Moment) (sent : List (List ℕ)) (session : Carried) →
        Stands taken C sent session → Stands taken (C ++ more) sent session }
{}

/// The first text of the outbox is sent.
pub fn sending_keeps_it()
    ensures { (taken : List (List ℕ)) (C : List Moment) (sent rest : List (List ℕ)) (session : Carried) (t : List ℕ) →
        Stands taken C sent session → session.outbox ≡ t ∷ rest →
        Stands taken C (sent ++ t ∷ []) (record session { outbox = rest }) }
{}

/// A text is taken whose message waits.
pub fn queueing_keeps_it()
    ensures { (taken : List (List ℕ)) (C : List Moment) (sent : List (List ℕ)) (session : Carried) (t : List ℕ) (message : ClientMessage) →
        Stands taken C sent session → taken_text session.own.connected t ≡ to_queue message →
        Stands (taken ++ t ∷ []) C sent (record session { taken = suc session.taken; waiting = session.waiting ++ message ∷ [] }) }
{}

/// What is published of contents is the one answer of the whole query.
pub fn the_query_answers_what_is_published()
    ensures { (cursors : ACursors) (rows : Rows) (answer : List Publish) → IsSorted key_cmp rows →
        IsQuery cursors rows answer ↔ (answer ≡ map publish_of (queried cursors rows)) }
{}

/// What is published of documents that messages can hold is such documents.
pub fn what_is_published_can_be_stored()
    ensures { (cursors : ACursors) (rows : Rows) → IsSorted key_cmp rows → AreStored rows → AreStored (queried cursors rows) }
{}

/// A journal that fits a store's moments fits those with later ones.
pub fn journals_fit_longer_stores()
    ensures { (app : App) (number : ℕ) (C more : List Moment) (items : List Item) → Fits app number C items → Fits app number (C ++ more) items }
{}

/// A beginning of a journal that fits is one that fits.
pub fn beginnings_fit()
    ensures { (app : App) (number : ℕ) (C : List Moment) (items : List Item) → Fits app number C items → (n : ℕ) → Fits app number C (take n items) }
{}

/// Later moments of the store leave the texts of a journal.
pub fn longer_stores_leave_the_texts()
    ensures { (app : App) (number : ℕ) (C more : List Moment) (items : List Item) → Fits app number C items →
        out_texts (C ++ more) number items ≡ out_texts C number items }
{}

/// The texts of a journal read as its messages.
pub fn texts_read_as_the_messages()
    ensures { (app : App) (number : ℕ) (C : List Moment) (items : List Item) → AreKept C → Fits app number C items →
        messages_in (out_texts C number items) ≡ out C number items }
{}

/// Whoever takes a journal's messages has the merge.
pub fn messages_lead_to_the_merge()
    ensures { (C : List Moment) (number : ℕ) (items : List Item) → all_taken text_cmp key_cmp [] (data_of (out C number items)) ≡ merged C items }
{}

/// The merge has, field by field, what the live subscription shows that has published the field longest.
pub fn the_merge_is_of_what_is_shown()
    ensures { (C : List Moment) (items : List Item) → AreInOrder C →
        IsMerge key_cmp text_cmp (shown_in C (state_of items).subs) (shown_since key_cmp text_cmp (calls_of C items)) (merged C items) }
{}

/// Each method that was handled runs still or has its `result`, and each `result` waits for its fence or has its `updated`.
pub fn methods_have_a_result_and_an_updated()
    ensures { (app : App) (number : ℕ) (C : List Moment) (items : List Item) → Fits app number C items → (id : List ℕ) →
        (methods_handled id items ≡ results id (out C number items) + number_in is_running id (state_of items).methods)
        × (results id (out C number items) ≡ updateds id (out C number items) + number_in is_armed id (state_of items).methods) }
{}

/// No `updated` of an id comes before its `result`.
pub fn results_come_first()
    ensures { (app : App) (number : ℕ) (C : List Moment) (items : List Item) → Fits app number C items →
        (id : List ℕ) (ms rest : List ServerMessage) → out C number items ≡ ms ++ rest → updateds id ms ≤ results id ms }
{}

/// From the `updated` of a method on each live subscription shows at least what the method wrote, or will once it is
/// loaded.
pub fn what_is_updated_is_shown()
    ensures { (app : App) (number : ℕ) (C : List Moment) (items : List Item) → Fits app number C items → AreCaughtUp (state_of items) }
{}

/// At no time are more methods with an id told `updated` than there are whose writes are shown by each live subscription
/// that is loaded.
pub fn no_method_is_updated_before_it_is_shown()
    ensures { (app : App) (number : ℕ) (C : List Moment) (items : List Item) → Fits app number C items → (id : List ℕ) (n : ℕ) →
        updateds id (out C number (take n items)) ≤ methods_reflected id (take n items) }
{}

/// A subscription has one `ready` where it was loaded, and then one `nosub` where it was closed.
pub fn subscriptions_are_answered()
    ensures { (app : App) (number : ℕ) (C : List Moment) (items : List Item) → Fits app number C items →
        (s : ℕ) → answers_of s items ≡ answers_by_fate (is_some (loaded_at s items)) (is_closed s items) }
{}

/// The `ready`s and `nosub`s with an id are those that the requests with it have, in their order: a `sub` that opened a
/// subscription has a `ready` where the subscription is loaded, one that was refused has a `nosub`, and so has each `unsub`.
pub fn requests_are_answered()
    ensures { (app : App) (number : ℕ) (C : List Moment) (items : List Item) → Fits app number C items →
        (id : List ℕ) → replies id (out C number items) ≡ replies_due id items }
{}

/// A journal has at most three items for each text that its session took, and as many as the history has entries for each
/// subscription that was opened.
pub fn journals_are_short()
    ensures { (app : App) (number : ℕ) (C : List Moment) (entries : ℕ) (texts : List (List ℕ)) (items : List Item) (waiting : List ClientMessage) →
        length C ≡ suc entries → Fits app number C items → Answers texts items waiting → length items ≤ 3 * length texts + entries * opened_in items }
{}

/// The place that is kept of a subscription is the one that the journal says.
pub fn cursor_looks_back()
    ensures { (app : App) (number : ℕ) (C : List Moment) (items : List Item) → Fits app number C items →
        (s : ℕ) → cursor_of s (state_of items).subs ≡ cursor_in s items }
{}

/// The floor that is kept of each live subscription is the one that the journal says.
pub fn floor_looks_back()
    ensures { (app : App) (number : ℕ) (C : List Moment) (items : List Item) → Fits app number C items → AreFloors items (state_of items).subs }
{}

/// Those calls are told `updated` whose fence was open at some time, so each is told when it is open for the first time.
pub fn told_when_first_open()
    ensures { (app : App) (number : ℕ) (C : List Moment) (items : List Item) → Fits app number C items →
        (k : ℕ) → (is_told (phase_at k (state_of items).methods) ≡ true) ↔ WasFenceOpen k items }
{}
