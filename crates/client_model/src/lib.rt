//! A DDP client as contracts see it: what it sends and takes, its documents with the changes of open simulations over the
//! server's, its subscriptions and its calls (Meteor's DDP.md; Meteor's guide, "Methods").
//!
//! There is no code here but the enum that serves as the definitions' data; each other function is a law of the definitions,
//! which its contract states.
#![tactic(auto)]

ghost use Rattle.std.specs.Prelude.{◌≡◌, ℕ, suc, false, true, List, length, Option, Some, None};
ghost use Rattle.std.specs.List.{list_any, list_all};
ghost use Rattle.std.specs.Ordering.{eq_by_cmp};
ghost use Rattle.map_model.specs.Maps.{at, IsSorted};
ghost use Rattle.value_model.specs.Val.{Val};
ghost use Rattle.view_model.specs.Pending.{is_among, holders};
ghost use Rattle.ejson_value.specs.declared.key.Key.{Key};
ghost use Rattle.ejson_value.specs.Key.{key_cmp};
ghost use Rattle.ejson_value.specs.Rows.{Rows};
ghost use Rattle.client_model.specs.Client.{Call, Client, new_client};
ghost use Rattle.client_model.specs.Taking.{told_text, breaks};
ghost use Rattle.client_model.specs.Asking.{subscribed, unsubscribed, called, with_text};
ghost use Rattle.client_model.specs.Showing.{IsShown, IsHeldOn, all_told};

pub mod subs;

/// A client that took nothing yet shows what the server has: nothing.
pub fn new_clients_show_what_the_server_has()
    ensures { IsShown new_client }
{}

/// Whatever texts a client takes, its view has the server's document, or its absence, at each key that no open call holds,
/// and only calls that await their `updated` hold any.
pub fn clients_show_what_the_server_has()
    ensures { (c : Client) (texts : List (List ℕ)) → IsShown c → IsShown (all_told c texts) }
{}

/// A call leaves it so, where its simulation changes no document but those that it touches.
pub fn calling_clients_show_what_the_server_has()
    ensures { (c : Client) (method : List ℕ) (params : List Val) (view : Rows) (keys : List Key) → IsSorted key_cmp view →
        ((q : Key) → list_any (eq_by_cmp key_cmp q) keys ≡ false → at key_cmp view q ≡ at key_cmp c.documents.view q) →
        IsShown c → IsShown (called method params view keys c) }
{}

/// What else a client asks for or sends leaves it so.
pub fn asking_clients_show_what_the_server_has()
    ensures subs { (c : Client) (id name : List ℕ) (params : List Val) → IsShown c → IsShown (subscribed id name params c) }
    ensures unsubs { (c : Client) (id : List ℕ) → IsShown c → IsShown (unsubscribed id c) }
    ensures texts { (c : Client) (text : List ℕ) → IsShown c → IsShown (with_text text c) }
{}

/// A call holds the documents that its simulation touched until its `updated` is taken.
pub fn calls_hold_what_they_touched()
    ensures touched { (c : Client) (method : List ℕ) (params : List Val) (view : Rows) (keys : List Key) (k : Key) →
        list_any (eq_by_cmp key_cmp k) keys ≡ true →
        is_among (holders key_cmp (called method params view keys c).documents.pending k) (suc (length c.calls)) ≡ true }
    ensures called { (c : Client) (method : List ℕ) (params : List Val) (view : Rows) (keys : List Key) → IsHeldOn c (called method params view keys c) }
    ensures told { (c : Client) (text : List ℕ) → IsShown c → IsHeldOn c (told_text c text) }
{}

/// Once the server said of each call that its writes are there, the view is the server's copy.
pub fn clients_at_rest_show_the_servers_copy()
    ensures { (c : Client) → IsShown c → list_all (λ (call : Call). call.is_updated) c.calls ≡ true → c.documents.view ≡ c.documents.server }
{}

/// A refused text breaks the client and changes nothing else.
pub fn refused_texts_only_break()
    ensures { (c : Client) (t : List ℕ) (n : ℕ) → (told_text c t).broken ≡ Some n → c.broken ≡ None → told_text c t ≡ breaks n c }
{}
