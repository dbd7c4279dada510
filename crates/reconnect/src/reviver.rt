//! What a revived client remembers.
ghost use Rattle.std.specs.Prelude.{◌≡◌, ◌++◌, ◌∷◌, ◌||◌, [], map, filter, not, true, false, None, Ok, IfOk, OnOk, OnErr};
ghost use Rattle.ddp_messages.specs.ServerMessage as server;
ghost use Rattle.ddp_messages.specs.ServerMessage.{server_view};
ghost use Rattle.ddp_messages.specs.Answers.{server_answer};
ghost use Rattle.reconnect_model.specs.Revival.{new_revival};
ghost use Rattle.reconnect_model.specs.Saying.{queues, says, first_of, loses, connect_text, sub_texts, call_texts};
ghost use Rattle.ddp_messages.specs.Texts.{server_text};
ghost use Rattle.reconnect_model.specs.Giving.{settled, all_settled, passed, holds, connects, is_among, is_at_once, is_held, half_done, half_ended};
ghost use Rattle.reconnect_model.specs.Giving.{updated_before, made_ready, given_for, released, revived, revived_when};
ghost use Rattle.reconnect_parts.specs.Asking.{seen, IsAskedFor};
ghost use Rattle.reconnect.specs.Parts.{parts_of, asked_parts};
ghost use Rattle.reconnect.specs.Hearing.{Notes, Hears, HearsOn};
ghost use Rattle.reconnect.specs.Giving.{Gives, updates_of, ends_of, lacks_again, rest_of};

use client_core::texts::connect;
use ddp_messages::{FromClient, FromServer};
use ejson_value::{Contents, Mem, Names, Text};
use json::Scratch;
use reconnect_parts::calls::Calls;
use reconnect_parts::differences::push_differences;
use reconnect_parts::documents::take;
use reconnect_parts::ended::Ended;
use reconnect_parts::fault::HeardFault;
use reconnect_parts::held::HeldText;
use reconnect_parts::lacking::Lacks;
use reconnect_parts::places::{Ids, Queue, queue_placed};
use reconnect_parts::reading::{from_client, from_server};
use reconnect_parts::subs::Subs;
use reconnect_parts::texts::{Texts, nosub, only, push_copy, updated};
use std::alloc::Global;
use std::marker::Model;
use std::mem;

/// What a client that comes back after a lost link remembers between its sessions: what it says again, what it holds back, and what
/// it gives to the client. Contracts see it as a `Revival`.
#[derive(Drop)]
pub struct Reviver {
    alloc: Global,
    // How many texts the client queued, and how many of them before the last loss.
    queued: u64,
    begun: u64,
    waiting: Queue,
    subs: Subs,
    ended: Ended,
    calls: Calls,
    // The documents that the client was given, while they are others than those that the session sent.
    given: Contents,
    copy: Contents,
    is_known: bool,
    is_connected: bool,
    lacking: Lacks,
    is_revived: bool,
    held: Vec<HeldText>,
    broken: Option<u8>,
    // Room for reading, lent to each text.
    scratch: Box<Scratch>,
}

impl Model for Reviver {
    ghost use Rattle.std.specs.Prelude.{if◌then◌else◌};
    ghost use Rattle.std.specs.Coded.{codes};
    ghost use Rattle.value_model.specs.Coding.{val_code};
    ghost use Rattle.ejson_value.specs.Rows.{rows_code};
    ghost use Rattle.reconnect_model.specs.Revival.{Revival};

    ghost Value = { Revival };

    ghost coded = { Prim.hlevel (codes, val_code, rows_code) };

    ghost view = { λ a. record {
      queued = a.queued;
      begun = a.begun;
      waiting = a.waiting.items;
      subs = a.subs;
      ended = a.ended;
      calls = a.calls;
      given = if a.is_revived then a.copy else a.given;
      copy = a.copy;
      is_known = a.is_known;
      is_connected = a.is_connected;
      lacking = a.lacking;
      is_revived = a.is_revived;
      held = a.held.items;
      broken = a.broken;
    } };
}

// Whether it is the answer that opens a session.
fn connects(message: &FromServer) -> bool
    ensures { result ≡ connects (server_view message.now) }
{
    match message {
        FromServer::Connected { .. } => true,
        FromServer::Failed { .. }
        | FromServer::Ping { .. }
        | FromServer::Pong { .. }
        | FromServer::Nosub { .. }
        | FromServer::Ready { .. }
        | FromServer::Data(_)
        | FromServer::Result { .. }
        | FromServer::Updated { .. }
        | FromServer::Error { .. }
        | FromServer::Unknown => false,
    }
}

// Whether the message is given in any epoch.
fn is_at_once(is_known: bool, message: &FromServer) -> bool
    ensures { result ≡ is_at_once is_known (server_view message.now) }
{
    match message {
        FromServer::Ping { .. }
        | FromServer::Pong { .. }
        | FromServer::Error { .. }
        | FromServer::Failed { .. } => true,
        FromServer::Connected { .. } => !is_known,
        FromServer::Nosub { .. }
        | FromServer::Ready { .. }
        | FromServer::Data(_)
        | FromServer::Result { .. }
        | FromServer::Updated { .. }
        | FromServer::Unknown => false,
    }
}

// Whether the message is held, where it isn't given.
fn is_held(message: &FromServer) -> bool
    ensures { result ≡ is_held (server_view message.now) }
{
    match message {
        FromServer::Connected { .. } | FromServer::Data(_) => false,
        FromServer::Failed { .. }
        | FromServer::Ping { .. }
        | FromServer::Pong { .. }
        | FromServer::Nosub { .. }
        | FromServer::Ready { .. }
        | FromServer::Result { .. }
        | FromServer::Updated { .. }
        | FromServer::Error { .. }
        | FromServer::Unknown => true,
    }
}

// The client queued a message, whose text stands behind so many others.
fn ask(
    subs: &mut Subs,
    ended: &mut Ended,
    calls: &mut Calls,
    place: u64,
    text: &Text,
    message: &Option<FromClient>,
) -> Result<(), Mem>
    ensures ok { OnOk result (parts_of subs.new ended.new calls.new ≡ asked_parts place text.now (seen message.now) (parts_of subs.old ended.old calls.old)) }
    ensures subs { OnErr result (subs.new ≡ subs.old) }
    ensures ended { OnErr result (ended.new ≡ ended.old) }
    ensures calls { OnErr result (calls.new ≡ calls.old) }
{
    match message {
        Some(FromClient::Sub { id, .. }) => subs.ask(id, place, text),
        Some(FromClient::Unsub { id }) => {
            ended.ask(id, place)?;
            subs.end(id);
            Ok(())
        }
        Some(FromClient::Method { id, .. }) => calls.ask(id, place, text),
        Some(FromClient::Connect { .. } | FromClient::Ping { .. } | FromClient::Pong { .. })
        | None => Ok(()),
    }
}

// What the client is given for a held text, of which `updated` leaves out the methods that had theirs before.
fn push_given(
    alloc: Global,
    texts: &mut Texts,
    before: &Ids,
    text: &Text,
    message: &FromServer,
) -> Result<(), Mem>
    ensures { OnOk result (texts.new ≡ texts.old ++ given_for before.now.keys text.now (server_view message.now)) }
{
    match message {
        FromServer::Updated { methods } => push_left(alloc, texts, before, text, methods),
        FromServer::Connected { .. }
        | FromServer::Failed { .. }
        | FromServer::Ping { .. }
        | FromServer::Pong { .. }
        | FromServer::Nosub { .. }
        | FromServer::Ready { .. }
        | FromServer::Data(_)
        | FromServer::Result { .. }
        | FromServer::Error { .. }
        | FromServer::Unknown => push_copy(texts, text),
    }
}

// The ids that aren't among these.
fn left_of(alloc: Global, before: &Ids, ids: &Names) -> Result<Names, Mem>
    ensures { IfOk result (λ left. left ≡ filter (λ id. not (is_among before.now.keys id)) ids.now) }
{
    let mut left = Names::new(alloc);
    for id in ids.as_slice() {
        if !before.contains(id) {
            push_copy(&mut left, id)?;
        }
    }
    Ok(left)
}

fn push_left(
    alloc: Global,
    texts: &mut Texts,
    before: &Ids,
    text: &Text,
    methods: &Names,
) -> Result<(), Mem>
    ensures { OnOk result (texts.new ≡ texts.old ++ given_for before.now.keys text.now (server.updated methods.now)) }
{
    let left = left_of(alloc, before, methods)?;
    if left.is_empty() {
        return Ok(());
    }
    if left.len() == methods.len() {
        return push_copy(texts, text);
    }
    texts.push(updated(alloc, left)?)
}

impl Reviver {
    /// Nothing was queued and nothing heard.
    pub fn new(alloc: Global) -> Result<Reviver, Mem>
        ensures { IfOk result (λ reviver. reviver ≡ new_revival) }
    {
        let scratch = Box::new(alloc, Scratch::new(alloc))?;
        Ok(Reviver {
            alloc,
            queued: 0,
            begun: 0,
            waiting: Queue::new(alloc),
            subs: Subs::new(alloc),
            ended: Ended::new(alloc),
            calls: Calls::new(alloc),
            given: Contents::new(alloc),
            copy: Contents::new(alloc),
            is_known: false,
            is_connected: false,
            lacking: Lacks::nothing(alloc),
            is_revived: true,
            held: Vec::new(alloc),
            broken: None,
            scratch,
        })
    }

    /// Whether the present session has answered all that it was asked for again. The first one is asked for nothing again.
    pub fn revived(&self) -> bool
        ensures { result ≡ self.now.is_revived }
    {
        self.is_revived
    }

    /// The documents that the present session sent.
    pub fn copy(&self) -> &Contents
        ensures { result.now ≡ self.now.copy }
    {
        &self.copy
    }

    /// The client queued a text, which waits to be said. `Mem` may come behind 2^64 - 1 texts, too.
    pub fn queued(&mut self, text: &Text) -> Result<(), Mem>
        ensures ok { OnOk result (self.new ≡ queues self.old text.now) }
        ensures err { OnErr result (self.new ≡ self.old) }
    {
        let message = from_client(self.alloc, text, &mut self.scratch)?;
        let asked = self.wait(text, &message);
        drop(message);
        asked
    }

    // The text of this message waits.
    #[tactic(auto, using(crate::proofs::Parts::asked_is))]
    fn wait(&mut self, text: &Text, message: &Option<FromClient>) -> Result<(), Mem>
        requires { IsAskedFor text.now message.now }
        ensures ok { OnOk result (self.new ≡ queues self.old text.now) }
        ensures err { OnErr result (self.new ≡ self.old) }
    {
        let Some(queued) = self.queued.checked_add(1) else {
            return Err(Mem);
        };
        let waiting = text.copy()?;
        self.waiting.reserve(1)?;
        ask(
            &mut self.subs,
            &mut self.ended,
            &mut self.calls,
            self.queued,
            text,
            message,
        )?;
        self.waiting.push_back(waiting).unwrap();
        self.queued = queued;
        Ok(())
    }

    /// The next text to be said, which waits no more. There is none exactly where nothing waits.
    pub fn said(&mut self) -> Option<Text>
        ensures text { result ≡ first_of self.old.waiting }
        ensures says { self.new ≡ says self.old }
    {
        self.waiting.pop_front()
    }

    // What the next session is asked for.
    fn again(&self) -> Result<Queue, Mem>
        ensures { IfOk result (λ waiting. waiting.items ≡ connect_text ∷ sub_texts self.now.subs ++ call_texts self.now.calls) }
    {
        let mut waiting = Queue::new(self.alloc);
        waiting.push_back(connect(self.alloc)?)?;
        queue_placed(&mut waiting, self.subs.texts(self.alloc)?)?;
        queue_placed(&mut waiting, self.calls.owed_texts(self.alloc)?)?;
        Ok(waiting)
    }

    // What the next session will lack.
    fn lacking_again(&self) -> Result<Lacks, Mem>
        ensures { IfOk result (λ lacking. lacking ≡ lacks_again self.now) }
    {
        let subs = self.subs.ids(self.alloc)?;
        let results = self.calls.owed_ids(self.alloc)?;
        let updates = self.calls.owed_ids(self.alloc)?;
        Ok(Lacks {
            subs,
            results,
            updates,
        })
    }

    // The session is gone.
    fn lose(&mut self, waiting: Queue, lacking: Lacks)
        requires waiting { waiting.items ≡ connect_text ∷ sub_texts self.old.subs ++ call_texts self.old.calls }
        requires lacking { lacking ≡ lacks_again self.old }
        ensures { self.new ≡ loses self.old }
    {
        let copy = mem::replace(&mut self.copy, Contents::new(self.alloc));
        if self.is_revived {
            self.given = copy;
        }
        self.begun = self.queued;
        self.waiting = waiting;
        self.lacking = lacking;
        self.is_connected = false;
        self.is_revived = false;
        self.held = Vec::new(self.alloc);
    }

    /// The link was lost: what waits and what is held are dropped. Then there wait `connect`, the wanted subscriptions in the order
    /// queued, and the methods without a result in the order queued.
    pub fn lost(&mut self) -> Result<(), Mem>
        ensures ok { OnOk result (self.new ≡ loses self.old) }
        ensures err { OnErr result (self.new ≡ self.old) }
    {
        let waiting = self.again()?;
        let lacking = self.lacking_again()?;
        self.lose(waiting, lacking);
        Ok(())
    }

    // The client was given an answer.
    fn settle(&mut self, message: &FromServer)
        ensures { self.new ≡ settled self.old (server_view message.now) }
    {
        match message {
            FromServer::Nosub { id, .. } => {
                self.subs.end(id);
                self.ended.end(id);
            }
            FromServer::Result { id, .. } => self.calls.answer(id),
            FromServer::Updated { methods } => self.calls.update_all(methods),
            FromServer::Connected { .. }
            | FromServer::Failed { .. }
            | FromServer::Ping { .. }
            | FromServer::Pong { .. }
            | FromServer::Ready { .. }
            | FromServer::Data(_)
            | FromServer::Error { .. }
            | FromServer::Unknown => {}
        }
    }

    // Before the session's `connected`.
    #[tactic(auto, using(crate::proofs::Noting::given_noted, crate::proofs::Noting::given_still))]
    fn note_early(&mut self, message: &FromServer) -> Result<(), HeardFault>
        requires { self.old.is_connected ≡ false }
        ensures { Notes (server_view message.now) self.old self.new result }
    {
        match message {
            FromServer::Connected { .. } => {
                self.is_connected = true;
                Ok(())
            }
            FromServer::Failed { .. } if self.is_known => Err(HeardFault::ServerSent(4)),
            FromServer::Failed { .. }
            | FromServer::Ping { .. }
            | FromServer::Pong { .. }
            | FromServer::Error { .. }
            | FromServer::Unknown => Ok(()),
            FromServer::Nosub { .. }
            | FromServer::Ready { .. }
            | FromServer::Data(_)
            | FromServer::Result { .. }
            | FromServer::Updated { .. } => Err(HeardFault::ServerSent(3)),
        }
    }

    // Afterwards.
    #[tactic(auto, using(crate::proofs::Noting::given_noted, crate::proofs::Noting::given_still))]
    fn note_late(&mut self, message: &FromServer) -> Result<(), HeardFault>
        requires { self.old.is_connected ≡ true }
        ensures { Notes (server_view message.now) self.old self.new result }
    {
        match message {
            FromServer::Connected { .. } | FromServer::Failed { .. } => {
                Err(HeardFault::ServerSent(4))
            }
            FromServer::Data(message) => take(&mut self.copy, message),
            FromServer::Nosub { .. }
            | FromServer::Ready { .. }
            | FromServer::Result { .. }
            | FromServer::Updated { .. }
            | FromServer::Ping { .. }
            | FromServer::Pong { .. }
            | FromServer::Error { .. }
            | FromServer::Unknown => {
                self.lacking.note(message);
                Ok(())
            }
        }
    }

    // The session sent a message, which is noted unless a rule refuses it.
    fn note(&mut self, message: &FromServer) -> Result<(), HeardFault>
        ensures { Notes (server_view message.now) self.old self.new result }
    {
        if self.is_connected {
            self.note_late(message)
        } else {
            self.note_early(message)
        }
    }

    // The message is given to the client.
    fn give(&mut self, text: &Text, message: &FromServer, texts: &mut Texts) -> Result<(), Mem>
        requires { (self.old.is_revived || is_at_once self.old.is_known (server_view message.now)) ≡ true }
        ensures { OnOk result (Gives (passed self.old text.now (server_view message.now)) self.new texts.old texts.new) }
    {
        push_copy(texts, text)?;
        self.settle(message);
        self.is_known = self.is_known || connects(message);
        Ok(())
    }

    // The message is held, if such a one is.
    fn hold(&mut self, text: &Text, message: FromServer) -> Result<(), Mem>
        requires of { server_answer text.now ≡ Ok (server_view message) }
        ensures { OnOk result (self.new ≡ holds self.old text.now (server_view message)) }
    {
        if !is_held(&message) {
            return Ok(());
        }
        let text = text.copy()?;
        self.held.push(HeldText::of(text, message))?;
        Ok(())
    }

    // The message is given to the client, or held.
    fn pass(&mut self, text: &Text, message: FromServer, texts: &mut Texts) -> Result<(), Mem>
        requires of { server_answer text.now ≡ Ok (server_view message) }
        ensures { OnOk result (Gives (passed self.old text.now (server_view message)) self.new texts.old texts.new) }
    {
        if self.is_revived || is_at_once(self.is_known, &message) {
            let given = self.give(text, &message, texts);
            drop(message);
            given
        } else {
            self.hold(text, message)
        }
    }

    // The methods with a result and no `updated`, in the order queued.
    fn half_done(&self) -> Result<Queue, Mem>
        ensures { IfOk result (λ ids. ids.items ≡ half_done self.now.calls) }
    {
        let mut ids = Queue::new(self.alloc);
        queue_placed(&mut ids, self.calls.half_done(self.alloc)?)?;
        Ok(ids)
    }

    // The client is given an `updated` of the method.
    fn give_updated(&mut self, id: &Text, texts: &mut Texts) -> Result<(), Mem>
        ensures settled { OnOk result (self.new ≡ settled self.old (server.updated (id.now ∷ []))) }
        ensures texts { OnOk result (texts.new ≡ texts.old ++ server_text (server.updated (id.now ∷ [])) ∷ []) }
    {
        let ids = only(self.alloc, id)?;
        self.calls.update_all(&ids);
        texts.push(updated(self.alloc, ids)?)
    }

    // The client is given a `nosub` of the subscription.
    fn give_nosub(&mut self, id: &Text, texts: &mut Texts) -> Result<(), Mem>
        ensures settled { OnOk result (self.new ≡ settled self.old (server.nosub id.now None)) }
        ensures texts { OnOk result (texts.new ≡ texts.old ++ server_text (server.nosub id.now None) ∷ []) }
    {
        self.subs.end(id);
        self.ended.end(id);
        texts.push(nosub(self.alloc, id)?)
    }

    fn give_updates(&mut self, ids: Queue, texts: &mut Texts) -> Result<(), Mem>
        ensures settled { OnOk result (self.new ≡ all_settled self.old (updates_of ids.items)) }
        ensures texts { OnOk result (texts.new ≡ texts.old ++ map server_text (updates_of ids.items)) }
    {
        for id in ids {
            self.give_updated(&id, texts)?;
        }
        Ok(())
    }

    fn give_ends(&mut self, ids: &Names, texts: &mut Texts) -> Result<(), Mem>
        ensures settled { OnOk result (self.new ≡ all_settled self.old (ends_of ids.now)) }
        ensures texts { OnOk result (texts.new ≡ texts.old ++ map server_text (ends_of ids.now)) }
    {
        for id in ids.as_slice() {
            self.give_nosub(id, texts)?;
        }
        Ok(())
    }

    // The held texts are given, one after another.
    #[tactic(auto, using(crate::proofs::Released::next_revival, crate::proofs::Released::next_texts))]
    fn release(&mut self, before: &Ids, held: &[HeldText], texts: &mut Texts) -> Result<(), Mem>
        ensures { OnOk result (Gives (released before.now.keys self.old held.now) self.new texts.old texts.new) }
    {
        for text in held {
            push_given(self.alloc, texts, before, text.text(), text.message())?;
            self.settle(text.message());
        }
        Ok(())
    }

    // The documents are the session's, and nothing is held any more.
    fn make_ready(&mut self) -> Vec<HeldText>
        ensures held { result.items ≡ self.old.held }
        ensures ready { self.new ≡ made_ready self.old }
    {
        self.given = Contents::new(self.alloc);
        self.is_revived = true;
        mem::replace(&mut self.held, Vec::new(self.alloc))
    }

    // What the sessions that are gone were to say, and then the held texts.
    fn give_rest(
        &mut self,
        updates: Queue,
        ends: &Names,
        before: &Ids,
        texts: &mut Texts,
    ) -> Result<(), Mem>
        requires updates { updates.items ≡ half_done self.old.calls }
        requires ends { ends.now ≡ half_ended self.old.begun self.old.ended }
        requires before { before.now.keys ≡ updated_before self.old.calls }
        ensures { OnOk result (Gives (rest_of self.old) self.new texts.old texts.new) }
    {
        let held = self.make_ready();
        self.give_updates(updates, texts)?;
        self.give_ends(ends, texts)?;
        self.release(before, held.as_slice(), texts)
    }

    // The epoch is revived.
    fn revive(&mut self, texts: &mut Texts) -> Result<(), Mem>
        requires { self.old.is_revived ≡ false }
        ensures { OnOk result (Gives (revived self.old) self.new texts.old texts.new) }
    {
        let updates = self.half_done()?;
        let ends = self.ended.earlier(self.alloc, self.begun)?;
        let before = self.calls.updated_ids(self.alloc)?;
        push_differences(self.alloc, texts, &self.given, &self.copy)?;
        self.give_rest(updates, &ends, &before, texts)
    }

    // The message is given or held, and the epoch is revived if all is answered then.
    fn pass_on(&mut self, text: &Text, message: FromServer, texts: &mut Texts) -> Result<(), Mem>
        requires of { server_answer text.now ≡ Ok (server_view message) }
        ensures { OnOk result (Gives (revived_when (passed self.old text.now (server_view message))) self.new texts.old texts.new) }
    {
        self.pass(text, message, texts)?;
        if !self.is_revived && self.is_connected && self.lacking.is_over() {
            return self.revive(texts);
        }
        Ok(())
    }

    // What the client is given for the message.
    fn given(&mut self, text: &Text, message: FromServer) -> Result<Texts, Mem>
        requires of { server_answer text.now ≡ Ok (server_view message) }
        ensures { IfOk result (λ texts. revived_when (passed self.old text.now (server_view message)) ≡ record { revival = self.new; texts = texts }) }
    {
        let mut texts = Texts::new(self.alloc);
        self.pass_on(text, message, &mut texts)?;
        Ok(texts)
    }

    // Takes a text, where none was refused.
    fn hear(&mut self, text: &Text) -> Result<Texts, HeardFault>
        ensures { HearsOn text.now self.old self.new result }
    {
        let message = from_server(self.alloc, text, &mut self.scratch)?;
        if let Err(fault) = self.note(&message) {
            drop(message);
            return Err(fault);
        }
        Ok(self.given(text, message)?)
    }

    /// The server sent a text. It answers the texts that the client is to be given, in order. `ServerSent` comes exactly where a rule
    /// refuses the text, with the first such rule, and from then on, and nowhere else, `Idle`. What `Memory` leaves is open.
    pub fn heard(&mut self, text: &Text) -> Result<Texts, HeardFault>
        ensures { Hears text.now self.old self.new result }
    {
        if self.broken.is_some() {
            return Err(HeardFault::Idle);
        }
        let heard = self.hear(text);
        if let Err(HeardFault::ServerSent(number)) = heard {
            self.broken = Some(number);
        }
        heard
    }
}
