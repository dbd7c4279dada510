//! The client.
ghost use Rattle.std.specs.Prelude.{◌≡◌, ◌≤◌, ◌∷◌, [], length, suc, option_map, IfOk, OnOk, OnErr};
ghost use Rattle.std.specs.Option.{option_copied};
ghost use Rattle.value_model.specs.Val.{text as text_val};
ghost use Rattle.program_steps.specs.Runs.{outcome_view};
ghost use Rattle.client_model.specs.Client.{new_client};
ghost use Rattle.client_model.specs.Asking.{is_connected, can_sub, subscribed, can_unsub, unsubscribed, can_send, with_text, outcome_of, is_settled};
ghost use Rattle.client_model.specs.Asking.{seed_of, call_limit};
ghost use Rattle.client_model.specs.Showing.{IsShown};
ghost use Rattle.ejson_value.specs.View.{view as value_view};
ghost use Rattle.stub_simulation.specs.Simulating.{simulation, IsSimulated};
ghost use Rattle.client_core.specs.Asked.{Does, Calls, AreOf, IsEntered, IsSent, asked_for, called_by};
ghost use Rattle.client_core.specs.State.{show_lines};
ghost use Rattle.client_model.specs.Lines.{line_texts};

use crate::calls::{Call, are_settled, call_at};
use crate::fault::ClientFault;
use crate::lines::show;
use crate::numbers::seed_of;
use crate::subs::Subs;
use crate::texts;
use app_model::App;
use ejson_codec::Lines;
use ejson_value::{Items, Mem, Text, Value};
use json::Scratch;
use minimongo::View;
use program_steps::Outcome;
use std::alloc::Global;
use std::collections::VecDeque;
use std::marker::Model;
use stub_simulation::{Simulated, simulate_over};

/// How many calls a client makes.
const CALL_LIMIT: usize = 65_536;

/// A client. Contracts see its application, its name, and its state.
pub struct Client {
    pub(crate) alloc: Global,
    pub(crate) app: App,
    pub(crate) name: Text,
    /// The name of the session, once `connected` was taken.
    pub(crate) session: Option<Text>,
    /// Whether the version was refused.
    pub(crate) is_failed: bool,
    /// The number of the refusal of the text that broke the client.
    pub(crate) broken: Option<u8>,
    /// The texts that are to be sent, the first one first.
    pub(crate) waiting: VecDeque<Text>,
    pub(crate) view: View,
    pub(crate) subs: Subs,
    /// The first one has the number 1.
    pub(crate) calls: Vec<Call>,
    /// Room for reading, lent to each text.
    pub(crate) scratch: Box<Scratch>,
}

// A `derive` would have each crate that lets one go prove anew how all that it holds is let go.
impl Drop for Client {
    fn drop(self) {
        let Client {
            alloc: _,
            app,
            name,
            session,
            is_failed: _,
            broken,
            waiting,
            view,
            subs,
            calls,
            scratch,
        } = self;
        drop(app);
        drop(name);
        drop(session);
        drop(broken);
        drop(waiting);
        drop(view);
        drop(subs);
        drop(calls);
        drop(scratch);
    }
}

impl Model for Client {
    ghost use Rattle.std.specs.Prelude.{◌≤◌, length};
    ghost use Rattle.std.specs.Coded.{codes};
    ghost use Rattle.value_model.specs.Coding.{val_code};
    ghost use Rattle.minimongo.specs.State.{documents_code};
    ghost use Rattle.client_model.specs.Asking.{call_limit};
    ghost use Rattle.client_model.specs.Showing.{IsShown};
    ghost use Rattle.client_core.specs.State.{Own, state_of};

    ghost Value = { Own };

    ghost coded = { Prim.hlevel (codes, val_code, documents_code) };

    ghost view = { λ a. record { app = a.app; name = a.name; client = state_of a.session a.is_failed a.broken a.waiting.items a.view a.subs a.calls.items } };

    ghost invariant = { λ a. IsShown (state_of a.session a.is_failed a.broken a.waiting.items a.view a.subs a.calls.items)
        × (length a.calls.items ≤ call_limit) };
}

// A queue of this text alone.
fn one_text(alloc: Global, text: Text) -> Result<VecDeque<Text>, Mem>
    ensures { IfOk result (λ queue. queue.items ≡ text ∷ []) }
{
    let mut queue = VecDeque::new(alloc);
    queue.push_back(text)?;
    Ok(queue)
}

impl Client {
    /// A client of this name, which runs the stubs of the application's methods. Its `connect` is to
    /// be sent.
    pub fn new(alloc: Global, app: &App, name: &Text) -> Result<Client, Mem>
        ensures { IfOk result (λ c. c ≡ record { app = app.now; name = name.now; client = new_client }) }
    {
        let app = app.copy()?;
        let name = name.copy()?;
        let waiting = one_text(alloc, texts::connect(alloc)?)?;
        let scratch = Box::new(alloc, Scratch::new(alloc))?;
        Ok(Client {
            alloc,
            app,
            name,
            session: None,
            is_failed: false,
            broken: None,
            waiting,
            view: View::new(alloc),
            subs: Subs::new(alloc),
            calls: Vec::new(alloc),
            scratch,
        })
    }

    /// Tells a proof what a client keeps: its view has the server's document, or its absence, at each
    /// key that no open call holds, and only calls that await their `updated` hold any. It does
    /// nothing.
    pub fn known(&self)
        ensures shown { IsShown self.now.client }
        ensures few { length self.now.client.calls ≤ call_limit }
    {
        let _ = &self.calls;
    }

    /// Whether it took `connected`, and no text broke it.
    pub fn connected(&self) -> bool
        ensures { result ≡ is_connected self.now.client }
    {
        self.session.is_some() && self.broken.is_none()
    }

    /// Whether it took `failed`: the server doesn't speak its version.
    pub fn failed(&self) -> bool
        ensures { result ≡ self.now.client.is_failed }
    {
        self.is_failed
    }

    /// Its documents, with the changes of open simulations.
    pub fn view(&self) -> &View
        ensures { result.now ≡ self.now.client.documents }
    {
        &self.view
    }

    /// What the call of this number came to, once the server said so and that its writes are there.
    pub fn outcome(&self, method: u32) -> Option<&Outcome>
        ensures { option_map outcome_view (option_copied result) ≡ outcome_of method self.now.client }
    {
        match call_at(self.calls.as_slice(), method) {
            None => None,
            Some(call) => call.settled(),
        }
    }

    /// Whether no subscription and no call waits.
    pub fn settled(&self) -> bool
        ensures { result ≡ is_settled self.now.client }
    {
        !self.subs.some_waits() && are_settled(self.calls.as_slice())
    }

    /// How many texts are to be sent out of the client.
    pub fn waiting(&self) -> usize
        ensures { result ≡ length self.now.client.waiting }
    {
        self.waiting.len()
    }

    /// Takes the next text that is to be sent out of the client.
    pub fn next_out(&mut self) -> Option<Text>
        ensures { IsSent self.old self.new result }
    {
        self.waiting.pop_front()
    }

    // Queues a text.
    fn queue(&mut self, text: Text) -> Result<(), Mem>
        ensures ok { OnOk result (self.new ≡ record self.old { client = with_text text self.old.client }) }
        ensures err { OnErr result (self.new ≡ self.old) }
    {
        self.waiting.push_back(text)?;
        Ok(())
    }

    /// Queues a text of the caller's own (to try a server with). No subscription and no call is known
    /// of it. `Idle` comes exactly where the client is broken.
    pub fn raw(&mut self, text: &Text) -> Result<(), ClientFault>
        ensures { Does (can_send self.old.client) (with_text text.now) self.old self.new result }
    {
        if self.broken.is_some() {
            return Err(ClientFault::Idle);
        }
        self.queue(text.copy()?)?;
        Ok(())
    }

    // The subscription waits, and so does its text.
    fn enter_sub(&mut self, id: Text, text: Text) -> Result<(), Mem>
        ensures ok { OnOk result (self.new ≡ record self.old { client = asked_for id text self.old.client }) }
        ensures err { OnErr result (self.new ≡ self.old) }
    {
        self.waiting.reserve(1)?;
        self.subs.ask(id)?;
        self.waiting.push_back(text).unwrap();
        Ok(())
    }

    /// Asks for a publication, under an id of the caller's choice. `Idle` comes exactly where the
    /// client isn't connected or the subscription of this id waits or is ready.
    pub fn sub(&mut self, id: &Text, name: &Text, params: &Items) -> Result<(), ClientFault>
        ensures { Does (can_sub id.now self.old.client) (subscribed id.now name.now params.now) self.old self.new result }
    {
        if !self.connected() || self.subs.is_live(id) {
            return Err(ClientFault::Idle);
        }
        let text = texts::sub(self.alloc, id, name, params)?;
        self.enter_sub(id.copy()?, text)?;
        Ok(())
    }

    /// Asks for the end of a subscription. `Idle` comes exactly where the client isn't connected, the
    /// subscription of this id neither waits nor is ready, or it was asked for already.
    pub fn unsub(&mut self, id: &Text) -> Result<(), ClientFault>
        ensures { Does (can_unsub id.now self.old.client) (unsubscribed id.now) self.old self.new result }
    {
        if !self.connected() || !self.subs.is_running(id) {
            return Err(ClientFault::Idle);
        }
        let text = texts::unsub(self.alloc, id)?;
        self.queue(text)?;
        self.subs.stop(id);
        Ok(())
    }

    // The call of this number waits, its text too, and its simulation is shown.
    fn enter_call(&mut self, number: u32, text: Text, simulated: &Simulated) -> Result<(), Mem>
        requires next { number ≡ suc (length self.old.client.calls) }
        requires few { number ≤ call_limit }
        requires of { AreOf self.old.client.documents.view simulated.now }
        ensures ok { OnOk result (IsEntered number text simulated.now self.old self.new) }
        ensures err { OnErr result (self.new ≡ self.old) }
    {
        self.known();
        self.waiting.reserve(1)?;
        self.calls.reserve(1)?;
        self.view
            .simulate(number, &simulated.changes, &simulated.touched)?;
        self.waiting.push_back(text).unwrap();
        self.calls.push(Call::new()).unwrap();
        Ok(())
    }

    // What the method's stub does to the view.
    fn simulated(&self, method: &Text, params: &Items, seed: &Value) -> Result<Simulated, Mem>
        ensures { IfOk result (IsSimulated self.now.client.documents.view
            (simulation self.now.app method.now params.now (value_view seed.now) self.now.client.documents.view)) }
    {
        let view = &self.view;
        simulate_over(
            self.alloc,
            &self.app,
            method,
            params,
            seed,
            view.contents(),
            view.bytes(),
        )
    }

    // Makes the call of this number, whose ids are drawn from the seed.
    fn make_call(
        &mut self,
        number: u32,
        seed: Text,
        method: &Text,
        params: &Items,
    ) -> Result<(), Mem>
        requires next { number ≡ suc (length self.old.client.calls) }
        requires few { number ≤ call_limit }
        requires seed { text_val seed ≡ seed_of self.old.client.session number }
        ensures ok { OnOk result (self.new ≡ called_by method.now params.now self.old) }
        ensures err { OnErr result (self.new ≡ self.old) }
    {
        let alloc = self.alloc;
        let text = texts::method(alloc, number, method, params, &seed)?;
        let seed = Value::Text(seed);
        let simulated = self.simulated(method, params, &seed)?;
        self.enter_call(number, text, &simulated)
    }

    /// Calls a method, whose stub runs at once on the view. It answers the call's number: calls are
    /// numbered from 1. `Idle` comes exactly where the client isn't connected or has made 65,536
    /// calls.
    pub fn call(&mut self, method: &Text, params: &Items) -> Result<u32, ClientFault>
        ensures { Calls method.now params.now self.old self.new result }
    {
        let count = self.calls.len();
        if !self.connected() || count >= CALL_LIMIT {
            return Err(ClientFault::Idle);
        }
        let Some(session) = &self.session else {
            return Err(ClientFault::Idle);
        };
        let number = count as u32 + 1;
        let seed = seed_of(self.alloc, session, number)?;
        self.make_call(number, seed, method, params)?;
        Ok(number)
    }

    /// What the client has, each line an EJSON list: its name; its documents by collection and id; its
    /// subscriptions by id, each with its state; and its calls by number, each with what it came to.
    pub fn show_lines(&self) -> Result<Lines, Mem>
        ensures { IfOk result (λ lines. lines ≡ line_texts (show_lines self.now)) }
    {
        self.known();
        show(
            self.alloc,
            &self.name,
            self.view.contents(),
            &self.subs,
            self.calls.as_slice(),
        )
    }
}
