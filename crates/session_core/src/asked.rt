//! What becomes of a message that is handled.
ghost use Rattle.std.specs.Prelude.{◌≡◌, ◌∷◌, [], ℕ, map, length, true, false, is_some, IfOk, Some, None, Ok, option_map, option_to_list};
ghost use Rattle.value_model.specs.Val.{Val};
ghost use Rattle.ejson_value.specs.View.{view};
ghost use Rattle.ddp_messages.specs.ClientMessage.{ClientMessage, sub as asks, unsub as ends, method as calls, client_view};
ghost use Rattle.app_model.specs.App.{method};
ghost use Rattle.session_laws.specs.session_model.Publication.{making};
ghost use Rattle.session_laws.specs.session_model.Items.{id_of, name_of, params_of};
ghost use Rattle.session_laws.specs.session_model.Items as item;
ghost use Rattle.session_laws.specs.session_model.Methods.{Blocking};
ghost use Rattle.session_laws.specs.session_model.State.{opening, calling};
ghost use Rattle.session_laws.specs.session_model.Fits.{seed_or, opened_by};
ghost use Rattle.session_laws.specs.publication.Cursors.{ACursors};
ghost use Rattle.session_state.specs.Own.{as_state, as_blocking};
ghost use Rattle.session_state.specs.Subs.{as_live};
ghost use Rattle.session_core.specs.Asked.{Adds, state_in, item_in};

use crate::Addition;
use app_model::App;
use ddp_messages::FromClient;
use ejson_value::{Items, Mem, Text, Value, copy};
use session_laws::publication::Cursors;
use session_laws::session_journal_laws::Stored;
use session_laws::session_model::SubFault;
use session_state::{Call, Own, Step, Sub, is_crowded, sub_named};
use session_texts::{Texts, making, nosub_text, unknown_texts};
use std::alloc::Global;

/// The parts of a session that say what becomes of a message.
#[derive(Drop)]
pub struct Asked<'a> {
    pub alloc: Global,
    pub app: &'a App,
    pub number: u32,
    pub own: &'a Own,
    /// The place of the message's text among those that the session took.
    pub text: u64,
}

// The one text.
fn alone(alloc: Global, text: Text) -> Result<Texts, Mem>
    ensures { IfOk result (λ texts. texts.items ≡ text ∷ []) }
{
    let mut texts = Texts::new(alloc);
    texts.push_back(text)?;
    Ok(texts)
}

// The text Sn-k-server.
fn made_seed(alloc: Global, number: u32, k: u64) -> Result<Value, Mem>
    ensures { IfOk result (λ seed. view seed ≡ seed_or number k None) }
{
    Ok(Value::Text(Text::from_string(format!(in alloc; "S{number}-{k}-server")?)?))
}

// The seed of the message, or one that is made.
fn seed_of(alloc: Global, number: u32, k: u64, given: &Option<Value>) -> Result<Value, Mem>
    ensures { IfOk result (λ seed. view seed ≡ seed_or number k (option_map view given.now)) }
{
    match given {
        Some(seed) => copy(seed),
        None => made_seed(alloc, number, k),
    }
}

impl Asked<'_> {
    // A `sub` with the id of a live subscription: nothing is said.
    fn same(&self, id: &Text) -> Result<Addition, Mem>
        ensures { IfOk result (λ a. (m : ClientMessage) → id_of m ≡ id.now → Adds self.now (item.same m) a) }
    {
        let id = id.copy()?;
        let item = Stored::Same { text: self.text };
        let words = Texts::new(self.alloc);
        Ok(Addition::still(item, Some(id), words))
    }

    // A `nosub`.
    fn nosub(&self, id: &Text, fault: Option<SubFault>) -> Result<Addition, Mem>
        ensures { IfOk result (λ a. (m : ClientMessage) → id_of m ≡ id.now → Adds self.now (item.nosub m fault) a) }
    {
        let words = alone(self.alloc, nosub_text(self.alloc, id, fault)?)?;
        let id = id.copy()?;
        let item = Stored::Nosub {
            text: self.text,
            fault,
        };
        Ok(Addition::still(item, Some(id), words))
    }

    // The subscription that is opened.
    fn opening(&self, id: &Text, name: &Text, params: &Items, cursors: Cursors) -> Result<Sub, Mem>
        ensures live { IfOk result (λ made. as_live made ≡ opening (state_in self.now) (state_in self.now).opened (asks id.now name.now params.now) cursors) }
        ensures observer { IfOk result (λ made. made.observer ≡ None) }
    {
        let id = id.copy()?;
        let name = name.copy()?;
        Ok(Sub {
            sub: self.own.opened,
            id,
            name,
            params: params.copy()?,
            cursors,
            floor: self.own.reach,
            cursor: None,
            observer: None,
        })
    }

    // The subscription is opened.
    fn open(&self, shown_id: Text, made: Sub) -> Addition
        ensures { (m : ClientMessage) (cursors : ACursors) → id_of m ≡ shown_id → made.observer ≡ None →
            as_live made ≡ opening (state_in self.now) (state_in self.now).opened m cursors →
            Adds self.now (item.subscribe (state_in self.now).opened m cursors) result }
    {
        Addition {
            item: Stored::Open {
                sub: self.own.opened,
                text: self.text,
            },
            id: Some(shown_id),
            step: Step::Open(made),
            words: Texts::new(self.alloc),
        }
    }

    // A `sub` whose cursors are made opens a subscription.
    fn opened(
        &self,
        id: &Text,
        name: &Text,
        params: &Items,
        cursors: Cursors,
    ) -> Result<Addition, Mem>
        ensures { IfOk result (λ a. Adds self.now (item.subscribe (state_in self.now).opened (asks id.now name.now params.now) cursors) a) }
    {
        let made = self.opening(id, name, params, cursors)?;
        let shown_id = id.copy()?;
        Ok(self.open(shown_id, made))
    }

    // A `sub` whose id isn't live.
    fn sub_made(&self, id: &Text, name: &Text, params: &Items) -> Result<Addition, Mem>
        ensures { IfOk result (λ a. let m = asks id.now name.now params.now in
            Adds self.now (opened_by (state_in self.now).opened m (making self.now.app.now name.now params.now)) a) }
    {
        match making(self.alloc, self.app, name, params)? {
            Err(fault) => self.nosub(id, Some(fault)),
            Ok(cursors) => self.opened(id, name, params, cursors),
        }
    }

    // A `sub`.
    fn sub(&self, id: &Text, name: &Text, params: &Items) -> Result<Addition, Mem>
        ensures { IfOk result (λ a. Adds self.now (item_in self.now (asks id.now name.now params.now)) a) }
    {
        if sub_named(self.own.subs.as_slice(), id).is_some() {
            return self.same(id);
        }
        if is_crowded(self.own.subs.as_slice()) {
            return self.nosub(id, Some(SubFault::TooMany));
        }
        self.sub_made(id, name, params)
    }

    // The subscription is closed.
    fn close(&self, id: &Text, sub: u64) -> Result<Addition, Mem>
        ensures { IfOk result (λ a. (m : ClientMessage) → id_of m ≡ id.now → Adds self.now (item.close sub m) a) }
    {
        let words = alone(self.alloc, nosub_text(self.alloc, id, None)?)?;
        let id = id.copy()?;
        Ok(Addition {
            item: Stored::Close {
                sub,
                text: self.text,
            },
            id: Some(id),
            step: Step::Close { sub },
            words,
        })
    }

    // An `unsub`.
    fn unsub(&self, id: &Text) -> Result<Addition, Mem>
        ensures { IfOk result (λ a. Adds self.now (item_in self.now (ends id.now)) a) }
    {
        match sub_named(self.own.subs.as_slice(), id) {
            None => self.nosub(id, None),
            Some(sub) => self.close(id, sub),
        }
    }

    // The call of the message.
    fn call_of(&self, name: &Text, params: &Items, given: &Option<Value>) -> Result<Call, Mem>
        ensures { IfOk result (λ call. as_blocking call ≡ record {
          k = length (state_in self.now).methods;
          method = name.now;
          params = params.now;
          seed = seed_or self.now.number (length (state_in self.now).methods) (option_map view given.now);
        }) }
    {
        let k = self.own.methods.len() as u64;
        let method = name.copy()?;
        let params = params.copy()?;
        Ok(Call {
            k,
            method,
            params,
            seed: seed_of(self.alloc, self.number, k, given)?,
        })
    }

    // The method is called.
    fn call(&self, id: Text, shown_id: Text, call: Call) -> Addition
        ensures { (m : ClientMessage) (seed : Val) → id_of m ≡ id → id ≡ shown_id → as_blocking call ≡ calling call.k m seed →
            Adds self.now (item.call call.k m seed) result }
    {
        Addition {
            item: Stored::Call {
                k: call.k,
                text: self.text,
            },
            id: Some(shown_id),
            step: Step::Handle { id, call },
            words: Texts::new(self.alloc),
        }
    }

    // A method that the application has is called.
    fn called(
        &self,
        id: &Text,
        name: &Text,
        params: &Items,
        given: &Option<Value>,
    ) -> Result<Addition, Mem>
        ensures { IfOk result (λ a. let k = length (state_in self.now).methods in
            Adds self.now
            (item.call k (calls id.now name.now params.now (option_map view given.now)) (seed_or self.now.number k (option_map view given.now))) a) }
    {
        let kept_id = id.copy()?;
        let shown_id = id.copy()?;
        let call = self.call_of(name, params, given)?;
        Ok(self.call(kept_id, shown_id, call))
    }

    // A method of a name that the application doesn't have.
    fn unknown(&self, id: &Text) -> Result<Addition, Mem>
        ensures { IfOk result (λ a. (m : ClientMessage) → id_of m ≡ id.now → Adds self.now (item.unknown m) a) }
    {
        let words = unknown_texts(self.alloc, id)?;
        let id = id.copy()?;
        let item = Stored::Unknown { text: self.text };
        Ok(Addition::still(item, Some(id), words))
    }

    // A `method`.
    fn method(
        &self,
        id: &Text,
        name: &Text,
        params: &Items,
        given: &Option<Value>,
    ) -> Result<Addition, Mem>
        ensures { IfOk result (λ a. Adds self.now (item_in self.now (calls id.now name.now params.now (option_map view given.now))) a) }
    {
        if self.app.method(name).is_some() {
            self.called(id, name, params, given)
        } else {
            self.unknown(id)
        }
    }

    // A message that isn't handled in its turn is passed over.
    fn passed(&self) -> Addition
        ensures { Adds self.now item.pong result }
    {
        let words = Texts::new(self.alloc);
        Addition::still(Stored::Pong, None, words)
    }

    /// What becomes of the message.
    pub fn handling(&self, message: &FromClient) -> Result<Addition, Mem>
        ensures { IfOk result (λ a. Adds self.now (item_in self.now (client_view message.now)) a) }
    {
        match message {
            FromClient::Sub { id, name, params } => self.sub(id, name, params),
            FromClient::Unsub { id } => self.unsub(id),
            FromClient::Method {
                id,
                method,
                params,
                random_seed,
            } => self.method(id, method, params, random_seed),
            FromClient::Connect { .. } | FromClient::Ping { .. } | FromClient::Pong { .. } => {
                Ok(self.passed())
            }
        }
    }
}
