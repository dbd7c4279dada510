//! A client that speaks for itself.
ghost use Rattle.std.specs.Prelude.{◌≡◌, true, IfOk};
ghost use Rattle.client_model.specs.Client.{new_client};
ghost use Rattle.client_script.specs.Speaking.{Asks, Hears, Says, goes_on};
ghost use Rattle.console_run.specs.Speaking.{look_of, Does, IsAsked};

use app_model::App;
use client_core::{Client, ClientFault, Lines, TakeFault};
use client_script::{Ask, Heard, Speaker};
use ejson_value::{Mem, Text};
use heard_messages::Heard as Texts;
use std::alloc::Global;
use std::marker::Model;

/// A client that speaks for itself, over one link. Contracts see the client.
#[derive(Drop)]
pub struct Speaking {
    client: Client,
    texts: Texts,
}

impl Model for Speaking {
    ghost use Rattle.std.specs.Coded.{codes};
    ghost use Rattle.value_model.specs.Coding.{val_code};
    ghost use Rattle.minimongo.specs.State.{documents_code};
    ghost use Rattle.client_core.specs.State.{Own};

    ghost Value = { Own };

    ghost coded = { Prim.hlevel (codes, val_code, documents_code) };

    ghost view = { λ a. a.client };
}

impl Speaking {
    /// A client of this name, at its beginning.
    pub fn new(alloc: Global, app: &App, name: &Text) -> Result<Speaking, Mem>
        ensures { IfOk result (λ s. s ≡ record { app = app.now; name = name.now; client = new_client }) }
    {
        let client = Client::new(alloc, app, name)?;
        Ok(Speaking {
            client,
            texts: Texts::new(alloc),
        })
    }

    // Asks the client for something.
    fn request(&mut self, ask: &Ask) -> Result<(), ClientFault>
        ensures { IsAsked self.old ask.now self.new result }
    {
        match ask {
            Ask::Sub { id, name, params } => self.client.sub(id, name, params),
            Ask::Unsub { id } => self.client.unsub(id),
            Ask::Call { method, params } => match self.client.call(method, params) {
                Ok(_) => Ok(()),
                Err(fault) => Err(fault),
            },
        }
    }
}

impl Speaker for Speaking {
    ghost look = { look_of };

    ghost does = { Does };

    fn connected(&self) -> bool {
        self.client.connected()
    }

    fn settled(&self) -> bool {
        self.client.settled()
    }

    fn show_lines(&self) -> Result<Lines, Mem> {
        self.client.show_lines()
    }

    fn ask(&mut self, ask: &Ask) -> Result<bool, Mem> {
        match self.request(ask) {
            Ok(()) => Ok(true),
            Err(ClientFault::Idle) => Ok(false),
            Err(ClientFault::Memory) => Err(Mem),
        }
    }

    fn hear(&mut self, text: &Text) -> Result<Heard, Mem> {
        match self.client.take(text, &mut self.texts) {
            Ok(()) => {
                if self.client.failed() {
                    Ok(Heard::Failed)
                } else {
                    Ok(Heard::Taken)
                }
            }
            Err(TakeFault::ServerSent(number)) => Ok(Heard::Refused(number)),
            Err(TakeFault::Idle) => unreachable!(),
            Err(TakeFault::Memory) => Err(Mem),
        }
    }

    fn say(&mut self) -> Option<Text> {
        self.client.next_out()
    }
}
