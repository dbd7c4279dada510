//! A client that lives through several links speaks over one of them.
ghost use Rattle.revived_client.specs.Asking.{Asks};
ghost use Rattle.revived_client.specs.Speaking.{look_of, Does};

use crate::client::RevivedClient;
use client_core::{ClientFault, Lines, TakeFault};
use client_script::{Ask, Heard, Speaker};
use ejson_value::{Mem, Text};

// Asks the client for something.
fn request(client: &mut RevivedClient, ask: &Ask) -> Result<(), ClientFault>
    ensures { Asks ask.now client.old client.new result }
{
    match ask {
        Ask::Sub { id, name, params } => client.sub(id, name, params),
        Ask::Unsub { id } => client.unsub(id),
        Ask::Call { method, params } => match client.call(method, params) {
            Ok(_) => Ok(()),
            Err(fault) => Err(fault),
        },
    }
}

impl Speaker for RevivedClient {
    ghost look = { look_of };

    ghost does = { Does };

    fn connected(&self) -> bool {
        self.stop().is_none() && self.client().connected()
    }

    fn settled(&self) -> bool {
        self.client().settled()
    }

    fn show_lines(&self) -> Result<Lines, Mem> {
        self.client().show_lines()
    }

    fn ask(&mut self, ask: &Ask) -> Result<bool, Mem> {
        match request(self, ask) {
            Ok(()) => Ok(true),
            Err(ClientFault::Idle) => Ok(false),
            Err(ClientFault::Memory) => Err(Mem),
        }
    }

    fn hear(&mut self, text: &Text) -> Result<Heard, Mem> {
        self.known();
        match self.heard(text) {
            Ok(()) => {
                if self.client().failed() {
                    Ok(Heard::Failed)
                } else {
                    Ok(Heard::Taken)
                }
            }
            Err(TakeFault::ServerSent(number)) => Ok(Heard::Refused(number)),
            Err(TakeFault::Idle) => unreachable!(),
            Err(TakeFault::Memory) => Err(Mem),
        }
    }

    fn say(&mut self) -> Option<Text> {
        self.said()
    }
}
