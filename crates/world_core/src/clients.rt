//! The clients of a world, in lanes.
ghost use Rattle.std.specs.Prelude.{◌≡◌, []};

use crate::connection::Connection;
use ejson_value::{Mem, Text};
use lanes::{Both, Lane, Lanes};
use std::alloc::Global;

/// No lane at all.
#[derive(Drop)]
pub struct NoLane;

impl Lanes<Connection> for NoLane {
    ghost values = { λ _. [] };

    fn fewest(&self) -> usize {
        usize::MAX
    }

    fn get(&self, _name: &Text) -> Option<&Connection> {
        None
    }

    fn get_mut(&mut self, _name: &Text) -> Option<&mut Connection> {
        None
    }

    // There is no room.
    fn put(&mut self, _name: Text, _client: Connection) -> Result<(), Mem> {
        Err(Mem)
    }
}

/// A lane of clients, and others.
pub type Beside<B> = Both<Connection, B>;

/// The clients of a world with their sessions, by name, in four lanes.
pub type Clients = Beside<Beside<Beside<Beside<NoLane>>>>;

/// No client is there yet.
pub fn no_clients(alloc: Global) -> Clients
    ensures { result ≡ [] }
{
    let one = Both::new(Lane::new(alloc), NoLane);
    let two = Both::new(Lane::new(alloc), one);
    let three = Both::new(Lane::new(alloc), two);
    Both::new(Lane::new(alloc), three)
}
