//! A world: a store with its server, and clients with a session each, which go through events.
#![tactic(auto)]

mod acting;
mod clients;
mod downward;
mod events;
mod hands;
mod inside;
mod listing;
mod making;
mod opening;
mod phases;
mod printed;
mod printing;
mod rounds;
mod showing;
mod telling;
mod visits;
mod words;
mod world;

pub use clients::{Beside, Clients, NoLane, no_clients};
pub use connection;
pub use connection::{Connection, store_machine, world_model};
pub use downward::tell;
pub use hands::{Hands, InTurn, OnThreads};
pub use phases::round;
pub use printed::Printed;
pub use visits::visited;
pub use world::World;
pub use world_news_laws::multiplexer;
