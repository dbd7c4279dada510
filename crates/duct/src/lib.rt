//! Links that carry texts between two peers, and networks that give them: the traits, their forms in memory, and the
//! two ends of a ring that carries texts between two threads.
#![tactic(auto)]

mod laws;
mod link;
mod memory_link;
mod memory_network;
mod network;
mod ring_link;
mod schedule;

pub use laws::{chains_of_links_that_tell, chains_of_rings};
pub use link::{Bell, Link, NoBell, Polled, SendFault};
pub use memory_link::{MemoryLink, Texts};
pub use memory_network::{Links, MemoryNetwork};
pub use network::{NetFault, Network};
pub use ring_link::{RingLink, ring};
