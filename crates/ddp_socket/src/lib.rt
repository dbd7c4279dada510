//! Links over WebSocket (RFC 6455): each text frame is a message. A link over any stream, and a network of them on 127.0.0.1.
#![tactic(auto)]

mod answers;
mod door;
mod link;
mod metered;
mod network;
mod socket;
mod turn;
mod waking;

pub use link::{SocketLink, accept, connect};
pub use metered::{READS, WRITES};
pub use network::SocketNetwork;
pub use socket::{LARGEST, TRIES};
pub use waking::{SocketBell, WakingStream};
