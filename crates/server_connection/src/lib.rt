//! The loop that serves one connection: a session of a shared store, and the link to its client.
#![tactic(auto)]

mod bringing;
mod desk;
mod ended;
mod ending;
mod looking;
mod offering;
mod polling;
mod resting;
mod running;
mod serving;
mod showing;
mod taking;
mod wakes;

pub use ended::Ended;
pub use serving::serve_connection;
pub use wakes::Wakes;
