//! Serving the connections of a network, each by a thread of its own, over one shared store.
#![tactic(auto)]

mod accepting;
mod attending;
mod hall;
mod serving;
mod timing;

pub use hall::PLACES;
pub use serving::serve;
pub use timing::serve_timed;
