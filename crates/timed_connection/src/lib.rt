//! Serving a connection over a link that a heart watches: as over any link, until the heart gives the peer up.
#![tactic(auto)]

mod timing;

pub use timing::{TimedEnd, serve_connection_timed};
