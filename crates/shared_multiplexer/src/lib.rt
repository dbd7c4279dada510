//! A multiplexer under a lock, which the sessions of all threads share and go on by.
#![tactic(auto)]

mod copied;
mod copying;
mod feeding;
mod held;
mod shared;

pub use copied::CopiedEntries;
pub use feeding::{feed, lend, lend_known, may_ask};
pub use held::HeldMultiplexer;
pub use shared::SharedMultiplexer;
pub use world_news_laws::multiplexer::Lent;
