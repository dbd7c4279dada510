//! A session of the server: many overlapping subscriptions, methods in a queue, and fences (Meteor's DDP.md).
#![tactic(auto)]

mod adding;
mod asked;
mod handling;
mod inner;
mod learning;
mod outside;
mod parts;
mod session;
mod showing;
mod taking;

pub use adding::{Addition, News};
pub use asked::Asked;
pub use history_log;
pub use history_log::Batch;
pub use parts::Parts;
pub use session::Session;
pub use session_journal_laws::Stored;
pub use session_laws;
pub use session_laws::{EventFault, live_observer, publication, session_journal_laws};
pub use session_state;
pub use session_state::{Call, Feed, Line, Place, Sub, Work};
pub use session_texts;
pub use session_texts::Texts;
