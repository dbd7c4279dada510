//! The subscriptions and calls of a session: what is kept of them, and what becomes of them with each item of its journal.
#![tactic(auto)]

mod calls;
mod journal;
mod kept;
mod own;
mod progress;
mod subs;
mod tasks;

pub use calls::{Method, Phase, id_at, phase_at};
pub use journal::{Journal, Line};
pub use kept::Own;
pub use own::{Call, Step};
pub use progress::Progress;
pub use subs::{Sub, cursor_of, is_crowded, may_load, sub_named, sub_of};
pub use tasks::{Feed, Place, Work, running, tasks_of};
