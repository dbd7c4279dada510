//! A client with its session, and the links between them: what they do by themselves, what is asked of the client, and the
//! acts that an event names.
#![tactic(auto)]

mod acting;
mod acts;
mod asking;
mod connection;
mod items;
mod lines;
mod link;
mod naming;
mod resting;
mod side;
mod storing;
mod texts;

pub use connection::Connection;
pub use connection_laws::{client_core, store_machine, world_model};
pub use lines::journal_lines;
pub use session_core::{Call, EventFault, Session, history_log};
pub use session_state;
