//! The queue of a session's messages: methods are handled one at a time, unless they unblock.
#![tactic(auto)]

mod fault;
mod queue;

pub use fault::PushFault;
pub use queue::MethodQueue;
