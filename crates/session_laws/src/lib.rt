//! What a session stands for: the texts that it took, the moments of its store and the texts that it
//! sent. Here are its events as contracts see them, and the laws by which each event keeps what the
//! session stands for. There is no code but the reasons for which an event changes nothing; each
//! function is a law, which its contract states.
#![tactic(auto)]

mod fault;
mod laws;

pub use fault::EventFault;
pub use laws::{
    advancing_keeps_it, answered_texts_keep_it, closing_keeps_it, feeding_keeps_it,
    handled_messages_lead_to_what_is_shown, handled_messages_read_back, handling_keeps_it,
    later_moments_keep_it, learning_keeps_it, loading_keeps_it, new_sessions_mean_nothing,
    queued_texts_keep_it, refusing_keeps_it, sending_keeps_it,
};
pub use live_observer;
pub use publication;
pub use session_journal_laws;
pub use session_model;
