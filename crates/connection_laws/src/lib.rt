//! What the code keeps of a client with its session, and the laws by which this is the client and session of the world's
//! definitions: each event of the session, each move of a text and each request of the client is the act of that name, and
//! what is printed are the world's lines. There is no code here: each function is a law, which its contract states.
#![tactic(auto)]

mod acts;
mod asks;
mod laws;

pub use acts::{
    calls_are_learnt_of, calls_begin, calls_may_begin, gone_clients_are_idle, messages_are_handled,
    refusals_are_learnt_of, runs_step, subscriptions_are_fed, subscriptions_are_loaded,
    subscriptions_go_on, subscriptions_show_places, texts_are_sent, texts_are_taken_by_clients,
    texts_are_taken_by_sessions, texts_go_up,
};
pub use asks::{
    calls_are_made, clients_are_dropped, gone_clients_do_nothing, subscriptions_are_asked_for,
    subscriptions_are_ended, texts_are_queued,
};
pub use client_core;
pub use laws::{
    clients_are_printed, journals_are_printed, later_entries_keep_it, new_clients_are_kept,
    sessions_are_seen_as_they_are, values_are_made_again,
};
pub use store_machine;
pub use world_invariant_laws::world_model;
