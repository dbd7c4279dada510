//! The machine of a store: it makes the entries of a history one by one, and keeps what they lead to.
#![tactic(auto)]

mod beginning;
mod called;
mod fault;
mod keeping;
mod laws;
mod machine;
mod making;
mod parts;
mod stepping;

pub use fault::{AdminFault, BeginFault};
pub use history_log::{Batch, Entry};
pub use keeping::{
    a_run_brings_its_steps, begun_calls_are_kept, made_operations_are_kept, made_steps_are_kept,
    made_steps_have_room, nothing_is_kept_at_first,
};
pub use laws::{
    batches_are_the_changes_between_places, earlier_places_keep_what_is_told,
    logs_grow_by_what_an_entry_makes, logs_lead_to_the_documents_of_each_place,
    logs_stand_for_their_histories, runs_are_told_of_at_each_place,
};
pub use machine::Machine;
