//! What the code keeps of a world, and the laws by which this is the world of the definitions: every event is that event,
//! and settling as the code does it, which asks only those that may have something to do, leads to the settled world.
//! There is no code here: each function is a law, which its contract states.
#![tactic(auto)]

mod events;
mod lines;
mod rounds;
mod worlds;

pub use events::{
    acts_are_made, clients_are_asked, clients_begin, clients_leave, named_acts_are_events,
    nobody_does_anything, operations_are_made,
};
pub use lines::{answers_are_printed, clients_are_printed, events_name_acts};
pub use rounds::{
    idle_worlds_are_settled, parts_of_rounds_are_acts, rounds_ask_those_that_may_act,
    rounds_may_make_nothing, rounds_settle, settled_worlds_are_kept, visits_are_made,
};
pub use worlds::{
    clients_are_served, kept_worlds_are_true, settled_worlds_are_at_rest, worlds_begin,
};
