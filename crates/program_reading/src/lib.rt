//! Reading the programs of methods and the rules of collections, with the first fault and its place; names, places and
//! faults, which the reading of whole applications shares.
#![tactic(auto)]

mod fault;
mod guarded;
mod guarding;
mod names;
mod place;
mod programs;
mod steps;

pub use fault::{AppFault, Flaw, bad};
pub use guarded::{guarded_program, method_name};
pub use guarding::read_rules;
pub use names::{
    Shape, has_more_fields, has_more_items, has_name, has_only_keys, is_valid_name, member,
    read_known, read_name,
};
pub use place::{below, element};
pub use programs::read_program;
