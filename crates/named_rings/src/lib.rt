//! Rings that are named by number, so that two ends that threads held apart are known to be those of one ring once they come
//! together again.
#![tactic(auto)]

mod ends;
mod names;
mod pairs;

pub use ends::{ClientEnd, LaneEnd, both_sides};
pub use names::RingNames;
pub use pairs::{Pair, make_pairs};
