//! Links that a heart watches: a peer that is gone without a word is noticed, and given up.
#![tactic(auto)]

mod timed;

pub use heartbeat::{Clock, Clocks, StepClock, StepClocks, SystemClock, SystemClocks};
pub use timed::TimedLink;
