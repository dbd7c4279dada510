//! Heartbeats: when an end of a link asks whether its peer is there, and when it gives the peer up; and the clocks whose
//! moments it is handed.
#![tactic(auto)]

mod clock;
mod heart;
mod step_clock;
mod system_clock;

pub use clock::{Clock, Clocks};
pub use heart::{Beat, Heart, LONGEST};
pub use step_clock::{StepClock, StepClocks};
pub use system_clock::{SystemClock, SystemClocks};
