//! Values by name, in lanes of which none has a name of another, so that threads may each visit the values of a lane; and
//! names in order.
#![tactic(auto)]

mod both;
mod lane;
mod named;
mod names;
mod telling;

pub use both::Both;
pub use lane::Lane;
pub use named::Lanes;
pub use names::{Names, behind};
pub use telling::{Tells, lanes_are_told_as_one};
