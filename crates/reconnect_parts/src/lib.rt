//! What a revived client keeps of what was asked for, of what its session lacks and sent, and how it reads texts.
#![tactic(auto)]

pub mod calls;
pub mod differences;
pub mod documents;
pub mod ended;
pub mod fault;
pub mod held;
pub mod lacking;
pub mod places;
pub mod reading;
pub mod subs;
pub mod texts;
