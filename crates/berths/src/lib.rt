//! Numbered berths. Each keeps one value, which fits its berth and which one thread at a time takes out and puts back.
#![tactic(auto)]

mod berths;
mod steps;

pub use berths::{Berths, BerthsName, Built, Hand, Taken};
pub use steps::Fits;
