//! Messages of a server that were read, for clients that take the same texts.
#![tactic(auto)]

mod heard;
mod places;
mod told;

pub use heard::Heard;
