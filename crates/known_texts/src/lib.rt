//! The texts of publishes that were made once, for all sessions whose clients are told the same.
#![tactic(auto)]

mod texts;

pub use texts::KnownTexts;
