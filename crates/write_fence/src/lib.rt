//! The write fences of a session: which finished method its client is next told of as `updated`.
#![tactic(auto)]

mod fences;

pub use fences::Fences;
