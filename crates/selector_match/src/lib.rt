//! Selectors over documents (MongoDB's documentation of query operators).
#![tactic(auto)]

mod asking;
mod copying;
mod fault;
mod holding;
mod marking;
mod matching;
mod named;
mod names;
mod operands;
mod reached;
mod reading;
mod selector;
mod steps;

pub use fault::SelectorFault;
pub use holding::holds;
pub use matching::{fits, matches};
pub use names::{begins_with_dollar, has_operator, has_plain_name};
pub use selector::{Selector, Test};
pub use steps::Steps;
