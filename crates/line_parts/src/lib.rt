//! The parts of lines: texts that stand first or alone, and lists of parameters.
#![tactic(auto)]

mod parts;

pub use parts::{is_nil, params_in, text_alone, text_first, texts_alone};
