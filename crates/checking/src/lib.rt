//! The command `check`, and the lines of an input and of an output, which other commands have too.
#![tactic(auto)]

mod input;
mod output;
mod verdict;

pub use input::{
    INPUT_LIMIT, LINE_LIMIT, count_lines, first_line, is_blank, read_value, split_lines, value_in,
};
pub use output::{add_bad, add_bad_line, add_line};
pub use verdict::{Outcome, check};
