//! Windows: the first documents by sort keys, kept sorted as documents come, change and go.
#![tactic(auto)]

mod changes;
mod draft;
mod held;
mod lists;
mod rows;
mod sorting;
mod told;
mod window;

pub use rows::{Row, Rows, Shown, ShownList};
pub use sorting::{before, before_is_a_strict_total_order};
pub use window::{Moves, Window};
