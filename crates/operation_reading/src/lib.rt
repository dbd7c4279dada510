//! Reading the operations of an administrator.
#![tactic(auto)]

mod documents;
mod operations;
mod told;

pub use operations::operation_in;
pub use told::operation_told;
