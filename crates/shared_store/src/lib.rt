//! One history under a lock, which threads share.
#![tactic(auto)]

mod answers;
mod appending;
mod caller;
mod given;
mod held;
mod shared;

pub use answers::{Placed, SharedBegin};
pub use caller::{Caller, Callers};
pub use given::Given;
pub use held::HeldStore;
pub use shared::SharedStore;
pub use store_name::{Snapshot, StoreName, StorePass};
