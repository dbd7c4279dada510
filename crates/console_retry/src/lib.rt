//! A console that goes on over a new link where one was lost before its script was done.
#![tactic(auto)]

mod retry;

pub use client_script::{ConsoleEnd, Script};
pub use retry::{console_retry, leg};
pub use revived_client::RevivedClient;
