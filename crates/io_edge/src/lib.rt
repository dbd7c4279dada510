//! Where a program meets the outside: what it reads from and what it writes to, each with a count of
//! its failures, in memory for tests and over the standard library for the program itself; and the gate
//! at which the workers of a run arrive.
#![tactic(auto)]

mod gate;
mod memory;
mod sink;
mod source;
mod standard;
mod whole;

pub use gate::{Gate, OpenGate};
pub use memory::{Calls, MemorySink, MemorySource};
pub use sink::Sink;
pub use source::{Failed, Source};
pub use standard::{StdSink, StdSource};
pub use whole::{ReadAll, WriteAll, read_all, write_all};
