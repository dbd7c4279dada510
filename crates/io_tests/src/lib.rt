//! Tests of sources and sinks that fail over the standard library; of rings; and of a log that threads share: lengths that passes
//! learn, in one thread and beside a thread that appends.
#![tactic(auto)]

#[cfg(test)]
mod outside;
#[cfg(test)]
mod passes;
#[cfg(test)]
mod rings;
