//! Tests of a shared store: what it tells passes and callers, in one thread and in several.
#![tactic(auto)]

#[cfg(test)]
mod bench;
#[cfg(test)]
mod calls;
#[cfg(test)]
mod joined;
#[cfg(test)]
mod told;
