//! Tests of a session with a pass over a shared store: what it tells its client of a full history.
#![tactic(auto)]

#[cfg(test)]
mod calls;
#[cfg(test)]
mod full;
