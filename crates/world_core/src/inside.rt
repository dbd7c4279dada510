//! What is kept of a world.
use crate::Clients;
use crate::store_machine::Machine;
use heard_messages::Heard;
use lanes::Names;
use std::alloc::Global;

#[derive(Drop)]
pub(crate) struct Inside {
    pub(crate) alloc: Global,
    pub(crate) machine: Machine,
    /// How many clients there were so far.
    pub(crate) opened: u32,
    /// All of them with their sessions, by name, those that are gone too.
    pub(crate) conns: Clients,
    /// Those that are there.
    pub(crate) present: Names,
    /// Those that may have something to do even while the history stays as it is.
    pub(crate) busy: Names,
    /// How many entries the history had when the world was settled last.
    pub(crate) settled: u64,
    /// Texts that clients took.
    pub(crate) heard: Heard,
}
