//! Tables of texts with what EJSON (the appendix of Meteor's DDP specification) and the messages of DDP (Meteor's DDP.md) answer, and
//! of drawn ids; of fences and of queues of messages, and of how many documents a merge box lists. What a line of `replay` can show is a script among the
//! examples.
#![tactic(auto)]

#[cfg(test)]
mod ejson;
#[cfg(test)]
mod fences;
#[cfg(test)]
mod ids;
#[cfg(test)]
mod listing;
#[cfg(test)]
mod messages;
#[cfg(test)]
mod queues;
#[cfg(test)]
mod tables;
#[cfg(test)]
mod texts;
#[cfg(test)]
mod wire;
