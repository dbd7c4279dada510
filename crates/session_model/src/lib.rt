//! A session as contracts see it: the items of its journal, what they leave of subscriptions and methods, and the texts
//! that the journal stands for. There is no code here but the enum of a refused `sub`'s causes.
#![tactic(auto)]

pub mod fault;

pub use fault::SubFault;
