//! A shared multiplexer goes over to other threads: lemmas for those who hand it there.
#![tactic(auto)]
