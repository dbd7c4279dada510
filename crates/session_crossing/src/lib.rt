//! Sessions with a pass go over to other threads: lemmas for those who hand them there.
#![tactic(auto)]
