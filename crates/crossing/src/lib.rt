//! Which values, applications and shared stores go over to other threads: lemmas for those who hand them there.
#![tactic(auto)]
