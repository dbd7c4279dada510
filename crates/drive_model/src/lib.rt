//! The promise of a drive, of which many clients run their scripts beside each other over one store: what holds of the world that its
//! threads leave, and what is printed of it. Nothing runs one yet.
#![tactic(auto)]
