//! Observers of cursors: what becomes of what they publish as a store's contents change (Meteor's
//! `observeChanges`).
#![tactic(auto)]

mod observer;
mod plain;
mod shown;
mod told;
mod watched;
mod window;

pub use observer::{Observer, Plan};
