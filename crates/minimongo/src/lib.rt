//! A client's documents (Minimongo, the client side of Meteor's collections): what it shows, with the changes of open
//! simulations, over what the server sent (Meteor's guide, "Methods").
#![tactic(auto)]

mod fault;
mod finding;
mod index;
mod original;
mod originals;
mod restoring;
mod save;
mod serve_fault;
mod taking;
mod view;

pub use ejson_value::{Changes, Contents, DataMsg, Key, Keys, Publish, Publishes};
pub use fault::ViewFault;
pub use originals::{Originals, key_of};
pub use save::{Save, Saves};
pub use serve_fault::{ServeFault, Served};
pub use taking::taken;
pub use view::View;
