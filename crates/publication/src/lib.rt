//! What publications publish of a store's contents (Meteor's guide, "Publications and data loading").
#![tactic(auto)]

mod cursor;
mod fault;
mod make;
mod ordered;
mod paths;
mod projections;
mod queries;

pub use app_model::{CursorRule, CursorRules, Paths, Projection, Publication};
pub use cursor::{Cursor, Cursors};
pub use ejson_value::{Publish, Publishes};
pub use fault::CursorFault;
pub use projections::project;
pub use queries::query;
