//! Steps and programs.
use crate::rules::Action;
use crate::template::Template;
use ejson_value::{Fault, ListOf, Text};

/// One step of a program. It works on the store, or on a client's view of it, with its templates
/// filled (Meteor's guide, "Methods"; MongoDB's documentation, "CRUD Operations").
#[derive(Drop)]
pub enum ProgramStep {
    /// A document is inserted under its `_id`, or under an id that is drawn where it has none.
    Insert {
        collection: Text,
        doc: Template,
    },
    /// The first document by id that the selector holds of is modified, or all of them.
    Update {
        collection: Text,
        selector: Template,
        modifier: Template,
        all: bool,
    },
    /// The documents that the selector holds of are removed.
    Remove {
        collection: Text,
        selector: Template,
    },
    /// The run fails where the selector holds of no document.
    Require {
        collection: Text,
        selector: Template,
        fault: Fault,
    },
    /// The next message of the client may be handled before the run ends (`this.unblock`).
    Unblock,
    /// The run fails.
    Throw(Fault),
    /// The run ends with this result.
    Return(Template),
    /// A client's own write, which the collection's rules must allow.
    Guarded {
        collection: Text,
        action: Action,
    },
}

/// Steps, in the order in which they are made.
pub type ProgramSteps = ListOf<ProgramStep>;

/// What a method does: its steps in the store, and those that simulate it in a client's view, if it
/// has a stub.
#[derive(Drop)]
pub struct Program {
    pub steps: ProgramSteps,
    pub stub: Option<ProgramSteps>,
}
