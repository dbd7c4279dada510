//! What a step comes to, before anything is written.
use collection_store::Op;
use ejson_value::Names;
use program_steps::Outcome;

/// The ids that a run inserted, and the collections that it drew ids for.
#[derive(Drop)]
pub(crate) struct Ids {
    pub(crate) made: Names,
    pub(crate) drawn: Names,
}

/// What a step comes to once its templates are filled. An operation may yet be refused, which ends
/// the run; where it is made, the run has these ids.
#[derive(Drop)]
pub(crate) enum Plan {
    /// The run goes on.
    GoesOn,
    /// The run goes on, and the next message may be handled.
    Unblocks,
    /// The run ends.
    Ends(Outcome),
    /// The operation is made, and the run goes on.
    Makes(Op, Option<Ids>),
    /// The operation is made, and the run ends with its answer.
    Answers(Op, Option<Ids>),
}
