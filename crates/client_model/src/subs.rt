//! What a client knows of its subscriptions.
use ejson_value::Text;

/// What became of a subscription, as its client asked or was told last.
#[derive(Debug, PartialEq, Eq, Drop)]
pub enum SubState {
    /// It was asked for.
    Waiting,
    /// Its first documents are there.
    Ready,
    /// It is over.
    Ended,
    /// It was refused, with the code of the error.
    Refused { code: Text },
}
