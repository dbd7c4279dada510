//! What rules answer to a write.

/// What the rules of a collection answer to a client's write.
#[derive(Clone, Copy, Debug, PartialEq, Eq)]
pub enum Verdict {
    /// No deny rule holds, and some allow rule does.
    Allowed,
    /// The deny rule at this place holds, the first that does, counted from 0.
    Denied(u32),
    /// No deny rule holds, and no allow rule.
    NotAllowed,
    /// The document that is to be changed or removed is not there.
    Absent,
    /// A rule on the action has a selector that is none.
    BadRule,
}
