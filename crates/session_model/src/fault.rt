//! Why a session refuses a `sub`.

/// Why a session refuses a `sub`, in the order of the tests.
#[derive(Clone, Copy, Debug, PartialEq, Eq)]
pub enum SubFault {
    /// As many subscriptions are live as a session may have.
    TooMany,
    /// The application has no publication of the name.
    NotFound,
    /// The publication's cursors can't be made with the parameters.
    BadParameters,
}
