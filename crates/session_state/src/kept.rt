//! A session's subscriptions and calls as they are kept.
ghost use Rattle.std.specs.Prelude.{◌≡◌, map, true};
ghost use Rattle.session_state.specs.Calls.{as_method, are_settled};

use crate::calls::Method;
use crate::own::Call;
use crate::subs::Sub;

/// A session's subscriptions and calls.
#[derive(Drop)]
pub struct Own {
    /// Whether a `connect` of the session's version was taken, and whether one of another version was.
    pub connected: bool,
    pub failed: bool,
    pub subs: Vec<Sub>,
    /// How many were opened.
    pub opened: u64,
    pub methods: Vec<Method>,
    /// The call that blocks: no further message is handled.
    pub blocking: Option<Call>,
    /// The greatest place of the history at which a call ended or a subscription was.
    pub reach: u64,
    /// So many calls, the first ones, are told or refused. An item looks at none of them.
    pub settled: usize,
    pub ghost known: { are_settled settled (map as_method methods.items) ≡ true },
}
