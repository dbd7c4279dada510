//! Whether a client says anything.
ghost use Rattle.std.specs.Prelude.{◌≡◌, ◌==◌, ◌&&◌, length};
ghost use Rattle.connection.specs.Kept.{seen, IsKept};
ghost use Rattle.connection.specs.Asks.{says_nothing};

use crate::side::Side;

/// None of the client's texts goes up, and no message waits to be handled.
pub(crate) fn says_nothing(side: &Side) -> bool
    requires { IsKept side.now }
    ensures { result ≡ says_nothing (seen side.now) }
{
    side.client.waiting() == 0 && side.upward.is_empty() && side.session.waiting() == 0
}
