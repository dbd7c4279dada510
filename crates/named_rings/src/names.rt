//! What names rings.
ghost use Rattle.std.specs.Prelude.{ℕ};

use std::marker::Brand;

/// Of each number, which ways its ring has: from the client, and from the session.
pub trait RingNames {
    ghost use Rattle.duct.specs.Rings.{Way};

    ghost from_client: { ℕ → Way };

    ghost from_session: { ℕ → Way };
}

impl RingNames for Brand {
    ghost use Rattle.named_rings.specs.Ways.{no_way};

    ghost from_client = { λ n. no_way };

    ghost from_session = { λ n. no_way };
}
