ghost use Rattle.std.specs.Prelude.{◌≡◌, ◌≤◌, ◌<◌, ℕ, List, Option, length, IfOk, IfSome, OnOk, OnErr};
ghost use Rattle.io_edge.specs.Outside.{TakesNext, CountsRead};

use thiserror::Error;

/// A read or a write that failed.
#[derive(Clone, Copy, Debug, PartialEq, Eq, Error)]
#[error("the call failed")]
pub struct Failed;

/// What bytes are read from.
pub trait Source {
    // The bytes that are left, where they are known.
    ghost left: { Self → Option (List ℕ) };

    // How many calls have failed.
    ghost faults: { Self → ℕ };

    // How many calls there were, where that is known.
    ghost reads: { Self → Option ℕ };

    /// Puts the next bytes at the front of `into`. 0 for an `into` that isn't empty is the end.
    fn read(&mut self, into: &mut [u8]) -> Result<usize, Failed>
        ensures room { IfOk result (λ n. n ≤ length into.old) }
        ensures bytes { IfOk result (λ n. IfSome (left self.old)
            (λ old. TakesNext (length into.old) n old into.new (left self.new))) }
        ensures same { OnErr result (left self.new ≡ left self.old) }
        ensures sound { OnOk result (faults self.new ≡ faults self.old) }
        ensures failed { OnErr result (faults self.old < faults self.new) }
        ensures counted { CountsRead (reads self.old) (reads self.new) };
}
