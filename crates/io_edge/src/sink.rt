ghost use Rattle.std.specs.Prelude.{◌≡◌, ◌≤◌, ◌<◌, ℕ, List, [], Option, length, take, IfOk, OnOk, OnErr};
ghost use Rattle.io_edge.specs.Outside.{Grows};

use crate::source::Failed;

/// What bytes are written to.
pub trait Sink {
    // The bytes written so far, where they are known.
    ghost written: { Self → Option (List ℕ) };

    // How many calls have failed.
    ghost faults: { Self → ℕ };

    /// Writes the first bytes of `bytes`, at least one where there is one, and answers how many.
    fn write(&mut self, bytes: &[u8]) -> Result<usize, Failed>
        ensures within { IfOk result (λ n. n ≤ length bytes.now) }
        ensures progress { IfOk result (λ n. 0 < length bytes.now → 0 < n) }
        ensures bytes { IfOk result (λ n. Grows (written self.old) (written self.new) (take n bytes.now)) }
        ensures same { OnErr result (Grows (written self.old) (written self.new) []) }
        ensures sound { OnOk result (faults self.new ≡ faults self.old) }
        ensures failed { OnErr result (faults self.old < faults self.new) };
}
