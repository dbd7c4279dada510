//! Entries of a history, and what they changed.
ghost use Rattle.std.specs.Prelude.{◌≡◌, ℕ, ◌+◌, ◌≤◌, ◌<◌, length, IfOk};
ghost use Rattle.history_model.specs.History.{changes_between};
ghost use Rattle.store_machine.specs.State.{MachineState, programs};
ghost use Rattle.multiplexer.specs.Telling.{batch_of};

use ejson_value::{Change, Mem};
use history_log::Batch;
use store_machine::Machine;

/// Entries of a store's history, one behind another, which are asked for what they changed.
pub trait Entries {
    ghost use Rattle.std.specs.Prelude.{ℕ};
    ghost use Rattle.store_machine.specs.State.{MachineState};

    /// They are entries of this history, made by this application.
    ghost are_of: { Self → MachineState → Type 0 };

    /// How many entries of the history stand before these.
    ghost first: { Self → ℕ };

    /// How many stand before the next one behind them.
    ghost next: { Self → ℕ };

    /// How many entries of the history stand before these.
    fn begins(&self) -> u64
        ensures first { result ≡ first self.now }
        ensures within { (m : MachineState) → are_of self.now m → next self.now ≤ length m.history }
        ensures numbered { next self.now < 18446744073709551616 };

    /// The changes of the entry at this place of the history.
    fn changes_at(&self, place: u64) -> &[Change]
        requires first { first self.now ≤ place }
        requires next { place < next self.now }
        ensures { (m : MachineState) → are_of self.now m → result.now ≡ changes_between (programs m.app) m.history place 1 };

    /// The changes of so many entries, behind the first `from` of the history.
    fn batch_at(&self, from: u64, count: u64) -> Result<Batch, Mem>
        requires first { first self.now ≤ from }
        requires next { from + count ≤ next self.now }
        ensures { (m : MachineState) → are_of self.now m → IfOk result (λ batch. batch ≡ batch_of m from count) };
}

/// A machine has all the entries of its history.
impl Entries for Machine {
    ghost use Rattle.std.specs.Prelude.{◌≡◌, length};

    ghost are_of = { λ machine m. m ≡ machine };

    ghost first = { λ machine. 0 };

    ghost next = { λ machine. length machine.history };

    fn begins(&self) -> u64 {
        self.length();
        0
    }

    fn changes_at(&self, place: u64) -> &[Change] {
        self.changes_of(place)
    }

    fn batch_at(&self, from: u64, count: u64) -> Result<Batch, Mem> {
        self.batch(from, count)
    }
}
