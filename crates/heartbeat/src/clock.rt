ghost use Rattle.std.specs.Prelude.{◌≡◌, ℕ, List, [], Option, IfOk, IfSome};
ghost use Rattle.heartbeat.specs.Clocks.{Answers};

use ejson_value::Mem;

/// What tells moments, in milliseconds.
pub trait Clock {
    // The answers so far, where they are known.
    ghost told: { Self → Option (List ℕ) };

    /// The present moment. It may be earlier than one that was told before.
    fn now(&mut self) -> u64
        ensures { Answers (told self.old) (told self.new) result };
}

/// What gives clocks, one for each that asks the time.
pub trait Clocks {
    type Clock: Clock + Send + Drop;

    /// A clock that was not asked yet.
    fn clock(&mut self) -> Result<Self::Clock, Mem>
        ensures { IfOk result (λ clock. IfSome (Self.Clock.told clock) (λ answers. answers ≡ [])) };
}
