// Which calls of one kind are to fail.
ghost use Rattle.std.specs.Prelude.{◌≡◌, ◌+◌, IfSome, IfNone};
ghost use Rattle.io_edge.specs.Memory.{last_call};

use io_edge::Calls;

// The numbers of the calls that are to fail, counted from 1, and how many calls there were.
#[derive(Drop)]
pub struct Schedule {
    pub(crate) failing: Calls,
    pub(crate) calls: u64,
}

impl Schedule {
    ghost use Rattle.duct.specs.Schedules.{fails_after};

    pub(crate) fn new(failing: Calls) -> Schedule
        ensures { result ≡ record { failing = failing; calls = 0 } }
    {
        Schedule { failing, calls: 0 }
    }

    // The number of the next call, and whether it is to fail; none where no further call can be counted.
    pub(crate) fn next(&self) -> Option<(u64, bool)>
        ensures some { IfSome result (λ next. (next.0 ≡ self.now.calls + 1) × (next.1 ≡ fails_after self.now.failing self.now.calls)) }
        ensures none { IfNone result (self.now.calls ≡ last_call) }
    {
        let call = self.calls.checked_add(1)?;
        Some((
            call,
            self.failing.as_slice().iter().any(|number| *number == call),
        ))
    }
}
