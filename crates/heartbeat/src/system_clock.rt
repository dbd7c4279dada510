ghost use Rattle.std.specs.Prelude.{None};

use crate::clock::{Clock, Clocks};
use ejson_value::Mem;
use std::time::{self, Duration, Instant};

// How many milliseconds a second has.
const SECOND: u64 = 1000;

/// A clock of the system: the milliseconds since it was asked first. It tells nothing of its answers. Where the system gives no
/// moment, the last one stands.
#[derive(Drop)]
pub struct SystemClock<R> {
    rt: R,
    first: Option<Instant>,
    last: u64,
}

// A duration in whole milliseconds; the greatest moment where there are more.
fn milliseconds(duration: Duration) -> u64 {
    duration
        .as_secs()
        .saturating_mul(SECOND)
        .saturating_add(u64::from(duration.subsec_millis()))
}

impl<R: time::Clock> Clock for SystemClock<R> {
    ghost told = { λ _. None };

    fn now(&mut self) -> u64 {
        if let Ok(instant) = Instant::now(&self.rt) {
            let first = *self.first.get_or_insert(instant);
            self.last = milliseconds(instant.duration_since(first));
        }
        self.last
    }
}

/// The clocks of the system, by the runtime `rt`.
#[derive(Drop)]
pub struct SystemClocks<R> {
    rt: R,
}

impl<R: time::Clock + Copy + Send> SystemClocks<R> {
    /// Clocks that each count from their first answer.
    pub fn new(rt: R) -> SystemClocks<R> {
        SystemClocks { rt }
    }
}

impl<R: time::Clock + Copy + Send> Clocks for SystemClocks<R> {
    type Clock = SystemClock<R>;

    fn clock(&mut self) -> Result<SystemClock<R>, Mem> {
        Ok(SystemClock {
            rt: self.rt,
            first: None,
            last: 0,
        })
    }
}
