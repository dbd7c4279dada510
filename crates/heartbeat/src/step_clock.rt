ghost use Rattle.std.specs.Prelude.{◌≡◌, IfOk};
ghost use Rattle.heartbeat.specs.Clocks.{Answers, step_answer, asked_again, told_by};

use crate::clock::{Clock, Clocks};
use ejson_value::Mem;
use std::marker::Model;

/// A clock in memory that goes on by the same step at each question, from 0.
#[derive(Debug, Drop)]
pub struct StepClock {
    step: u64,
    asked: u64,
}

impl Model for StepClock {
    ghost use Rattle.heartbeat.specs.Clocks.{Stepping};

    ghost Value = { Stepping };

    ghost view = { λ a. record { step = a.step; asked = a.asked } };
}

impl Clock for StepClock {
    ghost told = { told_by };

    fn now(&mut self) -> u64
        ensures told { Answers (told_by self.old) (told_by self.new) result }
        ensures answer { result ≡ step_answer self.old.step self.old.asked }
        ensures after { self.new ≡ asked_again self.old }
    {
        let answer = self.step.saturating_mul(self.asked);
        self.asked = self.asked.saturating_add(1);
        answer
    }
}

/// Clocks in memory: each goes on by the same step at each question, from 0.
#[derive(Debug, Drop)]
pub struct StepClocks {
    step: u64,
}

impl Model for StepClocks {
    ghost use Rattle.std.specs.Prelude.{ℕ};

    ghost Value = { ℕ };

    ghost view = { λ a. a.step };
}

impl StepClocks {
    /// Clocks with this step.
    pub fn new(step: u64) -> StepClocks
        ensures { result ≡ step }
    {
        StepClocks { step }
    }
}

impl Clocks for StepClocks {
    type Clock = StepClock;

    fn clock(&mut self) -> Result<StepClock, Mem>
        ensures new { IfOk result (λ clock. clock ≡ record { step = self.old; asked = 0 }) }
        ensures unchanged { self.new ≡ self.old }
    {
        Ok(StepClock {
            step: self.step,
            asked: 0,
        })
    }
}
