//! Who replays an input.
ghost use Rattle.std.specs.Prelude.{◌≡◌, ◌≤◌, length, IfOk};
ghost use Rattle.std.specs.Thread.{IsSync};
ghost use Rattle.checking.specs.Input.{input_limit};
ghost use Rattle.replay_core.specs.Replay.{first_bad, replay_text};
ghost use Rattle.replay_core.specs.Truth.{IsTrueReplay};

use crate::readers::{Alone, Beside};
use crate::replay::replay_by;
use checking::Outcome;
use ejson_value::Mem;
use std::alloc::Global;
use std::marker::Sync;
use std::thread::Threads;
use world_core::{InTurn, OnThreads, World};

/// Who replays an input.
pub trait Replayer {
    /// What it takes.
    ghost ready: { Type 0 };

    /// Runs an input, and answers the whole output. The world that it ran in is left. Whether it is run to
    /// its end or not, its worlds are true: after every event the headline holds, and what each client shows
    /// and why it refused a text; after each `settle` the sessions are at rest.
    fn replay(&self, alloc: Global, input: &[u8], left: &mut Option<World>) -> Result<Outcome, Mem>
        requires ready { ready }
        requires short { length input.now ≤ input_limit }
        ensures text { IfOk result (λ o. o.text.items ≡ replay_text input.now) }
        ensures bad { IfOk result (λ o. o.bad_line ≡ first_bad input.now) }
        ensures true_run { IsTrueReplay input.now };
}

/// The caller alone.
#[derive(Drop)]
pub struct Plain;

impl Replayer for Plain {
    ghost ready = { Unit {0} };

    fn replay(
        &self,
        alloc: Global,
        input: &[u8],
        left: &mut Option<World>,
    ) -> Result<Outcome, Mem> {
        replay_by(&InTurn, &Alone, alloc, input, left)
    }
}

/// The caller with threads: two of them read lines while those before them run, and some tell the clients
/// where a world has much to tell them.
#[derive(Drop)]
pub struct Threaded<'a, R> {
    rt: &'a R,
}

impl<'a, R: Threads + Sync> Threaded<'a, R> {
    /// With threads of this runtime.
    pub fn new(rt: &'a R) -> Threaded<'a, R> {
        Threaded { rt }
    }
}

impl<'a, R: Threads + Sync> Replayer for Threaded<'a, R> {
    ghost ready = { IsSync R.row };

    fn replay(
        &self,
        alloc: Global,
        input: &[u8],
        left: &mut Option<World>,
    ) -> Result<Outcome, Mem> {
        replay_by(
            &OnThreads::new(self.rt),
            &Beside::new(self.rt),
            alloc,
            input,
            left,
        )
    }
}
