//! How lines are read while those before them run.
ghost use Rattle.std.specs.Prelude.{◌<◌, ◌+◌, ◌^◌, length, IfOk};
ghost use Rattle.replay_core.specs.Tasks.{AreRead, Reads, ReadsAll, RunsLines, texts_of};

use crate::running::run_lines;
use crate::tasks::{Batch, ReadLine, in_halves, joined, read_all, read_lines};
use ejson_value::Mem;
use std::alloc::Global;
use std::thread::{Threads, join_mut};
use world_core::{Hands, World};

/// Who reads lines.
pub trait Readers {
    /// Runs lines that are read, of which the first has this number, and reads the first of those that
    /// follow, up to that which has the byte at this place. Lines that are done are dropped.
    fn run_and_read<'a, H: Hands>(
        &self,
        hands: &H,
        alloc: Global,
        world: &mut World,
        lines: &[ReadLine<'_>],
        first: u32,
        output: &mut Vec<u8>,
        done: Vec<ReadLine<'a>>,
        rest: &'a [u8],
        place: usize,
    ) -> (Result<Option<u32>, Mem>, Result<Batch<'a>, Mem>)
        requires ready { H.ready }
        requires read { AreRead lines.now }
        requires numbers { first + length lines.now < 2 ^ 32 }
        ensures ran { IfOk result.0 (RunsLines (texts_of lines.now) first world.old world.new output.old.items output.new.items) }
        ensures next { IfOk result.1 (Reads rest.now place) };
}

/// Who runs the lines, once they have run.
#[derive(Drop)]
pub struct Alone;

impl Readers for Alone {
    fn run_and_read<'a, H: Hands>(
        &self,
        hands: &H,
        alloc: Global,
        world: &mut World,
        lines: &[ReadLine<'_>],
        first: u32,
        output: &mut Vec<u8>,
        done: Vec<ReadLine<'a>>,
        rest: &'a [u8],
        place: usize,
    ) -> (Result<Option<u32>, Mem>, Result<Batch<'a>, Mem>) {
        let ran = run_lines(hands, alloc, world, lines, first, output);
        drop(done);
        (ran, read_lines(alloc, rest, place))
    }
}

/// Two threads beside the one that runs the lines.
#[derive(Drop)]
pub struct Beside<'a, R> {
    rt: &'a R,
}

impl<'a, R: Threads> Beside<'a, R> {
    /// Threads of this runtime.
    pub fn new(rt: &'a R) -> Beside<'a, R> {
        Beside { rt }
    }

    // Runs lines that are read, while a thread reads others.
    fn run_and_read_one<'b, H: Hands>(
        &self,
        hands: &H,
        alloc: Global,
        world: &mut World,
        lines: &[ReadLine<'_>],
        first: u32,
        output: &mut Vec<u8>,
        others: &'b [u8],
    ) -> (Result<Option<u32>, Mem>, Result<Vec<ReadLine<'b>>, Mem>)
        requires ready { H.ready }
        requires read { AreRead lines.now }
        requires numbers { first + length lines.now < 2 ^ 32 }
        ensures ran { IfOk result.0 (RunsLines (texts_of lines.now) first world.old world.new output.old.items output.new.items) }
        ensures others { IfOk result.1 (λ read. ReadsAll others.now read.items) }
    {
        let mut read = || read_all(alloc, others);
        let mut run = || run_lines(hands, alloc, world, lines, first, output);
        let (read, ran) = join_mut(self.rt, &mut read, &mut run);
        (ran, read)
    }
}

impl<'b, R: Threads> Readers for Beside<'b, R> {
    fn run_and_read<'a, H: Hands>(
        &self,
        hands: &H,
        alloc: Global,
        world: &mut World,
        lines: &[ReadLine<'_>],
        first: u32,
        output: &mut Vec<u8>,
        done: Vec<ReadLine<'a>>,
        rest: &'a [u8],
        place: usize,
    ) -> (Result<Option<u32>, Mem>, Result<Batch<'a>, Mem>) {
        if rest.is_empty() {
            return Alone.run_and_read(hands, alloc, world, lines, first, output, done, rest, place);
        }
        let mut done = done;
        let halves = in_halves(rest, place);
        let half = halves.one;
        let mut read = || {
            done.clear();
            read_all(alloc, half)
        };
        let mut run = || {
            self.run_and_read_one(hands, alloc, world, lines, first, output, halves.other)
        };
        let (one, (ran, other)) = join_mut(self.rt, &mut read, &mut run);
        (ran, joined(halves, one, other))
    }
}
