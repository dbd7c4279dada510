//! Lines of a replay, as they run.
ghost use Rattle.std.specs.Prelude.{◌≡◌, ◌+◌, ◌<◌, ◌^◌, ◌++◌, length, IfOk, OnOk};
ghost use Rattle.replay_core.specs.Replay.{all_bytes};
ghost use Rattle.replay_core.specs.Stepping.{RunsLine};
ghost use Rattle.replay_core.specs.Tasks.{IsRead, AreRead, texts_of, RunsLines};

use crate::tasks::{ReadLine, Task};
use checking::add_line;
use ejson_codec::Lines;
use ejson_value::Mem;
use std::alloc::Global;
use world_core::{Hands, World};

fn add_lines(output: &mut Vec<u8>, lines: &Lines) -> Result<(), Mem>
    ensures { OnOk result (output.new.items ≡ output.old.items ++ all_bytes lines.now) }
{
    for line in lines.as_slice() {
        add_line(output, line)?;
    }
    Ok(())
}

// Runs a line, and answers whether it is an event or blank.
fn run_line<H: Hands>(
    hands: &H,
    alloc: Global,
    world: &mut World,
    read: &ReadLine<'_>,
    output: &mut Vec<u8>,
) -> Result<bool, Mem>
    requires ready { H.ready }
    requires read { IsRead read.now }
    ensures { IfOk result (RunsLine read.now.line.now world.old world.new output.old.items output.new.items) }
{
    match &read.task {
        Task::Nothing => Ok(true),
        Task::Bad => Ok(false),
        Task::Operation(text, operation) => {
            let lines = world.admin_told(text, operation)?.lines(alloc)?;
            add_lines(output, &lines)?;
            Ok(true)
        }
        Task::Event(event) => {
            let lines = world.event(hands, event)?.lines(alloc)?;
            add_lines(output, &lines)?;
            Ok(true)
        }
    }
}

/// Runs lines up to the first bad one, and answers the number of that, where the first has this
/// number.
pub fn run_lines<H: Hands>(
    hands: &H,
    alloc: Global,
    world: &mut World,
    lines: &[ReadLine<'_>],
    first: u32,
    output: &mut Vec<u8>,
) -> Result<Option<u32>, Mem>
    requires ready { H.ready }
    requires read { AreRead lines.now }
    requires numbers { first + length lines.now < 2 ^ 32 }
    ensures { IfOk result (RunsLines (texts_of lines.now) first world.old world.new output.old.items output.new.items) }
{
    let mut number = first;
    for line in lines {
        if !run_line(hands, alloc, world, line, output)? {
            return Ok(Some(number));
        }
        number += 1;
    }
    Ok(None)
}
