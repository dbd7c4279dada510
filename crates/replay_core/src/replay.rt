//! The replay of an input.
ghost use Rattle.std.specs.Prelude.{◌≡◌, ◌≤◌, ◌++◌, ◌∷◌, [], length, Some, IfOk, IfSome, OnOk};
ghost use Rattle.world_core.specs.world_values_laws.Values.{HasValues};
ghost use Rattle.world_core.specs.world_model.Store.{programs};
ghost use Rattle.world_core.specs.world_model.World.{start};
ghost use Rattle.checking.specs.Input.{input_limit, lines_in, rest_of};
ghost use Rattle.replay_core.specs.Replay.{app_of, events_of, bad_line, first_bad, replay_text, printed, printed_by, all_bytes};

use crate::readers::Readers;
use crate::tasks::read_lines;
use app_model::{App, AppFault};
use checking::{Outcome, add_bad_line, first_line, value_in};
use ejson_value::Mem;
use std::alloc::Global;
use world_core::{Hands, World};
use world_values_laws::read_application;

// How many bytes the first lines have that are read at once, and how many those that follow have at most.
const FIRST_BYTES: usize = 65_536;

const MOST_BYTES: usize = 1_048_576;

// The application of the first line, if it describes one.
fn read_app(alloc: Global, line: &[u8]) -> Result<Option<App>, Mem>
    ensures app { IfOk result (λ app. app ≡ app_of (line.now ∷ [])) }
    ensures values { IfOk result (λ app. IfSome app (λ a. HasValues (programs a))) }
{
    let Some(value) = value_in(alloc, line)? else {
        return Ok(None);
    };
    let read = read_application(alloc, &value);
    drop(value);
    match read {
        Ok(app) => Ok(Some(app)),
        Err(AppFault::Bad { .. }) => Ok(None),
        Err(AppFault::Memory) => Err(Mem),
    }
}

// Runs the lines that follow the application, and answers the number of the first bad one.
fn run_world<H: Hands, R: Readers>(
    hands: &H,
    readers: &R,
    alloc: Global,
    world: &mut World,
    lines: &[u8],
    output: &mut Vec<u8>,
) -> Result<Option<u32>, Mem>
    requires ready { H.ready }
    requires short { length lines.now ≤ input_limit }
    ensures text { OnOk result (output.new.items ≡ output.old.items ++ all_bytes (printed world.old (events_of (lines_in lines.now)))) }
    ensures bad { IfOk result (λ bad. bad ≡ bad_line 2 (lines_in lines.now)) }
{
    let mut done = Vec::new(alloc);
    let mut bytes = FIRST_BYTES;
    let mut batch = read_lines(alloc, lines, bytes)?;
    let mut number = 2;
    while !batch.read.is_empty() {
        bytes = bytes.saturating_mul(2).min(MOST_BYTES);
        let (ran, next) = readers.run_and_read(
            hands,
            alloc,
            world,
            batch.read.as_slice(),
            number,
            output,
            done,
            batch.rest,
            bytes,
        );
        if let Some(bad) = ran? {
            return Ok(Some(bad));
        }
        number += batch.read.len() as u32;
        done = batch.read;
        batch = next?;
    }
    Ok(None)
}

// Runs the lines of an application.
fn run_app<H: Hands, R: Readers>(
    hands: &H,
    readers: &R,
    alloc: Global,
    app: &App,
    lines: &[u8],
    output: &mut Vec<u8>,
    left: &mut Option<World>,
) -> Result<Option<u32>, Mem>
    requires ready { H.ready }
    requires short { length lines.now ≤ input_limit }
    requires values { HasValues (programs app.now) }
    ensures text { OnOk result (output.new.items ≡ output.old.items ++ all_bytes (printed (start app.now) (events_of (lines_in lines.now)))) }
    ensures bad { IfOk result (λ bad. bad ≡ bad_line 2 (lines_in lines.now)) }
{
    let world = left.insert(World::new(alloc, app)?);
    run_world(hands, readers, alloc, world, lines, output)
}

// Runs an input up to its first bad line, and answers the number of that.
fn run_input<H: Hands, R: Readers>(
    hands: &H,
    readers: &R,
    alloc: Global,
    input: &[u8],
    output: &mut Vec<u8>,
    left: &mut Option<World>,
) -> Result<Option<u32>, Mem>
    requires ready { H.ready }
    requires short { length input.now ≤ input_limit }
    ensures text { OnOk result (output.new.items ≡ output.old.items ++ all_bytes (printed_by (app_of (lines_in input.now)) (rest_of (lines_in input.now)))) }
    ensures bad { IfOk result (λ bad. bad ≡ first_bad input.now) }
{
    if input.is_empty() {
        return Ok(Some(1));
    }
    let (line, rest) = first_line(input);
    match read_app(alloc, line)? {
        None => Ok(Some(1)),
        Some(app) => run_app(hands, readers, alloc, &app, rest, output, left),
    }
}

/// Runs an input by these hands and readers, and answers the whole output. The world that it ran in is
/// left.
pub fn replay_by<H: Hands, R: Readers>(
    hands: &H,
    readers: &R,
    alloc: Global,
    input: &[u8],
    left: &mut Option<World>,
) -> Result<Outcome, Mem>
    requires ready { H.ready }
    requires short { length input.now ≤ input_limit }
    ensures text { IfOk result (λ o. o.text.items ≡ replay_text input.now) }
    ensures bad { IfOk result (λ o. o.bad_line ≡ first_bad input.now) }
{
    let mut text = Vec::new(alloc);
    let bad_line = run_input(hands, readers, alloc, input, &mut text, left)?;
    add_bad_line(alloc, &mut text, bad_line)?;
    Ok(Outcome { text, bad_line })
}
