//! All that a command does, over any source and sink.
ghost use Rattle.std.specs.Prelude.{◌≡◌, ◌≢◌, ◌↔◌, ◌<◌, ◌≤◌, [], length, Some, None, Err, IfOk, IfSome, OnOk};
ghost use Rattle.replay_core.specs.checking.Input.{input_limit, IsWithin, IsTooLong};
ghost use Rattle.io_edge.specs.declared.whole.ReadAll.TheVariants as ReadAll;
ghost use Rattle.commands.specs.Cause.{Cause, CauseOf, CauseBy, EndsAs, reads, HasBounds, command_in, output_of, bad_line_of};
ghost use Rattle.generated_work.specs.Generated.{generated_input};
ghost use Rattle.commands.specs.declared.status.Status.TheVariants as status;

use crate::command::{Command, command_in};
use crate::reason::{Wanted, reason_for};
use crate::status::Status;
use beating::beat;
use ejson_value::{Bytes, Mem, Text};
use generated_work::generate_input;
use io_edge::{ReadAll, Sink, Source, read_all, write_all};
use replay_core::checking::{INPUT_LIMIT, LINE_LIMIT, Outcome, check, count_lines};
use replay_core::{Plain, Replayer, Threaded, World};
use reviving::revive;
use std::alloc::Global;
use std::marker::Sync;
use std::thread::Threads;

// What the line of this number of a command's input has to be.
fn wanted(command: Command, number: u32) -> Wanted {
    match command {
        Command::Beat { .. } => Wanted::Moment,
        Command::Gen { .. } => Wanted::Nothing,
        _ if number == 1 => Wanted::Application,
        Command::Check => Wanted::Nothing,
        Command::Replay | Command::Revive => Wanted::Event,
    }
}

// Tells why a line isn't of the grammar, if there is memory for it.
fn tell(alloc: Global, command: Command, input: &[u8], number: u32, reason: &mut Text) {
    if let Ok(told) = reason_for(alloc, wanted(command, number), input, number) {
        *reason = told;
    }
}

/// Reads an input whole, if it keeps to the limits.
#[tactic(auto, using(crate::proofs::Causes::too_many_bytes, crate::proofs::Causes::too_many_lines, crate::proofs::Causes::keeps_within))]
pub fn read_input<I: Source>(alloc: Global, input: &mut I) -> Result<Bytes, ReadAll>
    ensures all { IfOk result (λ bytes. IfSome (I.left input.old) (λ old. bytes ≡ old)) }
    ensures end { OnOk result (IfSome (I.left input.old) (λ _. I.left input.new ≡ Some [])) }
    ensures short { IfOk result (λ bytes. length bytes ≤ input_limit) }
    ensures within { IfOk result IsWithin }
    ensures too_long { result ≡ Err ReadAll.TooLong → IfSome (I.left input.old) IsTooLong }
    ensures failed { result ≡ Err ReadAll.Failed → I.faults input.old < I.faults input.new }
    ensures sound { I.faults input.old < I.faults input.new → result ≡ Err ReadAll.Failed }
{
    let bytes = read_all(alloc, input, INPUT_LIMIT)?;
    let lines = count_lines(bytes.as_slice());
    if lines > LINE_LIMIT {
        return Err(ReadAll::TooLong);
    }
    Ok(bytes)
}

// What generated work writes.
fn generated(alloc: Global, seed: u32, calls: u32) -> Result<Outcome, Mem>
    ensures text { IfOk result (λ o. o.text.items ≡ generated_input seed calls) }
    ensures bad { IfOk result (λ o. o.bad_line ≡ None) }
{
    Ok(Outcome {
        text: generate_input(alloc, seed, calls)?,
        bad_line: None,
    })
}

// What a command writes for an input.
fn outcome_of<R: Replayer>(
    replayer: &R,
    alloc: Global,
    command: Command,
    input: &[u8],
    left: &mut Option<World>,
) -> Result<Outcome, Mem>
    requires ready { R.ready }
    requires bounds { HasBounds command }
    requires short { length input.now ≤ input_limit }
    ensures text { IfOk result (λ o. o.text.items ≡ output_of command input.now) }
    ensures bad { IfOk result (λ o. o.bad_line ≡ bad_line_of command input.now) }
{
    match command {
        Command::Check => check(alloc, input),
        Command::Replay => replayer.replay(alloc, input, left),
        Command::Revive => revive(alloc, input),
        Command::Beat { interval, timeout } => beat(alloc, interval, timeout, input),
        Command::Gen { seed, calls } => generated(alloc, seed, calls),
    }
}

// Writes what a command writes for an input.
fn write_outcome<O: Sink>(
    alloc: Global,
    command: Command,
    input: &[u8],
    outcome: &Outcome,
    output: &mut O,
    reason: &mut Text,
) -> Status
    requires text { outcome.now.text.items ≡ output_of command input.now }
    requires bad { outcome.now.bad_line ≡ bad_line_of command input.now }
    ensures ends { EndsAs command input.now (O.written output.old) (O.written output.new) result }
    ensures read { result ≢ Status.ReadFault }
    ensures write_fault { (result ≡ Status.WriteFault) ↔ (O.faults output.old < O.faults output.new) }
    ensures told { result ≢ Status.BadInput → reason.new ≡ reason.old }
{
    if let Err(_fault) = write_all(output, outcome.text.as_slice()) {
        return Status::WriteFault;
    }
    match outcome.bad_line {
        None => Status::Ok,
        Some(number) => {
            tell(alloc, command, input, number, reason);
            Status::BadInput
        }
    }
}

// Runs an input of a command and writes its output.
fn run_input<R: Replayer, O: Sink>(
    replayer: &R,
    alloc: Global,
    command: Command,
    input: &[u8],
    output: &mut O,
    reason: &mut Text,
    left: &mut Option<World>,
) -> Status
    requires ready { R.ready }
    requires bounds { HasBounds command }
    requires short { length input.now ≤ input_limit }
    ensures ends { EndsAs command input.now (O.written output.old) (O.written output.new) result }
    ensures read { result ≢ Status.ReadFault }
    ensures write_fault { (result ≡ Status.WriteFault) ↔ (O.faults output.old < O.faults output.new) }
    ensures told { result ≢ Status.BadInput → reason.new ≡ reason.old }
{
    match outcome_of(replayer, alloc, command, input, left) {
        Ok(outcome) => write_outcome(alloc, command, input, &outcome, output, reason),
        Err(Mem) => Status::Memory,
    }
}

// Reads the input of a command, runs it and writes its output.
#[tactic(auto, using(crate::proofs::Causes::run_is_true))]
fn run_reading<R: Replayer, I: Source, O: Sink>(
    replayer: &R,
    alloc: Global,
    command: Command,
    input: &mut I,
    output: &mut O,
    reason: &mut Text,
    left: &mut Option<World>,
) -> Status
    requires ready { R.ready }
    requires bounds { HasBounds command }
    ensures cause { CauseOf command (I.left input.old) (I.left input.new)
        (O.written output.old) (O.written output.new) result }
    ensures read_fault { (result ≡ Status.ReadFault) ↔ (I.faults input.old < I.faults input.new) }
    ensures write_fault { (result ≡ Status.WriteFault) ↔ (O.faults output.old < O.faults output.new) }
    ensures told { result ≢ Status.BadInput → reason.new ≡ reason.old }
{
    match read_input(alloc, input) {
        Ok(bytes) => run_input(
            replayer,
            alloc,
            command,
            bytes.as_slice(),
            output,
            reason,
            left,
        ),
        Err(ReadAll::Failed) => Status::ReadFault,
        Err(ReadAll::TooLong) => Status::TooLong,
        Err(ReadAll::Memory) => Status::Memory,
    }
}

// Runs a command, over its input where it reads one.
fn run_command<R: Replayer, I: Source, O: Sink>(
    replayer: &R,
    alloc: Global,
    command: Command,
    input: &mut I,
    output: &mut O,
    reason: &mut Text,
    left: &mut Option<World>,
) -> Status
    requires ready { R.ready }
    requires bounds { HasBounds command }
    ensures cause { CauseBy (reads command) command (I.left input.old) (I.left input.new)
        (O.written output.old) (O.written output.new) result }
    ensures usage { result ≢ Status.Usage }
    ensures read_fault { (result ≡ Status.ReadFault) ↔ (I.faults input.old < I.faults input.new) }
    ensures write_fault { (result ≡ Status.WriteFault) ↔ (O.faults output.old < O.faults output.new) }
    ensures told { result ≢ Status.BadInput → reason.new ≡ reason.old }
{
    if command.reads() {
        run_reading(replayer, alloc, command, input, output, reason, left)
    } else {
        run_input(replayer, alloc, command, &[], output, reason, left)
    }
}

// Runs the command that the words name, a replay by this replayer.
fn run_by<R: Replayer, I: Source, O: Sink>(
    replayer: &R,
    alloc: Global,
    words: &[Text],
    input: &mut I,
    output: &mut O,
    reason: &mut Text,
    left: &mut Option<World>,
) -> Status
    requires ready { R.ready }
    ensures cause { Cause (command_in words.now) (I.left input.old) (I.left input.new)
        (O.written output.old) (O.written output.new) result }
    ensures untouched { result ≡ Status.Usage → (input.new ≡ input.old) × (output.new ≡ output.old) × (left.new ≡ left.old) }
    ensures read_fault { (result ≡ Status.ReadFault) ↔ (I.faults input.old < I.faults input.new) }
    ensures write_fault { (result ≡ Status.WriteFault) ↔ (O.faults output.old < O.faults output.new) }
    ensures told { result ≢ Status.BadInput → reason.new ≡ reason.old }
{
    match command_in(words) {
        None => Status::Usage,
        Some(command) => run_command(replayer, alloc, command, input, output, reason, left),
    }
}

/// Runs the command that the words name, over an input that it reads whole, where it reads one. Other words are `Usage`,
/// and nothing is read or written then.
///
/// `check` writes `["ok"]` where the first line is an application, and otherwise `["fault",number,place]`
/// and `["bad",1]`; where that line is missing or no EJSON value, `["bad",1]` alone. A further line that
/// isn't blank is bad. `replay` runs the lines behind the application as events and writes what they print.
/// `revive` runs them with a client that lives through several links, and writes what it says and shows.
/// `beat INTERVAL TIMEOUT` hands a heart the moments of its lines, and writes what it answers. `gen N CALLS` reads nothing,
/// and writes the input of a drive of that many calls, drawn from N.
///
/// `cause` says when each status comes, what was read and written then, and what holds of the worlds
/// of a replay, also where it ended for want of memory: after every event the headline, what each client
/// shows and why it refused a text; after each `settle` that the sessions are at rest. The status is
/// `ReadFault` exactly where the source failed, and `WriteFault` exactly where the sink did. Want of
/// memory may come at any time.
/// Where the status is `BadInput`, `reason` is set to a line for a person that says which line is bad
/// and why, if there is memory for it.
///
/// The world that a replay ran in is handed to the caller in `left`, who drops it, or forgets it where
/// the process ends. No clause says which world it is.
pub fn run_plain<I: Source, O: Sink>(
    alloc: Global,
    words: &[Text],
    input: &mut I,
    output: &mut O,
    reason: &mut Text,
    left: &mut Option<World>,
) -> Status
    ensures cause { Cause (command_in words.now) (I.left input.old) (I.left input.new)
        (O.written output.old) (O.written output.new) result }
    ensures untouched { result ≡ Status.Usage → (input.new ≡ input.old) × (output.new ≡ output.old) × (left.new ≡ left.old) }
    ensures read_fault { (result ≡ Status.ReadFault) ↔ (I.faults input.old < I.faults input.new) }
    ensures write_fault { (result ≡ Status.WriteFault) ↔ (O.faults output.old < O.faults output.new) }
    ensures told { result ≢ Status.BadInput → reason.new ≡ reason.old }
{
    run_by(&Plain, alloc, words, input, output, reason, left)
}

/// The same, with threads of this runtime: lines of a replay are read by two of them while those before
/// them run, and clients are told by some where a world has much to tell them.
pub fn run_on<R: Threads + Sync, I: Source, O: Sink>(
    rt: &R,
    alloc: Global,
    words: &[Text],
    input: &mut I,
    output: &mut O,
    reason: &mut Text,
    left: &mut Option<World>,
) -> Status
    ensures cause { Cause (command_in words.now) (I.left input.old) (I.left input.new)
        (O.written output.old) (O.written output.new) result }
    ensures untouched { result ≡ Status.Usage → (input.new ≡ input.old) × (output.new ≡ output.old) × (left.new ≡ left.old) }
    ensures read_fault { (result ≡ Status.ReadFault) ↔ (I.faults input.old < I.faults input.new) }
    ensures write_fault { (result ≡ Status.WriteFault) ↔ (O.faults output.old < O.faults output.new) }
    ensures told { result ≢ Status.BadInput → reason.new ≡ reason.old }
{
    run_by(
        &Threaded::new(rt),
        alloc,
        words,
        input,
        output,
        reason,
        left,
    )
}
