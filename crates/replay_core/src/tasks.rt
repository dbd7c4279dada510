//! Lines of a replay, as they are read.
ghost use Rattle.std.specs.Prelude.{◌≡◌, ℕ, List, false, IfOk, IfSome};
ghost use Rattle.checking.specs.Input.{lines_in, is_blank};
ghost use Rattle.replay_core.specs.Replay.{event_of};
ghost use Rattle.replay_core.specs.Stepping.{IsOperation};
ghost use Rattle.replay_core.specs.Tasks.{IsTask, Reads, ReadsAll, AreHalves};

use checking::{first_line, is_blank, read_value, split_lines};
use collection_store::Op;
use ejson_value::{Mem, Text};
use json::Scratch;
use operation_reading::operation_told;
use std::alloc::Global;
use std::str;
use world_events::{Event, LineFault};

/// What a line asks for.
#[derive(Drop)]
pub enum Task {
    /// Nothing, since it is blank.
    Nothing,
    /// An administrator's operation. The line tells of it, as a text.
    Operation(Text, Op),
    /// An event.
    Event(Event),
    /// It is no event.
    Bad,
}

/// A line, and what it asks for.
#[derive(Drop)]
pub struct ReadLine<'a> {
    pub line: &'a [u8],
    pub task: Task,
}

/// The first lines of some as they are read, and the lines that follow.
#[derive(Drop)]
pub struct Batch<'a> {
    pub read: Vec<ReadLine<'a>>,
    pub rest: &'a [u8],
}

// The event that the line is, if it is one.
fn event_in(alloc: Global, line: &[u8], scratch: &mut Scratch) -> Result<Option<Event>, Mem>
    ensures { IfOk result (λ event. event ≡ event_of line.now) }
{
    let Some(value) = read_value(alloc, line, scratch)? else {
        return Ok(None);
    };
    let read = Event::read(alloc, &value);
    drop(value);
    match read {
        Ok(event) => Ok(Some(event)),
        Err(LineFault::NotAnEvent) => Ok(None),
        Err(LineFault::Memory) => Err(Mem),
    }
}

// The line as a text and the administrator's operation that it tells of, where it is read from its tokens.
fn operation_in<'a>(
    alloc: Global,
    line: &'a [u8],
    scratch: &mut Scratch,
) -> Result<Option<(&'a str, Op)>, Mem>
    ensures line { IfOk result (λ told. IfSome told (λ t. t.0.now ≡ line.now)) }
    ensures operation { IfOk result (λ told. IfSome told (λ t. IsOperation t.0.now t.1)) }
{
    let Ok(text) = str::from_utf8(line) else {
        return Ok(None);
    };
    match operation_told(alloc, text, scratch)? {
        Some(operation) => Ok(Some((text, operation))),
        None => Ok(None),
    }
}

// What the text asks for that tells of this operation.
fn told_task(alloc: Global, text: &str, operation: Op) -> Result<Task, Mem>
    requires line { is_blank text.now ≡ false }
    requires operation { IsOperation text.now operation }
    ensures { IfOk result (IsTask text.now) }
{
    let text = Text::from_str(alloc, text)?;
    Ok(Task::Operation(text, operation))
}

// What a line asks for that tells of no operation.
fn event_task(alloc: Global, line: &[u8], scratch: &mut Scratch) -> Result<Task, Mem>
    requires { is_blank line.now ≡ false }
    ensures { IfOk result (IsTask line.now) }
{
    match event_in(alloc, line, scratch)? {
        Some(event) => Ok(Task::Event(event)),
        None => Ok(Task::Bad),
    }
}

fn task_of(alloc: Global, line: &[u8], scratch: &mut Scratch) -> Result<Task, Mem>
    ensures { IfOk result (IsTask line.now) }
{
    if is_blank(line) {
        return Ok(Task::Nothing);
    }
    match operation_in(alloc, line, scratch)? {
        Some((text, operation)) => told_task(alloc, text, operation),
        None => event_task(alloc, line, scratch),
    }
}

/// Reads the lines.
pub fn read_all<'a>(alloc: Global, lines: &'a [u8]) -> Result<Vec<ReadLine<'a>>, Mem>
    ensures { IfOk result (λ read. ReadsAll lines.now read.items) }
{
    let mut scratch = Scratch::new(alloc);
    let mut read = Vec::new(alloc);
    let mut rest = lines;
    while !rest.is_empty() {
        let (line, more) = first_line(rest);
        let task = task_of(alloc, line, &mut scratch)?;
        read.push(ReadLine { line, task })?;
        rest = more;
    }
    Ok(read)
}

/// Reads the first lines, up to that which has the byte at this place.
pub fn read_lines<'a>(alloc: Global, lines: &'a [u8], place: usize) -> Result<Batch<'a>, Mem>
    ensures { IfOk result (Reads lines.now place) }
{
    let (now, rest) = split_lines(lines, place);
    Ok(Batch {
        read: read_all(alloc, now)?,
        rest,
    })
}

/// First lines that are to be read in two parts, and the lines that follow.
#[derive(Clone, Copy)]
pub struct Halves<'a> {
    pub one: &'a [u8],
    pub other: &'a [u8],
    pub rest: &'a [u8],
}

/// The first lines, up to that which has the byte at this place, in two parts.
pub fn in_halves<'a>(lines: &'a [u8], place: usize) -> Halves<'a>
    ensures { AreHalves lines.now place result }
{
    let (now, rest) = split_lines(lines, place);
    let (one, other) = split_lines(now, now.len() / 2);
    Halves { one, other, rest }
}

/// Both parts, as each was read.
pub fn joined<'a>(
    halves: Halves<'a>,
    one: Result<Vec<ReadLine<'a>>, Mem>,
    other: Result<Vec<ReadLine<'a>>, Mem>,
) -> Result<Batch<'a>, Mem>
    requires one { IfOk one (λ read. ReadsAll halves.one.now read.items) }
    requires other { IfOk other (λ read. ReadsAll halves.other.now read.items) }
    ensures { IfOk result (λ batch. (lines : List ℕ) (place : ℕ) → AreHalves lines place halves.entry → Reads lines place batch) }
{
    let mut read = one?;
    let mut more = other?;
    read.append(&mut more)?;
    Ok(Batch {
        read,
        rest: halves.rest,
    })
}
