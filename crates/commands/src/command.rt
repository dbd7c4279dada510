//! The words that name commands.
ghost use Rattle.std.specs.Prelude.{◌≡◌, IfSome};
ghost use Rattle.heartbeat.specs.Beats.{IsTime};
ghost use Rattle.commands.specs.Cause.{command_of, time_in, beat_of, gen_of, command_with, command_in, reads, HasBounds};

use command_words::number_in;
use ejson_value::Text;
use generated_work::MAX_CALLS;
use heartbeat::LONGEST;

/// A command of the program.
#[derive(Clone, Copy, Debug, PartialEq, Eq)]
pub enum Command {
    /// Tells whether the first line is an application, or what is wrong with it.
    Check,
    /// Runs the lines as events and tells what they show.
    Replay,
    /// Runs the lines with a client that lives through several links and tells what it says and shows.
    Revive,
    /// Hands a heart of these times, in milliseconds, the moments of the lines, and tells what it answers.
    Beat { interval: u32, timeout: u32 },
    /// Writes the input of a drive of this many calls, drawn from this number.
    Gen { seed: u32, calls: u32 },
}

impl Command {
    /// Whether it reads an input.
    pub(crate) fn reads(self) -> bool
        ensures { result ≡ reads self }
    {
        match self {
            Command::Check | Command::Replay | Command::Revive | Command::Beat { .. } => true,
            Command::Gen { .. } => false,
        }
    }
}

// The command that the word names alone.
fn command_of(word: &Text) -> Option<Command>
    ensures command { result ≡ command_of word.now }
    ensures bounds { IfSome result HasBounds }
{
    if word.as_str() == "check" {
        Some(Command::Check)
    } else if word.as_str() == "replay" {
        Some(Command::Replay)
    } else if word.as_str() == "revive" {
        Some(Command::Revive)
    } else {
        None
    }
}

/// A number of milliseconds that a heart takes, from 1 to `LONGEST`, in decimal digits without a leading zero or a sign.
pub fn time_in(word: &Text) -> Option<u32>
    ensures time { result ≡ time_in word.now }
    ensures bounds { IfSome result IsTime }
{
    number_in(1, LONGEST, word.as_str())
}

// The command `beat` with the times that these words tell.
fn beat_of(interval: &Text, timeout: &Text) -> Option<Command>
    ensures command { result ≡ beat_of interval.now timeout.now }
    ensures bounds { IfSome result HasBounds }
{
    let interval = time_in(interval)?;
    let timeout = time_in(timeout)?;
    Some(Command::Beat { interval, timeout })
}

// The command `gen` with the numbers that these words tell.
fn gen_of(seed: &Text, calls: &Text) -> Option<Command>
    ensures command { result ≡ gen_of seed.now calls.now }
    ensures bounds { IfSome result HasBounds }
{
    let seed = number_in(0, u32::MAX, seed.as_str())?;
    let calls = number_in(0, MAX_CALLS, calls.as_str())?;
    Some(Command::Gen { seed, calls })
}

// The command that the word names with these two behind it.
fn command_with(word: &Text, one: &Text, two: &Text) -> Option<Command>
    ensures command { result ≡ command_with word.now one.now two.now }
    ensures bounds { IfSome result HasBounds }
{
    match word.as_str() {
        "beat" => beat_of(one, two),
        "gen" => gen_of(one, two),
        _ => None,
    }
}

// The command that the words name, if they are those of one.
pub(crate) fn command_in(words: &[Text]) -> Option<Command>
    ensures command { result ≡ command_in words.now }
    ensures bounds { IfSome result HasBounds }
{
    match words {
        [word] => command_of(word),
        [word, one, two] => command_with(word, one, two),
        _ => None,
    }
}
