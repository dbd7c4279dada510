//! The words that name commands of a network.
ghost use Rattle.std.specs.Prelude.{◌≡◌, IfSome};
ghost use Rattle.network_commands.specs.Words.{port_in, connections_in, tries_in, serve_of, console_of, network_command_in, retry_of};
ghost use Rattle.network_commands.specs.Words.{retry_command_in, timed_of, console_beat_of, serve_beat_of, timed_command_in, HasTimes};

use command_words::number_in;
use commands::time_in;
use ejson_value::Text;

// The greatest port, and the most connections that a server may be asked to serve.
const MOST: u32 = 65535;

// How many further links a console may be given at most.
const MOST_TRIES: u32 = 16;

/// A command that needs a network.
#[derive(Clone, Copy, Debug, PartialEq, Eq)]
pub enum NetworkCommand {
    /// Serves at this port until so many connections have ended.
    Serve { port: u16, connections: u32 },
    /// Connects to this port and runs a script.
    Console { port: u16 },
}

/// A console that goes on over further links, so many at most.
#[derive(Clone, Copy, Debug, PartialEq, Eq)]
pub struct RetryCommand {
    pub(crate) port: u16,
    pub(crate) tries: u32,
}

/// A command over links that hearts with these times, in milliseconds, watch.
#[derive(Clone, Copy, Debug, PartialEq, Eq)]
pub struct TimedCommand {
    pub(crate) command: NetworkCommand,
    pub(crate) interval: u32,
    pub(crate) timeout: u32,
}

fn port_in(word: &Text) -> Option<u16>
    ensures { result ≡ port_in word.now }
{
    match number_in(1, MOST, word.as_str()) {
        Some(port) => Some(port as u16),
        None => None,
    }
}

fn connections_in(word: &Text) -> Option<u32>
    ensures { result ≡ connections_in word.now }
{
    number_in(1, MOST, word.as_str())
}

fn tries_in(word: &Text) -> Option<u32>
    ensures { result ≡ tries_in word.now }
{
    number_in(1, MOST_TRIES, word.as_str())
}

fn serve_of(port: &Text, connections: &Text) -> Option<NetworkCommand>
    ensures { result ≡ serve_of port.now connections.now }
{
    let port = port_in(port)?;
    let connections = connections_in(connections)?;
    Some(NetworkCommand::Serve { port, connections })
}

fn console_of(port: &Text) -> Option<NetworkCommand>
    ensures { result ≡ console_of port.now }
{
    let port = port_in(port)?;
    Some(NetworkCommand::Console { port })
}

// The command that the words name, if they are those of one that needs a network.
pub(crate) fn network_command_in(words: &[Text]) -> Option<NetworkCommand>
    ensures { result ≡ network_command_in words.now }
{
    match words {
        [word, port, connections] if word.as_str() == "serve" => serve_of(port, connections),
        [word, port] if word.as_str() == "console" => console_of(port),
        _ => None,
    }
}

fn retry_of(port: &Text, tries: &Text) -> Option<RetryCommand>
    ensures { result ≡ retry_of port.now tries.now }
{
    let port = port_in(port)?;
    let tries = tries_in(tries)?;
    Some(RetryCommand { port, tries })
}

// The command that the words name, if they are those of a console that goes on over further links.
pub(crate) fn retry_command_in(words: &[Text]) -> Option<RetryCommand>
    ensures { result ≡ retry_command_in words.now }
{
    match words {
        [word, port, tries] if word.as_str() == "console-retry" => retry_of(port, tries),
        _ => None,
    }
}

// The command, over links that hearts with the times of these words watch.
fn timed_of(
    command: Option<NetworkCommand>,
    interval: &Text,
    timeout: &Text,
) -> Option<TimedCommand>
    ensures command { result ≡ timed_of command interval.now timeout.now }
    ensures times { IfSome result HasTimes }
{
    let command = command?;
    let interval = time_in(interval)?;
    let timeout = time_in(timeout)?;
    Some(TimedCommand {
        command,
        interval,
        timeout,
    })
}

// The command `console-beat` with the port and the times that these words tell, if the first names it.
fn console_beat_of(
    word: &Text,
    port: &Text,
    interval: &Text,
    timeout: &Text,
) -> Option<TimedCommand>
    ensures command { result ≡ console_beat_of word.now port.now interval.now timeout.now }
    ensures times { IfSome result HasTimes }
{
    if word.as_str() == "console-beat" {
        timed_of(console_of(port), interval, timeout)
    } else {
        None
    }
}

// The command `serve-beat` with the port, the connections and the times that these words tell, if the first names it.
fn serve_beat_of(
    word: &Text,
    port: &Text,
    connections: &Text,
    interval: &Text,
    timeout: &Text,
) -> Option<TimedCommand>
    ensures command { result ≡ serve_beat_of word.now port.now connections.now interval.now timeout.now }
    ensures times { IfSome result HasTimes }
{
    if word.as_str() == "serve-beat" {
        timed_of(serve_of(port, connections), interval, timeout)
    } else {
        None
    }
}

// The command that the words name, if they are those of one whose links hearts watch.
pub(crate) fn timed_command_in(words: &[Text]) -> Option<TimedCommand>
    ensures command { result ≡ timed_command_in words.now }
    ensures times { IfSome result HasTimes }
{
    match words {
        [word, port, interval, timeout] => console_beat_of(word, port, interval, timeout),
        [word, port, connections, interval, timeout] => {
            serve_beat_of(word, port, connections, interval, timeout)
        }
        _ => None,
    }
}
