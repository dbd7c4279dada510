//! The usage text of the program.
#![tactic(auto)]

use clap::Command;
use std::alloc::{AllocError, Global};

// Each command that is built: its words, and what it does.
const COMMANDS: [(&str, &str); 10] = [
    (
        "check",
        "Tells whether line 1 of standard input is an application, or what is wrong with it and where",
    ),
    (
        "replay",
        "Runs the application and the events on standard input, a line each, and prints what they show",
    ),
    (
        "revive",
        "Runs a client of the application on standard input that lives through several links, and prints what it says and shows",
    ),
    (
        "beat INTERVAL TIMEOUT",
        "Tells of each moment on standard input whether a ping is due or a link is at its end; the words are milliseconds",
    ),
    (
        "gen N CALLS",
        "Writes the input of a drive of that many calls, drawn from N; it reads nothing",
    ),
    (
        "serve PORT CONNECTIONS",
        "Serves the application on standard input at ws://127.0.0.1:PORT/websocket, until so many connections have ended",
    ),
    (
        "serve-beat PORT CONNECTIONS INTERVAL TIMEOUT",
        "Serves likewise, and ends a connection that is silent for INTERVAL, and for TIMEOUT behind a ping; both are milliseconds",
    ),
    (
        "console PORT",
        "Connects to a server at that port, runs the script that follows the application on standard input, and prints what it shows",
    ),
    (
        "console-retry PORT TRIES",
        "Does the same, and goes on over a new link where one is lost, at most so many times",
    ),
    (
        "console-beat PORT INTERVAL TIMEOUT",
        "Runs a script likewise, and ends where the server is silent for so long",
    ),
];

/// The text that tells how to call the program, as `clap` lays it out. It ends with a line feed.
pub fn usage_text(alloc: Global) -> Result<String, AllocError> {
    let mut command = Command::new(alloc, "ddp")
        .about("A reactive data server and its client")
        .disable_help_flag(true)
        .disable_help_subcommand(true)
        .subcommand_required(true);
    for (words, about) in COMMANDS {
        command = command.subcommand(Command::new(alloc, words).about(about))?;
    }
    command.render_help()
}
