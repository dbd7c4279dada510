//! A console over a link that a heart watches.
ghost use Rattle.duct.specs.Told.{CountsFaults};
ghost use Rattle.timed_link.specs.Times.{IsFresh};
ghost use Rattle.console_run.specs.Timing.{ConsolesTimed, is_timed_link_fault, is_timed_write_fault};

use crate::run::console;
use app_model::App;
use client_script::{ConsoleEnd, Script};
use duct::Link;
use io_edge::Sink;
use std::alloc::Global;
use std::sync::Wait;
use timed_link::{Clock, TimedLink};

/// Why a script is no longer run over a link that a heart watches.
#[derive(Clone, Copy, Debug, PartialEq, Eq)]
pub enum TimedConsole {
    /// It ended as it may without a heart.
    Ended(ConsoleEnd),
    /// No text came behind the `ping` of the moment `pinged`, up to the moment `now`.
    Timeout { pinged: u64, now: u64 },
}

/// Runs a script over a link that a heart watches, as `console` does over any link. Where the heart gives the server up, that is the
/// end.
pub fn console_timed<R: Wait, L: Link, C: Clock, O: Sink>(
    rt: &R,
    alloc: Global,
    app: &App,
    script: &Script,
    link: &mut TimedLink<L, C>,
    output: &mut O,
) -> TimedConsole
    requires { IsFresh link.old.watch }
    ensures ran { ConsolesTimed L.steps C.told app.now script.now link.old (O.written output.old) link.new (O.written output.new) result }
    ensures link { CountsFaults (is_timed_link_fault result) (L.faults link.old.link) (L.faults link.new.link) }
    ensures sink { CountsFaults (is_timed_write_fault result) (O.faults output.old) (O.faults output.new) }
{
    let end = console(rt, alloc, app, script, link, output);
    match link.given_up() {
        Some((pinged, now)) => TimedConsole::Timeout { pinged, now },
        None => TimedConsole::Ended(end),
    }
}
