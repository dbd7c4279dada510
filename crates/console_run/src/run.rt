//! The console.
ghost use Rattle.std.specs.Prelude.{◌≡◌, IfOk};
ghost use Rattle.duct.specs.Told.{CountsFaults};
ghost use Rattle.client_script.specs.Ends.{is_link_fault, is_write_fault};
ghost use Rattle.console_run.specs.Console.{Consoles, begun};

use crate::speaking::Speaking;
use app_model::App;
use client_script::{ConsoleEnd, Script, leg};
use duct::Link;
use ejson_value::{Mem, Text};
use io_edge::Sink;
use std::alloc::Global;
use std::sync::Wait;

// The client of a console, at its beginning.
fn begin(alloc: Global, app: &App) -> Result<Speaking, Mem>
    ensures { IfOk result (λ s. s ≡ begun app.now) }
{
    let name = Text::from_str(alloc, "console")?;
    Speaking::new(alloc, app, &name)
}

/// Runs a script over a link, with a client of its own that is named `console` and runs the stubs of the
/// application. A line that asks for what the client can't do is skipped. A wait is passed once no
/// subscription and no call of the client waits, and one more stands behind the last line. `show` writes
/// what the client has.
pub fn console<R: Wait, L: Link, O: Sink>(
    rt: &R,
    alloc: Global,
    app: &App,
    script: &Script,
    link: &mut L,
    output: &mut O,
) -> ConsoleEnd
    ensures ran { Consoles L.steps app.now script.now link.old (O.written output.old) link.new (O.written output.new) result }
    ensures link { CountsFaults (is_link_fault result) (L.faults link.old) (L.faults link.new) }
    ensures sink { CountsFaults (is_write_fault result) (O.faults output.old) (O.faults output.new) }
{
    let Ok(mut speaker) = begin(alloc, app) else {
        return ConsoleEnd::Memory;
    };
    let mut line = 0;
    leg(rt, alloc, &mut speaker, script, &mut line, link, output)
}
