//! The one place where these tests call what runs a script.
use app_model::App;
use console_run::{ConsoleEnd, Script, Speaking, console, leg};
use duct::Link;
use ejson_value::{Mem, Text};
use io_edge::Sink;
use std::alloc::Global;
use std::sync::Wait;

/// Runs a script over the link.
pub(crate) fn run_console<R: Wait, L: Link, O: Sink>(
    rt: &R,
    alloc: Global,
    app: &App,
    script: &Script,
    link: &mut L,
    output: &mut O,
) -> ConsoleEnd {
    console(rt, alloc, app, script, link, output)
}

/// Runs a script without its first line, by a new client: how that ends, and the first line that wasn't run. There are no
/// lines where the script has none.
pub(crate) fn run_rest<R: Wait, L: Link, O: Sink>(
    rt: &R,
    alloc: Global,
    app: &App,
    script: &Script,
    link: &mut L,
    output: &mut O,
) -> Result<(ConsoleEnd, u64), Mem> {
    let name = Text::from_str(alloc, "console")?;
    let mut speaker = Speaking::new(alloc, app, &name)?;
    let mut line = 1;
    if script.len() < 1 {
        return Err(Mem);
    }
    let end = leg(rt, alloc, &mut speaker, script, &mut line, link, output);
    Ok((end, line))
}
