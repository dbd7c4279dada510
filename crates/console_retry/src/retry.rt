//! The console over one link after another.
ghost use Rattle.std.specs.Prelude.{◌≡◌, ◌≤◌, ◌<◌, ◌⊎◌, length, true, false, None, Ok, Err};
ghost use Rattle.duct.specs.Told.{CountsFaults};
ghost use Rattle.client_script.specs.Speaking.{goes_on};
ghost use Rattle.client_script.specs.Ends.{Ran, is_link_fault, is_write_fault};
ghost use Rattle.client_script.specs.Moving.{sink_failed};
ghost use Rattle.revived_client.specs.Speaking.{look_of, Does};
ghost use Rattle.console_retry.specs.Retries.{moment, outside, is_loss, has_write_fault, IsTried, Turns, Ends, RunsRetried};

use app_model::App;
use client_script::{ConsoleEnd, Script};
use duct::{Link, NetFault, Network};
use io_edge::Sink;
use revived_client::RevivedClient;
use std::alloc::Global;
use std::sync::Wait;

/// Runs a script over one link with this client, from the line at `line` on, which is then that of the first line that wasn't run. The
/// client hears the texts that the link gives, and the texts that it says are handed to the link. A line that asks for what can't be
/// done is skipped. A wait is passed once no subscription and no call of the client waits, and one more stands behind the last line.
/// It is for a client that refused no text so far, and whose version was not refused.
pub fn leg<R: Wait, L: Link, O: Sink>(
    rt: &R,
    alloc: Global,
    client: &mut RevivedClient,
    script: &Script,
    line: &mut u64,
    link: &mut L,
    output: &mut O,
) -> ConsoleEnd
    requires line { line.old ≤ length script.now }
    requires going { goes_on (look_of client.old) ≡ true }
    ensures ran { Ran look_of Does L.steps script.now line.old client.old link.old (O.written output.old) None
        line.new client.new link.new (O.written output.new) result }
    ensures link { CountsFaults (is_link_fault result) (L.faults link.old) (L.faults link.new) }
    ensures sink { CountsFaults (is_write_fault result) (O.faults output.old) (O.faults output.new) }
{
    client_script::leg(rt, alloc, client, script, line, link, output)
}

// Whether the link was lost before the script was done.
fn is_loss(end: ConsoleEnd) -> bool
    ensures { result ≡ is_loss end }
{
    match end {
        ConsoleEnd::Closed | ConsoleEnd::LinkFault => true,
        ConsoleEnd::Done
        | ConsoleEnd::ServerSent(_)
        | ConsoleEnd::Version
        | ConsoleEnd::WriteFault
        | ConsoleEnd::Memory => false,
    }
}

// Whether the script goes on, with so many further links that may be tried.
fn may_go_on(end: ConsoleEnd, tries: u32) -> bool
    ensures yes { result ≡ true → (is_loss end ≡ true) × (0 < tries) }
    ensures no { result ≡ false → (is_loss end ≡ false) ⊎ (tries ≡ 0) }
{
    tries > 0 && is_loss(end)
}

// Runs the script over the next link that the network gives.
fn next_leg<R: Wait, N: Network, O: Sink>(
    rt: &R,
    alloc: Global,
    client: &mut RevivedClient,
    script: &Script,
    line: &mut u64,
    port: u16,
    net: &mut N,
    output: &mut O,
) -> Result<ConsoleEnd, NetFault>
    requires line { line.old ≤ length script.now }
    requires going { goes_on (look_of client.old) ≡ true }
    ensures tried { IsTried N.Link.steps N.Link.faults script.now
        (moment client.old line.old (O.written output.old) (N.given net.old) (N.faults net.old))
        (moment client.new line.new (O.written output.new) (N.given net.new) (N.faults net.new)) result }
    ensures sink { CountsFaults (has_write_fault result) (O.faults output.old) (O.faults output.new) }
{
    let mut link = match net.connect(port) {
        Ok(link) => link,
        Err(fault) => return Err(fault),
    };
    Ok(leg(rt, alloc, client, script, line, &mut link, output))
}

// Runs the script over the next link. Where that is lost and so many further ones may be tried, the client is told of it.
fn turn<R: Wait, N: Network, O: Sink>(
    rt: &R,
    alloc: Global,
    client: &mut RevivedClient,
    script: &Script,
    line: &mut u64,
    port: u16,
    tries: u32,
    net: &mut N,
    output: &mut O,
) -> Option<ConsoleEnd>
    requires line { line.old ≤ length script.now }
    requires going { goes_on (look_of client.old) ≡ true }
    ensures turns { Turns N.Link.steps N.Link.faults script.now tries
        (moment client.old line.old (O.written output.old) (N.given net.old) (N.faults net.old))
        (moment client.new line.new (O.written output.new) (N.given net.new) (N.faults net.new)) result }
    ensures sink { CountsFaults (sink_failed result) (O.faults output.old) (O.faults output.new) }
{
    let end = match next_leg(rt, alloc, client, script, line, port, net, output) {
        Ok(end) => end,
        Err(NetFault::Failed) => return Some(ConsoleEnd::LinkFault),
        Err(NetFault::Memory) => return Some(ConsoleEnd::Memory),
    };
    if !may_go_on(end, tries) {
        return Some(end);
    }
    match client.lost() {
        Ok(()) => None,
        Err(_) => Some(ConsoleEnd::Memory),
    }
}

// Runs the script over one link after another.
fn retry<R: Wait, N: Network, O: Sink>(
    rt: &R,
    alloc: Global,
    client: &mut RevivedClient,
    script: &Script,
    line: &mut u64,
    port: u16,
    tries: u32,
    net: &mut N,
    output: &mut O,
) -> ConsoleEnd
    requires line { line.old ≤ length script.now }
    requires going { goes_on (look_of client.old) ≡ true }
    ensures ends { Ends N.Link.steps N.Link.faults script.now tries
        (moment client.old line.old (O.written output.old) (N.given net.old) (N.faults net.old))
        (moment client.new line.new (O.written output.new) (N.given net.new) (N.faults net.new)) result }
    ensures sink { CountsFaults (is_write_fault result) (O.faults output.old) (O.faults output.new) }
{
    let mut left = tries;
    'links: loop {
        match turn(rt, alloc, client, script, line, port, left, net, output) {
            Some(end) => return end,
            None => left -= 1,
        }
    }
}

/// Runs a script with a client of its own that is named `console` and runs the stubs of the application, over links to the peer at this
/// port: a link that answers that its peer has closed, or that fails, before the script is done is followed by a new one, at most
/// `tries` times, and the client goes on with a new session there. `Closed` and `LinkFault` are the end of the last link that may be
/// tried, and `LinkFault` also comes where the network gives none; all other ends come as for one link.
pub fn console_retry<R: Wait, N: Network, O: Sink>(
    rt: &R,
    alloc: Global,
    app: &App,
    script: &Script,
    port: u16,
    tries: u32,
    net: &mut N,
    output: &mut O,
) -> ConsoleEnd
    ensures retries { RunsRetried N.Link.steps N.Link.faults script.now app.now tries
        (outside (O.written output.old) (N.given net.old) (N.faults net.old))
        (outside (O.written output.new) (N.given net.new) (N.faults net.new)) result }
    ensures sink { CountsFaults (is_write_fault result) (O.faults output.old) (O.faults output.new) }
{
    let Ok(mut client) = RevivedClient::new(alloc, app) else {
        return ConsoleEnd::Memory;
    };
    let mut line = 0;
    retry(
        rt,
        alloc,
        &mut client,
        script,
        &mut line,
        port,
        tries,
        net,
        output,
    )
}
