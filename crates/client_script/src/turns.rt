//! Running a script over one link.
ghost use Rattle.std.specs.Prelude.{◌≡◌, ◌≤◌, length, true, None};
ghost use Rattle.duct.specs.Told.{CountsFaults};
ghost use Rattle.client_script.specs.declared.offering.Offered.TheVariants as offer;
ghost use Rattle.client_script.specs.Speaking.{goes_on};
ghost use Rattle.client_script.specs.Ends.{Ran, is_link_fault, is_write_fault};
ghost use Rattle.client_script.specs.Moving.{Takes, Listens, Polls, Turns, link_failed, sink_failed};

use crate::end::ConsoleEnd;
use crate::offering::{Offered, offer_all};
use crate::running::run_lines;
use crate::script::Script;
use crate::speaker::{Heard, Speaker};
use duct::{Link, Polled};
use ejson_value::{Mem, Text};
use io_edge::Sink;
use std::alloc::Global;
use std::sync::Wait;

// The speaker hears a text.
fn take<S: Speaker>(speaker: &mut S, text: &Text) -> Option<ConsoleEnd>
    requires { goes_on (S.look speaker.old) ≡ true }
    ensures { Takes S.look S.does speaker.old text.now speaker.new result }
{
    match speaker.hear(text) {
        Ok(Heard::Taken) => None,
        Ok(Heard::Failed) => Some(ConsoleEnd::Version),
        Ok(Heard::Refused(number)) => Some(ConsoleEnd::ServerSent(number)),
        Err(Mem) => Some(ConsoleEnd::Memory),
    }
}

// Polls the link once.
fn listen<S: Speaker, L: Link>(speaker: &mut S, link: &mut L) -> Option<ConsoleEnd>
    requires { goes_on (S.look speaker.old) ≡ true }
    ensures polls { Polls S.look S.does L.steps speaker.old link.old speaker.new link.new result }
    ensures faults { CountsFaults (link_failed result) (L.faults link.old) (L.faults link.new) }
{
    match link.poll() {
        Polled::Message(text) => take(speaker, &text),
        Polled::Quiet => None,
        Polled::Closed => Some(ConsoleEnd::Closed),
        Polled::Failed => Some(ConsoleEnd::LinkFault),
        Polled::Memory => Some(ConsoleEnd::Memory),
    }
}

// Whether all is done, once texts were offered: no line is left, and nothing of the client waits.
fn is_over<S: Speaker>(speaker: &S, all: bool, offered: Offered) -> bool
    ensures { result ≡ true → (all ≡ true) × (offered ≡ offer.Nothing) × ((S.look speaker.now).is_connected ≡ true) × ((S.look speaker.now).is_settled ≡ true) }
{
    match offered {
        Offered::Nothing => all && speaker.connected() && speaker.settled(),
        _ => false,
    }
}

// Runs the lines that can be run now, hands texts to the link and polls it once, unless all is done.
fn turn<R: Wait, S: Speaker, L: Link, O: Sink>(
    rt: &R,
    alloc: Global,
    speaker: &mut S,
    script: &Script,
    line: &mut u64,
    kept: &mut Option<Text>,
    link: &mut L,
    output: &mut O,
) -> Option<ConsoleEnd>
    requires line { line.old ≤ length script.now }
    requires going { goes_on (S.look speaker.old) ≡ true }
    ensures turns { Turns S.look S.does L.steps script.now line.old speaker.old link.old (O.written output.old) kept.old
        line.new speaker.new link.new (O.written output.new) kept.new result }
    ensures link { CountsFaults (link_failed result) (L.faults link.old) (L.faults link.new) }
    ensures sink { CountsFaults (sink_failed result) (O.faults output.old) (O.faults output.new) }
{
    let all = match run_lines(alloc, speaker, script, line, output) {
        Ok(all) => all,
        Err(end) => return Some(end),
    };
    let offered = offer_all(rt, speaker, kept, link);
    if is_over(speaker, all, offered) {
        return Some(ConsoleEnd::Done);
    }
    match offered {
        Offered::Failed => Some(ConsoleEnd::LinkFault),
        Offered::Memory => Some(ConsoleEnd::Memory),
        _ => listen(speaker, link),
    }
}

/// Runs the script over one link, from the line at `line` on, which is then that of the first line that
/// wasn't run. A wait is passed once no subscription and no call of the client waits, and one more stands
/// behind the last line. A line that asks for what can't be done is skipped.
pub fn leg<R: Wait, S: Speaker, L: Link, O: Sink>(
    rt: &R,
    alloc: Global,
    speaker: &mut S,
    script: &Script,
    line: &mut u64,
    link: &mut L,
    output: &mut O,
) -> ConsoleEnd
    requires line { line.old ≤ length script.now }
    requires going { goes_on (S.look speaker.old) ≡ true }
    ensures ran { Ran S.look S.does L.steps script.now line.old speaker.old link.old (O.written output.old) None
        line.new speaker.new link.new (O.written output.new) result }
    ensures link { CountsFaults (is_link_fault result) (L.faults link.old) (L.faults link.new) }
    ensures sink { CountsFaults (is_write_fault result) (O.faults output.old) (O.faults output.new) }
{
    let mut kept = None;
    for _ in rt.forever() {
        if let Some(end) = turn(rt, alloc, speaker, script, line, &mut kept, link, output) {
            return end;
        }
    }
    unreachable!()
}
