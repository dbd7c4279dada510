use duct::{Bell, Link, MemoryLink, Polled, Texts};
use ejson_value::{Mem, Text};
use io_edge::Calls;
use std::alloc::Global;
use std::test::Fail;
use timed_link::{Clocks, StepClock, StepClocks, TimedLink};

// The clock goes by tens: the text comes at 10, the `ping` is due at 110, and the end at 160.
const QUIET_AFTER_A: &str = "a - - - - - - - - - - - - - - closed closed";

// A link at which the words wait, and behind them, where `closed` holds, the end. It takes `capacity` texts; its sends with
// these numbers fail.
fn link(
    alloc: Global,
    words: &str,
    closed: bool,
    capacity: u32,
    sends: &[u64],
) -> Result<MemoryLink, Mem> {
    let mut waiting = Texts::new(alloc);
    for word in words.split_whitespace() {
        waiting.push(Text::from_str(alloc, word)?)?;
    }
    let mut failing = Calls::new(alloc);
    for number in sends {
        failing.push(*number)?;
    }
    let polls = Calls::new(alloc);
    Ok(MemoryLink::new(alloc, waiting, closed, capacity, polls, failing))
}

// What a poll gave, in one word.
fn polled(link: &mut TimedLink<MemoryLink, StepClock>, wanted: &str) -> bool {
    match link.poll() {
        Polled::Message(text) => text.as_str() == wanted,
        Polled::Quiet => wanted == "-",
        Polled::Closed => wanted == "closed",
        Polled::Failed => wanted == "failed",
        Polled::Memory => false,
    }
}

// Whether the polls of a link give what is wanted, word by word.
fn polls(link: &mut TimedLink<MemoryLink, StepClock>, wanted: &str) -> bool {
    wanted.split_whitespace().all(|word| polled(link, word))
}

#[test]
fn a_silent_peer_is_asked_once_and_given_up(rt: HostRuntime) -> Result<(), Fail> {
    let alloc = rt.alloc();
    let inner = link(alloc, "a", false, 2, &[])?;
    let clock = StepClocks::new(10).clock()?;
    let mut timed = TimedLink::new(alloc, inner, clock, 100, 50);
    timed.bell()?.ring();
    assert!(rt; timed.given_up().is_none());
    assert!(rt; polls(&mut timed, QUIET_AFTER_A));
    assert!(rt; timed.given_up() == Some((110, 160)));
    let sent = timed.link().sent().as_slice();
    assert!(rt; sent.len() == 1);
    assert!(rt; sent[0].as_str() == "{\"msg\":\"ping\"}");
    Ok(())
}

#[test]
fn a_text_holds_the_end_off(rt: HostRuntime) -> Result<(), Fail> {
    let alloc = rt.alloc();
    let inner = link(alloc, "a b c", true, 2, &[])?;
    let clock = StepClocks::new(60).clock()?;
    let mut timed = TimedLink::new(alloc, inner, clock, 1, 1);
    assert!(rt; polls(&mut timed, "a b c closed closed"));
    assert!(rt; timed.given_up().is_none());
    assert!(rt; timed.link().sent().is_empty());
    Ok(())
}

#[test]
fn a_ping_that_finds_no_room_is_let_go(rt: HostRuntime) -> Result<(), Fail> {
    let alloc = rt.alloc();
    let full = link(alloc, "", false, 0, &[])?;
    let clock = StepClocks::new(10).clock()?;
    let mut timed = TimedLink::new(alloc, full, clock, 10, 30);
    assert!(rt; polls(&mut timed, "- - - closed"));
    Ok(())
}

#[test]
fn a_ping_that_fails_is_a_failed_poll(rt: HostRuntime) -> Result<(), Fail> {
    let alloc = rt.alloc();
    let broken = link(alloc, "", false, 2, &[1])?;
    let clock = StepClocks::new(10).clock()?;
    let mut timed = TimedLink::new(alloc, broken, clock, 10, 30);
    assert!(rt; polls(&mut timed, "failed - - closed"));
    Ok(())
}
