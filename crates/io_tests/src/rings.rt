ghost use Rattle.duct.specs.Rings.{AreEnds, SameWays};

use duct::{Link, Polled, RingLink, SendFault, ring};
use ejson_value::{Mem, Text};
use std::alloc::Global;
use std::test::Fail;
use std::thread;
use std::thread::Threads;

fn sends(link: &mut RingLink, text: Text) -> Result<(), (Text, SendFault)>
    ensures { SameWays link.old link.new }
{
    link.send(text)
}

fn takes(link: &mut RingLink, wanted: &str) -> bool
    ensures { SameWays link.old link.new }
{
    match link.poll() {
        Polled::Message(text) => text.as_str() == wanted,
        Polled::Closed => wanted == "closed",
        Polled::Quiet => wanted == "-",
        Polled::Failed | Polled::Memory => false,
    }
}

// Two texts fill a ring of two places; a third comes back and is taken once a poll at the other end has made room, which
// this end knows of when it has looked. Whether that is so, and how many texts are found beside then, and after two more polls.
fn fill(
    here: &mut RingLink,
    there: &mut RingLink,
    first: Text,
    second: Text,
    third: Text,
) -> (bool, u64, u64)
    requires { AreEnds here.old there.old }
{
    let filled = sends(here, first).is_ok() && sends(here, second).is_ok();
    let back = match sends(here, third) {
        Err((back, SendFault::Full)) => back,
        _ => return (false, 0, 0),
    };
    let given = takes(there, "a");
    let known = here.slots();
    let found = here.look();
    let sent = sends(here, back).is_ok();
    let waiting = there.beside(here);
    let taken = takes(there, "b") && takes(there, "c");
    (
        filled && given && known == 0 && found == 1 && sent && taken,
        waiting,
        there.beside(here),
    )
}

fn fill_new(
    alloc: Global,
    first: Text,
    second: Text,
    third: Text,
) -> Result<(bool, u64, u64), Mem> {
    let (mut here, mut there) = ring(alloc, 2)?;
    Ok(fill(&mut here, &mut there, first, second, third))
}

fn three_texts(alloc: Global) -> Result<(bool, u64, u64), Mem> {
    let first = Text::from_str(alloc, "a")?;
    let second = Text::from_str(alloc, "b")?;
    fill_new(alloc, first, second, Text::from_str(alloc, "c")?)
}

#[test]
fn a_ring_of_two_places_takes_two_texts(rt: HostRuntime) -> Result<(), Fail> {
    let (right, waiting, left) = three_texts(rt.alloc())?;
    assert!(rt; right);
    assert_eq!(rt; waiting, 2);
    assert_eq!(rt; left, 0);
    Ok(())
}

// What polls give behind the mark of an end that has sent one text, whether it sends one more, and how many places it
// then knows of.
fn close(
    here: &mut RingLink,
    there: &mut RingLink,
    first: Text,
    second: Text,
) -> (bool, bool, u32) {
    let sent = here.slots() == 1 && sends(here, first).is_ok();
    here.close();
    here.close();
    let refused = sends(here, second).is_err();
    let given = takes(there, "a") && takes(there, "closed") && takes(there, "closed");
    (sent && given && here.look() == 0, refused, here.slots())
}

fn close_new(alloc: Global, first: Text, second: Text) -> Result<(bool, bool, u32), Mem> {
    let (mut here, mut there) = ring(alloc, 1)?;
    Ok(close(&mut here, &mut there, first, second))
}

#[test]
fn an_end_that_has_closed_sends_no_more(rt: HostRuntime) -> Result<(), Fail> {
    let alloc = rt.alloc();
    let (given, refused, slots) = close_new(
        alloc,
        Text::from_str(alloc, "a")?,
        Text::from_str(alloc, "b")?,
    )?;
    assert!(rt; given);
    assert!(rt; refused);
    assert_eq!(rt; slots, 0);
    Ok(())
}

const COUNT: u32 = 10_000;

// A thread that has made so many turns has failed.
const TURNS: u32 = 1_000_000_000;

// The number as five digits.
fn numbered(alloc: Global, number: u32) -> Result<Text, Mem> {
    let mut text = Text::new(alloc);
    for power in [10_000u32, 1_000, 100, 10, 1] {
        if let Some(digit) = char::from_digit(number / power % 10, 10) {
            text.push(digit)?;
        }
    }
    Ok(text)
}

// Sends a text; where the ring is full, again.
fn send_waiting(link: &mut RingLink, text: Text) -> bool {
    let mut text = text;
    for _ in 0..TURNS {
        match link.send(text) {
            Ok(()) => return true,
            Err((back, _)) => text = back,
        }
        thread::yield_now();
    }
    false
}

fn send_all(alloc: Global, link: RingLink) -> Result<bool, Mem> {
    let mut link = link;
    for number in 0..COUNT {
        let text = numbered(alloc, number)?;
        if !send_waiting(&mut link, text) {
            return Ok(false);
        }
    }
    link.close();
    Ok(true)
}

// The next text that comes, none at the end or behind too many turns.
fn poll_waiting(link: &mut RingLink) -> Option<Text> {
    for _ in 0..TURNS {
        match link.poll() {
            Polled::Message(text) => return Some(text),
            Polled::Quiet => {}
            _ => return None,
        }
        thread::yield_now();
    }
    None
}

// How many texts came, each in its turn.
fn take_all(alloc: Global, link: RingLink) -> Result<u32, Mem> {
    let mut link = link;
    for number in 0..COUNT {
        let Some(text) = poll_waiting(&mut link) else {
            return Ok(number);
        };
        if text.as_str() != numbered(alloc, number)?.as_str() {
            return Ok(number);
        }
    }
    if takes(&mut link, "closed") || poll_waiting(&mut link).is_none() {
        Ok(COUNT)
    } else {
        Ok(0)
    }
}

fn across<R: Threads + Sync>(rt: &R, alloc: Global) -> Result<(bool, u32), Mem> {
    let (here, there) = ring(alloc, 2)?;
    let (sent, taken) = thread::join(
        rt,
        move || send_all(alloc, here),
        move || take_all(alloc, there),
    );
    Ok((sent?, taken?))
}

#[test]
fn texts_come_in_order_between_two_threads(rt: HostRuntime) -> Result<(), Fail> {
    let (sent, taken) = across(&rt, rt.alloc())?;
    assert!(rt; sent);
    assert_eq!(rt; taken, COUNT);
    Ok(())
}
