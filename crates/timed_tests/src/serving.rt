//! A connection whose client goes silent.
ghost use Rattle.std.specs.Prelude.{◌≡◌};
ghost use Rattle.timed_link.specs.Times.{IsFresh};

use app_model::App;
use duct::{MemoryLink, Texts};
use ejson_codec::parse;
use ejson_value::{Mem, Text};
use io_edge::Calls;
use pass_log::Opened;
use server_connection::Wakes;
use shared_multiplexer::SharedMultiplexer;
use shared_session::HeldSession;
use shared_store::{SharedStore, StoreName};
use std::alloc::Global;
use std::marker::Brand;
use std::sync::Wait;
use std::sync::ledger::Blank;
use std::test::Fail;
use store_machine::Entry;
use timed_connection::{TimedEnd, serve_connection_timed};
use timed_link::{Clocks, StepClock, StepClocks, TimedLink};

const APPLICATION: &str =
    r#"{"collections":["tasks"],"methods":{},"publications":{"all":[{"collection":"tasks"}]}}"#;

// Nobody is woken.
#[derive(Drop)]
struct Nobody;

impl Wakes for Nobody {
    fn wake(&self) {}
}

// The application; what can't be read is told as want of memory too.
fn app(alloc: Global) -> Result<App, Mem> {
    let text = Text::from_str(alloc, APPLICATION)?;
    let Ok(value) = parse(alloc, &text) else {
        return Err(Mem);
    };
    match App::read(alloc, &value) {
        Ok(app) => Ok(app),
        Err(_) => Err(Mem),
    }
}

// Serves the link over the store of this name, by the session 1.
fn served_at<N: StoreName, R: Wait>(
    rt: &R,
    alloc: Global,
    app: &App,
    opened: Opened<Entry>,
    blank: Blank,
    link: &mut TimedLink<MemoryLink, StepClock>,
) -> Result<TimedEnd, Mem>
    requires log { opened ≡ N.log }
    requires ledger { blank.name ≡ N.name }
    requires parts { blank.parts ≡ N.parts }
    requires many { N.parts ≡ 65537 }
    requires app { app.now ≡ N.app }
    requires fresh { IsFresh link.old.watch }
{
    let (store, mut pass, mut callers) = SharedStore::<N>::make(alloc, app, opened, blank)?;
    let Some(mut caller) = callers.caller(store.log(), 1)? else {
        return Err(Mem);
    };
    let own = pass.note(store.log()).pass();
    let multiplexer = SharedMultiplexer::make(alloc, pass.note(store.log()).pass());
    let mut session = HeldSession::make(alloc, app, caller.number(), own)?;
    Ok(serve_connection_timed(
        rt,
        &store,
        &multiplexer,
        &Nobody,
        &mut pass,
        &mut caller,
        &mut session,
        link,
    ))
}

// The same over a store of its own.
fn served<R: Wait>(
    rt: &R,
    alloc: Global,
    link: &mut TimedLink<MemoryLink, StepClock>,
) -> Result<TimedEnd, Mem>
    requires { IsFresh link.old.watch }
{
    let app = app(alloc)?;
    let opened = Opened::make(alloc)?;
    let blank = Blank::new(65537);
    served_at::<Brand, R>(rt, alloc, &app, opened, blank, link)
}

// A link at which a client's `connect` waits, and nothing more.
fn silent(alloc: Global) -> Result<MemoryLink, Mem> {
    let mut texts = Texts::new(alloc);
    texts.push(Text::from_str(alloc, r#"{"msg":"connect","version":"1","support":["1"]}"#)?)?;
    Ok(MemoryLink::new(
        alloc,
        texts,
        false,
        100,
        Calls::new(alloc),
        Calls::new(alloc),
    ))
}

// How long the peer was silent behind the `ping`, where it was given up.
fn silence(end: TimedEnd) -> Option<u64> {
    match end {
        TimedEnd::Timeout { pinged, now } => now.checked_sub(pinged),
        TimedEnd::Ended(_) => None,
    }
}

#[test]
fn a_silent_client_is_asked_once_and_given_up(rt: HostRuntime) -> Result<(), Fail> {
    let alloc = rt.alloc();
    let clock = StepClocks::new(10).clock()?;
    let mut link = TimedLink::new(alloc, silent(alloc)?, clock, 100, 50);
    let end = served(&rt, alloc, &mut link)?;
    assert!(rt; silence(end) == Some(50));
    let sent = link.link().sent().as_slice();
    assert!(rt; sent.len() == 2);
    assert!(rt; sent[0].as_str() == r#"{"msg":"connected","session":"S1"}"#);
    assert!(rt; sent[1].as_str() == r#"{"msg":"ping"}"#);
    Ok(())
}
