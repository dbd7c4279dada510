//! A call for which the history has no room: its session is told so, and tells its client.
ghost use Rattle.std.specs.Prelude.{◌≡◌, ◌<◌, [], IfOk};

use crate::calls::{Named, app, begin_all, long_call};
use app_model::App;
use ejson_value::Text;
use pass_log::Opened;
use session_laws::EventFault;
use shared_session::HeldSession;
use shared_store::{Caller, Callers, SharedBegin, SharedStore, StoreName, StorePass};
use std::alloc::Global;
use std::marker::Brand;
use std::sync::Wait;
use std::sync::ledger::Blank;
use std::test::Fail;
use store_machine::Entry;

const CONNECT: &str = r#"{"msg":"connect","version":"1"}"#;

const BEFORE: &str = r#"{"id":"1","method":"e","msg":"method","params":[""#;

const BEHIND: &str = r#""],"randomSeed":"s"}"#;

const SENT: &str = r#"{"msg":"connected","session":"S2"}
{"error":{"error":"503","errorType":"Meteor.Error","message":"History full [503]","reason":"History full"},"id":"1","msg":"result"}
{"methods":["1"],"msg":"updated"}
"#;

// A call with a text of 1,048,572 letters.
fn long_text(alloc: Global) -> Result<Text, Fail> {
    let mut long = Text::from_str(alloc, BEFORE)?;
    for _ in 0..1_048_572 {
        long.push('x')?;
    }
    long.push_str(BEHIND)?;
    Ok(long)
}

// The session takes a text and handles it, where it is a message that waits.
fn take<N: StoreName>(session: &mut HeldSession<N>, text: &Text) -> Result<(), EventFault>
    ensures { session.new.session.carried.number ≡ session.old.session.carried.number }
{
    session.take(text)
}

fn handle<N: StoreName>(session: &mut HeldSession<N>) -> Result<(), EventFault>
    ensures { session.new.session.carried.number ≡ session.old.session.carried.number }
{
    session.handle()
}

// A session of this number that has taken `connect`, and has the call to run.
fn asked<N: StoreName>(
    alloc: Global,
    app: &App,
    number: u32,
    pass: StorePass<N>,
    connect: &Text,
    long: &Text,
) -> Result<HeldSession<N>, Fail>
    requires { app.now ≡ N.app }
    ensures { IfOk result (λ session. session.session.carried.number ≡ number) }
{
    let mut session = HeldSession::make(alloc, app, number, pass)?;
    take(&mut session, connect)?;
    take(&mut session, long)?;
    handle(&mut session)?;
    Ok(session)
}

// The session's call is begun, for which there is no room, and the session is told so. The entries and bytes that the history
// would have, and the place of the refusal.
fn refused<N: StoreName, R: Wait>(
    rt: &R,
    app: &App,
    store: &SharedStore<N>,
    pass: &mut StorePass<N>,
    caller: &mut Caller<N>,
    session: &mut HeldSession<N>,
) -> Result<[u64; 3], Fail>
    requires app { app.now ≡ N.app }
    requires some { 0 < caller.old.number }
    requires number { caller.old.number ≡ session.old.session.carried.number }
{
    let Some(call) = session.blocking() else {
        return Err("no call".into());
    };
    if app.method(&call.method).is_none() {
        return Err("no method".into());
    }
    let k = call.k;
    match store.begin(rt, pass, caller, k, &call.method, &call.params, &call.seed) {
        Err(SharedBegin::Full { entries, kept }) => {
            let at = pass.len();
            let note = pass.note(store.log());
            session.refuse(store.log(), k, at, note)?;
            Ok([entries, kept, at])
        }
        _ => Err("room for the call".into()),
    }
}

// The texts that the session sends, a line each.
fn sent<N: StoreName>(alloc: Global, session: &mut HeldSession<N>) -> Result<String, Fail> {
    let mut lines = String::new(alloc);
    for _ in 0..4 {
        if let Some(text) = session.send() {
            lines.push_str(text.as_str())?;
            lines.push_str("\n")?;
        }
    }
    Ok(lines)
}

/// What a call is answered that a history has no room for, how many entries its caller made, and what its session sends.
#[derive(Drop)]
struct Answered {
    refused: [u64; 3],
    made: u64,
    sent: String,
}

// What the second session is told, whose call has no room.
fn told<N: StoreName, R: Wait>(
    rt: &R,
    alloc: Global,
    app: &App,
    store: &SharedStore<N>,
    pass: &mut StorePass<N>,
    caller: &mut Caller<N>,
    session: &mut HeldSession<N>,
) -> Result<Answered, Fail>
    requires app { app.now ≡ N.app }
    requires some { 0 < caller.old.number }
    requires number { caller.old.number ≡ session.old.session.carried.number }
{
    let refused = refused(rt, app, store, pass, caller, session)?;
    let sent = sent(alloc, session)?;
    Ok(Answered {
        refused,
        made: caller.made(),
        sent,
    })
}

// The first session fills the history, and then the second one calls.
fn told_second<N: StoreName, R: Wait>(
    rt: &R,
    alloc: Global,
    app: &App,
    store: &SharedStore<N>,
    pass: &mut StorePass<N>,
    callers: &mut Callers<N>,
    call: &Named,
    session: &mut HeldSession<N>,
) -> Result<Answered, Fail>
    requires app { app.now ≡ N.app }
    requires callers { callers.old.given ≡ [] }
    requires number { session.old.session.carried.number ≡ 2 }
{
    let Some(mut first) = callers.caller(store.log(), 1)? else {
        return Err("no caller".into());
    };
    let Some(mut second) = callers.caller(store.log(), 2)? else {
        return Err("no caller".into());
    };
    if !begin_all(rt, app, store, pass, &mut first, call) {
        return Err("no room".into());
    }
    told(rt, alloc, app, store, pass, &mut second, session)
}

fn told_by_two<N: StoreName, R: Wait>(
    rt: &R,
    alloc: Global,
    app: &App,
    opened: Opened<Entry>,
    blank: Blank,
    call: &Named,
    connect: &Text,
    long: &Text,
) -> Result<Answered, Fail>
    requires log { opened ≡ N.log }
    requires ledger { blank.name ≡ N.name }
    requires parts { blank.parts ≡ N.parts }
    requires many { blank.parts ≡ 65537 }
    requires app { app.now ≡ N.app }
{
    let (store, mut pass, mut callers) = SharedStore::<N>::make(alloc, app, opened, blank)?;
    let own = pass.note(store.log()).pass();
    let mut session = asked(alloc, app, 2, own, connect, long)?;
    told_second(
        rt,
        alloc,
        app,
        &store,
        &mut pass,
        &mut callers,
        call,
        &mut session,
    )
}

fn told_of_new<R: Wait>(rt: &R, alloc: Global) -> Result<Answered, Fail> {
    let call = long_call(alloc)?;
    let connect = Text::from_str(alloc, CONNECT)?;
    let long = long_text(alloc)?;
    let app = app(alloc)?;
    let opened = Opened::make(alloc)?;
    let blank = Blank::new(65537);
    told_by_two::<Brand, R>(rt, alloc, &app, opened, blank, &call, &connect, &long)
}

#[test]
fn a_session_tells_that_the_history_is_full(rt: HostRuntime) -> Result<(), Fail> {
    let told = told_of_new(&rt, rt.alloc())?;
    assert_eq!(rt; told.refused.as_slice(), [128, 134_218_112, 127].as_slice());
    assert_eq!(rt; told.made, 0);
    assert_eq!(rt; told.sent.as_str(), SENT);
    Ok(())
}
