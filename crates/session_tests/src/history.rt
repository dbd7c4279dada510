//! A call for which the history has no room: its session is told so, and tells its client.
use crate::bench::{made, wrong_of};
use crate::moments::{app, long_text};
use ejson_value::{Items, Text, Value};
use program_steps::Status;
use session_core::{Call, Session};
use std::alloc::Global;
use std::test::Fail;
use store_machine::{BeginFault, Machine};

const APP: &str =
    r#"{"collections":["tasks"],"methods":{"e":{"steps":[]}},"publications":{"all":[{"collection":"tasks"}]}}"#;

// A call whose parameters have 1,048,576 bytes, and its seed 3.
const CALLED: &str = r#"take {"msg":"connect","version":"1"}
long 1048572 {"id":"1","method":"e","msg":"method","params":["*"],"randomSeed":"s"}
handle
limits
--
2 in 2
"#;

const REFUSED: &str = r#"refuse 0 127
limits
send
send
send
send
--
3 in 3 limited
{"msg":"connected","session":"S2"}
{"error":{"error":"503","errorType":"Meteor.Error","message":"History full [503]","reason":"History full"},"id":"1","msg":"result"}
{"methods":["1"],"msg":"updated"}
none
"#;

// The call is begun, where it may be.
fn begun(machine: &mut Machine, session: u32, call: &Call) -> Result<Status, BeginFault> {
    let known = machine.app().method(&call.method).is_some();
    let may = machine.may_begin(session, call.k);
    if known && may {
        machine.begin(session, call.k, &call.method, &call.params, &call.seed)
    } else {
        Err(BeginFault::Memory)
    }
}

fn long_call(alloc: Global) -> Result<Call, Fail> {
    let mut params = Items::new(alloc);
    params.push(Value::Text(long_text(alloc, 1_048_572, "*")?))?;
    let method = Text::from_str(alloc, "e")?;
    let seed = Value::Text(Text::from_str(alloc, "s")?);
    Ok(Call {
        k: 0,
        method,
        params,
        seed,
    })
}

// Begins 127 calls of session 1.
fn fill(machine: &mut Machine, call: &mut Call) -> bool {
    for k in 0..127 {
        call.k = k;
        if begun(machine, 1, call).is_err() {
            return false;
        }
    }
    true
}

// Whether the call that blocks has no room.
fn is_full(machine: &mut Machine, session: &Session) -> bool {
    let full = BeginFault::Full {
        entries: 128,
        kept: 134_218_112,
    };
    match session.blocking() {
        Some(call) => begun(machine, 2, call).err() == Some(full),
        None => false,
    }
}

fn is_refused(alloc: Global, machine: &mut Machine, session: &mut Session) -> Result<bool, Fail> {
    let called = wrong_of(alloc, session, CALLED)?.is_empty();
    let full = is_full(machine, session);
    Ok(called && full && wrong_of(alloc, session, REFUSED)?.is_empty())
}

fn second_is_refused(alloc: Global, machine: &mut Machine) -> Result<bool, Fail> {
    let mut session = made(alloc, APP, 2)?;
    is_refused(alloc, machine, &mut session)
}

fn machine(alloc: Global) -> Result<Machine, Fail> {
    let app = app(alloc, APP)?;
    Ok(Machine::new(alloc, &app)?)
}

fn is_told_over(alloc: Global, call: &mut Call) -> Result<bool, Fail> {
    let mut machine = machine(alloc)?;
    Ok(fill(&mut machine, call) && second_is_refused(alloc, &mut machine)?)
}

fn is_told(alloc: Global) -> Result<bool, Fail> {
    let mut call = long_call(alloc)?;
    is_told_over(alloc, &mut call)
}

#[test]
fn a_full_history_is_told(rt: HostRuntime) -> Result<(), Fail> {
    assert!(rt; is_told(rt.alloc())?);
    Ok(())
}
