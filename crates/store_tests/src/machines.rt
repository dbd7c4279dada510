//! Scripts of calls of a machine, with what each answers, and the limits of a history.
use crate::values::{app, halves, letters, list, split, text, value};
use ejson_codec::text as written;
use ejson_value::{Items, Text, Value};
use program_steps::{End, Outcome, Status};
use std::alloc::Global;
use std::test::Fail;
use store_machine::{AdminFault, BeginFault, Machine};

const APP: &str =
    r#"{"collections":["tasks"],"methods":{"e":{"steps":[]},"make":{"steps":[["insert","tasks",{"n":{"$param":0}}],["return",{"$made":0}]],"stub":true},"pair":{"steps":[["insert","tasks",{"n":1}],["insert","tasks",{"n":2}],["return",[{"$made":0},{"$made":1}]]]}}}"#;

// Each row: a call of a machine whose history begins empty, ` => `, and its answer. Calls are those of session 1.
const RUNS: &str = r#"begin 0 make [5] "S1-1" => begun
step 0 => begun
step 0 => ended 3 done "y4piDQHehLAJsG4mX"
step 0 => none
begin 0 make [5] "S1-1" => ended 3 done "y4piDQHehLAJsG4mX"
length => 3
status 0 0 => none
status 0 1 => begun
status 0 2 => begun
status 0 3 => ended 3 done "y4piDQHehLAJsG4mX"
status 7 3 => none"#;

const AGAIN: &str = r#"begin 0 pair [] "S1-1" => begun
step 0 => begun
step 0 => begun
step 0 => ended 4 done ["y4piDQHehLAJsG4mX","wFaMCMJBmQ25LXRms"]
begin 1 pair [] "S1-1" => begun
step 1 => ended 6 failed 409 Duplicate id
begin 2 pair [] "S1-2" => begun
step 2 => begun
begin 1 make [] null => ended 6 failed 409 Duplicate id
begin 0 make [] null => ended 4 done ["y4piDQHehLAJsG4mX","wFaMCMJBmQ25LXRms"]
length => 8"#;

const LAST_NUMBER: &str = r#"begin 9007199254740991 e [] null => ended 1 done
begin 9007199254740991 make [] null => ended 1 done
length => 1"#;

fn number(text: &str) -> u64 {
    text.parse::<u64>().unwrap_or(0)
}

fn word(alloc: Global, word: &str) -> Result<String, Fail> {
    Ok(String::from_str(alloc, word)?)
}

fn done_told(alloc: Global, at: u64, value: &Value) -> Result<String, Fail> {
    let value = written(alloc, value)?;
    Ok(format!(in alloc; "ended {at} done {}", value.as_str())?)
}

fn end_told(alloc: Global, end: &End) -> Result<String, Fail> {
    match &end.outcome {
        Outcome::Done(None) => Ok(format!(in alloc; "ended {} done", end.at)?),
        Outcome::Done(Some(value)) => done_told(alloc, end.at, value),
        Outcome::Failed(fault) => {
            let (code, reason) = (fault.code.as_str(), fault.reason.as_str());
            Ok(format!(in alloc; "ended {} failed {code} {reason}", end.at)?)
        }
    }
}

fn status_told(alloc: Global, status: &Status) -> Result<String, Fail> {
    match &status.ended {
        None => word(alloc, "begun"),
        Some(end) => end_told(alloc, end),
    }
}

fn told_or_none(alloc: Global, status: &Option<Status>) -> Result<String, Fail> {
    match status {
        Some(status) => status_told(alloc, status),
        None => word(alloc, "none"),
    }
}

fn begun(
    machine: &mut Machine,
    k: u64,
    method: &Text,
    params: &Items,
    seed: &Value,
) -> Result<Status, BeginFault> {
    let known = machine.app().method(method).is_some();
    let may = machine.may_begin(1, k);
    if known && may {
        machine.begin(1, k, method, params, seed)
    } else {
        Err(BeginFault::Memory)
    }
}

fn begun_told(
    alloc: Global,
    machine: &mut Machine,
    k: u64,
    method: &Text,
    params: &Items,
    seed: &Value,
) -> Result<String, Fail> {
    match begun(machine, k, method, params, seed) {
        Ok(status) => status_told(alloc, &status),
        Err(_) => word(alloc, "refused"),
    }
}

// The words are `METHOD PARAMS SEED`.
fn begin_by(alloc: Global, machine: &mut Machine, k: u64, words: &str) -> Result<String, Fail> {
    let (method, rest) = split(words);
    let (params, seed) = rest.rsplit_once(" ").unwrap_or((rest, "null"));
    let method = text(alloc, method)?;
    let params = list(alloc, params)?;
    let seed = value(alloc, seed)?;
    begun_told(alloc, machine, k, &method, &params, &seed)
}

fn begin(alloc: Global, machine: &mut Machine, words: &str) -> Result<String, Fail> {
    let (k, rest) = split(words);
    begin_by(alloc, machine, number(k), rest)
}

fn step(alloc: Global, machine: &mut Machine, k: &str) -> Result<String, Fail> {
    let status = machine.step(1, number(k))?;
    told_or_none(alloc, &status)
}

fn status(alloc: Global, machine: &Machine, words: &str) -> Result<String, Fail> {
    let (k, at) = split(words);
    let status = machine.status(1, number(k), number(at).min(machine.length()))?;
    told_or_none(alloc, &status)
}

fn answer(alloc: Global, machine: &mut Machine, row: &str) -> Result<String, Fail> {
    let (name, rest) = split(row);
    match name {
        "begin" => begin(alloc, machine, rest),
        "step" => step(alloc, machine, rest),
        "status" => status(alloc, machine, rest),
        _ => Ok(format!(in alloc; "{}", machine.length())?),
    }
}

fn is_right(alloc: Global, machine: &mut Machine, row: &str) -> Result<bool, Fail> {
    let (call, wanted) = halves(row);
    Ok(answer(alloc, machine, call)?.as_str() == wanted)
}

// The first row that is answered otherwise, or nothing.
fn first_wrong(
    alloc: Global,
    machine: &mut Machine,
    script: &'static str,
) -> Result<&'static str, Fail> {
    for row in script.lines() {
        if !is_right(alloc, machine, row)? {
            return Ok(row);
        }
    }
    Ok("")
}

fn machine(alloc: Global) -> Result<Machine, Fail> {
    let app = app(alloc, APP)?;
    Ok(Machine::new(alloc, &app)?)
}

fn wrong_in(alloc: Global, script: &'static str) -> Result<&'static str, Fail> {
    let mut machine = machine(alloc)?;
    first_wrong(alloc, &mut machine, script)
}

#[test]
fn scripts(rt: HostRuntime) -> Result<(), Fail> {
    for script in [RUNS, AGAIN, LAST_NUMBER] {
        assert_eq!(rt; wrong_in(rt.alloc(), script)?, "");
    }
    Ok(())
}

fn long_params(alloc: Global) -> Result<Items, Fail> {
    let mut params = Items::new(alloc);
    params.push(Value::Text(letters(alloc, 1_048_572)?))?;
    Ok(params)
}

fn begins_all(machine: &mut Machine, method: &Text, params: &Items, seed: &Value) -> bool {
    for k in 0..127 {
        if begun(machine, k, method, params, seed).is_err() {
            return false;
        }
    }
    true
}

// Each call keeps 1,048,576 bytes for its parameters and 3 for its seed.
fn holds_127(machine: &mut Machine, method: &Text, params: &Items, seed: &Value) -> bool {
    let all = begins_all(machine, method, params, seed);
    let last = begun(machine, 127, method, params, seed);
    let full = BeginFault::Full {
        entries: 128,
        kept: 134_218_112,
    };
    all && last.err() == Some(full) && machine.length() == 127
}

fn new_holds_127(alloc: Global, method: &Text, params: &Items, seed: &Value) -> Result<bool, Fail> {
    let mut machine = machine(alloc)?;
    Ok(holds_127(&mut machine, method, params, seed))
}

fn begins_127(alloc: Global) -> Result<bool, Fail> {
    let method = text(alloc, "e")?;
    let seed = value(alloc, "\"s\"")?;
    let params = long_params(alloc)?;
    new_holds_127(alloc, &method, &params, &seed)
}

#[test]
fn kept_bytes(rt: HostRuntime) -> Result<(), Fail> {
    assert!(rt; begins_127(rt.alloc())?);
    Ok(())
}

fn removes_all(machine: &mut Machine, op: &Items) -> bool {
    for _ in 0..1_048_576 {
        if machine.admin(op).is_err() {
            return false;
        }
    }
    true
}

// A history has 1,048,576 entries at most.
fn makes_no_more(alloc: Global) -> Result<bool, Fail> {
    let op = list(alloc, r#"["remove","tasks",{}]"#)?;
    let mut machine = machine(alloc)?;
    let all = removes_all(&mut machine, &op);
    let refused = machine.admin(&op).err() == Some(AdminFault::Refused { code: 503 });
    Ok(all && refused && machine.length() == 1_048_576)
}

#[test]
fn entries(rt: HostRuntime) -> Result<(), Fail> {
    assert!(rt; makes_no_more(rt.alloc())?);
    Ok(())
}
