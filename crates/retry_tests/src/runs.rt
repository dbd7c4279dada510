//! Scripts over links that are lost.
use crate::running::{leg_ran, ran};
use std::alloc::Global;
use std::sync::Wait;
use std::test::Fail;

// A run begins with `== `, how many further links are tried, and its script; then come the links, each behind `@ ` and what its
// peer does (it stays, has closed behind its texts, or the first poll fails), with the texts that it gives; and behind `=> ` how
// the script ends and what was written.
const RUNS: &str = r#"== 1 [["sub","1","all",[]],["wait"],["show"]]
@ closed
{"msg":"connected","session":"S1"}
{"collection":"tasks","fields":{"n":0},"id":"t1","msg":"added"}
@ stays
{"msg":"connected","session":"S2"}
{"collection":"tasks","fields":{"n":5},"id":"t2","msg":"added"}
{"msg":"ready","subs":["1"]}
=> Done
["show","console"]
["doc","tasks","t2",{"n":5}]
["sub","1","ready"]
== 0 [["sub","1","all",[]],["wait"],["show"]]
@ closed
{"msg":"connected","session":"S1"}
@ stays
{"msg":"connected","session":"S2"}
=> Closed
== 2 [["wait"]]
@ closed
@ closed
@ closed
@ stays
{"msg":"connected","session":"S1"}
=> Closed
== 1 [["wait"]]
@ fails
@ stays
{"msg":"connected","session":"S1"}
=> Done
== 1 [["wait"]]
@ closed
=> LinkFault
== 1 [["wait"]]
@ fails
@ fails
=> LinkFault
== 3 [["wait"]]
=> LinkFault
== 1 [["sub","1","all",[]],["wait"]]
@ closed
{"msg":"connected","session":"S1"}
@ stays
{"msg":"failed","version":"1"}
=> ServerSent(4)
== 1 [["wait"]]
@ closed
@ stays
{"msg":"failed","version":"1"}
=> Version
== 1 [["call","bump"],["wait"],["show"]]
@ closed
{"msg":"connected","session":"S1"}
{"id":"1","msg":"result","result":7}
@ stays
{"msg":"connected","session":"S2"}
=> Done
["show","console"]
["method","1","done",7]
"#;

// The same over one link: a run begins with `== `, the number of a write that fails, if it isn't 0, and the script; and behind
// `=> ` stands how the script ends, how many of its lines were run, and what was written.
const LEGS: &str = r#"== 0 [["sub","1","all",[]],["wait"],["show"]]
@ stays
{"msg":"connected","session":"S1"}
{"collection":"tasks","fields":{"n":0},"id":"t1","msg":"added"}
{"msg":"ready","subs":["1"]}
=> Done 3
["show","console"]
["doc","tasks","t1",{"n":0}]
["sub","1","ready"]
== 0 [["show"],["sub","1","all",[]],["wait"],["show"]]
@ closed
{"msg":"connected","session":"S1"}
=> Closed 2
["show","console"]
== 0 [["show"]]
@ fails
=> LinkFault 0
== 0 [["show"],["wait"]]
@ closed
{"msg":"failed","version":"1"}
=> Version 0
== 0 [["call","bump"],["wait"]]
@ stays
{"msg":"connected","session":"S1"}
{"msg":"connected","session":"S1"}
=> ServerSent(4) 1
== 0 [["call","bump"],["wait"]]
@ stays
{"msg":"connected","session":"S1"}
{"id":"2","msg":"result"}
=> ServerSent(8) 1
== 1 [["unsub","1"],["show"]]
@ stays
{"msg":"connected","session":"S1"}
=> WriteFault 1
"#;

// What a run is given: a number, a script and the rest; and what is wanted of it.
fn parts(run: &str) -> (u32, &str, &str, &str) {
    let (given, wanted) = run.split_once("=> ").unwrap_or((run, ""));
    let head = given.lines().next().unwrap_or("");
    let (number, script) = head.split_once(" ").unwrap_or((head, ""));
    (number.parse::<u32>().unwrap_or(0), script, given, wanted)
}

// Whether a run goes so.
fn is_right<R: Wait>(rt: &R, alloc: Global, run: &str) -> Result<bool, Fail> {
    let (tries, script, given, wanted) = parts(run);
    Ok(ran(rt, alloc, script, tries, given)?.as_str() == wanted)
}

// Whether a run over one link goes so.
fn is_right_leg<R: Wait>(rt: &R, alloc: Global, run: &str) -> Result<bool, Fail> {
    let (write, script, given, wanted) = parts(run);
    Ok(leg_ran(rt, alloc, script, write, given)?.as_str() == wanted)
}

#[test]
fn scripts_go_on_over_new_links(rt: HostRuntime) -> Result<(), Fail> {
    for run in RUNS.split("== ").skip(1) {
        assert!(rt; is_right(&rt, rt.alloc(), run)?, "at {run}");
    }
    Ok(())
}

#[test]
fn each_end_of_a_leg_comes_at_its_cause(rt: HostRuntime) -> Result<(), Fail> {
    for run in LEGS.split("== ").skip(1) {
        assert!(rt; is_right_leg(&rt, rt.alloc(), run)?, "at {run}");
    }
    Ok(())
}
