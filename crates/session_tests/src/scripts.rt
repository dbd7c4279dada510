//! Scripts of events that a line of `replay` can't show: what is fed, how many records there are, what is to be done, texts before
//! `connect`, and a call without room. Each: its lines, `--`, and what they print.
use crate::bench::wrong_in;
use std::test::Fail;

const APP: &str =
    r#"{"collections":["tasks"],"methods":{"bump":{"steps":[]},"slow":{"steps":[["unblock"]]}},
"publications":{"all":[{"collection":"tasks"}],
"one":[{"collection":"tasks","selector":{"n":{"$param":0}}}],
"top":[{"collection":"tasks","limit":2,"sort":[["n",-1]]}]}}"#;

// A subscription is fed only once it is loaded, and by an entry at least.
const FED: &str = r#"take {"msg":"connect","version":"1"}
take {"id":"1","msg":"sub","name":"all"}
handle
feed 0 1 tasks/t1={"n":1}
load 0
feed 0 0 tasks/t1={"n":1}
feed 0 2 tasks/t1={"n":1}
feed 0 1 tasks/t1=-
work
send
send
send
send
send
--
idle
idle
call; unloaded; cursors 0@3; feeds all []; running
{"msg":"connected","session":"S1"}
{"msg":"ready","subs":["1"]}
{"collection":"tasks","fields":{"n":1},"id":"t1","msg":"added"}
{"collection":"tasks","id":"t1","msg":"removed"}
none
"#;

// One subscription goes on by its own observer where the other is fed, and the other way round.
const FED_BESIDE: &str = r#"take {"msg":"connect","version":"1"}
take {"id":"1","msg":"sub","name":"all"}
take {"id":"2","msg":"sub","name":"all"}
handle
handle
load 0
load 1
feed 0 1 tasks/t1={"n":0}
feed 1 1 tasks/t1={"n":0}
advance 0 1 1 tasks/t1={"n":0}>{"n":1}
feed 1 1 tasks/t1={"n":1}
feed 1 1 tasks/t2={"n":5}
advance 0 2 1 tasks/t2=->{"n":5}
advance 1 3 1 tasks/t1={"n":1}>-
feed 0 1 tasks/t1=-
work
limits
send
send
send
send
send
send
send
send
--
call; unloaded; cursors 0@4 1@4; feeds all [] all []; running
13 in 12
{"msg":"connected","session":"S1"}
{"msg":"ready","subs":["1"]}
{"msg":"ready","subs":["2"]}
{"collection":"tasks","fields":{"n":0},"id":"t1","msg":"added"}
{"collection":"tasks","fields":{"n":1},"id":"t1","msg":"changed"}
{"collection":"tasks","fields":{"n":5},"id":"t2","msg":"added"}
{"collection":"tasks","id":"t1","msg":"removed"}
none
"#;

// Equal advances that stand beside each other are one record.
const EQUAL_ADVANCES: &str = r#"take {"msg":"connect","version":"1"}
take {"id":"1","msg":"sub","name":"all"}
handle
load 0
advance 0 0 1 none
advance 0 1 1 none
advance 0 2 1 none
advance 0 3 1 none
advance 0 4 1 none
limits
advance 0 5 2 none
limits
advance 0 7 1 none
limits
--
8 in 4
9 in 5
10 in 6
"#;

// Each text that is taken, and the one that is sent then.
const RULES: &str = r#"take nope
send
take {"x":1}
send
take {"msg":"ping"}
send
take {"msg":"connect","version":"1","support":["1","pre2","pre1"]}
send
take {"msg":"connect","version":"1"}
send
take {"msg":"ping"}
send
take {"msg":"pong"}
send
take {"id":"1","msg":"method","method":"bump"}
handle
take {"msg":"ping","id":"7"}
send
take {"msg":"method","method":"m"}
send
send
--
{"msg":"error","reason":"Parse error"}
{"msg":"error","offendingMessage":{"x":1},"reason":"Bad request"}
{"msg":"error","offendingMessage":{"msg":"ping"},"reason":"Must connect first"}
{"msg":"connected","session":"S1"}
{"msg":"error","offendingMessage":{"msg":"connect","version":"1"},"reason":"Already connected"}
{"msg":"pong"}
none
{"id":"7","msg":"pong"}
{"msg":"error","offendingMessage":{"method":"m","msg":"method"},"reason":"Bad request"}
none
"#;

// The first rule that holds decides, and only an object of EJSON is shown.
const FIRST_RULE: &str = r#"take []
send
take {"msg":1}
send
take {"msg":"connect"}
send
take {"msg":"what"}
send
take {"msg":"sub","params":[{"$date":"x"}]}
send
take {"msg":"connect","version":"1"}
send
take {"msg":"connect"}
send
take {"msg":"what"}
send
take {"id":"1","msg":"sub","name":"all","params":[{"$date":"x"}]}
send
take {"id":"1","msg":"sub"}
send
take {"$escape":{"a":1}}
send
take {"$date":5}
send
--
{"msg":"error","reason":"Bad request"}
{"msg":"error","offendingMessage":{"msg":1},"reason":"Bad request"}
{"msg":"error","offendingMessage":{"msg":"connect"},"reason":"Bad request"}
{"msg":"error","offendingMessage":{"msg":"what"},"reason":"Must connect first"}
{"msg":"error","reason":"Must connect first"}
{"msg":"connected","session":"S1"}
{"msg":"error","offendingMessage":{"msg":"connect"},"reason":"Already connected"}
{"msg":"error","offendingMessage":{"msg":"what"},"reason":"Bad request"}
{"msg":"error","reason":"Bad request"}
{"msg":"error","offendingMessage":{"id":"1","msg":"sub"},"reason":"Bad request"}
{"msg":"error","offendingMessage":{"a":1},"reason":"Bad request"}
{"msg":"error","offendingMessage":{"$date":5},"reason":"Bad request"}
"#;

// A session that refuses a version takes nothing more, and sends what it has.
const REFUSED_VERSION: &str = r#"limits
take {"msg":"connect","version":"2"}
limits
take {"msg":"connect","version":"1"}
take {"msg":"ping"}
handle
load 0
send
send
--
0 in 0
1 in 1 failed
idle
idle
idle
idle
{"msg":"failed","version":"1"}
none
"#;

// A method that the history has no room for is refused while it blocks.
const REFUSED_CALL: &str = r#"take {"msg":"connect","version":"1"}
take {"id":"1","method":"bump","msg":"method"}
handle
limits
refuse 0 127
limits
refuse 0 127
ends 0 128
work
send
close
send
take {"msg":"ping"}
--
2 in 2
3 in 3 limited
idle
idle
call; unloaded; cursors; feeds; running
{"msg":"connected","session":"S1"}
none
idle
"#;

// What is to be done, with the seed of the message or one that is made.
const WORK: &str = r#"work
take {"msg":"connect","version":"1"}
take {"id":"1","msg":"sub","name":"all"}
take {"id":"2","msg":"sub","name":"one","params":[3]}
take {"id":"3","msg":"sub","name":"top"}
take {"id":"1","method":"slow","msg":"method","params":[1,"a"],"randomSeed":"S1-1"}
take {"id":"2","method":"bump","msg":"method"}
handle
handle
handle
handle
work
named 1
named 3
named 4
load 0
load 2
work
unblocks 0
work
handle
load 1
work
take {"id":"2","msg":"unsub"}
ends 1 0
handle
named 2
ends 0 0
work
--
call; unloaded; cursors; feeds; running
call 0 slow [1,"a"] "S1-1"; unloaded 0 1 2; cursors; feeds; running 0
0
2
none
call 0 slow [1,"a"] "S1-1"; unloaded 1; cursors 0@0 2@0; feeds all [] -; running 0
call; unloaded 1; cursors 0@0 2@0; feeds all [] -; running 0
call 1 bump [] "S1-1-server"; unloaded; cursors 0@0 1@0 2@0; feeds all [] one [3] -; running 0 1
none
call; unloaded; cursors 0@0 2@0; feeds all [] -; running
"#;

#[test]
fn subscriptions_go_on(rt: HostRuntime) -> Result<(), Fail> {
    for case in [FED, FED_BESIDE, EQUAL_ADVANCES, WORK] {
        let wrong = wrong_in(rt.alloc(), APP, case)?;
        assert!(rt; wrong.is_empty(), "{}", wrong.as_str());
    }
    Ok(())
}

#[test]
fn texts_are_answered(rt: HostRuntime) -> Result<(), Fail> {
    for case in [RULES, FIRST_RULE, REFUSED_VERSION, REFUSED_CALL] {
        let wrong = wrong_in(rt.alloc(), APP, case)?;
        assert!(rt; wrong.is_empty(), "{}", wrong.as_str());
    }
    Ok(())
}
