//! What a session takes no more of, and what it refuses first.
use crate::bench::wrong_in;
use std::test::Fail;

const APP: &str =
    r#"{"collections":["tasks"],"methods":{"bump":{"steps":[]}},"publications":{"all":[{"collection":"tasks"}]}}"#;

// A text of 2,097,152 bytes is read, and a longer one isn't.
const LONG_TEXTS: &str = r#"take {"msg":"connect","version":"1"}
send
long 2097130 {"id":"*","msg":"ping"}
measure
long 2097131 {"id":"*","msg":"ping"}
send
--
{"msg":"connected","session":"S1"}
2097152
{"msg":"error","reason":"Bad request"}
"#;

// With a method that blocks, 4,096 messages wait and no more. What is answered at once still is.
const MANY_MESSAGES: &str = r#"take {"msg":"connect","version":"1"}
take {"id":"1","method":"bump","msg":"method"}
handle
times 4096 {"id":"2","msg":"unsub"}
work
limits
take {"id":"2","msg":"unsub"}
work
limits
take {"msg":"ping"}
ends 0 1
take {"id":"2","msg":"unsub"}
handle
take {"id":"2","msg":"unsub"}
take {"id":"2","msg":"unsub"}
send
send
send
send
send
send
--
call 0 bump [] "S1-0-server"; unloaded; cursors; feeds; running 0
2 in 2
queue full
call 0 bump [] "S1-0-server"; unloaded; cursors; feeds; running 0
2 in 2
queue full
queue full
{"msg":"connected","session":"S1"}
{"msg":"pong"}
{"id":"1","msg":"result"}
{"methods":["1"],"msg":"updated"}
{"id":"2","msg":"nosub"}
none
"#;

// The texts of the messages that wait have 4,194,304 bytes together and no more.
const MANY_BYTES: &str = r#"take {"msg":"connect","version":"1"}
take {"id":"1","method":"bump","msg":"method"}
handle
long 2097097 {"id":"2","method":"bump","msg":"method","params":["*"]}
long 2097073 {"id":"2","method":"bump","msg":"method","params":["*"]}
long 1 {"id":"2*","msg":"unsub"}
take {"id":"2","msg":"unsub"}
take {"id":"2","msg":"unsub"}
take {"id":"","msg":"unsub"}
take {"msg":"ping"}
ends 0 1
take {"id":"2","msg":"unsub"}
handle
ends 1 1
take {"id":"2","msg":"unsub"}
send
send
send
send
send
send
send
--
queue full
queue full
queue full
queue full
{"msg":"connected","session":"S1"}
{"msg":"pong"}
{"id":"1","msg":"result"}
{"methods":["1"],"msg":"updated"}
{"id":"2","msg":"result"}
{"methods":["2"],"msg":"updated"}
none
"#;

// With 4,096 texts that are to be sent nothing is taken, nor done, until one of them is sent.
const MANY_TEXTS: &str = r#"take {"msg":"connect","version":"1"}
take {"id":"1","msg":"sub","name":"all"}
handle
load 0
take {"id":"1","method":"bump","msg":"method"}
handle
times 4094 {"msg":"ping"}
work
limits
take {"msg":"ping"}
take {"msg":"pong"}
take {"id":"2","msg":"unsub"}
handle
load 0
advance 0 0 1 none
feed 0 1 tasks/t1={"n":1}
unblocks 0
ends 0 1
refuse 0 1
work
limits
send
ends 0 1
take {"msg":"pong"}
send
take {"msg":"pong"}
work
--
call 0 bump [] "S1-0-server"; unloaded; cursors 0@0; feeds all []; running 0
4098 in 4098
idle
idle
idle
idle
idle
idle
idle
idle
idle
idle
call 0 bump [] "S1-0-server"; unloaded; cursors 0@0; feeds all []; running 0
4098 in 4098
{"msg":"connected","session":"S1"}
idle
{"msg":"ready","subs":["1"]}
call; unloaded; cursors 0@0; feeds all []; running
"#;

// With 256 live subscriptions no further one is opened, whatever it names, until one of them ends.
const MANY_SUBSCRIPTIONS: &str = r#"take {"msg":"connect","version":"1"}
subs 256
send
take {"id":"x","msg":"sub","name":"all"}
handle
send
take {"id":"y","msg":"sub","name":"nope"}
handle
send
take {"id":"7","msg":"sub","name":"all"}
handle
send
named 7
named x
take {"id":"7","msg":"unsub"}
handle
send
named 7
take {"id":"y","msg":"sub","name":"nope"}
handle
send
take {"id":"x","msg":"sub","name":"all"}
handle
send
named x
take {"id":"z","msg":"sub","name":"all"}
handle
send
--
{"msg":"connected","session":"S1"}
{"error":{"error":"503","errorType":"Meteor.Error","message":"Too many subscriptions [503]","reason":"Too many subscriptions"},"id":"x","msg":"nosub"}
{"error":{"error":"503","errorType":"Meteor.Error","message":"Too many subscriptions [503]","reason":"Too many subscriptions"},"id":"y","msg":"nosub"}
none
7
none
{"id":"7","msg":"nosub"}
none
{"error":{"error":"404","errorType":"Meteor.Error","message":"Subscription not found [404]","reason":"Subscription not found"},"id":"y","msg":"nosub"}
none
256
{"error":{"error":"503","errorType":"Meteor.Error","message":"Too many subscriptions [503]","reason":"Too many subscriptions"},"id":"z","msg":"nosub"}
"#;

// A journal has 262,144 items and no more. What is to be sent still is.
const MANY_ITEMS: &str = r#"take {"msg":"connect","version":"1"}
take {"id":"1","msg":"sub","name":"all"}
handle
times 262141 {"msg":"pong"}
limits
take {"id":"2","msg":"unsub"}
take {"msg":"pong"}
limits
take {"msg":"pong"}
take {"id":"2","msg":"unsub"}
handle
load 0
load 1
ends 0 1
work
limits
send
send
--
262143 in 262143
262144 in 262144 limited
journal full
journal full
journal full
journal full
idle
idle
call; unloaded 0; cursors; feeds; running
262144 in 262144 limited
{"msg":"connected","session":"S1"}
none
"#;

// A `connect` and 262,143 times a `pong`, which has no answer.
const ONLY_PONGS: &str = r#"take {"msg":"connect","version":"1"}
times 262143 {"msg":"pong"}
take {"msg":"pong"}
send
send
--
journal full
{"msg":"connected","session":"S1"}
none
"#;

// An event that isn't enabled is idle, one for which the journal has no room comes next, and a full
// queue last.
const CAUSES: &str = r#"take {"msg":"connect","version":"1"}
take {"id":"1","msg":"sub","name":"all"}
handle
load 0
take {"id":"1","method":"bump","msg":"method"}
handle
times 4096 {"id":"2","msg":"unsub"}
times 262139 {"msg":"pong"}
take {"id":"2","msg":"unsub"}
take {"msg":"pong"}
work
limits
take {"id":"2","msg":"unsub"}
take {"msg":"pong"}
take nope
advance 0 0 1 none
feed 0 1 tasks/t1={"n":1}
unblocks 0
ends 0 1
refuse 0 1
handle
load 0
load 1
advance 1 0 1 none
feed 0 0 tasks/t1={"n":1}
ends 1 1
unblocks 1
refuse 1 1
work
limits
send
send
send
close
take {"id":"2","msg":"unsub"}
ends 0 1
--
queue full
call 0 bump [] "S1-0-server"; unloaded; cursors 0@0; feeds all []; running 0
262144 in 262144 limited
journal full
journal full
journal full
journal full
journal full
journal full
journal full
journal full
idle
idle
idle
idle
idle
idle
idle
idle
call 0 bump [] "S1-0-server"; unloaded; cursors 0@0; feeds all []; running 0
262144 in 262144 limited
{"msg":"connected","session":"S1"}
{"msg":"ready","subs":["1"]}
none
idle
idle
"#;

#[test]
fn messages_have_limits(rt: HostRuntime) -> Result<(), Fail> {
    for case in [
        LONG_TEXTS,
        MANY_MESSAGES,
        MANY_BYTES,
        MANY_TEXTS,
        MANY_SUBSCRIPTIONS,
    ] {
        let wrong = wrong_in(rt.alloc(), APP, case)?;
        assert!(rt; wrong.is_empty(), "{}", wrong.as_str());
    }
    Ok(())
}

#[test]
fn a_journal_has_a_limit(rt: HostRuntime) -> Result<(), Fail> {
    for case in [MANY_ITEMS, ONLY_PONGS, CAUSES] {
        let wrong = wrong_in(rt.alloc(), APP, case)?;
        assert!(rt; wrong.is_empty(), "{}", wrong.as_str());
    }
    Ok(())
}
