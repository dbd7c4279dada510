//! The tables, and what is answered to each of their rows.
use crate::texts::{filled, fits, parts};
use crate::{ejson, fences, ids, listing, messages, queues, wire};
use ddp_messages::wire_id;
use ejson_value::Text;
use std::alloc::Global;
use std::test::Fail;

// Each row: what is asked, a text, ` => `, and what is answered, `same` where that is the text. `@a 9@` stands for
// nine times the letter. Asked is: `ejson`, `tree`, `client` and `server`, what is written of what was read (a value, its
// tree, a message and its copy), or what refuses it; `measures`, the size and the depth of a value; `wire`, the wire form
// of an id; `own`, the id of a wire form. There are rows at the limits of levels, of names and of ids.
const ROWS: &str = r#"ejson null => same
ejson true => same
ejson -9007199254740991 => same
ejson 9007199254740991 => same
ejson "a\n\u0001\"\\" => same
ejson [] => same
ejson {} => same
ejson [1,["x",{"a":null}]] => same
ejson  { "b" : 1 , "a" : 2 }  => {"a":2,"b":1}
ejson {"a":1,"a":2} => {"a":2}
ejson {"$date":32491} => same
ejson {"$binary":""} => same
ejson {"$binary":"AAE="} => same
ejson {"$binary":"+/8="} => same
ejson {"$date":1,"x":2} => same
ejson {"$binary":"AA","$date":1} => same
ejson {"$flags":1} => same
ejson {"$type":"t"} => same
ejson {"$escape":{"$date":{"$date":32491}}} => same
ejson {"$escape":{"$binary":1}} => same
ejson {"$escape":{"$escape":{"$escape":{"$InfNaN":0}}}} => same
ejson {"$escape":{"$flags":"i","$regexp":"a"}} => same
ejson {"$escape":{"$type":"t","$value":[1]}} => same
ejson {"$escape":{"a":1}} => {"a":1}
ejson  => not JSON
ejson {"a":1 => not JSON
ejson 1e999 => not JSON
ejson 9007199254740992 => 1
ejson -9007199254740992 => 1
ejson 123456789012345678901234567890 => 1
ejson 1.5 => 1
ejson {"$date":1.5} => 1
ejson {"$date":"x"} => 2
ejson {"$binary":"AA"} => 3
ejson {"$binary":"AAH="} => 3
ejson {"$binary":"-_8="} => 3
ejson {"$binary":0} => 3
ejson {"$escape":5} => 4
ejson {"$InfNaN":0} => 5
ejson {"$flags":"i","$regexp":"a"} => 5
ejson {"$value":1,"$type":"t"} => {"$type":"t","$value":1}
ejson {"$type":"dist","$value":{"$date":5}} => same
ejson {"$type":"a","$value":{"$type":"b","$value":[1]}} => same
ejson {"$type":"","$value":1} => 7
ejson {"$type":1,"$value":1.5} => 7
ejson {"$type":"d","$value":1.5} => 1
ejson {"$escape":{"$type":"d","$value":1}} => same
ejson {"$escape":{"$type":"","$value":1.5}} => 1
ejson {"$type":"d","$value":1,"x":2} => same
ejson [{"$date":null},1.5] => 2
ejson {"b":{"$escape":1},"a":1.5} => 1
ejson @[ 32@{"$date":1}@] 32@ => same
ejson @[ 32@{"$date":"x"}@] 32@ => 2
ejson @[ 32@{"$binary":"x"}@] 32@ => 3
ejson @[ 32@{"$escape":5}@] 32@ => 4
ejson @[ 32@{"$InfNaN":0}@] 32@ => 5
ejson @[ 32@{"$flags":"i","$regexp":"a"}@] 32@ => 5
ejson @[ 32@[]@] 32@ => 6
ejson @[ 32@{}@] 32@ => 6
ejson @[ 32@{"$escape":{}}@] 32@ => 6
ejson @[ 32@{"$escape":{"$InfNaN":0}}@] 32@ => 6
ejson @[ 32@{"$type":"d","$value":1}@] 32@ => 6
ejson @[ 32@{"$type":1,"$value":1.5}@] 32@ => 6
ejson {"$type":"@a 128@","$value":null} => same
ejson {"$type":"@a 129@","$value":null} => 7
ejson @[ 127@@] 127@ => 6
ejson @[ 128@@] 128@ => not JSON
tree {"a":{"$binary":"AAE="}} => same
measures {"a":{"$binary":"AAE="}} => 24 1
measures {"$type":"d","$value":[]} => 25 2
client {"msg":"connect","support":["1","pre2"],"version":"1"} => same
client {"msg":"connect","support":[],"version":"1"} => same
client {"msg":"connect","version":"1"} => same
client {"msg":"ping"} => same
client {"id":"7","msg":"ping"} => same
client {"msg":"pong"} => same
client {"id":"","msg":"pong"} => same
client {"id":"1","msg":"sub","name":"all","params":[{"$date":5},[1]]} => same
client {"id":"","msg":"sub","name":"","params":[null]} => same
client {"id":"1","msg":"sub","name":"all","params":[{"$type":"d","$value":{"$date":5}}]} => same
client {"id":"1","msg":"unsub"} => same
client {"id":"1","method":"m","msg":"method","params":[],"randomSeed":"S1-1"} => same
client {"id":"1","method":"m","msg":"method","params":[{"$escape":{"$date":5}}],"randomSeed":null} => same
client {"id":"1","method":"m","msg":"method","params":[]} => same
client {"msg":"connect","version":"1","session":5,"support":[]} => {"msg":"connect","support":[],"version":"1"}
client {"msg":"sub","name":"all","id":"1"} => {"id":"1","msg":"sub","name":"all","params":[]}
client {"id":"1","method":"m","msg":"method","more":{}} => {"id":"1","method":"m","msg":"method","params":[]}
client  { "msg" : "unsub" , "id" : "2", "id" : "1" }  => {"id":"1","msg":"unsub"}
client  => Parse error
client nope => Parse error
client {"msg":"ping" => Parse error
client 5 => -
client [] => -
client {} => -
client {"x":1} => -
client {"msg":5} => -
client {"msg":null} => -
client {"msg":"hello"} => hello
client {"msg":"ready","subs":[]} => ready
client {"msg":"connect"} => connect
client {"msg":"connect","version":1} => connect
client {"msg":"connect","support":null,"version":"1"} => connect
client {"msg":"connect","support":[1],"version":"1"} => connect
client {"id":null,"msg":"ping"} => ping
client {"id":7,"msg":"pong"} => pong
client {"msg":"sub","name":"all"} => sub
client {"id":"1","msg":"sub"} => sub
client {"id":"1","msg":"sub","name":null} => sub
client {"id":"1","msg":"sub","name":"all","params":null} => sub
client {"id":"1","msg":"sub","name":"all","params":{}} => sub
client {"id":"1","msg":"sub","name":"all","params":[1.5]} => sub
client {"id":"1","msg":"sub","name":"all","params":[{"$type":"","$value":1}]} => sub
client {"id":1,"msg":"unsub"} => unsub
client {"method":"m","msg":"method"} => method
client {"id":"1","msg":"method"} => method
client {"id":null,"method":"m","msg":"method"} => method
client {"id":"1","method":"m","msg":"method","params":null} => method
client {"id":"1","method":"m","msg":"method","randomSeed":{"$InfNaN":0}} => method
client {"id":"@a 256@","msg":"unsub"} => same
client {"id":"@a 257@","msg":"unsub"} => unsub
client {"id":"@a 256@","msg":"sub","name":"all","params":[]} => same
client {"id":"@a 257@","msg":"sub","name":"all","params":[]} => sub
client {"id":"@a 256@","method":"m","msg":"method","params":[]} => same
client {"id":"@a 257@","method":"m","msg":"method","params":[]} => method
client {"id":"@a 257@","msg":"ping"} => same
client {"id":"1","msg":"sub","name":"all","params":[@[ 32@@] 32@]} => same
client {"id":"1","msg":"sub","name":"all","params":[@[ 33@@] 33@]} => sub
server {"msg":"connected","session":"S1"} => same
server {"msg":"failed","version":"1"} => same
server {"msg":"ping"} => same
server {"id":"7","msg":"pong"} => same
server {"msg":"error","reason":"Parse error"} => same
server {"msg":"error","offendingMessage":{"x":1},"reason":"Bad request"} => same
server {"msg":"error","offendingMessage":null,"reason":"Bad request"} => same
server {"id":"1","msg":"nosub"} => same
server {"error":{"error":"404","errorType":"Meteor.Error","message":"Subscription not found [404]","reason":"Subscription not found"},"id":"1","msg":"nosub"} => same
server {"msg":"ready","subs":["1","2"]} => same
server {"id":"1","msg":"result"} => same
server {"id":"1","msg":"result","result":null} => same
server {"error":{"error":"403","errorType":"Meteor.Error","message":"Denied [403]","reason":"Denied"},"id":"1","msg":"result","result":[1]} => same
server {"methods":["1"],"msg":"updated"} => same
server {"methods":[],"msg":"updated"} => same
server {"collection":"tasks","fields":{"n":0},"id":"t1","msg":"added"} => same
server {"collection":"tasks","fields":{"n":{"$type":"d","$value":1}},"id":"t1","msg":"added"} => same
server {"collection":"tasks","fields":{"$escape":{"$type":"d","$value":1}},"id":"t1","msg":"added"} => same
server {"collection":"tasks","fields":{"$type":"d","$value":1},"id":"t1","msg":"added"} => added
server {"collection":"tasks","fields":{"$escape":{"$date":1}},"id":"-0123456789abcdef01234567","msg":"added"} => same
server {"cleared":["a","b"],"collection":"tasks","fields":{"n":1},"id":"t1","msg":"changed"} => same
server {"cleared":["a"],"collection":"tasks","id":"--a","msg":"changed"} => same
server {"collection":"tasks","id":"t1","msg":"changed"} => same
server {"collection":"","id":"t1","msg":"removed"} => same
server {"collection":"tasks","id":"t1","msg":"added"} => {"collection":"tasks","fields":{},"id":"t1","msg":"added"}
server {"cleared":[],"collection":"tasks","fields":{},"id":"t1","msg":"changed"} => {"collection":"tasks","id":"t1","msg":"changed"}
server {"error":{"error":-404,"errorType":"x"},"id":"1","msg":"nosub"} => {"error":{"error":"-404","errorType":"Meteor.Error","message":" [-404]","reason":""},"id":"1","msg":"nosub"}
server {"msg":"error","offendingMessage":1.5,"reason":"Bad request"} => {"msg":"error","reason":"Bad request"}
server {"msg":"error","offendingMessage":{"$escape":{"a":1}},"reason":"Bad request"} => {"msg":"error","offendingMessage":{"a":1},"reason":"Bad request"}
server {"server_id":"0"} => {}
server {"msg":"hello"} => {}
server {"msg":5} => {}
server {} => {}
server {"msg":"addedBefore"} => {}
server {"msg":"sub"} => {}
server nope => Parse error
server [] => Parse error
server {"msg":"connected"} => connected
server {"msg":"failed","version":1} => failed
server {"id":null,"msg":"ping"} => ping
server {"msg":"ready","subs":[1]} => ready
server {"id":"1","msg":"result","result":1e3} => result
server {"msg":"updated"} => updated
server {"msg":"error"} => error
server {"error":null,"id":"1","msg":"nosub"} => nosub
server {"error":{"error":"404"},"id":"1","msg":"nosub"} => nosub
server {"error":{"errorType":"x"},"id":"1","msg":"nosub"} => nosub
server {"error":{"error":1.5,"errorType":"x"},"id":"1","msg":"nosub"} => nosub
server {"error":{"error":9007199254740992,"errorType":"x"},"id":"1","msg":"nosub"} => nosub
server {"error":{"error":"1","errorType":"x","message":5},"id":"1","msg":"nosub"} => nosub
server {"error":{"error":"1","errorType":"x","reason":null},"id":"1","msg":"nosub"} => nosub
server {"id":"t1","msg":"added"} => added
server {"collection":"tasks","id":"~","msg":"added"} => added
server {"collection":"tasks","fields":[],"id":"t1","msg":"added"} => added
server {"collection":"tasks","fields":null,"id":"t1","msg":"added"} => added
server {"cleared":{},"collection":"tasks","id":"t1","msg":"changed"} => changed
server {"cleared":null,"collection":"tasks","id":"t1","msg":"changed"} => changed
server {"collection":"tasks","id":"","msg":"removed"} => removed
server {"id":"@a 256@","msg":"nosub"} => same
server {"id":"@a 257@","msg":"nosub"} => nosub
server {"id":"@a 256@","msg":"result"} => same
server {"id":"@a 257@","msg":"result"} => result
server {"msg":"ready","subs":["@a 256@"]} => same
server {"msg":"ready","subs":["@a 257@"]} => ready
server {"methods":["1","@a 256@"],"msg":"updated"} => same
server {"methods":["1","@a 257@"],"msg":"updated"} => updated
server {"collection":"tasks","id":"@a 257@","msg":"removed"} => same
wire t1 => same
wire -a => --a
wire -t1 => --t1
wire ~ => -~
wire { => -{
wire - => --
wire 0123456789abcdef01234567 => -0123456789abcdef01234567
wire 0123456789ABCDEF01234567 => same
wire 0123456789abcdef0123456 => same
own t1 => same
own --a => -a
own --t1 => -t1
own -~ => ~
own -{ => {
own -- => -
own -0123456789abcdef01234567 => 0123456789abcdef01234567
own 0123456789ABCDEF01234567 => same
own 0123456789abcdef0123456 => same
own  => no id
own - => no id
own -t1 => no id
own ~ => no id
own ~1 => no id
own { => no id
own {x => no id
own 0123456789abcdef01234567 => no id
measures null => 4 0
measures -12 => 3 0
measures 3 => 1 0
measures "" => 2 0
measures "a\"\n\u001f" => 13 0
measures "é" => 4 0
measures {} => 2 1
measures {"$escape":{"$date":5}} => 23 1
measures {"a":5} => 7 1
measures {"a":[]} => 8 2
measures [] => 2 1
measures [1] => 3 1
measures [1,2] => 5 1
measures {"$binary":"eg=="} => 18 0
measures {"$binary":"aGk="} => 18 0
measures false => 5 0
measures true => 4 0
measures {"$date":-1} => 12 0
measures {"$date":1700000000000} => 23 0
measures {"$type":"a","$value":[1]} => 26 2
measures {"$type":"b","$value":null} => 27 1
measures {"$type":"b","$value":1} => 24 1
"#;

// What is answered to the text.
fn answer(alloc: Global, asked: &str, input: &Text) -> Result<Text, Fail> {
    match asked {
        "ejson" => ejson::answer(alloc, input),
        "tree" => ejson::tree_answer(alloc, input),
        "measures" => ejson::measures(alloc, input),
        "client" => messages::client_answer(alloc, input),
        "server" => messages::server_answer(alloc, input),
        "wire" => Ok(wire_id(alloc, input)?),
        "own" => wire::own(alloc, input),
        _ => Ok(Text::from_str(alloc, "not asked")?),
    }
}

fn is_right(alloc: Global, row: &str) -> Result<bool, Fail> {
    let (asked, row) = row.split_once(" ").unwrap_or((row, ""));
    let (text, wanted) = parts(row);
    let input = filled(alloc, text)?;
    let given = answer(alloc, asked, &input)?;
    Ok(fits(&given, &input, wanted))
}

#[test]
fn tables(rt: HostRuntime) -> Result<(), Fail> {
    for row in ROWS.lines() {
        assert!(rt; is_right(rt.alloc(), row)?, "at {row}");
    }
    assert_eq!(rt; fences::wrong(rt.alloc())?, "");
    assert_eq!(rt; queues::wrong(rt.alloc(), queues::METHODS)?, "");
    assert_eq!(rt; queues::wrong(rt.alloc(), queues::BYTES)?, "");
    assert_eq!(rt; ids::wrong(rt.alloc())?, "");
    assert!(rt; listing::is_right(rt.alloc())?);
    Ok(())
}
