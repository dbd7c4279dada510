//! Scripts of calls on a client and of its server's texts. Each row is a call, ` => `, and its answer.

/// An application with its methods' stubs.
pub(crate) const TASKS: &str = r#"{"collections":["tasks"],
"methods":{
"bare":{"steps":[["insert","tasks",{"_id":"q"}]]},
"big":{"steps":[["insert","tasks",{"_id":"y","n":1}],["update","tasks",{"_id":"t1"},{"$set":{"n":2}}],["insert","tasks",{"_id":"z"}]],"stub":true},
"drop":{"steps":[["remove","tasks",{"_id":{"$param":0}}]],"stub":true},
"fail":{"steps":[["throw","403","Denied"]],"stub":[["insert","tasks",{"_id":"x","n":1}]]},
"fill":{"steps":[
["insert","tasks",{"a":{"$param":0}}],["insert","tasks",{"a":{"$param":0}}],
["insert","tasks",{"a":{"$param":0}}],["insert","tasks",{"a":{"$param":0}}],
["insert","tasks",{"a":{"$param":0}}],["insert","tasks",{"a":{"$param":0}}],
["insert","tasks",{"a":{"$param":0}}],["insert","tasks",{"a":{"$param":0}}],
["insert","tasks",{"a":{"$param":0}}],["insert","tasks",{"a":{"$param":0}}]],"stub":true},
"make":{"steps":[["insert","tasks",{"n":{"$param":0}}],["return",{"$made":0}]],"stub":true},
"put":{"steps":[["insert","tasks",{"$param":0}]],"stub":true},
"set":{"steps":[["update","tasks",{"_id":{"$param":0}},{"$set":{"n":{"$param":1}}}]],"stub":true},
"turn":{"steps":[["insert","tasks",{"_id":"u","n":1}],["unblock"],["remove","tasks",{"_id":"t1"}],
["require","tasks",{"n":9},"404","None"],["remove","tasks",{}]],"stub":true}},
"publications":{"all":[{"collection":"tasks"}]}}"#;

/// An application whose clients may write by themselves.
pub(crate) const GUARDED: &str =
    r#"{"collections":["tasks"],"rules":{"tasks":{"allow":[{"on":"insert","selector":{"n":{"$lte":5}}}]}}}"#;

/// How calls end, and whether the client has settled.
pub(crate) const CALLS: &str = r#"state => settled
call make [5] => idle
take {"msg":"connected","session":"S1"} => ok
state => connected settled
call make [5] => 1
state => connected
take {"id":"1","msg":"result","result":"y4piDQHehLAJsG4mX"} => ok
outcome 1 => none
take {"methods":["1"],"msg":"updated"} => ok
outcome 1 => done
outcome 0 => none
outcome 2 => none
state => connected settled
call fail [] => 2
take {"methods":["2"],"msg":"updated"} => ok
outcome 2 => none
take {"error":{"error":"403","errorType":"Meteor.Error","message":"Denied [403]","reason":"Denied"},"id":"2","msg":"result"} => ok
outcome 2 => failed
state => connected settled"#;

/// A simulation hides what the server says, also from what is looked for.
pub(crate) const HIDDEN: &str = r#"take {"msg":"connected","session":"S1"} => ok
take {"collection":"tasks","fields":{"n":0},"id":"t1","msg":"added"} => ok
call set ["t1",1] => 1
take {"collection":"tasks","fields":{"n":7},"id":"t1","msg":"changed"} => ok
find tasks {"n":1} => t1{"n":1}
find tasks {"n":7} => 
find tasks {"_id":"t1"} => t1{"n":1}
find tasks {"_id":"t1","n":7} => 
find tasks {"_id":"t2"} => 
find other {} => 
take {"collection":"tasks","fields":{"n":1},"id":"t1","msg":"changed"} => ok
take {"methods":["1"],"msg":"updated"} => ok
take {"id":"1","msg":"result"} => ok
find tasks {} => t1{"n":1}"#;

/// What stubs do, and that an unknown method and one without a stub simulate nothing.
pub(crate) const STUBS: &str = r#"take {"msg":"connected","session":"S1"} => ok
take {"collection":"tasks","fields":{"n":0},"id":"t1","msg":"added"} => ok
call bare [] => 1
call nothing [] => 2
find tasks {} => t1{"n":0}
call turn [] => 3
find tasks {} => u{"n":1}
take {"methods":["2","3"],"msg":"updated"} => ok
find tasks {} => t1{"n":0}
call set ["t1"] => 4
call set ["t1",3] => 5
find tasks {} => t1{"n":3}
take {"methods":["4","1"],"msg":"updated"} => ok
find tasks {} => t1{"n":3}
take {"methods":["5"],"msg":"updated"} => ok
find tasks {} => t1{"n":0}
call make [1] => 6
call make [1] => 7
count => 3
take {"methods":["6","7"],"msg":"updated"} => ok
count => 1"#;

/// Simulated documents that come and go while the server says others.
pub(crate) const ABSENT: &str = r#"take {"msg":"connected","session":"S1"} => ok
call put [{"_id":"x","n":1}] => 1
call put [{"_id":"y","n":2}] => 2
take {"collection":"tasks","fields":{"n":3},"id":"y","msg":"added"} => ok
find tasks {} => x{"n":1} y{"n":2}
take {"methods":["1","2"],"msg":"updated"} => ok
find tasks {} => y{"n":3}
call drop ["y"] => 3
find tasks {} => 
find tasks {"_id":"y"} => 
take {"collection":"tasks","fields":{"n":4},"id":"y","msg":"changed"} => ok
find tasks {} => 
call put [{"_id":"y","n":5}] => 4
take {"methods":["3"],"msg":"updated"} => ok
find tasks {} => y{"n":5}
take {"collection":"tasks","id":"y","msg":"removed"} => ok
find tasks {} => y{"n":5}
take {"methods":["4"],"msg":"updated"} => ok
find tasks {} => 
take {"collection":"tasks","fields":{"n":6},"id":"x","msg":"changed"} => sent 6
call put [{"_id":"x","n":1}] => idle"#;

/// The stub of a client's own write tests no rules.
pub(crate) const OWN_WRITES: &str = r#"take {"msg":"connected","session":"S1"} => ok
call /tasks/insert [{"_id":"t1","n":9}] => 1
find tasks {} => t1{"n":9}
call /tasks/update ["t1",{"$set":{"n":3}}] => 2
find tasks {} => t1{"n":3}
call /tasks/remove ["t1"] => 3
find tasks {} => 
call /tasks/insert [5] => 4
find tasks {} => 
take {"methods":["3","2","4","1"],"msg":"updated"} => ok
find tasks {} => "#;

/// A stub is refused at a document that two subscriptions made too large; what it wrote before stays.
pub(crate) const TOO_LARGE: &str = r#"take {"msg":"connected","session":"S1"} => ok
take {"collection":"tasks","fields":{"a":"@600000@"},"id":"t1","msg":"added"} => ok
take {"collection":"tasks","fields":{"b":"@600000@"},"id":"t1","msg":"changed"} => ok
call big [] => 1
count => 2
find tasks {"n":2} => 
find tasks {"n":1} => y{"n":1}
take {"methods":["1"],"msg":"updated"} => ok
find tasks {"n":1} => 
count => 1"#;

/// A stub's documents have room only up to the limit on all documents; those before it stay.
pub(crate) const FULL: &str = r#"take {"msg":"connected","session":"S1"} => ok
call fill ["@1000000@"] => 1
call fill ["@1000000@"] => 2
call fill ["@1000000@"] => 3
call fill ["@1000000@"] => 4
call fill ["@1000000@"] => 5
call fill ["@1000000@"] => 6
count => 60
call fill ["@1000000@"] => 7
count => 67
take {"methods":["1"],"msg":"updated"} => ok
count => 57
call fill ["@20@"] => 8
count => 67"#;

/// The server refuses the version.
pub(crate) const VERSION: &str = r#"take {"msg":"ping"} => ok
take {"msg":"failed","version":"1"} => ok
state => failed settled
take {"msg":"connected","session":"S1"} => idle
call set [] => idle"#;

/// The longest text that a client takes, and one that is longer.
pub(crate) const LONG: &str = r#"take {"a":"@4194296@"} => ok
take {"msg":"connected","session":"S1"} => ok
take {"a":"@4194297@"} => sent 1
take {} => idle
state => settled
call set [] => idle"#;
