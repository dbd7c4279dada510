//! What the commands are run on, and what comes of it.

/// The application that a row writes as `@`.
pub(crate) const APPLICATION: &str =
    r#"{"collections":["tasks"],"methods":{"make":{"steps":[["insert","tasks",{"_id":"t2","n":{"$param":0}}]],"stub":true}},"publications":{"all":[{"collection":"tasks"}]}}"#;

/// Each row: the words, ` < `, the input, ` < `, the network, ` => `, and the exit status, what was written and the reason.
/// In a row `|` is the end of a line and
/// `@` the application. The network gives one link for each `#`, at which the texts wait that stand in `|` behind it; `.` stands for the end of a
/// link, `x` for a
/// poll that fails; a network without `#` gives none, and one that begins with `-` doesn't listen.
pub(crate) const RUNS: &str = r#"serve 4000 1 < @ < #{"msg":"connect","version":"1"}|. => 0; ; 
serve 4000 2 < @|| | < #{"msg":"connect","version":"1"}|.#. => 0; ; 
serve 4000 1 < @ < #x => 0; ; 
serve 4000 2 < @ < #. => 8; ; 
serve 4000 1 < @ < -#. => 8; ; 
serve 4000 1 < @||5 < #. => 3; ["bad",3]|; line 3 is one too many: the application stands on line 1 alone
serve 4000 1 < 5 < #. => 3; ["bad",1]|; line 1 is no application: a part of another form, at its top
serve 4000 1 <  < #. => 3; ["bad",1]|; line 1 is no application: it is empty
console 4000 < @ < #{"msg":"connected","session":"S1"} => 0; ; 
console 4000 < @|["wait"] < #{"msg":"connected","session":"S1"} => 0; ; 
console 4000 < @|["sub","1","all",[]]|["show"]||["wait"]|["show"] < #{"msg":"connected","session":"S1"}|{"msg":"added","collection":"tasks","id":"t1","fields":{"n":1}}|{"msg":"ready","subs":["1"]} => 0; ["show","console"]|["sub","1","waiting"]|["show","console"]|["doc","tasks","t1",{"n":1}]|["sub","1","ready"]|; 
console 4000 < @|["unsub","1"]|["show"] < #{"msg":"connected","session":"S1"} => 0; ["show","console"]|; 
console 4000 < @|["call","make",[5]]|["show"] < #{"msg":"connected","session":"S1"}|{"msg":"result","id":"1","result":7}|{"msg":"updated","methods":["1"]} => 0; ["show","console"]|["doc","tasks","t2",{"n":5}]|["method","1","waiting"]|; 
console 4000 < @|["wait"] < #{"msg":"failed","version":"1"} => 10; ; 
console 4000 < @|["wait"] < #{"msg":"ready","subs":["1"]} => 9; ["server sent",3]|; 
console 4000 < @|["wait"] < #. => 11; ; 
console 4000 < @|["show"]|["call","make",[5]]|["wait"] < #{"msg":"connected","session":"S1"}|. => 11; ["show","console"]|; 
console 4000 < @|["wait"] < #x => 8; ; 
console 4000 < @|["wait"] <  => 8; ; 
console 4000 < @|["wait"]||["jump"] < #. => 3; ["bad",4]|; line 4 is no line of a script: there is none named "jump" with these parts; nothing was run
console 4000 < @|["show"]|x < #. => 3; ["bad",3]|; line 3 is no line of a script: it is not JSON; nothing was run
console 4000 < @|[5] < #. => 3; ["bad",2]|; line 2 is no line of a script: it does not begin with sub, unsub, call, wait or show; nothing was run
console 4000 < @|5 < #. => 3; ["bad",2]|; line 2 is no line of a script: it is not a list; nothing was run
console 4000 < 5|x < #. => 3; ["bad",1]|; line 1 is no application: a part of another form, at its top
console-retry 4000 1 < @|["sub","1","all",[]]|["wait"]|["show"] < #{"msg":"connected","session":"S1"}|{"msg":"added","collection":"tasks","id":"t1","fields":{"n":1}}|.#{"msg":"connected","session":"S2"}|{"msg":"ready","subs":["1"]} => 0; ["show","console"]|["sub","1","ready"]|; 
console-retry 4000 2 < @|["wait"] < #x#.#{"msg":"connected","session":"S1"} => 0; ; 
console-retry 4000 1 < @|["wait"] < #.#.#{"msg":"connected","session":"S1"} => 11; ; 
console-retry 4000 1 < @|["wait"] < #.#x => 8; ; 
console-retry 4000 1 < @|["wait"] < #. => 8; ; 
console-retry 4000 1 < @|["wait"] < #.#{"msg":"ready","subs":["1"]} => 9; ["server sent",3]|; 
console-retry 4000 1 < @|["wait"] < #.#{"msg":"failed","version":"1"} => 10; ; 
console-retry 4000 16 < @|["wait"]|["jump"] < #. => 3; ["bad",3]|; line 3 is no line of a script: there is none named "jump" with these parts; nothing was run
check < @ < #. => 0; ["ok"]|; 
replay < @|["show","zz"] < #. => 0; ["idle"]|; 
beat 100 50 < ["tick",0]|["tick",100] < #. => 0; ["none"]|["ping"]|; 
serve-beat 4000 1 100 50 < @ < #{"msg":"connect","version":"1","support":["1"]} => 0; ; 
serve-beat 4000 2 100 50 < @ < #{"msg":"connect","version":"1","support":["1"]}|.#. => 0; ; 
serve-beat 4000 2 1 1 < @ < #. => 8; ; 
serve-beat 4000 1 100 50 < @ < -#. => 8; ; 
serve-beat 4000 1 100 50 < @||5 < #. => 3; ["bad",3]|; line 3 is one too many: the application stands on line 1 alone
console-beat 4000 100 50 < @|["wait"] < #{"msg":"connected","session":"S1"} => 0; ; 
console-beat 4000 100 50 < @|["sub","1","all",[]]|["show"]|["wait"] < #{"msg":"connected","session":"S1"} => 12; ["show","console"]|["sub","1","waiting"]|; 
console-beat 4000 100 50 < @ < # => 12; ; 
console-beat 4000 86400000 86400000 < @|["wait"] < #. => 11; ; 
console-beat 4000 100 50 < @|["wait"] < #{"msg":"failed","version":"1"} => 10; ; 
console-beat 4000 100 50 < @|["wait"] < #{"msg":"ready","subs":["1"]} => 9; ["server sent",3]|; 
console-beat 4000 100 50 < @|["wait"] < #x => 8; ; 
console-beat 4000 100 50 < @|["wait"] <  => 8; ; 
console-beat 4000 100 50 < @|["wait"]||["jump"] < #. => 3; ["bad",4]|; line 4 is no line of a script: there is none named "jump" with these parts; nothing was run
"#;

/// The same, where the first write fails.
pub(crate) const CUT: &str = r#"serve 4000 1 < 5 < #. => 5; ; 
console 4000 < 5 < #. => 5; ; 
console 4000 < @|["show"] < #{"msg":"connected","session":"S1"} => 5; ; 
console 4000 < @ < #{"msg":"ready","subs":["1"]} => 5; ; 
console-beat 4000 100 50 < @|["show"] < #{"msg":"connected","session":"S1"} => 5; ; 
console-beat 4000 100 50 < @ < #{"msg":"ready","subs":["1"]} => 5; ; 
console-retry 4000 1 < @|["show"] < #.#{"msg":"connected","session":"S1"} => 5; ; 
check < @ < #. => 5; ; 
"#;

/// Words that name no command.
pub(crate) const WORDS: &str = r#"serve 0 1
serve 4000 01
serve 4000 0
serve 4000 65536
serve 65536 1
serve +4000 1
serve 04000 1
serve 4000
serve
serve 4000 1 1
serve  4000 1
Serve 4000 1
console 0
console +1
console 65536
console
console 4000 1
console-retry 4000
console-retry 4000 0
console-retry 4000 17
console-retry 0 1
console-retry 4000 1 1
-- serve 4000 1
-- check
--help
serve-beat 4000 1 0 50
serve-beat 4000 1 100 0
serve-beat 4000 1 86400001 50
serve-beat 4000 1 100 86400001
serve-beat 4000 1 0100 50
serve-beat 4000 1 +100 50
serve-beat 4000 1 100 050
serve-beat 4000 1 100.0 50
serve-beat 4000 1 100
serve-beat 4000 1
serve-beat 4000 1 100 50 50
serve-beat 0 1 100 50
serve-beat 4000 0 100 50
serve 4000 1 100 50
console-beat 4000 0 50
console-beat 4000 100 0
console-beat 4000 86400001 50
console-beat 4000 100 86400001
console-beat 4000 +100 50
console-beat 4000 100 -50
console-beat 4000 100
console-beat 4000
console-beat 0 100 50
console 4000 100 50

"#;

/// Words that name no command where there are no clocks.
pub(crate) const TIMED_WORDS: &str = r#"serve-beat 4000 1 100 50
console-beat 4000 100 50
"#;
