//! Scripts that are read, or the number of the first line that is none.
use crate::reading::items;
use console_run::{Script, ScriptFault};
use ejson_value::Items;
use std::alloc::Global;
use std::test::Fail;

// Lines, behind the number of the first that is none; 0 where each is one.
const LINES: &str = r#"0 []
0 [["sub","1","all"],["sub","1","all",[{"n":[]}]],["unsub","1"],["call","m"],["call","m",[]],["wait"],["show"]]
0 [["sub","",""],["unsub",""],["call",""]]
1 [["wait",1]]
2 [["wait"],["show","console"],["wait",1]]
1 [["sub","1"]]
1 [["sub","1",2]]
1 [["sub",1,"all"]]
1 [["sub","1","all",{}]]
1 [["sub","1","all",[],[]]]
1 [["unsub"]]
1 [["unsub",1]]
1 [["unsub","1","2"]]
1 [["call"]]
1 [["call","m",1]]
1 [["call","m",[],1]]
2 [["wait"],["raw","x"]]
1 [["settle"]]
1 [["c","wait"]]
1 [[]]
1 ["wait"]
3 [["wait"],["wait"],{"wait":1}]
1 [["WAIT"]]"#;

// The number of the first line that is none, or 0; none where there is no memory.
fn bad_line(alloc: Global, lines: &Items) -> Option<u64> {
    match Script::read(alloc, lines) {
        Ok(_) => Some(0),
        Err(ScriptFault::Bad { line }) => Some(line),
        Err(ScriptFault::Memory) => None,
    }
}

fn is_right(alloc: Global, row: &str) -> Result<bool, Fail> {
    let Some((number, lines)) = row.split_once(' ') else {
        return Ok(false);
    };
    let lines = items(alloc, lines)?;
    let wanted = number.parse::<u64>().ok();
    Ok(wanted.is_some() && bad_line(alloc, &lines) == wanted)
}

#[test]
fn scripts_are_read(rt: HostRuntime) -> Result<(), Fail> {
    for row in LINES.lines() {
        assert!(rt; is_right(rt.alloc(), row)?, "at {row}");
    }
    Ok(())
}
