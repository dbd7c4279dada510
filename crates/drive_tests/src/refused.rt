//! Lines that are none of a script, or that may not come where they stand.
use crate::reading::{bad_line, items};
use std::alloc::Global;
use std::test::Fail;

// Lines, behind the number of the first that is refused; 0 where none is.
const LINES: &str = r#"0 [["admin",[]],["a","wait"],["b","wait"],["a","wait"]]
1 [5]
1 [{}]
1 [[]]
1 [["a"]]
1 [["wait"]]
1 [[1,"wait"]]
1 [["a",["wait"]]]
1 [["a","show"]]
1 [["a","wait",1]]
1 [["a","sub","1"]]
1 [["a","sub",1,"all"]]
1 [["a","sub","1",2]]
1 [["a","sub","1","all",{}]]
1 [["a","sub","1","all",[],[]]]
1 [["a","unsub"]]
1 [["a","unsub",1]]
1 [["a","unsub","1","2"]]
1 [["a","call"]]
1 [["a","call",1]]
1 [["a","call","m",1]]
1 [["a","call","m",[],1]]
1 [["a","raw","x"]]
1 [["a","settle"]]
1 [["settle"]]
1 [["admin"]]
1 [["admin","wait"]]
1 [["admin",{}]]
1 [["admin",["x"],1]]
1 [["admin","sub","1","all"]]
2 [["a","wait"],["admin",["x"]]]
3 [["admin",[]],["a","wait"],["admin",[]],["a"]]
4 [["admin",[]],["a","wait"],["b","wait"],["b","show"],["a"]]"#;

fn is_right(alloc: Global, row: &str) -> Result<bool, Fail> {
    let Some((number, lines)) = row.split_once(' ') else {
        return Ok(false);
    };
    let lines = items(alloc, lines)?;
    let wanted = number.parse::<u64>().ok();
    Ok(wanted.is_some() && bad_line(alloc, &lines) == wanted)
}

#[test]
fn lines_are_refused(rt: HostRuntime) -> Result<(), Fail> {
    for row in LINES.lines() {
        assert!(rt; is_right(rt.alloc(), row)?, "at {row}");
    }
    Ok(())
}
