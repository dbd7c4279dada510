//! Scripts that are read, and the parts of one.
use crate::reading::script;
use crate::told::told;
use std::alloc::Global;
use std::test::Fail;

// Lines, ` => `, and what their script is told as; nothing where it has no line.
const SCRIPTS: &str = r#"[]
[["admin",["insert","tasks",{"_id":"t1"}]],["admin",[]]] => admin ["insert","tasks",{"_id":"t1"}]|admin []
[["b","wait"],["a","sub","1","all"],["a","unsub","1"],["a","call","m"]] => a sub 1 all []|a unsub 1|a call m []|b wait
[["a","sub","1","all",[1,"x"]],["b","wait"],["a","call","m",[[]]]] => a sub 1 all [1,"x"]|a call m [[]]|b wait
[["admin",["x"]],["é","wait"],["ab","wait"],["a","wait"],["Z","wait"],["","wait"]] => admin ["x"]| wait|Z wait|a wait|ab wait|é wait
[["wait","wait"],["Admin","wait"],["sub","sub","sub","sub"]] => Admin wait|sub sub sub sub []|wait wait"#;

fn is_right(alloc: Global, row: &str) -> Result<bool, Fail> {
    let (lines, wanted) = row.split_once(" => ").unwrap_or((row, ""));
    Ok(told(alloc, &script(alloc, lines)?)?.as_str() == wanted)
}

#[test]
fn scripts_are_read(rt: HostRuntime) -> Result<(), Fail> {
    for row in SCRIPTS.lines() {
        assert!(rt; is_right(rt.alloc(), row)?, "at {row}");
    }
    Ok(())
}

#[test]
fn a_script_has_its_parts(rt: HostRuntime) -> Result<(), Fail> {
    let script = script(
        rt.alloc(),
        r#"[["admin",["x"]],["a","wait"],["b","wait"],["a","wait"]]"#,
    )?;
    assert!(rt; script.count() == 2, "two clients");
    let (operations, clients) = script.into_parts();
    assert!(rt; operations.len() == 1, "one operation");
    assert!(rt; clients.len() == 2, "two scripts");
    Ok(())
}
