//! How many clients a script may have.
use crate::reading::{bad_line, value};
use ejson_value::{Items, Value};
use std::alloc::Global;
use std::test::Fail;

// A line of the client with this number.
fn waits(alloc: Global, number: u32) -> Result<Value, Fail> {
    value(
        alloc,
        format!(in alloc; "[\"c{number}\",\"wait\"]")?.as_str(),
    )
}

// A line of each of so many clients.
fn all_wait(alloc: Global, count: u32) -> Result<Items, Fail> {
    let mut lines = Items::new(alloc);
    for number in 0..count {
        lines.push(waits(alloc, number)?)?;
    }
    Ok(lines)
}

#[test]
fn a_script_has_128_clients_at_most(rt: HostRuntime) -> Result<(), Fail> {
    let alloc = rt.alloc();
    let mut lines = all_wait(alloc, 128)?;
    lines.push(waits(alloc, 0)?)?;
    assert!(rt; bad_line(alloc, &lines) == Some(0), "128 clients");
    lines.push(waits(alloc, 128)?)?;
    assert!(rt; bad_line(alloc, &lines) == Some(130), "one more");
    Ok(())
}
