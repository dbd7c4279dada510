//! What the tests read.
use drive_script::{Script, ScriptFault};
use ejson_codec::parse;
use ejson_value::{Items, Text, Value};
use std::alloc::Global;
use std::test::Fail;

/// A value.
pub(crate) fn value(alloc: Global, text: &str) -> Result<Value, Fail> {
    Ok(parse(alloc, &Text::from_str(alloc, text)?)?)
}

/// A list of values.
pub(crate) fn items(alloc: Global, text: &str) -> Result<Items, Fail> {
    match value(alloc, text)? {
        Value::List(items) => Ok(items),
        _ => Err("no list".into()),
    }
}

/// The script of the lines.
pub(crate) fn script(alloc: Global, lines: &str) -> Result<Script, Fail> {
    let lines = items(alloc, lines)?;
    Ok(Script::read(alloc, &lines)?)
}

/// The number of the first line that is none, or may not come there, or 0; none where there is no memory.
pub(crate) fn bad_line(alloc: Global, lines: &Items) -> Option<u64> {
    match Script::read(alloc, lines) {
        Ok(_) => Some(0),
        Err(ScriptFault::Bad { line }) => Some(line),
        Err(ScriptFault::Memory) => None,
    }
}
