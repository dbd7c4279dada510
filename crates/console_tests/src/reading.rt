//! What the tests read.
use app_model::App;
use console_run::Script;
use ejson_codec::parse;
use ejson_value::{Items, Text, Value};
use std::alloc::Global;
use std::test::Fail;

const APP: &str =
    r#"{"collections":["tasks"],"methods":{"make":{"steps":[["insert","tasks",{"_id":"t2","n":{"$param":0}}]],"stub":true}},"publications":{"all":[{"collection":"tasks"}]}}"#;

fn value(alloc: Global, text: &str) -> Result<Value, Fail> {
    Ok(parse(alloc, &Text::from_str(alloc, text)?)?)
}

/// A list of values.
pub(crate) fn items(alloc: Global, text: &str) -> Result<Items, Fail> {
    match value(alloc, text)? {
        Value::List(items) => Ok(items),
        _ => Err("no list".into()),
    }
}

pub(crate) fn script(alloc: Global, lines: &str) -> Result<Script, Fail> {
    let lines = items(alloc, lines)?;
    Ok(Script::read(alloc, &lines)?)
}

/// An application with one method, whose stub inserts a document.
pub(crate) fn app(alloc: Global) -> Result<App, Fail> {
    Ok(App::read(alloc, &value(alloc, APP)?)?)
}
