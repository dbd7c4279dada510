//! The applications of these tests, and what else they read.
use app_model::App;
use ejson_codec::parse;
use ejson_value::{Items, Mem, Text, Value};
use std::alloc::Global;

/// An application whose methods have the ids of their documents as parameters.
pub(crate) const NAMED: &str =
    r#"{"collections":["tasks"],"methods":{"add":{"steps":[["insert","tasks",{"_id":{"$param":0},"n":{"$param":1}}],["return",{"$made":0}]]},"fail":{"steps":[["throw","403","Denied"]]}},"publications":{"all":[{"collection":"tasks"}]}}"#;

/// An application whose method draws the id of its document, as its stub does.
pub(crate) const DRAWN: &str =
    r#"{"collections":["tasks"],"methods":{"make":{"steps":[["insert","tasks",{"n":{"$param":0}}],["return",{"$made":0}]],"stub":true}},"publications":{"all":[{"collection":"tasks"}]}}"#;

// What a text can't be read as is told as want of memory too: these are read.
fn value(alloc: Global, text: &str) -> Result<Value, Mem> {
    let text = Text::from_str(alloc, text)?;
    match parse(alloc, &text) {
        Ok(value) => Ok(value),
        Err(_) => Err(Mem),
    }
}

pub(crate) fn app(alloc: Global, text: &str) -> Result<App, Mem> {
    let value = value(alloc, text)?;
    match App::read(alloc, &value) {
        Ok(app) => Ok(app),
        Err(_) => Err(Mem),
    }
}

/// A list of values.
pub(crate) fn items(alloc: Global, text: &str) -> Result<Items, Mem> {
    match value(alloc, text)? {
        Value::List(items) => Ok(items),
        _ => Err(Mem),
    }
}
