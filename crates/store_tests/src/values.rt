//! Values as their EJSON texts, applications, and the parts of rows.
use app_model::App;
use ejson_codec::parse;
use ejson_value::{Items, Text, Value};
use std::alloc::Global;
use std::test::Fail;

pub(crate) fn value(alloc: Global, text: &str) -> Result<Value, Fail> {
    Ok(parse(alloc, &Text::from_str(alloc, text)?)?)
}

pub(crate) fn list(alloc: Global, text: &str) -> Result<Items, Fail> {
    match value(alloc, text)? {
        Value::List(items) => Ok(items),
        _ => Ok(Items::new(alloc)),
    }
}

pub(crate) fn app(alloc: Global, text: &str) -> Result<App, Fail> {
    Ok(App::read(alloc, &value(alloc, text)?)?)
}

// The parts of a row: what is given, and what comes of it.
pub(crate) fn halves(row: &str) -> (&str, &str) {
    row.split_once(" => ").unwrap_or((row, ""))
}

// The first word, and what stands behind the space after it.
pub(crate) fn split(row: &str) -> (&str, &str) {
    row.split_once(" ").unwrap_or((row, ""))
}

pub(crate) fn text(alloc: Global, text: &str) -> Result<Text, Fail> {
    Ok(Text::from_str(alloc, text)?)
}

pub(crate) fn letters(alloc: Global, count: u64) -> Result<Text, Fail> {
    let mut text = Text::new(alloc);
    for _ in 0..count {
        text.push('x')?;
    }
    Ok(text)
}
