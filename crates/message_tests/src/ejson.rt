//! Texts of EJSON.
use ejson_codec::{EjsonFault, ParseFault, parse, read, text, write};
use ejson_value::{Mem, Text, depth, size};
use serde_json::Value as Json;
use std::alloc::Global;
use std::test::Fail;

fn number(alloc: Global, fault: EjsonFault) -> Result<Text, Mem> {
    Text::from_string(format!(in alloc; "{}", fault as u8)?)
}

fn refusal(alloc: Global, fault: ParseFault) -> Result<Text, Mem> {
    match fault {
        ParseFault::NotJson => Text::from_str(alloc, "not JSON"),
        ParseFault::Ejson(fault) => number(alloc, fault),
        ParseFault::Memory => Text::from_str(alloc, "memory"),
    }
}

/// What is written of the value of the text, or the number of what refuses it.
pub(crate) fn answer(alloc: Global, input: &Text) -> Result<Text, Fail> {
    match parse(alloc, input) {
        Ok(value) => Ok(text(alloc, &value)?),
        Err(fault) => Ok(refusal(alloc, fault)?),
    }
}

// Whether the tree is written as it was read.
fn is_kept(alloc: Global, tree: &Json) -> Result<bool, Fail> {
    let value = read(alloc, tree)?;
    Ok(write(alloc, &value)? == *tree)
}

fn is_tree_kept(alloc: Global, input: &str) -> Result<bool, Fail> {
    let tree = Json::from_str(alloc, input)?;
    is_kept(alloc, &tree)
}

/// The text, where its tree is written as it was read.
pub(crate) fn tree_answer(alloc: Global, input: &Text) -> Result<Text, Fail> {
    if is_tree_kept(alloc, input.as_str())? {
        Ok(input.copy()?)
    } else {
        Ok(Text::from_str(alloc, "another tree")?)
    }
}

/// The size and the depth of the value of a text.
pub(crate) fn measures(alloc: Global, input: &Text) -> Result<Text, Fail> {
    let value = parse(alloc, input)?;
    let measures = format!(in alloc; "{} {}", size(&value), depth(&value))?;
    Ok(Text::from_string(measures)?)
}
