//! What a script is told as: its operations, and then the lines of each client behind its name, with `|` between them.
use drive_script::{Ask, Line, Script};
use ejson_codec::text;
use ejson_value::{Items, Text, Value};
use std::alloc::Global;
use std::test::Fail;

fn list(alloc: Global, items: &Items) -> Result<Text, Fail> {
    Ok(text(alloc, &Value::List(items.copy()?))?)
}

fn sub(alloc: Global, id: &Text, name: &Text, params: &Items) -> Result<Text, Fail> {
    let params = list(alloc, params)?;
    Ok(Text::from_string(format!(in alloc;
        "sub {} {} {}",
        id.as_str(),
        name.as_str(),
        params.as_str()
    )?)?)
}

fn unsub(alloc: Global, id: &Text) -> Result<Text, Fail> {
    Ok(Text::from_string(format!(in alloc; "unsub {}", id.as_str())?)?)
}

fn call(alloc: Global, method: &Text, params: &Items) -> Result<Text, Fail> {
    let params = list(alloc, params)?;
    Ok(Text::from_string(format!(in alloc; "call {} {}", method.as_str(), params.as_str())?)?)
}

fn line(alloc: Global, line: &Line) -> Result<Text, Fail> {
    match line {
        Line::Ask(Ask::Sub { id, name, params }) => sub(alloc, id, name, params),
        Line::Ask(Ask::Unsub { id }) => unsub(alloc, id),
        Line::Ask(Ask::Call { method, params }) => call(alloc, method, params),
        Line::Wait => Ok(Text::from_str(alloc, "wait")?),
        Line::Show => Ok(Text::from_str(alloc, "show")?),
    }
}

fn put(told: &mut Text, name: &str, line: &Text) -> Result<(), Fail> {
    if !told.is_empty() {
        told.push('|')?;
    }
    told.push_str(name)?;
    told.push(' ')?;
    told.push_str(line.as_str())?;
    Ok(())
}

fn put_operations(alloc: Global, told: &mut Text, operations: &[Items]) -> Result<(), Fail> {
    for op in operations {
        put(told, "admin", &list(alloc, op)?)?;
    }
    Ok(())
}

/// What the script is told as.
pub(crate) fn told(alloc: Global, script: &Script) -> Result<Text, Fail> {
    let mut told = Text::new(alloc);
    put_operations(alloc, &mut told, script.operations())?;
    for (client, lines) in script.clients() {
        for place in 0..lines.len() {
            if let Some(there) = lines.get(place) {
                put(&mut told, client.as_str(), &line(alloc, there)?)?;
            }
        }
    }
    Ok(told)
}
