//! Running scripts.
use app_model::App;
use client_core::{Client, ClientFault, Outcome, TakeFault, View};
use ejson_codec::{parse, text};
use ejson_value::{Doc, Items, Mem, Publishes, Text, Value};
use heard_messages::Heard;
use selector_match::Selector;
use std::alloc::Global;
use std::test::Fail;

const HUNDRED: &str =
    "xxxxxxxxxxxxxxxxxxxxxxxxxxxxxxxxxxxxxxxxxxxxxxxxxxxxxxxxxxxxxxxxxxxxxxxxxxxxxxxxxxxxxxxxxxxxxxxxxxxx";

fn words(alloc: Global, text: &str) -> Result<Text, Fail> {
    Ok(Text::from_str(alloc, text)?)
}

fn push_letters(text: &mut Text, count: u32) -> Result<(), Fail> {
    for _ in 0..count / 100 {
        text.push_str(HUNDRED)?;
    }
    for _ in 0..count % 100 {
        text.push('x')?;
    }
    Ok(())
}

// The text with `@N@` as N letters.
fn expanded(alloc: Global, row: &str) -> Result<Text, Fail> {
    let mut text = Text::new(alloc);
    let mut is_count = false;
    for part in row.split("@") {
        if is_count {
            push_letters(&mut text, part.parse().unwrap_or(0))?;
        } else {
            text.push_str(part)?;
        }
        is_count = !is_count;
    }
    Ok(text)
}

fn value(alloc: Global, text: &str) -> Result<Value, Fail> {
    Ok(parse(alloc, &expanded(alloc, text)?)?)
}

fn items(alloc: Global, text: &str) -> Result<Items, Fail> {
    match value(alloc, text)? {
        Value::List(items) => Ok(items),
        _ => Ok(Items::new(alloc)),
    }
}

fn split(row: &str) -> (&str, &str) {
    row.split_once(" ").unwrap_or((row, ""))
}

fn took(alloc: Global, answer: Result<(), TakeFault>) -> Result<Text, Fail> {
    match answer {
        Ok(()) => words(alloc, "ok"),
        Err(TakeFault::Idle) => words(alloc, "idle"),
        Err(TakeFault::ServerSent(number)) => {
            Ok(Text::from_string(format!(in alloc; "sent {number}")?)?)
        }
        Err(TakeFault::Memory) => Err(Fail::from(Mem)),
    }
}

fn called(alloc: Global, answer: Result<u32, ClientFault>) -> Result<Text, Fail> {
    match answer {
        Ok(number) => Ok(Text::from_string(format!(in alloc; "{number}")?)?),
        Err(ClientFault::Idle) => words(alloc, "idle"),
        Err(ClientFault::Memory) => Err(Fail::from(Mem)),
    }
}

fn take(alloc: Global, client: &mut Client, row: &str) -> Result<Text, Fail> {
    let text = expanded(alloc, row)?;
    let mut heard = Heard::new(alloc);
    took(alloc, client.take(&text, &mut heard))
}

fn call(alloc: Global, client: &mut Client, row: &str) -> Result<Text, Fail> {
    let (method, params) = split(row);
    let method = words(alloc, method)?;
    let params = items(alloc, params)?;
    called(alloc, client.call(&method, &params))
}

fn outcome(alloc: Global, client: &Client, number: &str) -> Result<Text, Fail> {
    match client.outcome(number.parse().unwrap_or(0)) {
        None => words(alloc, "none"),
        Some(Outcome::Done(_)) => words(alloc, "done"),
        Some(Outcome::Failed(_)) => words(alloc, "failed"),
    }
}

fn push_word(told: &mut Text, is_so: bool, word: &str) -> Result<(), Fail> {
    if is_so {
        if !told.is_empty() {
            told.push(' ')?;
        }
        told.push_str(word)?;
    }
    Ok(())
}

fn state(alloc: Global, client: &Client) -> Result<Text, Fail> {
    let mut told = Text::new(alloc);
    push_word(&mut told, client.connected(), "connected")?;
    push_word(&mut told, client.failed(), "failed")?;
    push_word(&mut told, client.settled(), "settled")?;
    Ok(told)
}

fn push_doc(alloc: Global, told: &mut Text, id: &Text, doc: &Doc) -> Result<(), Fail> {
    if !told.is_empty() {
        told.push(' ')?;
    }
    told.push_str(id.as_str())?;
    let fields = text(alloc, &Value::Object(doc.copy()?))?;
    Ok(told.push_str(fields.as_str())?)
}

fn listed(alloc: Global, found: &Publishes) -> Result<Text, Fail> {
    let mut told = Text::new(alloc);
    for publish in found.as_slice() {
        if let Some(doc) = &publish.new {
            push_doc(alloc, &mut told, &publish.key.id, doc)?;
        }
    }
    Ok(told)
}

fn find(alloc: Global, view: &View, row: &str) -> Result<Text, Fail> {
    let (collection, wanted) = split(row);
    let selector = Selector::read(alloc, &value(alloc, wanted)?)?;
    let found = view.find(&words(alloc, collection)?, &selector)?;
    listed(alloc, &found)
}

fn count(alloc: Global, client: &Client) -> Result<Text, Fail> {
    let count = client.view().contents().len();
    Ok(Text::from_string(format!(in alloc; "{count}")?)?)
}

fn answer(alloc: Global, client: &mut Client, row: &str) -> Result<Text, Fail> {
    let (word, rest) = split(row);
    match word {
        "take" => take(alloc, client, rest),
        "call" => call(alloc, client, rest),
        "outcome" => outcome(alloc, client, rest),
        "state" => state(alloc, client),
        "find" => find(alloc, client.view(), rest),
        _ => count(alloc, client),
    }
}

// The first row that answers otherwise, with what it answers.
fn first_wrong(alloc: Global, client: &mut Client, script: &str) -> Result<Text, Fail> {
    for row in script.lines() {
        let (call, wanted) = row.split_once(" => ").unwrap_or((row, ""));
        let answer = answer(alloc, client, call)?;
        if answer.as_str() != wanted {
            return Ok(Text::from_string(format!(in alloc; "{call} => {}", answer.as_str())?)?);
        }
    }
    Ok(Text::new(alloc))
}

fn client(alloc: Global, app: &str) -> Result<Client, Fail> {
    let app = App::read(alloc, &value(alloc, app)?)?;
    Ok(Client::new(alloc, &app, &words(alloc, "a")?)?)
}

/// What a new client of the application answers otherwise than the script says.
pub(crate) fn wrong_in(alloc: Global, app: &str, script: &str) -> Result<Text, Fail> {
    let mut client = client(alloc, app)?;
    first_wrong(alloc, &mut client, script)
}
