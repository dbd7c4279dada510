//! What is wrong with a line that isn't of the grammar, in words.
use app_model::{App, AppFault};
use ejson_codec::{EjsonFault, ParseFault, parse, text};
use ejson_value::{Mem, Text, Value};
use replay_core::checking::first_line;
use std::alloc::Global;
use std::str;

/// What a line of an input has to be.
#[derive(Clone, Copy, Debug, PartialEq, Eq)]
pub enum Wanted {
    /// An application, alone on line 1.
    Application,
    /// Nothing: the application stands alone.
    Nothing,
    /// An event.
    Event,
    /// A moment that a heart is handed.
    Moment,
    /// A line of a client's script.
    Action,
}

/// How many characters of a text of the input a reason shows.
const SHOWN: usize = 100;

// The line of this number, counted from 1; nothing where there are fewer.
fn line_of(input: &[u8], number: u32) -> &[u8] {
    let mut rest = input;
    for _ in 1..number {
        if !rest.is_empty() {
            rest = first_line(rest).1;
        }
    }
    if rest.is_empty() {
        rest
    } else {
        first_line(rest).0
    }
}

// The first characters of the text, as many as a reason shows.
fn cut(alloc: Global, shown: &Text) -> Result<Text, Mem> {
    let short: String = shown.as_str().chars().take(SHOWN).collect(alloc)?;
    Text::from_string(short)
}

// The text in quotes on one line. It takes the text, so that no caller has to drop it.
fn in_quotes(alloc: Global, shown: Text) -> Result<Text, Mem> {
    let value = Value::Text(shown);
    let quoted = text(alloc, &value);
    drop(value);
    quoted
}

// The text in quotes on one line, cut off where it is long.
fn quoted(alloc: Global, shown: &Text) -> Result<Text, Mem> {
    let short = cut(alloc, shown)?;
    let is_cut = short.len() < shown.len();
    let mut quoted = in_quotes(alloc, short)?;
    if is_cut {
        quoted.push_str("..")?;
    }
    Ok(quoted)
}

fn wrong_value(alloc: Global, fault: EjsonFault) -> Result<Text, Mem> {
    let what = format!(in alloc; "it is no EJSON value: {fault}")?;
    Text::from_string(what)
}

fn wrong_part(alloc: Global, fault: &AppFault) -> Result<Text, Mem> {
    let AppFault::Bad { place, .. } = fault else {
        return Err(Mem);
    };
    if place.is_empty() {
        let what = format!(in alloc; "{fault}, at its top")?;
        return Text::from_string(what);
    }
    let place = quoted(alloc, place)?;
    let place = place.as_str();
    let what = format!(in alloc; "{fault}, at {place}")?;
    Text::from_string(what)
}

fn wrong_application(alloc: Global, value: &Value) -> Result<Text, Mem> {
    match App::read(alloc, value) {
        Ok(app) => {
            drop(app);
            Ok(Text::new(alloc))
        }
        Err(fault) => {
            let what = wrong_part(alloc, &fault);
            drop(fault);
            what
        }
    }
}

fn wrong_name(alloc: Global, name: &Text) -> Result<Text, Mem> {
    let name = quoted(alloc, name)?;
    let name = name.as_str();
    let what = format!(in alloc; "there is none named {name} with these parts")?;
    Text::from_string(what)
}

// What is wrong with a list that is to begin with a name.
fn wrong_list(alloc: Global, value: &Value, unnamed: &str) -> Result<Text, Mem> {
    let Value::List(items) = value else {
        return Text::from_str(alloc, "it is not a list");
    };
    match items.as_slice().first() {
        Some(Value::Text(name)) => wrong_name(alloc, name),
        _ => Text::from_str(alloc, unnamed),
    }
}

// What is wrong with the value of a line.
fn wrong_content(alloc: Global, value: Value, wanted: Wanted) -> Result<Text, Mem> {
    let what = match wanted {
        Wanted::Application => wrong_application(alloc, &value),
        Wanted::Nothing => Text::from_str(alloc, "nothing may stand here"),
        Wanted::Event => wrong_list(alloc, &value, "it does not begin with the name of an event"),
        Wanted::Action => wrong_list(
            alloc,
            &value,
            "it does not begin with sub, unsub, call, wait or show",
        ),
        Wanted::Moment => Text::from_str(
            alloc,
            "it is neither [\"heard\",t] nor [\"tick\",t] with a whole number t from 0",
        ),
    };
    drop(value);
    what
}

fn wrong_text(alloc: Global, line: Text, wanted: Wanted) -> Result<Text, Mem> {
    let parsed = parse(alloc, &line);
    drop(line);
    match parsed {
        Ok(value) => wrong_content(alloc, value, wanted),
        Err(ParseFault::NotJson) => Text::from_str(alloc, "it is not JSON"),
        Err(ParseFault::Ejson(fault)) => wrong_value(alloc, fault),
        Err(ParseFault::Memory) => Err(Mem),
    }
}

// What is wrong with the line.
fn wrong_line(alloc: Global, line: &[u8], wanted: Wanted) -> Result<Text, Mem> {
    if line.is_empty() {
        return Text::from_str(alloc, "it is empty");
    }
    match str::from_utf8(line) {
        Ok(line) => wrong_text(alloc, Text::from_str(alloc, line)?, wanted),
        Err(_) => Text::from_str(alloc, "it is not UTF-8"),
    }
}

fn no_application(alloc: Global, input: &[u8]) -> Result<Text, Mem> {
    let what = wrong_line(alloc, line_of(input, 1), Wanted::Application)?;
    let what = what.as_str();
    let reason = format!(in alloc; "line 1 is no application: {what}")?;
    Text::from_string(reason)
}

fn no_event(alloc: Global, input: &[u8], number: u32) -> Result<Text, Mem> {
    let what = wrong_line(alloc, line_of(input, number), Wanted::Event)?;
    let what = what.as_str();
    let reason = format!(in alloc;
        "line {number} is no event: {what}; the lines before it were run"
    )?;
    Text::from_string(reason)
}

fn further_line(alloc: Global, number: u32) -> Result<Text, Mem> {
    let reason = format!(in alloc;
        "line {number} is one too many: the application stands on line 1 alone"
    )?;
    Text::from_string(reason)
}

fn no_moment(alloc: Global, input: &[u8], number: u32) -> Result<Text, Mem> {
    let what = wrong_line(alloc, line_of(input, number), Wanted::Moment)?;
    let what = what.as_str();
    let reason = format!(in alloc;
        "line {number} is no moment: {what}; the lines before it were run"
    )?;
    Text::from_string(reason)
}

fn no_action(alloc: Global, input: &[u8], number: u32) -> Result<Text, Mem> {
    let what = wrong_line(alloc, line_of(input, number), Wanted::Action)?;
    let what = what.as_str();
    let reason = format!(in alloc;
        "line {number} is no line of a script: {what}; nothing was run"
    )?;
    Text::from_string(reason)
}

/// Why the line of this number of an input, which isn't what is wanted, is none: a line of text.
pub fn reason_for(alloc: Global, wanted: Wanted, input: &[u8], number: u32) -> Result<Text, Mem> {
    match wanted {
        Wanted::Application => no_application(alloc, input),
        Wanted::Nothing => further_line(alloc, number),
        Wanted::Event => no_event(alloc, input, number),
        Wanted::Moment => no_moment(alloc, input, number),
        Wanted::Action => no_action(alloc, input, number),
    }
}
