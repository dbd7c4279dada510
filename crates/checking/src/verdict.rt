//! The command `check`.
ghost use Rattle.std.specs.Prelude.{◌≡◌, ◌≤◌, ◌++◌, ◌∷◌, [], length, pos, Some, codes, IfOk, OnOk};
ghost use Rattle.value_model.specs.Val.{text, int};
ghost use Rattle.ejson_value.specs.View.{view};
ghost use Rattle.app_model.specs.Reading.{app_reading};
ghost use Rattle.checking.specs.Input.{input_limit, lines_in};
ghost use Rattle.checking.specs.Output.{line, value_bytes, bytes_of};
ghost use Rattle.checking.specs.Check.{reading_of, first_reading, is_app, said, first_filled, check_bad, check_text};

use crate::input::{first_line, is_blank, value_in};
use crate::output::{add_bad_line, add_list};
use app_model::{App, AppFault};
use ejson_value::{Items, Mem, Text, Value, Whole};
use std::alloc::Global;

/// What a command writes, and the number of the first line that isn't of the grammar, from 1.
#[derive(Debug, Drop)]
pub struct Outcome {
    pub text: Vec<u8>,
    pub bad_line: Option<u32>,
}

fn add_ok(alloc: Global, output: &mut Vec<u8>) -> Result<(), Mem>
    ensures { OnOk result (output.new.items ≡ output.old.items ++ value_bytes (line (codes "ok") [])) }
{
    let mut items = Items::new(alloc);
    items.push(Value::Text(Text::from_str(alloc, "ok")?))?;
    add_list(alloc, output, items)
}

fn add_fault(alloc: Global, output: &mut Vec<u8>, number: u8, place: Text) -> Result<(), Mem>
    ensures { OnOk result (output.new.items ≡ output.old.items ++ value_bytes (line (codes "fault") (int (pos number) ∷ text place ∷ []))) }
{
    let Some(number) = Whole::of(i64::from(number)) else {
        unreachable!()
    };
    let mut items = Items::new(alloc);
    items.push(Value::Text(Text::from_str(alloc, "fault")?))?;
    items.push(Value::Int(number))?;
    items.push(Value::Text(place))?;
    add_list(alloc, output, items)
}

// Says what the value is as an application, and answers whether it is one.
fn say(alloc: Global, output: &mut Vec<u8>, value: &Value) -> Result<bool, Mem>
    ensures said { OnOk result (output.new.items ≡ output.old.items ++ bytes_of (said (Some (app_reading (view value.now))))) }
    ensures is_app { IfOk result (λ is. is ≡ is_app (Some (app_reading (view value.now)))) }
{
    match App::read(alloc, value) {
        Ok(app) => {
            drop(app);
            add_ok(alloc, output)?;
            Ok(true)
        }
        Err(AppFault::Bad { number, place }) => {
            add_fault(alloc, output, number, place)?;
            Ok(false)
        }
        Err(AppFault::Memory) => Err(Mem),
    }
}

// Says what the line is as an application, and answers whether it is one.
fn check_line(alloc: Global, output: &mut Vec<u8>, line: &[u8]) -> Result<bool, Mem>
    ensures said { OnOk result (output.new.items ≡ output.old.items ++ bytes_of (said (reading_of line.now))) }
    ensures is_app { IfOk result (λ is. is ≡ is_app (reading_of line.now)) }
{
    let Some(value) = value_in(alloc, line)? else {
        return Ok(false);
    };
    let is_app = say(alloc, output, &value);
    drop(value);
    is_app
}

// The number of the first of the further lines that isn't blank.
fn first_filled(lines: &[u8]) -> Option<u32>
    requires { length lines.now ≤ input_limit }
    ensures { result ≡ first_filled 2 (lines_in lines.now) }
{
    let mut rest = lines;
    let mut number = 2;
    while !rest.is_empty() {
        let (line, more) = first_line(rest);
        if !is_blank(line) {
            return Some(number);
        }
        rest = more;
        number += 1;
    }
    None
}

// Says what the first line is as an application, and answers the number of the first bad line.
fn check_input(alloc: Global, input: &[u8], output: &mut Vec<u8>) -> Result<Option<u32>, Mem>
    requires { length input.now ≤ input_limit }
    ensures said { OnOk result (output.new.items ≡ output.old.items ++ bytes_of (said (first_reading (lines_in input.now)))) }
    ensures bad { IfOk result (λ bad. bad ≡ check_bad input.now) }
{
    if input.is_empty() {
        return Ok(Some(1));
    }
    let (line, rest) = first_line(input);
    if check_line(alloc, output, line)? {
        Ok(first_filled(rest))
    } else {
        Ok(Some(1))
    }
}

/// Reads the first line as an application and answers the whole output: `["ok"]`, or the number of its
/// first fault and the place, and then the number of the first line that isn't of the grammar. The
/// application is the only line that isn't blank.
pub fn check(alloc: Global, input: &[u8]) -> Result<Outcome, Mem>
    requires { length input.now ≤ input_limit }
    ensures text { IfOk result (λ o. o.text.items ≡ check_text input.now) }
    ensures bad { IfOk result (λ o. o.bad_line ≡ check_bad input.now) }
{
    let mut text = Vec::new(alloc);
    let bad_line = check_input(alloc, input, &mut text)?;
    add_bad_line(alloc, &mut text, bad_line)?;
    Ok(Outcome { text, bad_line })
}
