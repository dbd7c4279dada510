//! What the lines of an input of these commands are: an application, and for a console its script.
ghost use Rattle.std.specs.Prelude.{◌≡◌, ◌≤◌, ◌++◌, length, option_and_then, Some, None, IfOk, IfErr, OnOk};
ghost use Rattle.std.specs.Result.{result_ok};
ghost use Rattle.checking.specs.Input.{input_limit, lines_in, rest_of};
ghost use Rattle.checking.specs.Check.{reading_of, check_bad};
ghost use Rattle.network_commands.specs.Input.{app_in, action_in, actions_of, no_action, script_in, console_bad};

use app_model::{App, AppFault};
use checking::{check, first_line, is_blank, value_in};
use client_script::{Line, Script, line_in};
use ejson_value::Mem;
use std::alloc::Global;

// The application that the line is, if it is one.
fn app_of(alloc: Global, line: &[u8]) -> Result<Option<App>, Mem>
    ensures { IfOk result (λ app. app ≡ option_and_then result_ok (reading_of line.now)) }
{
    let Some(value) = value_in(alloc, line)? else {
        return Ok(None);
    };
    let read = App::read(alloc, &value);
    drop(value);
    match read {
        Ok(app) => Ok(Some(app)),
        Err(AppFault::Memory) => Err(Mem),
        Err(AppFault::Bad { .. }) => Ok(None),
    }
}

// The application that the first line is, if it is one.
fn app_in(alloc: Global, input: &[u8]) -> Result<Option<App>, Mem>
    ensures { IfOk result (λ app. app ≡ app_in input.now) }
{
    if input.is_empty() {
        return Ok(None);
    }
    app_of(alloc, first_line(input).0)
}

// The number of the first bad line of an input that is to be an application alone.
fn check_bad(alloc: Global, input: &[u8]) -> Result<Option<u32>, Mem>
    requires { length input.now ≤ input_limit }
    ensures { IfOk result (λ bad. bad ≡ check_bad input.now) }
{
    let outcome = check(alloc, input)?;
    Ok(outcome.bad_line)
}

/// The application that an input is, or the number of its first bad line.
#[tactic(auto, using(crate::proofs::Lines::no_app_alone))]
pub(crate) fn read_served(alloc: Global, input: &[u8]) -> Result<Result<App, u32>, Mem>
    requires { length input.now ≤ input_limit }
    ensures good { IfOk result (λ read. IfOk read (λ app. (app_in input.now ≡ Some app) × (check_bad input.now ≡ None))) }
    ensures bad { IfOk result (λ read. IfErr read (λ number. check_bad input.now ≡ Some number)) }
{
    if let Some(number) = check_bad(alloc, input)? {
        return Ok(Err(number));
    }
    match app_in(alloc, input)? {
        Some(app) => Ok(Ok(app)),
        None => Ok(Err(1)),
    }
}

// The lines behind the first.
fn further_lines(input: &[u8]) -> &[u8]
    ensures lines { lines_in result.now ≡ rest_of (lines_in input.now) }
    ensures shorter { length result.now ≤ length input.now }
{
    if input.is_empty() {
        input
    } else {
        first_line(input).1
    }
}

// What the line describes, if it is a line of a script.
fn action_in(alloc: Global, line: &[u8]) -> Result<Option<Line>, Mem>
    ensures { IfOk result (λ action. action ≡ action_in line.now) }
{
    let Some(value) = value_in(alloc, line)? else {
        return Ok(None);
    };
    let action = line_in(alloc, &value);
    drop(value);
    action
}

// Adds what the further lines describe, up to the first one that is no line of a script, and answers the number of that.
fn read_actions(alloc: Global, lines: &[u8], script: &mut Script) -> Result<Option<u32>, Mem>
    requires { length lines.now ≤ input_limit }
    ensures script { OnOk result (script.new ≡ script.old ++ actions_of (lines_in lines.now)) }
    ensures bad { IfOk result (λ bad. bad ≡ no_action 2 (lines_in lines.now)) }
{
    let mut rest = lines;
    let mut number = 2;
    while !rest.is_empty() {
        let (line, more) = first_line(rest);
        if !is_blank(line) {
            let Some(action) = action_in(alloc, line)? else {
                return Ok(Some(number));
            };
            script.push(action)?;
        }
        rest = more;
        number += 1;
    }
    Ok(None)
}

// The script of the further lines, or the number of the first one that is no line of a script.
fn read_script(alloc: Global, lines: &[u8]) -> Result<Result<Script, u32>, Mem>
    requires { length lines.now ≤ input_limit }
    ensures good { IfOk result (λ read. IfOk read (λ script. (script ≡ actions_of (lines_in lines.now)) × (no_action 2 (lines_in lines.now) ≡ None))) }
    ensures bad { IfOk result (λ read. IfErr read (λ number. no_action 2 (lines_in lines.now) ≡ Some number)) }
{
    let mut script = Script::new(alloc);
    match read_actions(alloc, lines, &mut script)? {
        None => Ok(Ok(script)),
        Some(number) => Ok(Err(number)),
    }
}

/// The application and the script that an input is, or the number of its first bad line.
#[tactic(auto, using(crate::proofs::Lines::no_app_first, crate::proofs::Lines::bad_behind_app))]
pub(crate) fn read_scripted(alloc: Global, input: &[u8]) -> Result<Result<(App, Script), u32>, Mem>
    requires { length input.now ≤ input_limit }
    ensures good { IfOk result
        (λ read. IfOk read (λ both. (app_in input.now ≡ Some both.0) × (both.1 ≡ script_in input.now) × (console_bad input.now ≡ None))) }
    ensures bad { IfOk result (λ read. IfErr read (λ number. console_bad input.now ≡ Some number)) }
{
    let Some(app) = app_in(alloc, input)? else {
        return Ok(Err(1));
    };
    match read_script(alloc, further_lines(input))? {
        Ok(script) => Ok(Ok((app, script))),
        Err(number) => Ok(Err(number)),
    }
}
