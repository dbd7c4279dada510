//! Methods' ids: the numbers of calls in decimal digits.
ghost use Rattle.std.specs.Prelude.{◌≡◌, ◌≤◌, ◌++◌, IfOk, codes, decimal};
ghost use Rattle.client_model.specs.Taking.{number_of};
ghost use Rattle.client_model.specs.Asking.{call_limit};

use ejson_value::{Mem, Text};
use std::alloc::Global;

/// The number in decimal digits.
pub fn id_of(alloc: Global, number: u32) -> Result<Text, Mem>
    ensures { IfOk result (λ id. id ≡ decimal number) }
{
    Text::from_string(format!(in alloc; "{number}")?)
}

/// The text that a call's ids are drawn from: the session's name, a hyphen and the call's number.
pub fn seed_of(alloc: Global, session: &Text, number: u32) -> Result<Text, Mem>
    ensures { IfOk result (λ seed. seed ≡ session.now ++ codes "-" ++ decimal number) }
{
    let name = session.as_str();
    Ok(Text::from_string(format!(in alloc; "{name}-{number}")?)?)
}

/// The number from 1 to `count` that the id is, if it is one.
pub(crate) fn number_of(alloc: Global, count: usize, id: &Text) -> Result<Option<u32>, Mem>
    requires { count ≤ call_limit }
    ensures { IfOk result (λ number. number ≡ number_of count id.now) }
{
    let Ok(number) = id.as_str().parse::<u32>() else {
        return Ok(None);
    };
    if number == 0 || number as usize > count {
        return Ok(None);
    }
    if id_of(alloc, number)?.as_str() == id.as_str() {
        Ok(Some(number))
    } else {
        Ok(None)
    }
}
