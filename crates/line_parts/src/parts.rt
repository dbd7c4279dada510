//! What stands first in a list of values, and what stands there alone.
ghost use Rattle.std.specs.Prelude.{◌≡◌, IfOk, IfSome, MatchOption, Some, None, nat_le, option_copied, option_map};
ghost use Rattle.std.specs.List.{list_all};
ghost use Rattle.value_model.specs.Val.{vals_of};
ghost use Rattle.value_model.specs.Depth.{depth};
ghost use Rattle.ejson_value.specs.View.{view, views};
ghost use Rattle.ejson_codec.specs.Reading.{max_levels};
ghost use Rattle.ddp_messages.specs.Limits.{AreShallow};
ghost use Rattle.line_parts.specs.Parts.{text_first, is_nil, text_alone, texts_alone, params_in};

use ejson_value::{Items, Mem, Text, Value, depth};
use std::alloc::Global;

/// How many lists and objects may stand in one another in a parameter.
const MAX_LEVELS: u64 = 32;

/// The text that stands first, and what follows it.
pub fn text_first(values: &[Value]) -> Option<(&Text, &[Value])>
    ensures { MatchOption result (text_first (vals_of (views values.now)) ≡ None)
        (λ p. text_first (vals_of (views values.now)) ≡ Some (p.0.now, vals_of (views p.1.now))) }
{
    let Some((first, rest)) = values.split_first() else {
        return None;
    };
    match first {
        Value::Text(text) => Some((text, rest)),
        _ => None,
    }
}

/// Whether nothing stands there.
pub fn is_nil(values: &[Value]) -> bool
    ensures { result ≡ is_nil (vals_of (views values.now)) }
{
    match values.split_first() {
        None => true,
        Some(_) => false,
    }
}

/// The text that stands alone.
pub fn text_alone(values: &[Value]) -> Option<&Text>
    ensures { option_copied result ≡ text_alone (vals_of (views values.now)) }
{
    let Some((text, rest)) = text_first(values) else {
        return None;
    };
    if is_nil(rest) { Some(text) } else { None }
}

/// The two texts that stand alone.
pub fn texts_alone(values: &[Value]) -> Option<(&Text, &Text)>
    ensures { option_map (λ p. (p.0.now, p.1.now)) result ≡ texts_alone (vals_of (views values.now)) }
{
    let Some((first, rest)) = text_first(values) else {
        return None;
    };
    match text_alone(rest) {
        Some(second) => Some((first, second)),
        None => None,
    }
}

fn has_few_levels(value: &Value) -> bool
    ensures { result ≡ nat_le (depth (view value.now)) max_levels }
{
    depth(value) <= MAX_LEVELS
}

// Whether each value has at most 32 levels.
fn have_few_levels(values: &[Value]) -> bool
    ensures { result ≡ list_all (λ v. nat_le (depth v) max_levels) (views values.now) }
{
    for value in values {
        if !has_few_levels(value) {
            return false;
        }
    }
    true
}

/// The parameters that stand alone; none where nothing stands.
pub fn params_in(alloc: Global, values: &[Value]) -> Result<Option<Items>, Mem>
    ensures found { IfOk result (λ params. params ≡ params_in (vals_of (views values.now))) }
    ensures shallow { IfOk result (λ params. IfSome params AreShallow) }
{
    let Some((first, rest)) = values.split_first() else {
        return Ok(Some(Items::new(alloc)));
    };
    let Value::List(items) = first else {
        return Ok(None);
    };
    if !is_nil(rest) {
        return Ok(None);
    }
    if have_few_levels(items.as_slice()) {
        Ok(Some(items.copy()?))
    } else {
        Ok(None)
    }
}
