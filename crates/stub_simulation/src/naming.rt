//! Selectors that name a document by a parameter alone, as `{"_id":{"$param":0}}`.
ghost use Rattle.std.specs.Prelude.{◌≡◌, ℕ, List, codes, Ok, Some, IfSome};
ghost use Rattle.value_model.specs.Val.{int, text, object, field, no_fields};
ghost use Rattle.ejson_value.specs.View.{view};
ghost use Rattle.program_steps.specs.Template.{nth, filling};
ghost use Rattle.stub_simulation.specs.Naming.{naming};

use ejson_value::{Items, Text, Value};
use program_steps::Template;

// The number of the parameter that the value stands for.
fn parameter_number(value: &Value) -> Option<i64>
    ensures { IfSome result (λ number. view value.now ≡ object (field (codes "$param") (int number) no_fields)) }
{
    let Value::Object(fields) = value else {
        return None;
    };
    let (name, value) = fields.only_field()?;
    let Value::Int(number) = value else {
        return None;
    };
    if name.as_str() == "$param" {
        Some(number.get())
    } else {
        None
    }
}

// The parameter of this number, where it is a text.
fn text_parameter(params: &Items, number: i64) -> Option<&Text>
    ensures { IfSome result (λ id. nth params.now number ≡ Some (text id.now)) }
{
    if number < 0 {
        return None;
    }
    match params.get(number as usize)? {
        Value::Text(id) => Some(id),
        _ => None,
    }
}

/// The id of the only document that the selector can hold of, where the template says no more than
/// that a parameter is the id.
pub(crate) fn id_named_by<'a>(params: &'a Items, template: &Template) -> Option<&'a Text>
    ensures { IfSome result (λ id. (made : List (List ℕ)) → filling params.now made template.now ≡ Ok (naming id.now)) }
{
    let Value::Object(fields) = &template.value else {
        return None;
    };
    let (name, value) = fields.only_field()?;
    if name.as_str() == "_id" {
        text_parameter(params, parameter_number(value)?)
    } else {
        None
    }
}
