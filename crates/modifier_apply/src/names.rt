//! The names of operators.
ghost use Rattle.std.specs.Prelude.{◌≡◌};
ghost use Rattle.modifier_apply.specs.Reading.{operator_named};

use ejson_value::Text;

#[derive(Clone, Copy)]
pub(crate) enum OperatorName {
    Set,
    Unset,
    Increment,
    Min,
    Max,
    Push,
    AddToSet,
    Pull,
    Pop,
}

pub(crate) fn operator_named(name: &Text) -> Option<OperatorName>
    ensures { result ≡ operator_named name.now }
{
    match name.as_str() {
        "$set" => Some(OperatorName::Set),
        "$unset" => Some(OperatorName::Unset),
        "$inc" => Some(OperatorName::Increment),
        "$min" => Some(OperatorName::Min),
        "$max" => Some(OperatorName::Max),
        "$push" => Some(OperatorName::Push),
        "$addToSet" => Some(OperatorName::AddToSet),
        "$pull" => Some(OperatorName::Pull),
        "$pop" => Some(OperatorName::Pop),
        _ => None,
    }
}
