//! The fields that an update is of, and whether a rule has them.
ghost use Rattle.std.specs.Prelude.{◌≡◌, ◌∷◌, ◌++◌, [], true, IfOk, OnOk};
ghost use Rattle.value_model.specs.Val.{fields_of};
ghost use Rattle.ejson_value.specs.View.{view};
ghost use Rattle.program_model.specs.Guarded.{fields_in, has_all_fields, has_some_field};
ghost use Rattle.program_run.specs.Acts.{write_of, is_write};
ghost use Rattle.program_run.specs.Parts.{first_part, paths_behind, operand_behind, operands_behind, parts_in};

use crate::act::Act;
use ejson_value::{Doc, Mem, Names, Text, Value};
use program_reading::has_name;
use std::alloc::Global;

// The path up to its first dot.
fn first_part(path: &str) -> &str
    ensures { result.now ≡ first_part path.now }
{
    match path.split_once('.') {
        Some((first, _)) => first,
        None => path,
    }
}

fn push_path(alloc: Global, parts: &mut Names, path: &Text) -> Result<(), Mem>
    ensures { OnOk result (parts.new ≡ parts.old ++ first_part path.now ∷ []) }
{
    let part = Text::from_str(alloc, first_part(path.as_str()))?;
    parts.push(part)
}

fn push_paths(alloc: Global, parts: &mut Names, fields: &Doc) -> Result<(), Mem>
    ensures { OnOk result (parts.new ≡ paths_behind parts.old (fields_of fields.now)) }
{
    for (path, _operand) in fields.iter() {
        push_path(alloc, parts, path)?;
    }
    Ok(())
}

fn push_operand(alloc: Global, parts: &mut Names, operand: &Value) -> Result<(), Mem>
    ensures { OnOk result (parts.new ≡ operand_behind parts.old (view operand.now)) }
{
    match operand {
        Value::Object(fields) => push_paths(alloc, parts, fields),
        _ => Ok(()),
    }
}

fn push_operands(alloc: Global, parts: &mut Names, fields: &Doc) -> Result<(), Mem>
    ensures { OnOk result (parts.new ≡ operands_behind parts.old (fields_of fields.now)) }
{
    for (_, operand) in fields.iter() {
        push_operand(alloc, parts, operand)?;
    }
    Ok(())
}

fn parts_of(alloc: Global, fields: &Doc) -> Result<Names, Mem>
    ensures { IfOk result (λ parts. parts ≡ operands_behind [] (fields_of fields.now)) }
{
    let mut parts = Names::new(alloc);
    push_operands(alloc, &mut parts, fields)?;
    Ok(parts)
}

fn parts_in(alloc: Global, modifier: &Value) -> Result<Names, Mem>
    ensures { IfOk result (λ parts. parts ≡ parts_in (view modifier.now)) }
{
    match modifier {
        Value::Object(fields) => parts_of(alloc, fields),
        _ => Ok(Names::new(alloc)),
    }
}

/// The first parts of the paths of an update, in order.
pub(crate) fn fields_in(alloc: Global, act: &Act) -> Result<Names, Mem>
    requires { is_write act.now ≡ true }
    ensures { IfOk result (λ parts. parts ≡ fields_in (write_of act.now)) }
{
    match act {
        Act::Insert { .. } => Ok(Names::new(alloc)),
        Act::Update { modifier, .. } => parts_in(alloc, modifier),
        Act::Remove { .. } => Ok(Names::new(alloc)),
    }
}

/// Whether an allow rule with these fields has all of the parts.
pub(crate) fn has_all_fields(fields: &Option<Names>, parts: &Names) -> bool
    ensures { result ≡ has_all_fields fields.now parts.now }
{
    match fields {
        None => true,
        Some(names) => parts.as_slice().iter().all(|part| has_name(names, part)),
    }
}

/// Whether a deny rule with these fields has some of the parts.
pub(crate) fn has_some_field(fields: &Option<Names>, parts: &Names) -> bool
    ensures { result ≡ has_some_field fields.now parts.now }
{
    match fields {
        None => true,
        Some(names) => parts.as_slice().iter().any(|part| has_name(names, part)),
    }
}
