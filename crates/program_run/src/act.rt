//! What a client does to one document.
ghost use Rattle.std.specs.Prelude.{◌≡◌, IfOk, is_ok};
ghost use Rattle.ejson_value.specs.View.{view};
ghost use Rattle.modifier_apply.specs.Reading.{reading};
ghost use Rattle.program_model.specs.Guarded.{action_of, id_of};
ghost use Rattle.program_run.specs.Acts.{has_operators, is_operators, write_of, is_write};

use ejson_value::{Doc, Mem, Text, Value};
use modifier_apply::{Modifier, ModifierFault};
use program_steps::Action;
use selector_match::has_operator;
use std::alloc::Global;

/// What a client does to one document of a collection, by its id.
#[derive(Drop)]
pub enum Act {
    /// Puts a new document, whose fields are given without `_id`.
    Insert { id: Text, doc: Doc },
    /// Changes the document by the operators that the modifier has.
    Update { id: Text, modifier: Value },
    /// Takes the document out.
    Remove { id: Text },
}

fn is_modifier(alloc: Global, value: &Value) -> Result<bool, Mem>
    ensures { IfOk result (λ b. b ≡ is_ok (reading (view value.now))) }
{
    match Modifier::read(alloc, value) {
        Ok(modifier) => {
            drop(modifier);
            Ok(true)
        }
        Err(ModifierFault::NotObject) => Ok(false),
        Err(ModifierFault::UnknownOperator) => Ok(false),
        Err(ModifierFault::BadOperand) => Ok(false),
        Err(ModifierFault::Memory) => Err(Mem),
    }
}

fn has_operators(value: &Value) -> bool
    ensures { result ≡ has_operators (view value.now) }
{
    match value {
        Value::Object(fields) => has_operator(fields),
        _ => false,
    }
}

// Whether the value is read as a modifier that is no replacement.
fn is_operators(alloc: Global, value: &Value) -> Result<bool, Mem>
    ensures { IfOk result (λ b. b ≡ is_operators (reading (view value.now))) }
{
    if has_operators(value) {
        is_modifier(alloc, value)
    } else {
        Ok(false)
    }
}

impl Act {
    /// Whether it is a write that rules can judge: of an update the modifier is read and has operators,
    /// so that it is no replacement.
    pub fn is_write(&self, alloc: Global) -> Result<bool, Mem>
        ensures { IfOk result (λ b. b ≡ is_write self.now) }
    {
        match self {
            Act::Insert { .. } => Ok(true),
            Act::Update { modifier, .. } => is_operators(alloc, modifier),
            Act::Remove { .. } => Ok(true),
        }
    }

    pub(crate) fn action(&self) -> Action
        ensures { result ≡ action_of (write_of self.now) }
    {
        match self {
            Act::Insert { .. } => Action::Insert,
            Act::Update { .. } => Action::Update,
            Act::Remove { .. } => Action::Remove,
        }
    }

    pub(crate) fn id(&self) -> &Text
        ensures { result.now ≡ id_of (write_of self.now) }
    {
        match self {
            Act::Insert { id, .. } => id,
            Act::Update { id, .. } => id,
            Act::Remove { id } => id,
        }
    }
}
