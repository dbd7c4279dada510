//! Copies of modifiers.
ghost use Rattle.std.specs.Prelude.{◌≡◌, IfOk};
ghost use Rattle.modifier_apply.specs.View.{edit_view, change_view, changes_view, kind_view};

use crate::modifier::{Modifier, ModifierKind, Operator, Update};
use ejson_value::{Mem, copy};

fn copy_operator(operator: &Operator) -> Result<Operator, Mem>
    ensures { IfOk result (λ o. edit_view o ≡ edit_view operator.now) }
{
    match operator {
        Operator::Set(operand) => Ok(Operator::Set(copy(operand)?)),
        Operator::Unset => Ok(Operator::Unset),
        Operator::Increment(amount) => Ok(Operator::Increment(*amount)),
        Operator::Min(operand) => Ok(Operator::Min(copy(operand)?)),
        Operator::Max(operand) => Ok(Operator::Max(copy(operand)?)),
        Operator::Push(operands) => Ok(Operator::Push(operands.copy()?)),
        Operator::AddToSet(operands) => Ok(Operator::AddToSet(operands.copy()?)),
        Operator::PullEqual(operand) => Ok(Operator::PullEqual(copy(operand)?)),
        Operator::PullPassing(test) => Ok(Operator::PullPassing(test.copy()?)),
        Operator::PopLast => Ok(Operator::PopLast),
        Operator::PopFirst => Ok(Operator::PopFirst),
    }
}

fn copy_update(update: &Update) -> Result<Update, Mem>
    ensures { IfOk result (λ u. change_view u ≡ change_view update.now) }
{
    Ok(Update {
        path: update.path.copy()?,
        operator: copy_operator(&update.operator)?,
    })
}

fn copy_updates(updates: &Vec<Update>) -> Result<Vec<Update>, Mem>
    ensures { IfOk result (λ us. changes_view us.items ≡ changes_view updates.now.items) }
{
    let mut copies = Vec::new(*updates.allocator());
    for update in updates {
        copies.push(copy_update(update)?)?;
    }
    Ok(copies)
}

fn copy_kind(kind: &ModifierKind) -> Result<ModifierKind, Mem>
    ensures { IfOk result (λ k. kind_view k ≡ kind_view kind.now) }
{
    match kind {
        ModifierKind::Replacement(fields) => Ok(ModifierKind::Replacement(fields.copy()?)),
        ModifierKind::Updates(updates) => Ok(ModifierKind::Updates(copy_updates(updates)?)),
    }
}

impl Modifier {
    /// A modifier equal to this one.
    pub fn copy(&self) -> Result<Modifier, Mem>
        ensures { IfOk result (λ m. m ≡ self.now) }
    {
        Ok(Modifier {
            kind: copy_kind(&self.kind)?,
        })
    }
}
