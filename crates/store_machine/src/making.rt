//! Operations of an administrator.
ghost use Rattle.std.specs.Prelude.{◌≡◌, ◌+◌, ◌≤◌, Some, false, IfOk, OnErr};
ghost use Rattle.collection_store.specs.Outcome.{code_of};
ghost use Rattle.history_model.specs.declared.entry.Entry.TheVariants.{Admin};
ghost use Rattle.history_model.specs.Operations.{operation_in};
ghost use Rattle.history_model.specs.History.{is_full_for_operation};
ghost use Rattle.collection_store.specs.Limits.{new_bytes};
ghost use Rattle.history_log.specs.Entries.{told_operation};
ghost use Rattle.history_log.specs.Log.{settled};
ghost use Rattle.store_machine.specs.State.{held_by, refusal_of, by_operation, admin_answer, AdminGives};
ghost use Rattle.store_machine.specs.Standing.{seen, Stand};

use crate::fault::AdminFault;
use crate::parts::{MAX_ENTRIES, MAX_KEPT, Parts, entries_with};
use app_model::App;
use collection_store::{Op, OpFault, Reply, Store};
use ejson_value::{Changes, Items, Mem, Text};
use history_log::{Entry, new_bytes};
use operation_reading::operation_in;
use std::alloc::Global;

// The code of a refusal, or want of memory.
fn refusal_of(fault: OpFault) -> AdminFault
    ensures { result ≡ refusal_of (code_of fault) }
{
    match fault.code() {
        Some(code) => AdminFault::Refused { code },
        None => AdminFault::Memory,
    }
}

fn admin_entry(op: &Items) -> Result<Entry, Mem>
    ensures { IfOk result (λ entry. entry ≡ Admin op.now) }
{
    Ok(Entry::Admin { op: op.copy()? })
}

// The history has no room for an operation.
fn is_full(app: &App, parts: &Parts) -> bool
    requires { Stand app.now parts.now }
    ensures { result ≡ is_full_for_operation (held_by (seen app.now parts.now)) }
{
    entries_with(app, parts, 0) > MAX_ENTRIES
}

// The entry behind the others made these changes.
fn settle(parts: &mut Parts, changes: Changes)
    requires { parts.old.kept + new_bytes changes ≤ 134217728 }
    ensures { parts.new ≡ record parts.old { log = settled parts.old.log changes; kept = parts.old.kept + new_bytes changes } }
{
    parts.kept += new_bytes(&changes);
    parts.log.settle(changes);
}

fn make(app: &App, parts: &mut Parts, op: &Items, operation: &Op) -> Result<(), AdminFault>
    requires stands { Stand app.now parts.old }
    requires reads { operation_in op.now ≡ Some operation.now }
    requires free { is_full_for_operation (held_by (seen app.now parts.old)) ≡ false }
    ensures stands { Stand app.now parts.new }
    ensures gives { AdminGives (λ u. seen app.now parts.new) result (by_operation (seen app.now parts.old) op.now (Some operation.now)) }
    ensures refused { OnErr result (seen app.now parts.new ≡ seen app.now parts.old) }
{
    let _app = app;
    let room = MAX_KEPT - parts.kept;
    let entry = admin_entry(op)?;
    parts.log.push(entry)?;
    match parts.store.apply(operation, room) {
        Ok(reply) => {
            settle(parts, reply.changes);
            Ok(())
        }
        Err(fault) => {
            parts.log.pop();
            Err(refusal_of(fault))
        }
    }
}

/// Makes the operation. One that is refused makes no entry.
pub(crate) fn admin(
    alloc: Global,
    app: &App,
    parts: &mut Parts,
    op: &Items,
) -> Result<(), AdminFault>
    requires { Stand app.now parts.old }
    ensures stands { Stand app.now parts.new }
    ensures gives { AdminGives (λ u. seen app.now parts.new) result (admin_answer (seen app.now parts.old) op.now) }
    ensures refused { OnErr result (seen app.now parts.new ≡ seen app.now parts.old) }
{
    let full = is_full(app, parts);
    if full {
        return Err(AdminFault::Refused { code: 503 });
    }
    let operation = operation_in(alloc, op)?;
    match operation {
        Some(operation) => make(app, parts, op, &operation),
        None => Err(AdminFault::Refused { code: 400 }),
    }
}

// Makes the operation that the text tells of. Its entry is the text.
fn make_told(app: &App, parts: &mut Parts, text: &Text, operation: &Op) -> Result<(), AdminFault>
    requires stands { Stand app.now parts.old }
    requires reads { operation_in (told_operation text.now) ≡ Some operation.now }
    requires free { is_full_for_operation (held_by (seen app.now parts.old)) ≡ false }
    ensures stands { Stand app.now parts.new }
    ensures gives { AdminGives (λ u. seen app.now parts.new) result (by_operation (seen app.now parts.old) (told_operation text.now) (Some operation.now)) }
    ensures refused { OnErr result (seen app.now parts.new ≡ seen app.now parts.old) }
{
    let _app = app;
    let room = MAX_KEPT - parts.kept;
    parts.log.push_told(text)?;
    match parts.store.apply(operation, room) {
        Ok(reply) => {
            settle(parts, reply.changes);
            Ok(())
        }
        Err(fault) => {
            parts.log.pop();
            Err(refusal_of(fault))
        }
    }
}

/// Makes the operation that the text tells of. One that is refused makes no entry.
pub(crate) fn admin_told(
    app: &App,
    parts: &mut Parts,
    text: &Text,
    operation: &Op,
) -> Result<(), AdminFault>
    requires stands { Stand app.now parts.old }
    requires reads { operation_in (told_operation text.now) ≡ Some operation.now }
    ensures stands { Stand app.now parts.new }
    ensures gives { AdminGives (λ u. seen app.now parts.new) result (admin_answer (seen app.now parts.old) (told_operation text.now)) }
    ensures refused { OnErr result (seen app.now parts.new ≡ seen app.now parts.old) }
{
    let full = is_full(app, parts);
    if full {
        Err(AdminFault::Refused { code: 503 })
    } else {
        make_told(app, parts, text, operation)
    }
}
