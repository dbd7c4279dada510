//! The errors that runs fail with (Meteor's DDP.md, "Errors").
ghost use Rattle.std.specs.Prelude.{◌≡◌, ◌++◌, IfOk, codes, decimal};
ghost use Rattle.program_steps.specs.Runs.{failed, outcome_view};
ghost use Rattle.program_model.specs.Faults.{error_of, bad_parameters, fault_of, denied_by, not_allowed};
ghost use Rattle.collection_store.specs.declared.fault.OpFault.TheVariants.{Modifier};

use crate::plan::Plan;
use collection_store::OpFault;
use ejson_value::{Fault, Mem, Text};
use program_steps::Outcome;
use std::alloc::Global;

fn error(alloc: Global, code: &str, reason: &str) -> Result<Fault, Mem>
    ensures { IfOk result (λ fault. fault ≡ error_of code.now reason.now) }
{
    Ok(Fault {
        code: Text::from_str(alloc, code)?,
        reason: Text::from_str(alloc, reason)?,
    })
}

fn with_number(alloc: Global, words: &str, number: u32) -> Result<Text, Mem>
    ensures { IfOk result (λ text. text ≡ words.now ++ decimal number) }
{
    Text::from_string(format!(in alloc; "{words}{number}")?)
}

fn numbered(alloc: Global, code: &str, words: &str, number: u32) -> Result<Fault, Mem>
    ensures { IfOk result (λ fault. fault ≡ error_of code.now (words.now ++ decimal number)) }
{
    let reason = with_number(alloc, words, number)?;
    Ok(Fault {
        code: Text::from_str(alloc, code)?,
        reason,
    })
}

/// A template can't be filled, or what it was filled to is not what the step needs.
pub(crate) fn bad_parameters(alloc: Global) -> Result<Fault, Mem>
    ensures { IfOk result (λ fault. fault ≡ bad_parameters) }
{
    error(alloc, "400", "Bad parameters")
}

/// The deny rule at this place refuses the write.
pub(crate) fn denied_by(alloc: Global, place: u32) -> Result<Fault, Mem>
    ensures { IfOk result (λ fault. fault ≡ denied_by place) }
{
    numbered(alloc, "403", "Denied by rule ", place)
}

/// No allow rule lets the write through.
pub(crate) fn not_allowed(alloc: Global) -> Result<Fault, Mem>
    ensures { IfOk result (λ fault. fault ≡ not_allowed) }
{
    error(alloc, "403", "No rule allows")
}

/// What the store's refusal of an operation tells.
pub(crate) fn fault_of(alloc: Global, refusal: OpFault) -> Result<Fault, Mem>
    ensures { IfOk result (λ fault. fault ≡ fault_of refusal) }
{
    match refusal {
        OpFault::NoCollection => error(alloc, "404", "Collection not found"),
        OpFault::Duplicate => error(alloc, "409", "Duplicate id"),
        OpFault::TooLarge => error(alloc, "413", "Document too large"),
        OpFault::Modifier(number) => numbered(alloc, "422", "Modifier refused ", u32::from(number)),
        OpFault::Full => error(alloc, "507", "Store full"),
        OpFault::Memory => Err(Mem),
    }
}
