//! The lines by which a status is told.
ghost use Rattle.std.specs.Prelude.{◌≡◌, ◌≢◌, ◌↔◌, ◌<◌, IfOk};
ghost use Rattle.commands.specs.declared.status.Status.TheVariants as status;
ghost use Rattle.network_commands.specs.Cause.{Tells, named, sent_line, IsUnasked};

use checking::{add_bad, add_line};
use commands::{Status, Wanted, reason_for};
use ejson_codec::text;
use ejson_value::{Items, Mem, Text, Value, Whole};
use io_edge::{Sink, write_all};
use std::alloc::Global;

// Writes the line that tells of this status.
fn write_line<O: Sink>(line: &[u8], told: Status, output: &mut O) -> Status
    requires { told ≢ Status.WriteFault }
    ensures tells { Tells told line.now (O.written output.old) (O.written output.new) result }
    ensures asked { ¬ (IsUnasked told) → ¬ (IsUnasked result) }
    ensures write_fault { (result ≡ Status.WriteFault) ↔ (O.faults output.old < O.faults output.new) }
{
    match write_all(output, line) {
        Ok(_) => told,
        Err(_fault) => Status::WriteFault,
    }
}

// What is written where the line of this number is bad.
fn named(alloc: Global, number: u32) -> Result<Vec<u8>, Mem>
    ensures { IfOk result (λ bytes. bytes.items ≡ named number) }
{
    let mut bytes = Vec::new(alloc);
    add_bad(alloc, &mut bytes, number)?;
    Ok(bytes)
}

// Tells why a line isn't what is wanted, if there is memory for it.
fn tell(alloc: Global, wanted: Wanted, input: &[u8], number: u32, reason: &mut Text) {
    if let Ok(told) = reason_for(alloc, wanted, input, number) {
        *reason = told;
    }
}

/// Names the line of this number of an input, which isn't what is wanted. Where it is named, `reason` says for a person why.
pub(crate) fn name_bad<O: Sink>(
    alloc: Global,
    wanted: Wanted,
    input: &[u8],
    number: u32,
    output: &mut O,
    reason: &mut Text,
) -> Status
    ensures tells { Tells Status.BadInput (named number) (O.written output.old) (O.written output.new) result }
    ensures write_fault { (result ≡ Status.WriteFault) ↔ (O.faults output.old < O.faults output.new) }
    ensures told { result ≢ Status.BadInput → reason.new ≡ reason.old }
{
    let Ok(line) = named(alloc, number) else {
        return Status::Memory;
    };
    match write_line(line.as_slice(), Status::BadInput, output) {
        Status::BadInput => {
            tell(alloc, wanted, input, number, reason);
            Status::BadInput
        }
        status => status,
    }
}

// The line that tells which rule a text of the server broke.
fn sent_line(alloc: Global, number: u8) -> Result<Vec<u8>, Mem>
    ensures { IfOk result (λ bytes. bytes.items ≡ sent_line number) }
{
    let Some(number) = Whole::of(i64::from(number)) else {
        unreachable!()
    };
    let mut items = Items::new(alloc);
    items.push(Value::Text(Text::from_str(alloc, "server sent")?))?;
    items.push(Value::Int(number))?;
    let value = Value::List(items);
    let line = text(alloc, &value);
    drop(value);
    let mut bytes = Vec::new(alloc);
    add_line(&mut bytes, &line?)?;
    Ok(bytes)
}

/// Tells which rule a text of the server broke.
pub(crate) fn tell_sent<O: Sink>(alloc: Global, number: u8, output: &mut O) -> Status
    ensures tells { Tells Status.ServerSent (sent_line number) (O.written output.old) (O.written output.new) result }
    ensures asked { ¬ (IsUnasked result) }
    ensures write_fault { (result ≡ Status.WriteFault) ↔ (O.faults output.old < O.faults output.new) }
{
    let Ok(line) = sent_line(alloc, number) else {
        return Status::Memory;
    };
    write_line(line.as_slice(), Status::ServerSent, output)
}
