//! Operations read from the tokens of the text that tells of them, without the lists around them.
ghost use Rattle.std.specs.Prelude.{◌≡◌, ◌∷◌, Some, IsTrue, IfOk, IfSome, OnOk, codes};
ghost use Rattle.json.specs.Token.{begin_array, string};
ghost use Rattle.ejson_value.specs.View.{view};
ghost use Rattle.operation_reading.specs.Tells.{Tells, OperandRead, OperationRead, update_name, IsOver, LineRead};

use crate::documents::insert_taken;
use crate::operations::{remove_in, update_in};
use collection_store::Op;
use ejson_codec::{PlainFault, next_value};
use ejson_value::{Mem, Text, Value, depth};
use json::{Reader, Scratch, Token};
use std::alloc::Global;

// How deep an operand may be: it stands in two lists.
const MAX_INSIDE: u64 = 30;

fn next_text<'a>(reader: &mut Reader<'a>) -> Result<&'a str, PlainFault>
    ensures { IfOk result (λ text. reader.old ≡ string text.now ∷ reader.new) }
{
    match reader.next() {
        Some(Token::String(text)) => Ok(text),
        _ => Err(PlainFault::NotPlain),
    }
}

fn begin_list(reader: &mut Reader<'_>) -> Result<(), PlainFault>
    ensures { OnOk result (reader.old ≡ begin_array ∷ reader.new) }
{
    match reader.next() {
        Some(Token::BeginArray) => Ok(()),
        _ => Err(PlainFault::NotPlain),
    }
}

// The event of an administrator begins, and the list of its operation.
fn begin(reader: &mut Reader<'_>) -> Result<(), PlainFault>
    ensures { OnOk result (reader.old ≡ begin_array ∷ string (codes "admin") ∷ begin_array ∷ reader.new) }
{
    begin_list(reader)?;
    if next_text(reader)? != "admin" {
        return Err(PlainFault::NotPlain);
    }
    begin_list(reader)
}

// Whether both lists end now, and nothing follows.
fn is_over(reader: &mut Reader<'_>) -> bool
    ensures { IsTrue result → IsOver reader.old }
{
    if !reader.take_end_array() {
        return false;
    }
    if !reader.take_end_array() {
        return false;
    }
    reader.next().is_none()
}

fn next_operand(alloc: Global, reader: &mut Reader<'_>) -> Result<Value, PlainFault>
    ensures { IfOk result (λ v. OperandRead reader.old (view v) reader.new) }
{
    let value = next_value(alloc, reader)?;
    value.known();
    if depth(&value) > MAX_INSIDE {
        return Err(PlainFault::NotPlain);
    }
    Ok(value)
}

fn next_insert(
    alloc: Global,
    collection: &Text,
    reader: &mut Reader<'_>,
) -> Result<Option<Op>, PlainFault>
    ensures { IfOk result (λ o. IfSome o (λ op. OperationRead (codes "insert") collection.now reader.old op reader.new)) }
{
    let document = next_operand(alloc, reader)?;
    Ok(insert_taken(alloc, collection, document)?)
}

fn next_update(
    alloc: Global,
    collection: &Text,
    all: bool,
    reader: &mut Reader<'_>,
) -> Result<Option<Op>, PlainFault>
    ensures { IfOk result (λ o. IfSome o (λ op. OperationRead (update_name all) collection.now reader.old op reader.new)) }
{
    let selector = next_operand(alloc, reader)?;
    let modifier = next_operand(alloc, reader)?;
    Ok(update_in(alloc, collection, all, &selector, &modifier)?)
}

fn next_removal(
    alloc: Global,
    collection: &Text,
    reader: &mut Reader<'_>,
) -> Result<Option<Op>, PlainFault>
    ensures { IfOk result (λ o. IfSome o (λ op. OperationRead (codes "remove") collection.now reader.old op reader.new)) }
{
    let selector = next_operand(alloc, reader)?;
    Ok(remove_in(alloc, collection, &selector)?)
}

// The operation of this name whose operands come next, None also where it is none.
fn next_operation(
    alloc: Global,
    name: &str,
    collection: &Text,
    reader: &mut Reader<'_>,
) -> Result<Option<Op>, PlainFault>
    ensures { IfOk result (λ o. IfSome o (λ op. OperationRead name.now collection.now reader.old op reader.new)) }
{
    match name {
        "insert" => next_insert(alloc, collection, reader),
        "update" => next_update(alloc, collection, false, reader),
        "updateAll" => next_update(alloc, collection, true, reader),
        "remove" => next_removal(alloc, collection, reader),
        _ => Ok(None),
    }
}

fn read_line(alloc: Global, reader: &mut Reader<'_>) -> Result<Option<Op>, PlainFault>
    ensures { IfOk result (λ o. IfSome o (λ op. LineRead reader.old op)) }
{
    begin(reader)?;
    let name = next_text(reader)?;
    let collection = Text::from_str(alloc, next_text(reader)?)?;
    let operation = next_operation(alloc, name, &collection, reader)?;
    if is_over(reader) {
        Ok(operation)
    } else {
        Ok(None)
    }
}

/// The operation of which the line tells, `["admin",[..]]`, read with this room. None says only that it can't be read so.
pub fn operation_told(alloc: Global, line: &str, scratch: &mut Scratch) -> Result<Option<Op>, Mem>
    ensures { IfOk result (λ o. IfSome o (λ op. Tells line.now op)) }
{
    let Ok(mut reader) = Reader::new(line, scratch) else {
        return Err(Mem);
    };
    match read_line(alloc, &mut reader) {
        Ok(operation) => Ok(operation),
        Err(PlainFault::NotPlain) => Ok(None),
        Err(PlainFault::Memory) => Err(Mem),
    }
}
