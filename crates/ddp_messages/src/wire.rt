//! The form of a document's id in a message.
ghost use Rattle.std.specs.Prelude.{◌≡◌, ◌==◌, ◌||◌, List, ℕ, length, Some, None, IfOk, IfSome, option_map, if◌then◌else◌};
ghost use Rattle.std.specs.List.{list_all};
ghost use Rattle.ddp_messages.specs.Wire.{is_hex_digit, is_object_id, has_mark, needs_dash, wire_of, IsWireOf, own_of};

use ejson_value::{Mem, Text};
use std::alloc::Global;

/// How many digits an object id of MongoDB has.
const OBJECT_ID_DIGITS: usize = 24;

fn is_digit(byte: u8) -> bool
    ensures { result ≡ is_hex_digit byte }
{
    (b'0' <= byte && byte <= b'9') || (b'a' <= byte && byte <= b'f')
}

fn has_only_digits(text: &str) -> bool
    ensures { result ≡ list_all is_hex_digit text.now }
{
    text.as_bytes().iter().all(|byte| is_digit(*byte))
}

// Whether the text spells an object id.
fn spells_object_id(text: &str) -> bool
    ensures { result ≡ is_object_id text.now }
{
    text.len() == OBJECT_ID_DIGITS && has_only_digits(text)
}

// Whether the text begins with a mark of the wire form.
fn begins_with_mark(text: &str) -> bool
    ensures { result ≡ has_mark text.now }
{
    match text.as_bytes().first() {
        Some(byte) => *byte == b'-' || *byte == b'~' || *byte == b'{',
        None => false,
    }
}

// Whether the id would be taken for something else if it stood as it is.
fn is_taken_otherwise(id: &str) -> bool
    ensures { result ≡ needs_dash id.now }
{
    begins_with_mark(id) || spells_object_id(id)
}

/// The wire form of a document's id: the id, behind a `-` where it would be taken for something else.
pub fn wire_id(alloc: Global, id: &Text) -> Result<Text, Mem>
    ensures { IfOk result (λ wire. wire ≡ wire_of id.now) }
{
    let mut wire = Text::new(alloc);
    if is_taken_otherwise(id.as_str()) {
        wire.push('-')?;
    }
    wire.push_str(id.as_str())?;
    Ok(wire)
}

// The id whose wire form is a `-` and this text.
fn behind_dash(text: &str) -> Option<&str>
    ensures { option_map (λ s. s.now) result ≡ (if needs_dash text.now then Some text.now else None) }
{
    if is_taken_otherwise(text) {
        Some(text)
    } else {
        None
    }
}

// The id whose wire form is this text, where that doesn't begin with a `-`.
fn as_it_stands(text: &str) -> Option<&str>
    ensures { option_map (λ s. s.now) result ≡ (if length text.now == 0 || needs_dash text.now then None else Some text.now) }
{
    if text.is_empty() || is_taken_otherwise(text) {
        None
    } else {
        Some(text)
    }
}

/// The id that has this wire form.
pub(crate) fn without_dash(wire: &str) -> Option<&str>
    ensures { option_map (λ s. s.now) result ≡ own_of wire.now }
{
    match wire.strip_prefix('-') {
        Some(text) => behind_dash(text),
        None => as_it_stands(wire),
    }
}

/// The id that has this wire form, None exactly where there is none.
pub fn own_id(alloc: Global, wire: &Text) -> Result<Option<Text>, Mem>
    ensures found { IfOk result (λ found. IfSome found (λ id. IsWireOf id wire.now)) }
    ensures only { (id : List ℕ) → IsWireOf id wire.now → IfOk result (λ found. found ≡ Some id) }
    ensures exact { IfOk result (λ found. found ≡ own_of wire.now) }
{
    match without_dash(wire.as_str()) {
        Some(id) => Ok(Some(Text::from_str(alloc, id)?)),
        None => Ok(None),
    }
}
