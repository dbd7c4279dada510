//! Values read from the tokens of a text, without a tree.
//!
//! So are read null, booleans, whole numbers, texts, lists, and objects that are none of EJSON's forms. All other texts,
//! those with a fault among them, are left to the reader of trees.
ghost use Rattle.std.specs.Prelude.{◌≡◌, ◌==◌, ◌<◌, length, slice_index, IsTrue, true, false, IfOk, IfSome, OnOk};
ghost use Rattle.serde_json.specs.Read.{number_of, number_from};
ghost use Rattle.value_model.specs.Val.{object as object_value, fields_of};
ghost use Rattle.value_model.specs.Doc.{put};
ghost use Rattle.value_model.specs.Size.{is_special, names_of};
ghost use Rattle.ejson_value.specs.View.{view};
ghost use Rattle.ejson_codec.specs.Reading.{max_levels};
ghost use Rattle.ejson_codec.specs.Plain.{NumberRead, ValueRead, ItemsRead, MembersRead, IsValueText};

use crate::fault::PlainFault;
use crate::reading::MAX_LEVELS;
use ejson_value::{Doc, DocBuilder, Items, ItemsBuilder, Mem, Text, Value, Whole};
use fast_float::Numeral;
use json::{Reader, Scratch, Token};
use std::alloc::Global;

// A whole number in range without a sign.
fn unsigned(numeral: &Numeral<'_>) -> Option<Whole>
    ensures { IfSome result (λ z. NumberRead (number_from false numeral.now) z) }
{
    Whole::of(numeral.to_i64(false)?)
}

// A whole number in range behind a minus sign.
fn negative(numeral: &Numeral<'_>) -> Option<Whole>
    ensures { IfSome result (λ z. NumberRead (number_from true numeral.now) z) }
{
    let number = numeral.to_i64(true)?;
    if number == 0 {
        return None;
    }
    Whole::of(number)
}

// Whether a minus sign stands first.
fn has_minus(bytes: &[u8]) -> bool
    ensures value { result ≡ (slice_index bytes.now 0 == 45) }
    ensures some { IsTrue result → 0 < length bytes.now }
{
    !bytes.is_empty() && bytes[0] == b'-'
}

// A whole number in range.
fn whole(text: &str) -> Option<Whole>
    ensures { IfSome result (λ z. NumberRead (number_of text.now) z) }
{
    let bytes = text.as_bytes();
    if has_minus(bytes) {
        negative(&Numeral::scan(&bytes[1..]))
    } else {
        unsigned(&Numeral::scan(bytes))
    }
}

// Puts the value at the key.
fn put_at(alloc: Global, doc: &mut DocBuilder, key: &str, value: Value) -> Result<(), Mem>
    ensures { OnOk result (doc.new ≡ put doc.old key.now (view value)) }
{
    match Text::from_str(alloc, key) {
        Ok(name) => doc.put(name, value),
        Err(fault) => {
            drop(value);
            Err(fault)
        }
    }
}

// The document as a value, if it is none of EJSON's forms.
fn object(doc: Doc) -> Result<Value, PlainFault>
    ensures names { IfOk result (λ v. is_special (names_of (fields_of doc)) ≡ false) }
    ensures value { IfOk result (λ v. view v ≡ object_value (fields_of doc)) }
{
    if doc.has_special_names() {
        return Err(PlainFault::NotPlain);
    }
    Ok(Value::Object(doc))
}

// The value that comes next, with so many levels left.
#[cycle(plain)]
fn value(alloc: Global, levels: u8, reader: &mut Reader<'_>) -> Result<Value, PlainFault>
    ensures read { IfOk result (λ v. ValueRead levels reader.old (view v) reader.new) }
    ensures shorter { OnOk result (length reader.new < length reader.old) }
{
    let Some(token) = reader.next() else {
        return Err(PlainFault::NotPlain);
    };
    match token {
        Token::Null => Ok(Value::Null),
        Token::Bool(truth) => Ok(Value::Bool(truth)),
        Token::Number(text) => match whole(text) {
            Some(whole) => Ok(Value::Int(whole)),
            None => Err(PlainFault::NotPlain),
        },
        Token::String(text) => Ok(Value::Text(Text::from_str(alloc, text)?)),
        Token::BeginArray if levels > 0 => Ok(Value::List(items(alloc, levels - 1, reader)?)),
        Token::BeginObject if levels > 0 => object(fields(alloc, levels - 1, reader)?),
        _ => Err(PlainFault::NotPlain),
    }
}

// The elements of a list, and the bracket behind them.
#[cycle(plain)]
fn items(alloc: Global, levels: u8, reader: &mut Reader<'_>) -> Result<Items, PlainFault>
    ensures read { IfOk result (λ items. ItemsRead levels reader.old items reader.new) }
    ensures shorter { OnOk result (length reader.new < length reader.old) }
{
    let mut items = ItemsBuilder::new(alloc);
    'items: while !reader.take_end_array() {
        items.push(value(alloc, levels, reader)?)?;
    }
    Ok(items.finish()?)
}

// The members of an object, and the brace behind them.
#[cycle(plain)]
fn fields(alloc: Global, levels: u8, reader: &mut Reader<'_>) -> Result<Doc, PlainFault>
    ensures read { IfOk result (λ doc. MembersRead levels reader.old doc reader.new) }
    ensures shorter { OnOk result (length reader.new < length reader.old) }
{
    let mut doc = DocBuilder::new(alloc);
    'fields: while let Some(key) = reader.next_key()? {
        put_at(alloc, &mut doc, key, value(alloc, levels, reader)?)?;
    }
    Ok(doc.finish()?)
}

/// The value that comes next, with all levels left.
pub fn next_value(alloc: Global, reader: &mut Reader<'_>) -> Result<Value, PlainFault>
    ensures read { IfOk result (λ v. ValueRead max_levels reader.old (view v) reader.new) }
    ensures shorter { OnOk result (length reader.new < length reader.old) }
{
    value(alloc, MAX_LEVELS, reader)
}

/// What `parse_plain` reads, with this room for reading.
pub fn parse_plain_in(alloc: Global, text: &str, scratch: &mut Scratch) -> Result<Value, PlainFault>
    ensures { IfOk result (λ v. IsValueText text.now (view v)) }
{
    let Ok(mut reader) = Reader::new(text, scratch) else {
        return Err(PlainFault::Memory);
    };
    let value = value(alloc, MAX_LEVELS, &mut reader)?;
    if reader.next().is_some() {
        return Err(PlainFault::NotPlain);
    }
    Ok(value)
}

/// Reads a text as a value without a tree. `NotPlain` says only that this can't be done.
pub fn parse_plain(alloc: Global, text: &str) -> Result<Value, PlainFault>
    ensures { IfOk result (λ v. IsValueText text.now (view v)) }
{
    let mut scratch = Scratch::new(alloc);
    parse_plain_in(alloc, text, &mut scratch)
}
