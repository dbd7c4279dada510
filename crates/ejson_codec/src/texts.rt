//! Reading and writing texts.
ghost use Rattle.std.specs.Prelude.{◌≡◌, ◌≤◌, Ok, Some, IfOk, length};
ghost use Rattle.serde_json.specs.Data.{Data};
ghost use Rattle.serde_json.specs.Read as json;
ghost use Rattle.serde_json.specs.Written.{compact_text};
ghost use Rattle.value_model.specs.Depth.{depth};
ghost use Rattle.value_model.specs.Size.{size};
ghost use Rattle.ejson_value.specs.View.{view};
ghost use Rattle.ejson_codec.specs.Reads.{Reads};
ghost use Rattle.ejson_codec.specs.Reading.{max_levels, parsed, GivesParse};
ghost use Rattle.ejson_codec.specs.Trees.{HasRisingKeys};
ghost use Rattle.ejson_codec.specs.Written.{written};

use crate::fault::{ParseFault, PlainFault};
use crate::plain::parse_plain_in;
use crate::reading::read;
use crate::text_writer::TextWriter;
use crate::token_writing::put_value;
use ejson_value::{Mem, Text, Value};
use json::Scratch;
use serde_json::Value as Json;
use std::alloc::Global;

/// Reads a text as a value.
pub fn parse(alloc: Global, text: &Text) -> Result<Value, ParseFault>
    ensures found { IfOk result (λ v. (d : Data) × (json.read text.now ≡ Some d) × Reads d (view v) × (depth (view v) ≤ max_levels)) }
    ensures exact { GivesParse view result (parsed text.now) }
{
    let mut scratch = Scratch::new(alloc);
    parse_in(alloc, text.as_str(), &mut scratch)
}

/// What `parse` reads, with this room for reading.
pub fn parse_in(alloc: Global, text: &str, scratch: &mut Scratch) -> Result<Value, ParseFault>
    ensures found { IfOk result (λ v. (d : Data) × (json.read text.now ≡ Some d) × Reads d (view v) × (depth (view v) ≤ max_levels)) }
    ensures exact { GivesParse view result (parsed text.now) }
{
    match parse_plain_in(alloc, text, scratch) {
        Ok(value) => Ok(value),
        Err(PlainFault::NotPlain) => parse_tree(alloc, text),
        Err(PlainFault::Memory) => Err(ParseFault::Memory),
    }
}

// Reads a text as a value by its tree.
fn parse_tree(alloc: Global, text: &str) -> Result<Value, ParseFault>
    ensures found { IfOk result (λ v. (d : Data) × (json.read text.now ≡ Some d) × Reads d (view v) × (depth (view v) ≤ max_levels)) }
    ensures exact { GivesParse view result (parsed text.now) }
{
    match Json::from_str(alloc, text) {
        Ok(tree) => Ok(read(alloc, &tree)?),
        Err(error) if error.is_memory() => Err(ParseFault::Memory),
        Err(_) => Err(ParseFault::NotJson),
    }
}

/// Writes a value as compact text, with the keys of its objects in byte order.
pub fn text(alloc: Global, value: &Value) -> Result<Text, Mem>
    ensures exact { IfOk result (λ text. text ≡ compact_text (written (view value.now))) }
    ensures keys { HasRisingKeys (written (view value.now)) }
    ensures size { IfOk result (λ text. length text ≡ size (view value.now)) }
    ensures reads_back { IfOk result (λ text. depth (view value.now) ≤ max_levels → parsed text ≡ Ok (view value.now)) }
{
    value.known();
    let mut out = TextWriter::new(alloc)?;
    put_value(alloc, &mut out, value)?;
    out.finish()
}
