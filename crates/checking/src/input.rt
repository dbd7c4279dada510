//! The lines of an input.
ghost use Rattle.std.specs.Prelude.{◌≡◌, ◌≢◌, ◌<◌, ◌≤◌, ◌+◌, ◌∷◌, ◌++◌, [], ℕ, length, slice_index, option_map, IfOk};
ghost use Rattle.checking.specs.Input.{line_feed, lines_in, lines_to, is_blank, value_in};
ghost use Rattle.ejson_value.specs.View.{view};

use ejson_codec::{ParseFault, parse_in};
use ejson_value::{Mem, Value};
use json::Scratch;
use memchr::memchr;
use std::alloc::Global;
use std::str;

/// How many bytes an input may have.
pub const INPUT_LIMIT: u64 = 67_108_864;

/// How many lines an input may have.
pub const LINE_LIMIT: usize = 1_048_576;

// The place of the first line feed, the length where there is none.
fn line_end(input: &[u8]) -> usize
    ensures within { result ≤ length input.now }
    ensures before { (k : ℕ) → k < result → slice_index input.now k ≢ line_feed }
    ensures found { result < length input.now → slice_index input.now result ≡ line_feed }
{
    match memchr(b'\n', input) {
        Some(place) => place,
        None => input.len(),
    }
}

/// The first line of the input, without its line feed, and what follows.
pub fn first_line(input: &[u8]) -> (&[u8], &[u8])
    requires { 0 < length input.now }
    ensures lines { lines_in input.now ≡ result.0.now ∷ lines_in result.1.now }
    ensures shorter { length result.1.now < length input.now }
{
    let end = line_end(input);
    if end < input.len() {
        (&input[..end], &input[end + 1..])
    } else {
        (input, &[])
    }
}

/// The lines up to that which has the byte at this place, and what follows.
pub fn split_lines(input: &[u8], place: usize) -> (&[u8], &[u8])
    ensures first { result.0.now ≡ lines_to place input.now }
    ensures whole { result.0.now ++ result.1.now ≡ input.now }
    ensures lines { lines_in input.now ≡ lines_in result.0.now ++ lines_in result.1.now }
{
    if place >= input.len() {
        return (input, &[]);
    }
    let end = place + line_end(&input[place..]);
    if end < input.len() {
        (&input[..end + 1], &input[end + 1..])
    } else {
        (input, &[])
    }
}

/// How many lines the input has.
pub fn count_lines(input: &[u8]) -> usize
    ensures { result ≡ length (lines_in input.now) }
{
    let mut rest = input;
    let mut count = 0;
    while !rest.is_empty() {
        rest = first_line(rest).1;
        count += 1;
    }
    count
}

/// Whether the line has spaces, tabs and carriage returns alone.
pub fn is_blank(line: &[u8]) -> bool
    ensures { result ≡ is_blank line.now }
{
    line.iter()
        .all(|b| *b == b' ' || *b == b'\t' || *b == b'\r')
}

/// The value of a line; none where it is no UTF-8, no JSON (RFC 8259) or no EJSON.
pub fn value_in(alloc: Global, line: &[u8]) -> Result<Option<Value>, Mem>
    ensures { IfOk result (λ v. option_map view v ≡ value_in line.now) }
{
    let mut scratch = Scratch::new(alloc);
    read_value(alloc, line, &mut scratch)
}

/// What `value_in` answers, with this room for reading.
pub fn read_value(alloc: Global, line: &[u8], scratch: &mut Scratch) -> Result<Option<Value>, Mem>
    ensures { IfOk result (λ v. option_map view v ≡ value_in line.now) }
{
    let Ok(text) = str::from_utf8(line) else {
        return Ok(None);
    };
    match parse_in(alloc, text, scratch) {
        Ok(value) => Ok(Some(value)),
        Err(ParseFault::Memory) => Err(Mem),
        Err(_) => Ok(None),
    }
}
