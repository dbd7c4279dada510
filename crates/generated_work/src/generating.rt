//! Generated work.
ghost use Rattle.std.specs.Prelude.{◌≡◌, ◌<◌, ◌≤◌, ◌^◌, ◌%◌, ◌/◌, ◌+◌, ◌∷◌, ◌++◌, [], suc, map, flat_map, pos, codes, decimal, IfOk, OnOk};
ghost use Rattle.value_model.specs.Val.{int, text, object, fields_of};
ghost use Rattle.ejson_value.specs.View.{view, views};
ghost use Rattle.ejson_codec.specs.Lines.{line_text};
ghost use Rattle.generated_work.specs.Generated.{application, next, drawn, row, word, client_name, counter_name, counter, insert_line, sub_line};
ghost use Rattle.generated_work.specs.Generated.{wait_line, call_line, lines_below, generated, generated_lines, written_line, generated_input};

use ejson_codec::{Lines, text};
use ejson_value::{DocBuilder, Items, ItemsBuilder, Mem, Text, Value, Whole};
use std::alloc::Global;

/// How many calls can be wanted.
pub const MAX_CALLS: u32 = 20000;

// The application of generated work: counters, a method that adds to one, and a publication of them all.
const APPLICATION: &str =
    "{\"collections\":[\"counters\"],\"methods\":{\"inc\":{\"steps\":[[\"update\",\"counters\",{\"_id\":{\"$param\":0}},{\"$inc\":{\"n\":{\"$param\":1}}}]],\"stub\":true}},\"publications\":{\"all\":[{\"collection\":\"counters\"}]}}";

const COUNTERS: u32 = 16;

const CLIENTS: u32 = 8;

// The number that is drawn behind this one.
fn next(x: u32) -> u32
    ensures { result ≡ next x }
{
    ((1664525 * u64::from(x) + 1013904223) % 4294967296) as u32
}

// Puts these letters behind the values.
fn push_word(values: &mut Items, alloc: Global, letters: &str) -> Result<(), Mem>
    ensures { OnOk result (values.new ≡ values.old ++ word letters.now ∷ []) }
{
    values.push(Value::Text(Text::from_str(alloc, letters)?))
}

// Puts the name of a client behind the values.
fn push_client(values: &mut Items, alloc: Global, i: u32) -> Result<(), Mem>
    ensures { OnOk result (values.new ≡ values.old ++ client_name i ∷ []) }
{
    values.push(Value::Text(Text::from_string(format!(in alloc; "g{i}")?)?))
}

fn counter_name(alloc: Global, i: u32) -> Result<Value, Mem>
    ensures { IfOk result (λ value. view value ≡ counter_name i) }
{
    Ok(Value::Text(Text::from_string(format!(in alloc; "c{i}")?)?))
}

fn number(number: u32) -> Value
    ensures { view result ≡ int (pos number) }
{
    match Whole::of(i64::from(number)) {
        Some(number) => Value::Int(number),
        None => unreachable!(),
    }
}

// The document of a counter that nobody has added to.
fn counter(alloc: Global, i: u32) -> Result<Value, Mem>
    ensures { IfOk result (λ value. view value ≡ counter i) }
{
    let mut fields = DocBuilder::new(alloc);
    fields.put(Text::from_str(alloc, "_id")?, counter_name(alloc, i)?)?;
    fields.put(Text::from_str(alloc, "n")?, number(0))?;
    Ok(Value::Object(fields.finish()?))
}

// The operation that inserts a counter.
fn insert(alloc: Global, i: u32) -> Result<Items, Mem>
    ensures { IfOk result (λ op. op ≡ word (codes "insert") ∷ word (codes "counters") ∷ counter i ∷ []) }
{
    let mut operation = Items::new(alloc);
    push_word(&mut operation, alloc, "insert")?;
    push_word(&mut operation, alloc, "counters")?;
    operation.push(counter(alloc, i)?)?;
    Ok(operation)
}

fn insert_line(alloc: Global, i: u32) -> Result<Value, Mem>
    ensures { IfOk result (λ value. view value ≡ insert_line i) }
{
    let mut values = Items::new(alloc);
    push_word(&mut values, alloc, "admin")?;
    values.push(Value::List(insert(alloc, i)?))?;
    Ok(Value::List(values))
}

fn sub_line(alloc: Global, i: u32) -> Result<Value, Mem>
    ensures { IfOk result (λ value. view value ≡ sub_line i) }
{
    let mut values = Items::new(alloc);
    push_client(&mut values, alloc, i)?;
    push_word(&mut values, alloc, "sub")?;
    push_word(&mut values, alloc, "1")?;
    push_word(&mut values, alloc, "all")?;
    values.push(Value::List(Items::new(alloc)))?;
    Ok(Value::List(values))
}

fn wait_line(alloc: Global, i: u32) -> Result<Value, Mem>
    ensures { IfOk result (λ value. view value ≡ wait_line i) }
{
    let mut values = Items::new(alloc);
    push_client(&mut values, alloc, i)?;
    push_word(&mut values, alloc, "wait")?;
    Ok(Value::List(values))
}

// The counter and what is added to it, by what was drawn.
fn addition(alloc: Global, x: u32) -> Result<Items, Mem>
    ensures { IfOk result (λ values. values ≡ counter_name (x / 2 ^ 16 % 16) ∷ int (pos (x / 2 ^ 24 % 9 + 1)) ∷ []) }
{
    let mut values = Items::new(alloc);
    values.push(counter_name(alloc, x / 65536 % COUNTERS)?)?;
    values.push(number(x / 16777216 % 9 + 1))?;
    Ok(values)
}

fn call_line(alloc: Global, i: u32, x: u32) -> Result<Value, Mem>
    ensures { IfOk result (λ value. view value ≡ call_line i x) }
{
    let mut values = Items::new(alloc);
    push_client(&mut values, alloc, i % CLIENTS)?;
    push_word(&mut values, alloc, "call")?;
    push_word(&mut values, alloc, "inc")?;
    values.push(Value::List(addition(alloc, x)?))?;
    Ok(Value::List(values))
}

// Puts the inserts of the counters behind the lines.
fn put_inserts(alloc: Global, lines: &mut ItemsBuilder) -> Result<(), Mem>
    ensures { OnOk result (lines.new ≡ lines.old ++ lines_below (λ i. insert_line i ∷ []) 16) }
{
    for i in 0..COUNTERS {
        lines.push(insert_line(alloc, i)?)?;
    }
    Ok(())
}

// Puts the subscriptions of the clients behind the lines.
fn put_subs(alloc: Global, lines: &mut ItemsBuilder) -> Result<(), Mem>
    ensures { OnOk result (lines.new ≡ lines.old ++ lines_below (λ i. sub_line i ∷ wait_line i ∷ []) 8) }
{
    for i in 0..CLIENTS {
        lines.push(sub_line(alloc, i)?)?;
        lines.push(wait_line(alloc, i)?)?;
    }
    Ok(())
}

// Puts the calls behind the lines.
fn put_calls(alloc: Global, n: u32, calls: u32, lines: &mut ItemsBuilder) -> Result<(), Mem>
    ensures { OnOk result (lines.new ≡ lines.old ++ lines_below (λ i. call_line i (drawn n (suc i)) ∷ []) calls) }
{
    let mut x = n;
    for i in 0..calls {
        x = next(x);
        lines.push(call_line(alloc, i, x)?)?;
    }
    Ok(())
}

/// The lines of a drive of this many calls, drawn from `n`: the inserts of sixteen counters, the subscriptions of eight clients,
/// and calls that add to counters.
pub fn generated(alloc: Global, n: u32, calls: u32) -> Result<Items, Mem>
    ensures { IfOk result (λ lines. lines ≡ generated n calls) }
{
    let mut lines = ItemsBuilder::new(alloc);
    put_inserts(alloc, &mut lines)?;
    put_subs(alloc, &mut lines)?;
    put_calls(alloc, n, calls, &mut lines)?;
    lines.finish()
}

// The texts of the values behind the lines.
fn put_texts(alloc: Global, lines: &mut Lines, values: &[Value]) -> Result<(), Mem>
    ensures { OnOk result (lines.new ≡ lines.old ++ map line_text (views values.now)) }
{
    for value in values {
        lines.push(text(alloc, value)?)?;
    }
    Ok(())
}

/// The input of a drive of this many calls, drawn from `n`: the application of generated work, and the lines of the drive.
pub fn generate(alloc: Global, n: u32, calls: u32) -> Result<Lines, Mem>
    ensures { IfOk result (λ lines. lines ≡ generated_lines n calls) }
{
    let mut lines = Lines::new(alloc);
    lines.push(Text::from_str(alloc, APPLICATION)?)?;
    let values = generated(alloc, n, calls)?;
    put_texts(alloc, &mut lines, values.as_slice())?;
    Ok(lines)
}

// Puts the line behind the bytes, with a line feed behind it.
fn put_line(bytes: &mut Vec<u8>, line: &Text) -> Result<(), Mem>
    ensures { OnOk result (bytes.new.items ≡ bytes.old.items ++ written_line line.now) }
{
    bytes.extend_from_slice(line.as_bytes())?;
    bytes.push(b'\n')?;
    Ok(())
}

// Puts the lines behind the bytes.
fn put_lines(bytes: &mut Vec<u8>, lines: &[Text]) -> Result<(), Mem>
    ensures { OnOk result (bytes.new.items ≡ bytes.old.items ++ flat_map written_line lines.now) }
{
    for line in lines {
        put_line(bytes, line)?;
    }
    Ok(())
}

/// The bytes of that input: each line with a line feed behind it.
pub fn generate_input(alloc: Global, n: u32, calls: u32) -> Result<Vec<u8>, Mem>
    ensures { IfOk result (λ bytes. bytes.items ≡ generated_input n calls) }
{
    let lines = generate(alloc, n, calls)?;
    let mut bytes = Vec::new(alloc);
    put_lines(&mut bytes, lines.as_slice())?;
    Ok(bytes)
}
