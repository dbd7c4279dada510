//! The lines of an output.
ghost use Rattle.std.specs.Prelude.{◌≡◌, ◌++◌, ◌∷◌, [], OnOk};
ghost use Rattle.value_model.specs.Val.{list, vals_of};
ghost use Rattle.checking.specs.Input.{line_feed};
ghost use Rattle.checking.specs.Output.{value_bytes, bytes_of, bad, bad_lines};

use ejson_codec::text;
use ejson_value::{Items, Mem, Text, Value, Whole};
use std::alloc::Global;

/// Adds a line with this text. After want of memory a part of it may stand there.
pub fn add_line(output: &mut Vec<u8>, line: &Text) -> Result<(), Mem>
    ensures { OnOk result (output.new.items ≡ output.old.items ++ (line.now ++ line_feed ∷ [])) }
{
    output.extend_from_slice(line.as_bytes())?;
    output.push(b'\n')?;
    Ok(())
}

// Adds the line of the list of these values. It takes them, so that no caller has to drop them.
pub(crate) fn add_list(alloc: Global, output: &mut Vec<u8>, items: Items) -> Result<(), Mem>
    ensures { OnOk result (output.new.items ≡ output.old.items ++ value_bytes (list (vals_of items))) }
{
    let value = Value::List(items);
    let line = text(alloc, &value);
    drop(value);
    add_line(output, &line?)
}

/// Adds the line `["bad",number]`. After want of memory a part of it may stand there.
pub fn add_bad(alloc: Global, output: &mut Vec<u8>, number: u32) -> Result<(), Mem>
    ensures { OnOk result (output.new.items ≡ output.old.items ++ value_bytes (bad number)) }
{
    let Some(number) = Whole::of(i64::from(number)) else {
        unreachable!()
    };
    let mut items = Items::new(alloc);
    items.push(Value::Text(Text::from_str(alloc, "bad")?))?;
    items.push(Value::Int(number))?;
    add_list(alloc, output, items)
}

/// Adds the line that names a bad line, if there is one. After want of memory a part of it may stand there.
pub fn add_bad_line(alloc: Global, output: &mut Vec<u8>, number: Option<u32>) -> Result<(), Mem>
    ensures { OnOk result (output.new.items ≡ output.old.items ++ bytes_of (bad_lines number)) }
{
    match number {
        None => Ok(()),
        Some(number) => add_bad(alloc, output, number),
    }
}
