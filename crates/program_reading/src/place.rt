//! Places of the parts of an application.
ghost use Rattle.std.specs.Prelude.{◌≡◌, IfOk};
ghost use Rattle.program_reading.specs.Faults.{below, element};

use ejson_value::{Mem, Text};
use std::alloc::Global;

/// The part with this key of the part at the place.
pub fn below(alloc: Global, place: &str, key: &str) -> Result<Text, Mem>
    ensures { IfOk result (λ t. t ≡ below place.now key.now) }
{
    Text::from_string(format!(in alloc; "{place}/{key}")?)
}

/// The element with this number of the list at the place.
pub fn element(alloc: Global, place: &str, number: usize) -> Result<Text, Mem>
    ensures { IfOk result (λ t. t ≡ element place.now number) }
{
    Text::from_string(format!(in alloc; "{place}/{number}")?)
}
