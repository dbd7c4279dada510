//! Places of texts.
ghost use Rattle.std.specs.Prelude.{◌≡◌, ◌<◌, ◌≤◌, length, vec_len};

use crate::told::Told;
use ejson_value::Mem;

/// How many places there are.
pub(crate) const PLACES: usize = 1_024;

// An odd number whose bits are spread.
const FACTOR: u64 = 0x517c_c1b7_2722_0a95;

// The number that eight bytes are.
fn word(eight: &[u8]) -> u64
    requires { length eight.now ≡ 8 }
{
    let mut bytes = [0; 8];
    bytes.copy_from_slice(eight);
    u64::from_le_bytes(bytes)
}

/// The place of a text, which others may share. The bytes behind its last whole eight don't count.
pub(crate) fn place_of(text: &[u8]) -> usize
    ensures { result < PLACES }
{
    let mut sum = text.len() as u64;
    for eight in text.chunks_exact(8) {
        sum = (sum.rotate_left(5) ^ word(eight)).wrapping_mul(FACTOR);
    }
    (sum >> 54) as usize
}

/// Makes the places that aren't there yet.
pub(crate) fn make_places(places: &mut Vec<Option<Told>>) -> Result<(), Mem>
    requires { vec_len places.old ≤ PLACES }
    ensures { vec_len places.new ≤ PLACES }
{
    'places: while places.len() < PLACES {
        places.push(None)?;
    }
    Ok(())
}

/// Puts the text at this place, where there is such a place.
pub(crate) fn put(places: &mut Vec<Option<Told>>, place: usize, told: Told)
    ensures { vec_len places.new ≡ vec_len places.old }
{
    if let Some(kept) = places.get_mut(place) {
        *kept = Some(told);
    }
}
