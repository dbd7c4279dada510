//! Numbers in decimal digits.
ghost use Rattle.std.specs.Prelude.{◌≡◌, ◌<◌, ◌≤◌, ◌^◌, ◌==◌, ◌||◌, ◌&&◌, not, length, nat_lt, slice_index, if◌then◌else◌, Some, None, IfSome};
ghost use Rattle.std.specs.Str.{all_ascii_digits};
ghost use Rattle.std.specs.Str.Parse.{digits_value};
ghost use Rattle.value_model.specs.Branches.{has_plain_digits};
ghost use Rattle.command_words.specs.Number.{is_between, number_in};

fn has_only_digits(word: &str) -> bool
    ensures { result ≡ all_ascii_digits word.now }
{
    word.as_bytes().iter().all(|b| b.is_ascii_digit())
}

fn has_no_leading_zero(digits: &[u8]) -> bool
    requires { 0 < length digits.now }
    ensures { result ≡ (length digits.now == 1 || not (slice_index digits.now 0 == 48)) }
{
    digits.len() == 1 || digits[0] != b'0'
}

// Whether the word has digits alone and no leading zero.
fn has_plain_digits(word: &str) -> bool
    ensures { result ≡ has_plain_digits word.now }
{
    !word.is_empty() && has_only_digits(word) && has_no_leading_zero(word.as_bytes())
}

// The number of the word, where it tells one below 2^32.
fn number_of(word: &str) -> Option<u32>
    ensures { result ≡ (if has_plain_digits word.now && nat_lt (digits_value 10 word.now) (2 ^ 32) then Some (digits_value 10 word.now) else None) }
{
    if has_plain_digits(word) {
        word.parse().ok()
    } else {
        None
    }
}

/// The number that the word tells: `0`, or decimal digits without a leading zero or a sign. None where it tells none,
/// or one that isn't within these bounds.
pub fn number_in(least: u32, most: u32, word: &str) -> Option<u32>
    ensures number { result ≡ number_in least most word.now }
    ensures within { IfSome result (λ n. (least ≤ n) × (n ≤ most)) }
{
    number_of(word).filter(|n| least <= *n && *n <= most)
}
