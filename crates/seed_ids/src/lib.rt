//! Ids of documents, drawn from a seed: who has the seed draws the same ids.
#![tactic(auto)]

ghost use Rattle.std.specs.Prelude.{◌≡◌, ◌<◌, IfOk};
ghost use Rattle.seed_ids.specs.DrawnId.{drawing_key, letter_of, drawn_id};

use ejson_value::{Mem, Text};
use rand_chacha::ChaCha20Rng;
use rand_core::SeedableRng;
use rand_core::utils::NextWord;
use sha2::{Digest, Sha256};
use std::alloc::Global;

const ALPHABET: [u8; 55] = *b"23456789ABCDEFGHJKLMNPQRSTWXYZabcdefghijkmnopqrstuvwxyz";

const ID_LENGTH: u32 = 17;

/// The id with number `n`, counted from 0, that `seed` draws for `collection`: 17 letters. It goes
/// straight to the id's place in the key stream, so its time does not grow with `n`.
pub fn draw(alloc: Global, seed: &Text, collection: &Text, n: u32) -> Result<Text, Mem>
    requires { n < 4096 }
    ensures { IfOk result (λ id. id ≡ drawn_id seed.now collection.now n) }
{
    let mut words = ChaCha20Rng::from_seed(key_bytes(seed, collection));
    words.set_word_pos(u128::from(ID_LENGTH * n));
    let mut id = String::with_capacity(alloc, ID_LENGTH as usize)?;
    for _ in 0..ID_LENGTH {
        id.push(letter(words.next_word()))?;
    }
    Text::from_string(id)
}

fn key_bytes(seed: &Text, collection: &Text) -> [u8; 32]
    ensures { result ≡ drawing_key seed.now collection.now }
{
    let mut hasher = Sha256::new();
    hasher.update(seed.as_bytes());
    hasher.update([0]);
    hasher.update(collection.as_bytes());
    hasher.finalize()
}

fn letter(word: u32) -> char
    ensures { result ≡ letter_of word }
{
    let place = (u64::from(word) * 55) >> 32;
    char::from(ALPHABET[place as usize])
}
