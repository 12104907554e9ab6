//! Hashes: numbers by which paths and places are kept, so that looking one up compares numbers, and texts but once.

ghost use Rattle.std.specs.Prelude.{◌≡◌};
ghost use Rattle.just_eval_closure.specs.Hashes.{with_digit, with_text, with_texts, with_values, path_hash, round_digit, place_hash};

use just_lang_types::{Modulepath, Place, Value};
use just_path_text::Text;

/// A hash with a digit more.
#[tactic(auto, unfolding(crate::specs::Hashes::with_digit))]
fn with_digit(hash: u64, digit: u64) -> u64
    ensures { result ≡ with_digit hash digit }
{
    hash.wrapping_mul(257).wrapping_add(digit)
}

/// A hash with the bytes of a text more, and its end.
fn with_text(hash: u64, text: &Text) -> u64
    ensures { result ≡ with_text hash text.now }
{
    let mut hashed = hash;
    'bytes: for byte in text.as_str().as_bytes() {
        hashed = with_digit(hashed, u64::from(*byte));
    }
    with_digit(hashed, 256)
}

/// A hash with texts more.
fn with_texts(hash: u64, texts: &[Text]) -> u64
    ensures { result ≡ with_texts hash texts.now }
{
    let mut hashed = hash;
    'texts: for text in texts {
        hashed = with_text(hashed, text);
    }
    hashed
}

/// A hash with values more.
fn with_values(hash: u64, values: &[Value]) -> u64
    ensures { result ≡ with_values hash values.now }
{
    let mut hashed = hash;
    'values: for value in values {
        hashed = with_digit(with_texts(hashed, value.elements.as_slice()), 256);
    }
    hashed
}

/// The hash of a path. Those of paths of up to seven bytes differ.
pub(crate) fn path_hash(path: &Modulepath) -> u64
    ensures { result ≡ path_hash path.now }
{
    with_texts(0, path.components.as_slice())
}

/// The digit of a round.
fn round_digit(round: Option<u32>) -> u64
    ensures { result ≡ round_digit round }
{
    match round {
        None => 0,
        Some(number) => u64::from(number) + 1,
    }
}

/// The hash of a place.
pub(crate) fn place_hash(place: &Place) -> u64
    ensures { result ≡ place_hash place.now }
{
    let path = with_texts(
        round_digit(place.round),
        place.key.recipe.components.as_slice(),
    );
    with_values(path, place.key.arguments.as_slice())
}
