//! Digests of texts.
ghost use Rattle.std.specs.Prelude.{◌≡◌, IfOk, length, string_bytes};
ghost use Rattle.std.specs.List.{AllPass};
ghost use Rattle.just_cache.specs.Digests.{digest, is_lower_hex};

use just_path_text::NoMemory;
use sha2::{Digest, Sha256};
use std::alloc::Global;

/// The SHA-256 of a text, in hexadecimal digits.
fn digits_of(alloc: Global, text: &str) -> Result<String, NoMemory>
    ensures { IfOk result (λ s. string_bytes s ≡ digest text.now) }
{
    let bytes: [u8; 32] = Sha256::digest(text);
    Ok(hex::encode(alloc, bytes)?)
}

/// The SHA-256 of a text, in 64 hexadecimal digits with lower-case letters.
///
/// ```
/// // of the empty text: `e3b0c44298fc1c149afbf4c8996fb92427ae41e4649b934ca495991b7852b855`
/// ```
pub fn digest(alloc: Global, text: &str) -> Result<String, NoMemory>
    ensures value { IfOk result (λ s. string_bytes s ≡ digest text.now) }
    ensures size { IfOk result (λ s. length (string_bytes s) ≡ 64) }
    ensures digits { IfOk result (λ s. AllPass is_lower_hex (string_bytes s)) }
{
    digits_of(alloc, text)
}
