//! The sigils in front of a text.
ghost use Rattle.std.specs.Prelude.{◌≡◌, [], IfOk};
ghost use Rattle.just_lang_rulebook.specs.Sigils.{is_sigil, has, sigils_behind, is_guard_and_infallible};

use std::alloc::{AllocError, Global};

/// Whether a byte is a sigil.
fn is_sigil(byte: u8) -> bool
    ensures { result ≡ is_sigil byte }
{
    byte == b'@' || byte == b'-' || byte == b'?'
}

/// Whether a byte is among some.
fn has(byte: u8, bytes: &[u8]) -> bool
    ensures { result ≡ has byte bytes.now }
{
    'bytes: for other in bytes {
        if *other == byte {
            return true;
        }
    }
    false
}

/// The sigils in front of a text, each once.
fn sigils(alloc: Global, text: &[u8]) -> Result<Vec<u8>, AllocError>
    ensures { IfOk result (λ seen. seen.items ≡ sigils_behind [] text.now) }
{
    let mut seen = Vec::new(alloc);
    'bytes: for byte in text {
        if !is_sigil(*byte) || has(*byte, seen.as_slice()) {
            return Ok(seen);
        }
        seen.push(*byte)?;
    }
    Ok(seen)
}

/// Whether both `?` and `-` are among the sigils in front of a text, each of which counts once.
pub fn is_guard_and_infallible(alloc: Global, text: &[u8]) -> Result<bool, AllocError>
    ensures { IfOk result (λ b. b ≡ is_guard_and_infallible text.now) }
{
    let seen = sigils(alloc, text)?;
    Ok(has(b'?', seen.as_slice()) && has(b'-', seen.as_slice()))
}
