//! Bytes that are written in hexadecimal digits.
ghost use Rattle.std.specs.Prelude.{◌<◌, IfSome};

use rows_common::Wrong;
use std::alloc::Global;

/// The value of a hexadecimal digit; none where a byte isn't one.
fn digit(byte: u8) -> Option<u8>
    ensures { IfSome result (λ d. d < 16) }
{
    match byte {
        b'0'..=b'9' => Some(byte - b'0'),
        b'a'..=b'f' => Some(byte - b'a' + 10),
        _ => None,
    }
}

/// The byte of two digits.
fn byte_of(pair: &[u8]) -> Option<u8> {
    let [high, low] = pair else {
        return None;
    };
    let high = digit(*high)?;
    let low = digit(*low)?;
    Some(high * 16 + low)
}

/// The bytes that lower-case hexadecimal digits stand for, two for each. It promises nothing beyond safety.
pub(crate) fn bytes_of_digits(alloc: Global, digits: &str) -> Result<Vec<u8>, Wrong> {
    let mut found = Vec::new(alloc);
    for pair in digits.as_bytes().chunks(2) {
        match byte_of(pair) {
            Some(byte) => found.push(byte)?,
            None => return Err(Wrong::Form),
        }
    }
    Ok(found)
}
