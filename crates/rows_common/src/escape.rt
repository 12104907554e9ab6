//! Escaped bytes and texts.
ghost use Rattle.std.specs.Prelude.{◌<◌, IfSome};

use super::Wrong;
use std::alloc::Global;

/// The value of a hexadecimal digit.
fn digit(byte: u8) -> Option<u8>
    ensures { IfSome result (λ d. d < 16) }
{
    match byte {
        b'0'..=b'9' => Some(byte - b'0'),
        b'A'..=b'F' => Some(byte - b'A' + 10),
        _ => None,
    }
}

/// The byte of two hexadecimal digits.
fn hex(high: Option<&u8>, low: Option<&u8>) -> Option<u8> {
    match (digit(*high?), digit(*low?)) {
        (Some(high), Some(low)) => Some(high * 16 + low),
        _ => None,
    }
}

/// The byte that a byte behind a backslash stands for.
fn escaped(byte: u8) -> Option<u8> {
    match byte {
        b't' => Some(b'\t'),
        b'n' => Some(b'\n'),
        b'\\' => Some(b'\\'),
        _ => None,
    }
}

/// The bytes that a field stands for, where a backslash escapes a byte. It promises nothing beyond safety.
pub fn unescaped(alloc: Global, field: &str) -> Result<Vec<u8>, Wrong> {
    let mut found = Vec::new(alloc);
    let mut bytes = field.as_bytes().iter();
    while let Some(byte) = bytes.next() {
        let meant = match byte {
            b'\\' => match bytes.next() {
                Some(b'x') => hex(bytes.next(), bytes.next()),
                Some(byte) => escaped(*byte),
                None => None,
            },
            _ => Some(*byte),
        };
        match meant {
            Some(byte) => found.push(byte)?,
            None => return Err(Wrong::Form),
        }
    }
    Ok(found)
}

/// The text that a field stands for, where a backslash escapes a byte. It promises nothing beyond safety.
pub fn unescaped_text(alloc: Global, field: &str) -> Result<String, Wrong> {
    match String::from_utf8(unescaped(alloc, field)?) {
        Ok(text) => Ok(text),
        Err(_) => Err(Wrong::Form),
    }
}
