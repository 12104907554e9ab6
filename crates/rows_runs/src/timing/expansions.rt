//! One text, expanded many times: what bench/expand times. Every tenth word of the text is `$A`, whose value is `x`. With the count 0 all but
//! the expansions is done, so the difference of two runs is their time alone.

use super::{number, out_of_memory};
use just_expand::env_with_context;
use std::alloc::{AllocError, Global};
use std::borrow::CowStr;
use std::io;

/// Nine words and a name.
const WORDS: &str = "word word word word word word word word word $A ";

/// The ten words as often as they fit into that many bytes.
fn text_of(alloc: Global, size: usize) -> io::Result<String> {
    let mut text = String::with_capacity(alloc, size)?;
    for _ in 0..size / WORDS.len() {
        text.push_str(WORDS)?;
    }
    Ok(text)
}

/// The bytes of the text's expansion.
fn expanded_bytes(alloc: Global, text: &str) -> io::Result<u64> {
    let answer = env_with_context(
        alloc,
        text,
        |_name: &str| -> Result<Option<String>, AllocError> {
            let value = String::from_str(alloc, "x")?;
            Ok(Some(value))
        },
    );
    match answer {
        Ok(CowStr::Borrowed(text)) => Ok(text.len() as u64),
        Ok(CowStr::Owned(text)) => Ok(text.len() as u64),
        Err(_) => Err(out_of_memory()),
    }
}

/// The bytes of so many expansions of a text together.
fn all_expanded_bytes(alloc: Global, text: &str, count: u64) -> io::Result<u64> {
    let mut bytes: u64 = 0;
    for _ in 0..count {
        bytes = bytes.saturating_add(expanded_bytes(alloc, text)?);
    }
    Ok(bytes)
}

/// Expands a text of so many bytes so often, and prints the bytes of the text and of all expansions together.
pub(crate) fn make(rt: &HostRuntime, words: (&str, &str, &str)) -> io::Result<()> {
    let (size, count, _) = words;
    let size = number(size)? as usize;
    let count = number(count)?;
    let text = text_of(rt.alloc(), size)?;
    let bytes = all_expanded_bytes(rt.alloc(), text.as_str(), count)?;
    let length = text.len();
    println!(rt; "{length} bytes, {bytes} bytes expanded")
}
