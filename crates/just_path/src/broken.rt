//! Bytes that may not be UTF-8: where they break, and their text with U+FFFD for each broken sequence.
ghost use Rattle.std.specs.Prelude.{◌≡◌, MatchResult, IfErr, IfOk, IsUtf8};
ghost use Rattle.std.specs.Fmt.{WritesOnOk};
ghost use Rattle.std.specs.Str.Lossy.{utf8_lossy};
ghost use Rattle.std.specs.Str.Chunks.{utf8_chunk_valid, utf8_chunk_invalid};
ghost use Rattle.just_path.specs.Utf8.{Breaks, chunk_shown, shown_with};

use std::str::Utf8Chunk;
use std::{fmt, str};

/// Where bytes aren't UTF-8.
#[derive(Clone, Copy, Debug, PartialEq, Eq)]
pub struct Broken {
    /// How many bytes in front are UTF-8.
    pub up_to: usize,
    /// How many bytes the broken sequence behind them has; none where the bytes end inside it.
    pub len: Option<u8>,
}

/// The text of the bytes, or where they break.
pub(crate) fn text_of_bytes(bytes: &[u8]) -> Result<&str, Broken>
    ensures { MatchResult result (λ s. s.now ≡ bytes.now) (λ e. Breaks bytes.now e.up_to e.len) }
{
    match str::from_utf8(bytes) {
        Ok(text) => Ok(text),
        Err(error) => {
            let len = match error.error_len() {
                Some(len) => Some(len as u8),
                None => None,
            };
            Err(Broken {
                up_to: error.valid_up_to(),
                len,
            })
        }
    }
}

/// Writes the text of a chunk, and U+FFFD where a broken sequence is behind it.
fn write_chunk<W: fmt::Write>(chunk: &Utf8Chunk<'_>, f: &mut fmt::Formatter<W>) -> fmt::Result
    ensures { WritesOnOk W.write_str_gives f.old result (chunk_shown (utf8_chunk_valid chunk.now) (utf8_chunk_invalid chunk.now)) f.new }
{
    f.write_str(chunk.valid())?;
    if chunk.invalid().is_empty() {
        return Ok(());
    }
    f.write_str("\u{FFFD}")
}

/// Writes bytes with U+FFFD for each broken sequence.
pub(crate) fn write_lossy<W: fmt::Write>(bytes: &[u8], f: &mut fmt::Formatter<W>) -> fmt::Result
    ensures { WritesOnOk W.write_str_gives f.old result (utf8_lossy bytes.now) f.new }
{
    let mut left = bytes.utf8_chunks();
    while let Some(chunk) = left.next() {
        write_chunk(&chunk, f)?;
    }
    Ok(())
}

/// Writes a text, and behind it bytes with U+FFFD for each broken sequence.
pub(crate) fn write_behind<W: fmt::Write>(
    head: &str,
    bytes: &[u8],
    f: &mut fmt::Formatter<W>,
) -> fmt::Result
    ensures { WritesOnOk W.write_str_gives f.old result (shown_with head.now bytes.now) f.new }
{
    f.write_str(head)?;
    write_lossy(bytes, f)
}
