//! The texts in front of body lines.
ghost use Rattle.std.specs.Prelude.{◌≡◌, ◌++◌, OnOk, IfOk, string_bytes};
ghost use Rattle.std.specs.List.{list_any};
ghost use Rattle.just_lang_read.specs.Characters.{is_blank};
ghost use Rattle.just_lang_rulebook.specs.Front.{drop_blanks, ends_in_backslash, goes_on, is_value, is_continued, plain_text, shown, piece, continued, front};

use just_lang_syntax::{Fragment, Line};
use std::alloc::{AllocError, Global};

/// Whether a text ends in `\`.
fn ends_in_backslash(text: &str) -> bool
    ensures { result ≡ ends_in_backslash text.now }
{
    match text.as_bytes().last() {
        None => false,
        Some(last) => *last == b'\\',
    }
}

/// Whether a line ends in `\`, and so goes on with the next.
pub(crate) fn goes_on(fragments: &[Fragment]) -> bool
    ensures { result ≡ goes_on fragments.now }
{
    match fragments.last() {
        Some(Fragment::Text(text)) => ends_in_backslash(text.as_str()),
        Some(Fragment::Value(_)) | None => false,
    }
}

/// Whether a line has a value.
fn has_value(fragments: &[Fragment]) -> bool
    ensures { result ≡ list_any is_value fragments.now }
{
    'fragments: for fragment in fragments {
        if let Fragment::Value(_) = fragment {
            return true;
        }
    }
    false
}

/// Whether the front of a line goes on in the next line: it ends in `\` and has no value.
fn is_continued(fragments: &[Fragment]) -> bool
    ensures { result ≡ is_continued fragments.now }
{
    goes_on(fragments) && !has_value(fragments)
}

/// The text of a line up to its first value.
fn plain_text(alloc: Global, fragments: &[Fragment]) -> Result<String, AllocError>
    ensures { IfOk result (λ t. string_bytes t ≡ plain_text fragments.now) }
{
    let mut text = String::new(alloc);
    'fragments: for fragment in fragments {
        match fragment {
            Fragment::Text(own) => text.push_str(own.as_str())?,
            Fragment::Value(_) => return Ok(text),
        }
    }
    Ok(text)
}

/// The bytes without the last one, where the text goes on.
fn shown(is_continued: bool, bytes: &[u8]) -> &[u8]
    ensures { result.now ≡ shown is_continued bytes.now }
{
    if is_continued {
        let end = bytes.len().saturating_sub(1);
        &bytes[..end]
    } else {
        bytes
    }
}

/// Whether a byte is a space or a tab.
fn is_blank(byte: u8) -> bool
    ensures { result ≡ is_blank byte }
{
    byte == b' ' || byte == b'\t'
}

/// The bytes behind the blanks in front.
#[tactic(auto, using(crate::proofs::Blanks::blank_here, crate::proofs::Blanks::none_here))]
fn drop_blanks(bytes: &[u8]) -> &[u8]
    ensures { result.now ≡ drop_blanks bytes.now }
{
    'bytes: for at in 0..bytes.len() {
        if !is_blank(bytes[at]) {
            return &bytes[at..];
        }
    }
    &[]
}

/// Adds what a line gives.
fn push_piece(alloc: Global, text: &mut Vec<u8>, line: &Line) -> Result<(), AllocError>
    ensures { OnOk result (text.new.items ≡ text.old.items ++ piece line.now) }
{
    let fragments = line.fragments.as_slice();
    let own = plain_text(alloc, fragments)?;
    let bytes = shown(is_continued(fragments), own.as_bytes());
    text.extend_from_slice(bytes)
}

/// Adds what a line gives behind another.
fn push_further(alloc: Global, text: &mut Vec<u8>, line: &Line) -> Result<(), AllocError>
    ensures { OnOk result (text.new.items ≡ text.old.items ++ drop_blanks (piece line.now)) }
{
    let mut own = Vec::new(alloc);
    push_piece(alloc, &mut own, line)?;
    text.extend_from_slice(drop_blanks(own.as_slice()))
}

/// Adds what lines give that continue another.
fn push_continued(alloc: Global, text: &mut Vec<u8>, lines: &[Line]) -> Result<(), AllocError>
    ensures { OnOk result (text.new.items ≡ text.old.items ++ continued lines.now) }
{
    'lines: for line in lines {
        push_further(alloc, text, line)?;
        if !is_continued(line.fragments.as_slice()) {
            return Ok(());
        }
    }
    Ok(())
}

/// The text of the first line, with the lines that continue it, up to its first value.
pub fn front(alloc: Global, lines: &[Line]) -> Result<Vec<u8>, AllocError>
    ensures { IfOk result (λ t. t.items ≡ front lines.now) }
{
    let mut text = Vec::new(alloc);
    match lines {
        [] => {}
        [line, rest @ ..] => {
            push_piece(alloc, &mut text, line)?;
            if is_continued(line.fragments.as_slice()) {
                push_continued(alloc, &mut text, rest)?;
            }
        }
    }
    Ok(text)
}
