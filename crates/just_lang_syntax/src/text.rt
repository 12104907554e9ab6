//! The texts of characters, and texts without the indentation of their lines.
ghost use Rattle.std.specs.Prelude.{◌≡◌, IfOk, chars, encode_utf8_all, string_bytes};
ghost use Rattle.just_lang_read.specs.Indentation.{unindented};

use just_lang_read::{string_of, unindented};
use just_path_text::{NoMemory, Text};
use std::alloc::{AllocError, Global};

/// A text whose lines lose the longest front of blanks that all lines share which aren't blank. A blank line gives
/// nothing where it is the first or the last, else a line feed. A text that ends in a line feed has no line behind it.
pub fn unindent(alloc: Global, text: &str) -> Result<String, NoMemory>
    ensures { IfOk result (λ t. string_bytes t ≡ encode_utf8_all (unindented (chars text.now))) }
{
    let found = unindented(alloc, text)?;
    Ok(string_of(alloc, found.as_slice())?)
}

/// The text of characters.
pub fn text_of(alloc: Global, characters: &[char]) -> Result<Text, AllocError>
    ensures { IfOk result (λ t. t ≡ encode_utf8_all characters.now) }
{
    let text = string_of(alloc, characters)?;
    Ok(Text::from(text))
}
