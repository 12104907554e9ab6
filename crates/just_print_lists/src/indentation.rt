//! What stands before the lines of bodies.
ghost use Rattle.std.specs.Prelude.{◌≡◌, IfOk};
ghost use Rattle.std.specs.Option.{option_and_then, option_copied};
ghost use Rattle.just_print_lists.specs.Indentations.{some_blanks, indentation_of, chosen_indentation};

use super::texts::push_blanks;
use just_lang_read::decimal;
use just_path_text::{NoMemory, Text};
use std::alloc::Global;

/// So many blanks, from 1 to 16.
fn some_blanks(alloc: Global, count: u64) -> Result<Option<Text>, NoMemory>
    ensures { IfOk result (λ t. t ≡ some_blanks count) }
{
    if count < 1 || count > 16 {
        return Ok(None);
    }
    let mut text = String::new(alloc);
    push_blanks(&mut text, count as usize)?;
    Ok(Some(Text::from(text)))
}

/// The text that a word stands for: `tab`, or blanks by their number.
fn indentation_of(alloc: Global, word: &str) -> Result<Option<Text>, NoMemory>
    ensures { IfOk result (λ t. t ≡ indentation_of word.now) }
{
    if word == "tab" {
        return Ok(Some(Text::from_str(alloc, "\t")?));
    }
    match decimal(word) {
        None => Ok(None),
        Some(count) => some_blanks(alloc, count),
    }
}

/// The text that a word stands for, where there is one.
fn indentation_in(alloc: Global, word: Option<&str>) -> Result<Option<Text>, NoMemory>
    ensures { IfOk result (λ t. t ≡ option_and_then indentation_of (option_copied word.entry)) }
{
    match word {
        None => Ok(None),
        Some(word) => indentation_of(alloc, word),
    }
}

/// What stands before the lines of bodies: the text of the word that is given, else of the one that is set, else four blanks. A word that
/// stands for none counts as not there.
pub fn chosen_indentation(
    alloc: Global,
    given: Option<&str>,
    set: Option<&str>,
) -> Result<Text, NoMemory>
    ensures { IfOk result
        (λ t. t ≡ chosen_indentation (option_copied given.entry) (option_copied set.entry)) }
{
    if let Some(text) = indentation_in(alloc, given)? {
        return Ok(text);
    }
    if let Some(text) = indentation_in(alloc, set)? {
        return Ok(text);
    }
    Text::from_str(alloc, "    ")
}
