//! Texts that are cut at a character.
ghost use Rattle.std.specs.Prelude.{◌≡◌, ◌<◌, IfOk, ◌++◌, ◌∷◌, [], true, false, length, MatchOption};
ghost use Rattle.just_config_words.specs.Cuts.{holds, before_first, behind_first, parts};

pub use just_lang_read::strip;
use just_path_text::{NoMemory, Text};
use std::alloc::Global;

/// What stands before the first one of the character, and behind it.
pub fn cut(text: &str, sign: char) -> Option<(&str, &str)>
    requires { sign < 128 }
    ensures { MatchOption result ((holds sign text.now ≡ false) × (before_first sign text.now ≡ text.now) × (parts sign text.now ≡ text.now ∷ [])) (λ x. (holds sign text.now ≡ true) × (before_first sign text.now ≡ x.0.now) × (behind_first sign text.now ≡ x.1.now) × (parts sign text.now ≡ x.0.now ∷ parts sign x.1.now) × (length x.1.now < length text.now)) }
{
    text.split_once(sign)
}

/// Adds a copy of a text.
pub(crate) fn add_text(alloc: Global, texts: &mut Vec<Text>, text: &str) -> Result<(), NoMemory>
    ensures { IfOk result (λ u. texts.new.items ≡ texts.old.items ++ text.now ∷ []) }
{
    texts.push(Text::from_str(alloc, text)?)?;
    Ok(())
}

/// Adds what stands between those characters of a text.
pub fn add_parts(
    alloc: Global,
    texts: &mut Vec<Text>,
    text: &str,
    sign: char,
) -> Result<(), NoMemory>
    requires { sign < 128 }
    ensures { IfOk result (λ u. texts.new.items ≡ texts.old.items ++ parts sign text.now) }
{
    let mut rest = text;
    'parts: while let Some((part, behind)) = cut(rest, sign) {
        add_text(alloc, texts, part)?;
        rest = behind;
    }
    add_text(alloc, texts, rest)?;
    Ok(())
}
