//! The words of a text.

ghost use Rattle.std.specs.Prelude.{List, ℕ, ◌≡◌, ◌++◌, ◌∷◌, [], IfOk, OnOk, string_bytes};
ghost use Rattle.just_cli_children.specs.Words.{ended, words_from, words_in};

use just_lang_read::characters_of;
use just_path_text::{NoMemory, Seq, Text};
use std::alloc::Global;

/// Adds a word that has ended, where it isn't empty.
#[tactic(auto, using(crate::proofs::WordLaws::ended_none, crate::proofs::WordLaws::ended_some))]
fn end_word(words: &mut Vec<Text>, word: String) -> Result<(), NoMemory>
    ensures { OnOk result (words.new.items ≡ words.old.items ++ ended (string_bytes word) []) }
{
    if word.as_str().is_empty() {
        return Ok(());
    }
    words.push(Text::from(word))?;
    Ok(())
}

/// The word that goes on behind one more character: that word with the character; or, behind white space, by which that one ends, the empty one.
#[tactic(auto, using(crate::proofs::WordLaws::word_ends, crate::proofs::WordLaws::word_goes_on))]
fn goes_on(
    alloc: Global,
    words: &mut Vec<Text>,
    word: String,
    character: char,
) -> Result<String, NoMemory>
    ensures { IfOk result (λ next. (rest : List ℕ)
        → words.new.items ++ words_from (string_bytes next) rest
        ≡ words.old.items ++ words_from (string_bytes word) (character ∷ rest)) }
{
    if character.is_whitespace() {
        end_word(words, word)?;
        return Ok(String::new(alloc));
    }
    let mut longer = word;
    longer.push(character)?;
    Ok(longer)
}

/// The words of a text: what stands between its white space.
pub(crate) fn words_in(alloc: Global, text: &str) -> Result<Seq<Text>, NoMemory>
    ensures { IfOk result (λ ws. ws ≡ words_in text.now) }
{
    let characters = characters_of(alloc, text)?;
    let mut words = Vec::new(alloc);
    let mut word = String::new(alloc);
    'characters: for character in characters.as_slice() {
        word = goes_on(alloc, &mut words, word, *character)?;
    }
    end_word(&mut words, word)?;
    Ok(Seq::from(words))
}
