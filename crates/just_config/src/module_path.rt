//! Module paths in words.
ghost use Rattle.std.specs.Prelude.{ℕ, List, [], ◌∷◌, ◌≡◌, ◌<◌, ◌++◌, length, IfOk, None, MatchOption};
ghost use Rattle.just_config_words.specs.Cuts.{parts};
ghost use Rattle.just_config.specs.ModulePaths.{colon, outer_parts, is_name, has_blank, pieces, in_one_word, in_pieces, components_of, module_path, all_names};

use just_config_words::add_copies;
use just_config_words::cut::cut;
use just_lang_types::is_recipe_name;
use just_path_text::{NoMemory, Seq, Text};
use std::alloc::Global;

/// Whether a whole text is a name.
fn is_name(text: &str) -> bool
    ensures { result ≡ is_name text.now }
{
    is_recipe_name(text)
}

/// Whether each text is a name.
fn all_names(texts: &[Text]) -> bool
    ensures { result ≡ all_names texts.now }
{
    'texts: for text in texts {
        if !is_name(text.as_str()) {
            return false;
        }
    }
    true
}

/// Whether a text holds white space.
fn has_blank(text: &str) -> bool
    ensures { result ≡ has_blank text.now }
{
    'characters: for character in text.chars() {
        if character.is_whitespace() {
            return true;
        }
    }
    false
}

/// What stands behind the second colon of `::`, of which the first one is read.
#[tactic(auto, using(crate::proofs::Joins::alone, crate::proofs::Joins::apart, crate::proofs::Joins::beside))]
fn behind_colon(text: &str) -> Option<&str>
    ensures { MatchOption result ((name : List ℕ) → outer_parts (name ∷ parts colon text.now) ≡ None) (λ x. (parts colon text.now ≡ [] ∷ parts colon x.now) × (length x.now < length text.now)) }
{
    let Some((part, next)) = cut(text, ':') else {
        return None;
    };
    if part.is_empty() { Some(next) } else { None }
}

/// Adds a copy of a name.
fn add_name(alloc: Global, names: &mut Vec<Text>, name: &str) -> Result<(), NoMemory>
    ensures { IfOk result (λ u. names.new.items ≡ names.old.items ++ name.now ∷ []) }
{
    names.push(Text::from_str(alloc, name)?)?;
    Ok(())
}

/// What `::` joins in a word, which has no other colon.
#[tactic(auto, using(crate::proofs::Joins::put_none, crate::proofs::Joins::joined_next, crate::proofs::Joins::joined_end, crate::proofs::Joins::joined_odd))]
fn in_one_word(alloc: Global, word: &str) -> Result<Option<Seq<Text>>, NoMemory>
    ensures { IfOk result (λ r. r ≡ in_one_word word.now) }
{
    let mut names = Vec::new(alloc);
    let mut rest = word;
    'names: while let Some((name, behind)) = cut(rest, ':') {
        let Some(next) = behind_colon(behind) else {
            return Ok(None);
        };
        add_name(alloc, &mut names, name)?;
        rest = next;
    }
    add_name(alloc, &mut names, rest)?;
    Ok(Some(Seq::from(names)))
}

/// What stands between the white space of a text.
fn pieces(alloc: Global, text: &str) -> Result<Vec<Text>, NoMemory>
    ensures { IfOk result (λ v. v.items ≡ pieces text.now) }
{
    let mut pieces = Vec::new(alloc);
    'pieces: for piece in text.split_whitespace() {
        add_name(alloc, &mut pieces, piece)?;
    }
    Ok(pieces)
}

/// Copies of texts.
fn copies(alloc: Global, texts: &[Text]) -> Result<Seq<Text>, NoMemory>
    ensures { IfOk result (λ v. v ≡ texts.now) }
{
    let mut copies = Vec::new(alloc);
    add_copies(&mut copies, texts)?;
    Ok(Seq::from(copies))
}

/// What the pieces of a word are joined of.
fn in_pieces(alloc: Global, pieces: &[Text]) -> Result<Option<Seq<Text>>, NoMemory>
    ensures { IfOk result (λ r. r ≡ in_pieces pieces.now) }
{
    match pieces {
        [] => Ok(Some(Seq::new(alloc))),
        [piece] => in_one_word(alloc, piece.as_str()),
        [_, _, ..] => Ok(Some(copies(alloc, pieces)?)),
    }
}

/// What words are joined of: one word at each `::`, one with white space at that first; several words are each a part.
fn components_of(alloc: Global, words: &[Text]) -> Result<Option<Seq<Text>>, NoMemory>
    ensures { IfOk result (λ r. r ≡ components_of words.now) }
{
    match words {
        [] => Ok(Some(Seq::new(alloc))),
        [word] => {
            if has_blank(word.as_str()) {
                in_pieces(alloc, pieces(alloc, word.as_str())?.as_slice())
            } else {
                in_one_word(alloc, word.as_str())
            }
        }
        [_, _, ..] => Ok(Some(copies(alloc, words)?)),
    }
}

/// The names of a module path: joined by `::` in one word, or one a word; none where a part is no name.
pub fn path_of_words(alloc: Global, words: &[Text]) -> Result<Option<Seq<Text>>, NoMemory>
    ensures { IfOk result (λ r. r ≡ module_path words.now) }
{
    match components_of(alloc, words)? {
        Some(names) => {
            if all_names(names.as_slice()) {
                Ok(Some(names))
            } else {
                Ok(None)
            }
        }
        None => Ok(None),
    }
}
