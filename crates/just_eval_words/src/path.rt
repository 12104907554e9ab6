//! Paths as texts: names with `::` between them.

ghost use Rattle.std.specs.Prelude.{◌≡◌, ◌++◌, ◌∷◌, ◌<◌, [], IfOk, OnOk, MatchOption, length, string_bytes};
ghost use Rattle.just_eval_words.specs.Paths.{further, joined_path, parts};

use just_path_text::{NoMemory, Text};
use std::alloc::Global;

/// Adds names, each behind `::`.
fn push_further(text: &mut String, names: &[Text]) -> Result<(), NoMemory>
    ensures { OnOk result (string_bytes text.new ≡ string_bytes text.old ++ further names.now) }
{
    'names: for name in names {
        text.push_str("::")?;
        text.push_str(name.as_str())?;
    }
    Ok(())
}

/// Names, and one more behind them, with `::` between them.
#[tactic(auto, using(crate::proofs::Parts::joined_none, crate::proofs::Parts::joined_more))]
pub(crate) fn joined_path(alloc: Global, names: &[Text], last: &str) -> Result<Text, NoMemory>
    ensures { IfOk result (λ t. t ≡ joined_path (names.now ++ last.now ∷ [])) }
{
    let Some((first, others)) = names.split_first() else {
        return Text::from_str(alloc, last);
    };
    let mut text = String::new(alloc);
    text.push_str(first.as_str())?;
    push_further(&mut text, others)?;
    text.push_str("::")?;
    text.push_str(last)?;
    Ok(Text::from(text))
}

/// The first part of a word in front of `::`, and what stands behind that.
pub fn first_part(word: &str) -> Option<(&str, &str)>
    ensures { MatchOption result (parts word.now ≡ word.now ∷ []) (λ x. (parts word.now ≡ x.0.now ∷ parts x.1.now) × (length x.1.now < length word.now)) }
{
    word.split_once("::")
}
