//! What words give to the parameters of a recipe.

ghost use Rattle.std.specs.Prelude.{◌≡◌, ◌≢◌, ◌≤◌, Ok, Err, IfOk, IfErr, length, drop};
ghost use Rattle.just_lang_types.specs.declared.project.LangError.TheVariants as error;
ghost use Rattle.just_eval_words.specs.Switches.{words_of, all_taken};
ghost use Rattle.just_eval_words.specs.Given.{words_given};

use super::check::check;
use super::given::given_words;
use super::parameter::most_words;
use super::switch::word_taken;
use super::taken::{Next, Taken};
use just_lang_types::Recipe;
use just_lang_types::project::LangError;
use just_path_text::{Seq, Text, TryClone};
use just_print::has_options;
use std::alloc::Global;

/// Takes words for a recipe, as many as it has room for.
#[tactic(auto, using(crate::proofs::Takes::word_more, crate::proofs::Takes::word_left, crate::proofs::Takes::word_refused, crate::proofs::Takes::words_end, crate::proofs::Takes::value_missing))]
fn all_taken(alloc: Global, recipe: &Recipe, words: &[Text]) -> Result<(Taken, usize), LangError>
    ensures count { IfOk result (λ r. r.1 ≤ length words.now) }
    ensures taken { IfOk result (λ r. all_taken recipe.now words.now ≡ Ok (words_of r.0, drop r.1 words.now)) }
    ensures refused { IfErr result (λ e. e ≢ error.NoMemory → all_taken recipe.now words.now ≡ Err e) }
{
    let parameters = recipe.parameters.as_slice();
    let most = most_words(parameters);
    let mut taken = Taken::new(alloc);
    let mut next = Next::Word(!has_options(parameters));
    'words: for at in 0..words.len() {
        match word_taken(alloc, recipe, most, &mut taken, next, words[at].as_str())? {
            None => return Ok((taken, at)),
            Some(following) => next = following,
        }
    }
    match next {
        Next::Word(_) => Ok((taken, words.len())),
        Next::Value(switch, _, _) => Err(LangError::OptionMissingValue {
            recipe: recipe.name.try_clone()?,
            switch,
        }),
    }
}

/// What each parameter of a recipe is given of the words behind its path, and how many words that takes.
///
/// A recipe takes positional words as long as it has parameters for them. One with options takes switches too, up to `--`:
/// `--name`, `--name=value`, and the letters of `-abc`. The first word is refused that can't be taken so; and behind all words the
/// first of these: too few positional words, an option without a default that isn't given, fewer values than a parameter takes or more,
/// a value that no pattern of its parameter matches.
#[tactic(auto, using(crate::proofs::Takes::given_refused, crate::proofs::Takes::given_tested, crate::proofs::Takes::given_taken))]
pub fn words_given(
    alloc: Global,
    recipe: &Recipe,
    words: &[Text],
) -> Result<(Vec<Seq<Text>>, usize), LangError>
    ensures count { IfOk result (λ r. r.1 ≤ length words.now) }
    ensures given { IfOk result (λ r. words_given recipe.now words.now ≡ Ok (r.0.items, drop r.1 words.now)) }
    ensures refused { IfErr result (λ e. e ≢ error.NoMemory → words_given recipe.now words.now ≡ Err e) }
{
    let (taken, count) = all_taken(alloc, recipe, words)?;
    let given = given_words(alloc, recipe.parameters.as_slice(), &taken)?;
    check(alloc, recipe, taken.positional.len(), given.as_slice())?;
    Ok((given, count))
}
